//! What the programs of a planned image need that it would not have.
ghost use Rattle.std.specs.Prelude.{◌<◌, ◌^◌, IfOk, IfSome};
ghost use Rattle.image_check.specs.Any.{any_view};
ghost use Rattle.lookups.specs.Inner.{inner};
ghost use Rattle.rom_tree.specs.Tree.{IsShallow};

use crate::in_place::{MOST, Unknown, may_be_program};
use crate::origin::Origin;
use crate::several::Several;
use crate::words::Words;
use build_commands::needed::unmet;
use image_build::{BuildError, build_cramfs, build_cramfs_big, build_romfs};
use image_check::{AnyImage, CheckError, check};
use lookups::Indexed;
use manifest::{Line, Word};
use manifest_layout::Format;
use program_report::{Effort, FileNeeds};
use rom_fields::Contents;
use rom_tree::Limits;
use sentences::words::shown;
use std::alloc::{AllocError, Global};
use system_files::{Stamp, program_in};

/// The bits of a mode by which someone may execute a file.
const EXECUTABLE: u32 = 0o111;

/// What is said of a program that is not looked at.
const UNREAD_NEEDS: &str = "to look for what it and the programs after it need would take too long";

/// How many needs are named one by one.
const MOST_NAMED: u64 = 20;

/// A program of a manifest's line that needs a file, or that is not looked at.
#[derive(Drop)]
pub struct Unmet {
    pub line: u64,
    /// The path of the program.
    pub path: Vec<u8>,
    /// The interpreter or the library, or `None` if to look at the program takes too much work.
    pub name: Option<Vec<u8>>,
}

impl Unmet {
    /// Returns what the program of a line needs.
    fn of(alloc: Global, line: &Line, name: Option<Vec<u8>>) -> Result<Unmet, AllocError> {
        Ok(Unmet {
            line: line.number,
            path: line.path.as_bytes().to_vec(alloc)?,
            name,
        })
    }
}

/// An image with the names and the links of a manifest, and empty files, if there is one.
#[inline(never)]
fn names_in(alloc: Global, format: Format, origin: Origin<'_>) -> Result<Option<Vec<u8>>, Unknown> {
    let mut contents = Contents::new(alloc);
    for _ in 0..origin.count() {
        contents.add(&[])?;
    }
    let built = match format {
        Format::Romfs => build_romfs(alloc, origin.text, &contents),
        Format::Cramfs => build_cramfs(alloc, origin.text, &contents),
        Format::CramfsBig => build_cramfs_big(alloc, origin.text, &contents),
    };
    match built {
        Ok(image) => Ok(Some(image)),
        Err(BuildError::OutOfMemory) => Err(Unknown::Memory),
        Err(_) => Ok(None),
    }
}

/// The image of these bytes, if they are a valid one.
#[inline(never)]
fn image_of(alloc: Global, bytes: &[u8]) -> Result<Option<AnyImage<'_>>, Unknown>
    ensures { IfOk result (λ o. IfSome o (λ v. IsShallow (any_view v).tree)) }
{
    match check(alloc, bytes, Limits::usual()) {
        Ok(image) => Ok(Some(image)),
        Err(CheckError::OutOfMemory) => Err(Unknown::Memory),
        Err(CheckError::Fault { .. }) => Ok(None),
    }
}

/// Adds what the program of a line needs.
fn add_all(
    alloc: Global,
    line: &Line,
    names: &[&[u8]],
    all: &mut Vec<Unmet>,
) -> Result<(), Unknown> {
    for name in names {
        let name = name.to_vec(alloc)?;
        all.push(Unmet::of(alloc, line, Some(name))?)?;
    }
    Ok(())
}

/// Programs that are looked at, over an image of their names.
#[derive(Drop)]
struct Search<'a> {
    image: Indexed<'a, AnyImage<'a>>,
    effort: Effort,
    unmet: Vec<Unmet>,
}

impl Search<'_> {
    /// Adds what the program of a line, which has these bytes, needs and the image does not have.
    /// Returns whether others may still be looked at.
    fn add(&mut self, alloc: Global, line: &Line, bytes: &[u8]) -> Result<bool, Unknown>
        requires { IsShallow (any_view (inner self.old.image)).tree }
        ensures { IsShallow (any_view (inner self.new.image)).tree }
    {
        let needs = FileNeeds::of(line.mode & EXECUTABLE != 0, bytes);
        let size = u32::try_from(bytes.len()).unwrap_or(u32::MAX);
        if !self.effort.take(&needs, size) {
            self.unmet.push(Unmet::of(alloc, line, None)?)?;
            return Ok(false);
        }
        let names = unmet(alloc, &mut self.image, &needs)?;
        add_all(alloc, line, &names, &mut self.unmet)?;
        Ok(true)
    }

    /// Adds what the program of a line, whose source has this number, name and state, needs and the
    /// image does not have. Returns whether others may still be looked at.
    #[inline(never)]
    fn look_at(
        &mut self,
        rt: &HostRuntime,
        line: &Line,
        source: (usize, &str, &Stamp),
    ) -> Result<bool, Unknown>
        requires { IsShallow (any_view (inner self.old.image)).tree }
        ensures { IsShallow (any_view (inner self.new.image)).tree }
    {
        let (number, name, stamp) = source;
        match program_in(rt, name, stamp, MOST) {
            Ok(Some(bytes)) => self.add(rt.alloc(), line, &bytes),
            Ok(None) => Ok(true),
            Err(e) if e.is_memory() => Err(Unknown::Memory),
            Err(e) => Err(Unknown::Source(number, e)),
        }
    }
}

/// Returns how many bytes an image and its sources have, at most 2^62.
fn size_of(image: &[u8], stamps: &[Stamp]) -> u64
    ensures { result < 2 ^ 63 }
{
    let mut size = image.len() as u64;
    for stamp in stamps {
        size = size.saturating_add(stamp.len);
    }
    size.min(1 << 62)
}

/// Returns what the programs of a manifest need that its image would not have, in the order of the
/// lines. The sources have these names and states. If a scan noted which of them are programs, only
/// these are opened.
pub fn unmet_in(
    rt: &HostRuntime,
    format: Format,
    origin: Origin<'_>,
    names: &[&str],
    stamps: &[Stamp],
) -> Result<Vec<Unmet>, Unknown> {
    let (alloc, unmet) = (rt.alloc(), Vec::new(rt.alloc()));
    let Some(bytes) = names_in(alloc, format, origin)? else {
        return Ok(unmet);
    };
    let Some(image) = image_of(alloc, &bytes)? else {
        return Ok(unmet);
    };
    let effort = Effort::of(&image, size_of(&bytes, stamps));
    let image = Indexed::new(alloc, image);
    let mut search = Search {
        image,
        effort,
        unmet,
    };
    let lines = origin.manifest.lines();
    let files = lines.iter().filter(|line| matches!(line.word, Word::File));
    for (number, (line, (name, stamp))) in files.zip(names.iter().zip(stamps)).enumerate() {
        if may_be_program(origin.states(), name)
            && !search.look_at(rt, line, (number, name, stamp))?
        {
            break;
        }
    }
    Ok(search.unmet)
}

/// Returns what is said of a program.
fn text_of(alloc: Global, unmet: &Unmet, word: &str) -> Result<String, AllocError> {
    match &unmet.name {
        Some(name) => {
            let name = shown(alloc, name)?;
            format!(in alloc; "{word}needs {name}, which is not found in the image")
        }
        None => format!(in alloc; "{word}{UNREAD_NEEDS}"),
    }
}

/// Adds what one program needs, after a word.
fn add_words(
    words: &mut Words,
    origin: Origin<'_>,
    unmet: &Unmet,
    word: &str,
) -> Result<(), AllocError> {
    let alloc = words.alloc();
    let what = text_of(alloc, unmet, word)?;
    if origin.scanned.is_some() {
        // the manifest of a scan is in no file
        words.add(&unmet.path, &what);
    } else {
        let place = format!(in alloc; "{}:{}", origin.name, unmet.line)?;
        words.add(place.as_bytes(), &what);
    }
    Ok(())
}

/// Adds what programs need, each after a word: some of it one by one, and then how much more.
pub fn explain(words: &mut Words, origin: Origin<'_>, all: &[Unmet], word: &str) {
    let mut several = Several::new(MOST_NAMED);
    for unmet in all {
        if several.says() {
            let _ = add_words(words, origin, unmet, word);
        }
    }
    if let Some(more) = several.more()
        && let Ok(what) = format!(in words.alloc(); "{word}{more} more needs are not met")
    {
        words.add(origin.name.as_bytes(), &what);
    }
}
