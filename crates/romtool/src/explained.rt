//! What a build says in words for people: why a manifest is refused, and warnings.
ghost use Rattle.std.specs.Prelude.{◌≡◌, length};
ghost use Rattle.manifest.specs.Lines.{sources_of};

use crate::origin::Origin;
use crate::several::Several;
use crate::words::Words;
use layout_plan::misfits;
use manifest::bad_lines;
use manifest_layout::Format;
use sentences::{manifest_line, manifest_sentence, misfit_sentence, plan_line};
use std::alloc::AllocError;
use std::fmt::Display;
use system_files::{Others, Target, part_path};

/// The most lines that are bad or do not fit of which each is explained, beside the first.
const MOST_SAID: u64 = 19;

/// Adds what is said of a line of a manifest. Line 0 is the whole.
fn of_line<W: Display>(
    words: &mut Words,
    manifest: &str,
    line: u64,
    what: &W,
) -> Result<(), AllocError> {
    let alloc = words.alloc();
    let place = if line == 0 {
        String::from_str(alloc, manifest)?
    } else {
        format!(in alloc; "{manifest}:{line}")?
    };
    words.add(place.as_bytes(), what);
    Ok(())
}

/// Adds which fault a line of a text has, for which the text is no manifest.
pub fn bad_manifest(words: &mut Words, manifest: &str, text: &[u8], line: u64, number: u32) {
    if words.are_asked() {
        let _ = try_bad_manifest(words, manifest, text, line, number);
    }
}

fn try_bad_manifest(
    words: &mut Words,
    manifest: &str,
    text: &[u8],
    line: u64,
    number: u32,
) -> Result<(), AllocError> {
    let alloc = words.alloc();
    let (name, sentence) = (manifest::name(number), manifest_sentence(number));
    let seen = manifest_line::seen(alloc, text, line, number)?;
    let what = format!(in alloc; "{name} ({number}): {sentence}: {seen}")?;
    of_line(words, manifest, line, &what)
}

/// Adds which lines of a text are bad after the first one: some of them one by one, and then how
/// many more. A bad line counts as one that makes its path.
pub fn other_bad_lines(words: &mut Words, manifest: &str, text: &[u8]) {
    if words.are_asked() {
        let _ = try_other_bad_lines(words, manifest, text);
    }
}

fn try_other_bad_lines(words: &mut Words, manifest: &str, text: &[u8]) -> Result<(), AllocError> {
    let alloc = words.alloc();
    let Ok(all) = bad_lines(alloc, text) else {
        return Err(AllocError);
    };
    let mut several = Several::new(MOST_SAID);
    for other in all.iter().skip(1) {
        if several.says() {
            try_bad_manifest(words, manifest, text, other.line, other.number)?;
        }
    }
    if let Some(more) = several.more() {
        let what = format!(in alloc; "{more} more lines are bad")?;
        words.add(manifest.as_bytes(), &what);
    }
    Ok(())
}

/// Adds why a line of a text is refused.
pub fn bad_line(words: &mut Words, manifest: &str, line: u64, reason: &'static str) {
    if words.are_asked() {
        let _ = of_line(words, manifest, line, &reason);
    }
}

/// Adds what does not fit a format in a manifest.
pub fn misfit(
    words: &mut Words,
    format: Format,
    origin: Origin<'_>,
    sizes: &[u64],
    misfit: (u64, u32),
) {
    if words.are_asked() {
        let _ = try_misfit(words, format, origin, sizes, misfit);
    }
}

fn try_misfit(
    words: &mut Words,
    format: Format,
    origin: Origin<'_>,
    sizes: &[u64],
    misfit: (u64, u32),
) -> Result<(), AllocError> {
    let alloc = words.alloc();
    let (line, number) = misfit;
    let (name, sentence) = (layout_plan::name(number), misfit_sentence(number));
    let seen = plan_line::seen(alloc, format, origin.manifest, sizes, misfit)?;
    let what = format!(in alloc; "{name} ({number}): {sentence}: {seen}")?;
    of_line(words, origin.name, line, &what)
}

/// Adds which lines do not fit a format after the first one: some of them one by one, and then how
/// many more.
pub fn other_misfits(
    words: &mut Words,
    format: Format,
    origin: Origin<'_>,
    sizes: &[u64],
    first: u64,
)
    requires { length sizes.now ≡ length (sources_of origin.manifest.now.lines) }
{
    if words.are_asked() {
        let _ = try_other_misfits(words, format, origin, sizes, first);
    }
}

fn try_other_misfits(
    words: &mut Words,
    format: Format,
    origin: Origin<'_>,
    sizes: &[u64],
    first: u64,
) -> Result<(), AllocError>
    requires { length sizes.now ≡ length (sources_of origin.manifest.now.lines) }
{
    let alloc = words.alloc();
    let Ok(all) = misfits(alloc, origin.manifest, sizes, format) else {
        return Err(AllocError);
    };
    let mut several = Several::new(MOST_SAID);
    for other in all.iter().filter(|other| other.line > first) {
        if several.says() {
            try_misfit(words, format, origin, sizes, (other.line, other.number))?;
        }
    }
    if let Some(more) = several.more() {
        let what = format!(in alloc; "{more} more do not fit")?;
        words.add(origin.name.as_bytes(), &what);
    }
    Ok(())
}

/// Adds a warning of lines that end in a carriage return, which is part of their last field.
pub fn returns(words: &mut Words, manifest: &str, text: &[u8]) {
    if words.are_asked() {
        let _ = try_returns(words, manifest, text);
    }
}

fn try_returns(words: &mut Words, manifest: &str, text: &[u8]) -> Result<(), AllocError> {
    let Some((first, count)) = manifest_line::returns_of(text) else {
        return Ok(());
    };
    let what = format!(in words.alloc();
        "warning: lines that end in a carriage return, which is part of their last word: {count}"
    )?;
    of_line(words, manifest, first, &what)
}

/// Adds which parts of other builds are beside the image, and which were removed.
pub fn parts(words: &mut Words, target: &Target) {
    if words.are_asked() {
        let _ = try_parts(words, target);
    }
}

fn try_parts(words: &mut Words, target: &Target) -> Result<(), AllocError> {
    let Some((whole, Others { removed, kept })) = target.others() else {
        return Ok(());
    };
    let alloc = words.alloc();
    let place = part_path(alloc, whole, 0)?;
    if removed > 0 {
        let what = format!(in alloc; "removed parts of interrupted builds: {removed}")?;
        words.add(place.as_bytes(), &what);
    }
    if kept > 0 {
        let what = format!(in alloc; "warning: parts of running or interrupted builds: {kept}")?;
        words.add(place.as_bytes(), &what);
    }
    Ok(())
}
