//! The table of what an image has in it, for people.
use crate::asked::Asked;
use crate::building::Built;
use crate::reporter::Reporter;
use crate::several::Several;
use crate::warned::reason_sentence;
use build_commands::most_bytes;
use build_commands::programs::{Programs, Unplaced};
use manifest::{Line, Manifest, Word};
use manifest_layout::{Body, Plan};
use sentences::words::{escaped, shown};
use std::alloc::{AllocError, Global};

/// How many of the largest files, and of the programs that are not in place, are named.
const LARGEST: usize = 5;

/// How many lines of each kind a manifest has.
#[derive(Clone, Copy, Default)]
struct Counts {
    files: u64,
    directories: u64,
    links: u64,
    devices: u64,
    further_names: u64,
    others: u64,
}

impl Counts {
    /// Counts a line.
    fn add(&mut self, word: Word) {
        let count = match word {
            Word::File | Word::Same => &mut self.files,
            Word::Dir => &mut self.directories,
            Word::Slink => &mut self.links,
            Word::Block | Word::Character => &mut self.devices,
            Word::Hard => &mut self.further_names,
            Word::Fifo | Word::Socket => &mut self.others,
        };
        *count = count.saturating_add(1);
    }

    /// Counts all lines of a manifest.
    fn of(manifest: &Manifest) -> Counts {
        let mut counts = Counts::default();
        for line in manifest.lines() {
            counts.add(line.word);
        }
        counts
    }

    /// The row of the kinds that there are.
    fn row(&self, alloc: Global) -> Result<String, AllocError> {
        let mut row = String::new(alloc);
        for (count, one, several) in [
            (self.files, "file", "files"),
            (self.directories, "directory", "directories"),
            (self.links, "symbolic link", "symbolic links"),
            (self.devices, "device", "devices"),
            (self.further_names, "further name", "further names"),
            (self.others, "FIFO or socket", "FIFOs and sockets"),
        ] {
            if count > 0 {
                let comma = if row.is_empty() { "" } else { ", " };
                let word = if count == 1 { one } else { several };
                row.push_str(&format!(in alloc; "{comma}{count} {word}")?)?;
            }
        }
        Ok(row)
    }
}

/// The files with contents of their own, each with its size, the largest first.
fn by_size<'m>(
    alloc: Global,
    manifest: &'m Manifest,
    sizes: &[u64],
) -> Result<Vec<(u64, &'m Line)>, AllocError> {
    let files = manifest.lines().iter();
    let mut files = files.filter(|line| matches!(line.word, Word::File));
    let mut found = Vec::new(alloc);
    for size in sizes {
        if let Some(line) = files.next() {
            found.push((*size, line))?;
        }
    }
    found.sort_by(|a: &(u64, &Line), b: &(u64, &Line)| b.0.cmp(&a.0))?;
    Ok(found)
}

/// How many bytes of a planned image are contents of files, and how many are padding.
#[derive(Clone, Copy, Default)]
pub struct Shares {
    pub contents: u64,
    pub padding: u64,
}

impl Shares {
    /// Returns the shares of a planned image.
    pub fn of(plan: &Plan) -> Shares {
        let mut shares = Shares {
            contents: 0,
            padding: plan.image_len() as u64,
        };
        for index in 0..plan.sections() {
            if let Some(section) = plan.section(index) {
                let len = u64::from(section.len);
                shares.padding = shares.padding.saturating_sub(len);
                if let Body::Content { .. } = section.body {
                    shares.contents = shares.contents.saturating_add(len);
                }
            }
        }
        shares
    }
}

/// Adds a row: a number of bytes, and what they are.
fn add_row(text: &mut String, alloc: Global, bytes: u64, what: &str) -> Result<(), AllocError> {
    text.push_str(&format!(in alloc; "{bytes:>14}  {what}\n")?)
}

/// Adds which programs are not executed in place, and what helps.
fn add_unplaced(text: &mut String, alloc: Global, unplaced: &[Unplaced]) -> Result<(), AllocError> {
    let mut several = Several::new(LARGEST as u64);
    for program in unplaced {
        if several.says() {
            let path = shown(alloc, &program.path)?;
            let why = reason_sentence(program.reason);
            text.push_str(&format!(in alloc; "not in place: {path}: {why}\n")?)?;
        }
    }
    if let Some(more) = several.more() {
        text.push_str(&format!(in alloc; "not in place: {more} more\n")?)?;
    }
    Ok(())
}

/// Adds what Linux would execute in place of an image with these programs.
fn add_programs(text: &mut String, alloc: Global, programs: &Programs) -> Result<(), AllocError> {
    let (count, not) = (programs.count, programs.unplaced.len() as u64);
    if count == 0 {
        return text.push_str("no file is a program that is executed in place\n");
    }
    let (placed, pages, copied) = (
        count.saturating_sub(not),
        programs.in_place,
        programs.copied,
    );
    text.push_str(&format!(in alloc;
        "programs executed in place: {placed} of {count}; pages in place: {pages}, copied: {copied}\n"
    )?)?;
    if programs.shared > 0 {
        text.push_str(&format!(in alloc;
            "programs with a last page that other data share, which is copied: {}\n",
            programs.shared
        )?)?;
    }
    add_unplaced(text, alloc, &programs.unplaced)
}

/// Adds the largest files.
fn add_largest(
    text: &mut String,
    alloc: Global,
    manifest: &Manifest,
    sizes: &[u64],
) -> Result<(), AllocError> {
    if sizes.is_empty() {
        return Ok(());
    }
    text.push_str("the largest files:\n")?;
    for (size, line) in by_size(alloc, manifest, sizes)?.iter().take(LARGEST) {
        let path = shown(alloc, line.path.as_bytes())?;
        add_row(text, alloc, *size, &path)?;
    }
    Ok(())
}

/// The table of an image that was built.
fn table(
    alloc: Global,
    asked: Asked<'_>,
    manifest: &Manifest,
    built: &Built,
) -> Result<String, AllocError> {
    let (out, format) = (
        escaped(alloc, asked.out.as_bytes())?,
        asked.wanted.format.name(),
    );
    let counts = Counts::of(manifest).row(alloc)?;
    let (len, sizes) = (built.len, built.sizes.as_slice());
    let Shares { contents, padding } = built.shares;
    let tables = len.saturating_sub(contents).saturating_sub(padding);
    let mut text = format!(in alloc; "romtool: {out}: {format}, {counts}\n")?;
    add_row(&mut text, alloc, len, "the image")?;
    add_row(&mut text, alloc, contents, "contents of files")?;
    add_row(&mut text, alloc, tables, "names and tables")?;
    add_row(&mut text, alloc, padding, "padding")?;
    if let Some(most) = most_bytes(&asked.wanted) {
        add_row(
            &mut text,
            alloc,
            most.saturating_sub(len),
            &format!(in alloc; "left of {most}")?,
        )?;
    }
    if let Some(programs) = &built.programs
        && (programs.count > 0 || asked.wanted.xip)
    {
        add_programs(&mut text, alloc, programs)?;
    }
    add_largest(&mut text, alloc, manifest, sizes)?;
    Ok(text)
}

/// Explains by a table what an image of a manifest has in it.
pub fn explain(reporter: &Reporter<'_>, asked: Asked<'_>, manifest: &Manifest, built: &Built) {
    if reporter.is_explained()
        && let Ok(text) = table(reporter.rt.alloc(), asked, manifest, built)
    {
        reporter.put(text.as_bytes());
    }
}
