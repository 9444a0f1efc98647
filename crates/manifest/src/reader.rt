//! The part of a manifest that was read, and the reading of one more line.
ghost use Rattle.std.specs.Prelude.{◌≡◌, ◌++◌, ◌∷◌, [], true, is_some, reverse, None, OnOk};
ghost use Rattle.std.specs.Hash.DefaultHasher.{initial, write};
ghost use Rattle.manifest.specs.Grammar as grammar;
ghost use Rattle.manifest.specs.Paths.{names_of, parent_of};
ghost use Rattle.manifest.specs.Reading.{Adds, HasMore, IsKept, OnBad, Reads, seen, seed_in};
ghost use Rattle.manifest.specs.Reading.{reached, reached_by, has_contents};
ghost use Rattle.manifest.specs.Reading.{to_directory, to_regular_file, to_no_directory};
ghost use Rattle.manifest.specs.Lines.{sources_of};
ghost use Rattle.manifest.specs.Views.{fields_view};
ghost use Rattle.manifest.specs.declared.error.ManifestError.TheVariants.{Bad};

use crate::error::{
    BAD_ALIGN, BAD_NUMBER, BAD_PATH, BAD_TARGET, BAD_WORD, EXISTS, ManifestError, NO_PARENT,
};
use crate::fields::{self, Fields};
use crate::line::{Line, Word};
use crate::names::Name;
use crate::numbers::line_of;
use crate::path::{NAME_MAX, PATH_MAX, is_bad_path, parent};
use crate::seeded::Seeded;
use crate::text::{decoded, is_bad};
use rom_fields::OutOfMemory;
use std::alloc::Global;
use std::collections::HashMap;

/// The alignments that a `file` line may have, in bytes.
const ALIGNMENTS: [u32; 15] = [
    4, 8, 16, 32, 64, 128, 256, 512, 1024, 2048, 4096, 8192, 16384, 32768, 65536,
];

/// The kind of file to which the path of an earlier line leads.
#[derive(Clone, Copy)]
pub enum Reached {
    Directory,
    RegularFile,
    Other,
}

/// The part of a manifest that was read. A map has the kind of file to which each path leads, so
/// the time to read a line does not grow with the number of lines.
#[derive(Drop)]
pub struct Reader {
    pub lines: Vec<Line>,
    pub sources: Vec<Name>,
    pub volume: Name,
    pub volume_line: u64,
    paths: HashMap<Vec<u8>, Reached, Seeded>,
}

/// Returns whether an alignment is a power of two from 4 to 65,536.
pub fn is_align(align: u32) -> bool
    ensures { result ≡ grammar.is_align align }
{
    ALIGNMENTS.iter().any(|allowed| align == *allowed)
}

/// Returns whether a line's text is invalid for its word.
pub fn is_bad_text(line: &Line) -> bool
    ensures { result ≡ grammar.is_bad_text line.now.word line.now.text }
{
    let text = line.text.as_bytes();
    match line.word {
        Word::Slink => is_bad(text, PATH_MAX),
        Word::Hard | Word::Same => is_bad_path(text, false),
        Word::Dir | Word::File | Word::Block | Word::Character | Word::Fifo | Word::Socket => false,
    }
}

/// Returns whether a path leads to a directory.
fn is_directory(reached: Option<Reached>) -> bool
    ensures { result ≡ to_directory reached }
{
    matches!(reached, Some(Reached::Directory))
}

/// Returns whether a path leads to a regular file.
fn is_regular_file(reached: Option<Reached>) -> bool
    ensures { result ≡ to_regular_file reached }
{
    matches!(reached, Some(Reached::RegularFile))
}

/// Returns whether a path leads to a file that is not a directory.
fn is_no_directory(reached: Option<Reached>) -> bool
    ensures { result ≡ to_no_directory reached }
{
    matches!(reached, Some(Reached::RegularFile | Reached::Other))
}

/// Returns a fault as an error.
pub fn bad(line: u64, number: u32) -> ManifestError
    ensures { result ≡ Bad line number }
{
    ManifestError::Bad { line, number }
}

/// Puts a path into the map, with the kind of file to which it leads.
fn note_path(
    alloc: Global,
    paths: &mut HashMap<Vec<u8>, Reached, Seeded>,
    path: &[u8],
    reached: Reached,
) -> Result<(), OutOfMemory>
    ensures { OnOk result (HasMore path.now reached paths.old paths.new) }
{
    let key = path.to_vec(alloc)?;
    paths.insert(key, reached)?;
    Ok(())
}

/// Appends the source of a `file` line; other lines have none.
fn note_source(alloc: Global, sources: &mut Vec<Name>, line: &Line) -> Result<(), OutOfMemory>
    ensures { OnOk result (sources.new.items ≡ sources.old.items ++ sources_of (line.now ∷ [])) }
{
    if line.word.is_file() {
        let source = line.text.as_bytes().to_vec(alloc)?;
        sources.push(source.into())?;
    }
    Ok(())
}

impl Reader {
    /// Returns a reader that has read nothing. A text seeds the hashes of its paths.
    pub fn new(alloc: Global, text: &[u8]) -> Reader
        ensures seen { seen result ≡ grammar.nothing_read }
        ensures kept { IsKept result }
        ensures seeded { seed_in result ≡ write initial text.now }
    {
        let mut seeded = Seeded::new();
        seeded.add(text);
        Reader {
            lines: Vec::new(alloc),
            sources: Vec::new(alloc),
            volume: Vec::new(alloc).into(),
            volume_line: 0,
            paths: HashMap::with_hasher(alloc, seeded),
        }
    }

    /// Returns the kind of file to which the path of an earlier line leads, if a line has the path.
    pub fn reached(&self, path: &[u8]) -> Option<Reached>
        requires { IsKept self.now }
        ensures { result ≡ reached (reverse self.now.lines.items) path.now }
    {
        self.paths.get(path).copied()
    }

    /// Returns whether a path is in the root or in the directory of an earlier line.
    #[tactic(auto, using(crate::proofs::Reached::directory_is))]
    fn has_parent(&self, path: &[u8]) -> bool
        requires kept { IsKept self.now }
        requires path { is_some (names_of path.now) ≡ true }
        ensures { result ≡ grammar.has_parent (reverse self.now.lines.items)
            (parent_of (names_of path.now)) }
    {
        let parent = parent(path);
        parent.is_empty() || is_directory(self.reached(parent))
    }

    /// Returns whether the text of a `hard` line leads to a file that is not a directory, and the
    /// text of a `same` line to a regular file. Other lines have no target, and the answer is true.
    #[tactic(auto, using(crate::proofs::Reached::no_directory_is, crate::proofs::Reached::file_is))]
    fn has_target(&self, line: &Line) -> bool
        requires { IsKept self.now }
        ensures { result ≡ grammar.has_target
            (reverse self.now.lines.items) line.now.word line.now.text }
    {
        let old = line.text.as_bytes();
        match line.word {
            Word::Hard => is_no_directory(self.reached(old)),
            Word::Same => is_regular_file(self.reached(old)),
            Word::Dir | Word::File | Word::Slink | Word::Block => true,
            Word::Character | Word::Fifo | Word::Socket => true,
        }
    }

    /// Returns the least fault of a line, from `BAD_PATH` on.
    #[tactic(auto, using(crate::proofs::Reached::stands_is), unfolding(crate::specs::Grammar::fault_of))]
    fn fault(&self, line: &Line) -> Option<u32>
        requires { IsKept self.now }
        ensures { result ≡ grammar.fault_of (reverse self.now.lines.items) line.now }
    {
        let path = line.path.as_bytes();
        if is_bad_path(path, line.word.is_dir()) || is_bad_text(line) {
            return Some(BAD_PATH);
        }
        if !self.has_parent(path) {
            return Some(NO_PARENT);
        }
        if self.reached(path).is_some() {
            return Some(EXISTS);
        }
        if line.word.is_file() && !is_align(line.align) {
            return Some(BAD_ALIGN);
        }
        if !self.has_target(line) {
            return Some(BAD_TARGET);
        }
        None
    }

    /// Returns whether a line's path leads to a regular file.
    #[tactic(auto, using(crate::proofs::Reached::file_is))]
    fn has_contents(&self, line: &Line) -> bool
        requires { IsKept self.now }
        ensures { result ≡ has_contents (reverse self.now.lines.items) line.now }
    {
        match line.word {
            Word::File => true,
            Word::Hard | Word::Same => is_regular_file(self.reached(line.text.as_bytes())),
            Word::Dir | Word::Slink | Word::Block => false,
            Word::Character | Word::Fifo | Word::Socket => false,
        }
    }

    /// Returns the kind of file to which a line's path leads.
    fn leads_to(&self, line: &Line) -> Reached
        requires { IsKept self.now }
        ensures { result ≡ reached_by line.now
            (has_contents (reverse self.now.lines.items) line.now) }
    {
        if line.word.is_dir() {
            Reached::Directory
        } else if self.has_contents(line) {
            Reached::RegularFile
        } else {
            Reached::Other
        }
    }

    /// Adds a line. What it names has to be made by the lines before it.
    pub fn add(&mut self, alloc: Global, line: Line) -> Result<(), OutOfMemory>
        requires kept { IsKept self.old }
        requires leads { grammar.has_target
            (reverse self.old.lines.items) line.word line.text ≡ true }
        ensures { OnOk result (Adds self.old self.new line) }
    {
        let reached = self.leads_to(&line);
        note_path(alloc, &mut self.paths, line.path.as_bytes(), reached)?;
        note_source(alloc, &mut self.sources, &line)?;
        self.lines.push(line)?;
        Ok(())
    }

    /// Reads the name of the volume.
    fn read_volume(&mut self, number: u64, name: Name) -> Result<(), ManifestError>
        requires { IsKept self.old }
        ensures reads { Reads self.new result (grammar.read_volume (seen self.old) number name) }
        ensures unchanged { OnBad result (self.new ≡ self.old) }
    {
        if is_bad(name.as_bytes(), NAME_MAX) {
            return Err(bad(number, BAD_PATH));
        }
        if self.volume_line != 0 {
            return Err(bad(number, EXISTS));
        }
        self.volume = name;
        self.volume_line = number;
        Ok(())
    }

    /// Reads a line of these fields.
    #[tactic(auto, using(crate::proofs::Adding::sound_target))]
    fn read_fields(
        &mut self,
        alloc: Global,
        number: u64,
        fields: &Fields,
    ) -> Result<(), ManifestError>
        requires { IsKept self.old }
        ensures reads { Reads self.new result
            (grammar.read_numbers (seen self.old) number
            (grammar.line_of number (fields_view fields.now))) }
        ensures unchanged { OnBad result (self.new ≡ self.old) }
    {
        let Some(line) = line_of(alloc, number, fields)? else {
            return Err(bad(number, BAD_NUMBER));
        };
        if let Some(fault) = self.fault(&line) {
            return Err(bad(number, fault));
        }
        self.add(alloc, line)?;
        Ok(())
    }

    /// Reads a line that is not skipped. A bad line changes nothing.
    #[tactic(auto, unfolding(crate::specs::Grammar::read))]
    pub fn read(&mut self, alloc: Global, number: u64, line: &[u8]) -> Result<(), ManifestError>
        requires { IsKept self.old }
        ensures reads { Reads self.new result (grammar.read (seen self.old) number line.now) }
        ensures unchanged { OnBad result (self.new ≡ self.old) }
    {
        let Some(texts) = fields::split(line) else {
            return Err(bad(number, BAD_WORD));
        };
        if let Some(name) = fields::volume(&texts) {
            return self.read_volume(number, decoded(alloc, name)?);
        }
        let Some(fields) = fields::by_word(&texts) else {
            return Err(bad(number, BAD_WORD));
        };
        self.read_fields(alloc, number, &fields)
    }
}
