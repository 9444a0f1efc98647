//! All bad lines of a text, each with its fault.
ghost use Rattle.std.specs.Prelude.{◌≡◌, ◌++◌, reverse, true, IfOk, OnOk};
ghost use Rattle.manifest.specs.Texts.{pieces, pieces_after};
ghost use Rattle.manifest.specs.Grammar as grammar;
ghost use Rattle.manifest.specs.Faults.{first_of, others_of, kind_or_file, kind_of, word_of_kind};
ghost use Rattle.manifest.specs.Faults.{making, faults_of};
ghost use Rattle.manifest.specs.Going.{as_faults, as_told, Counts, Passes, Tries};
ghost use Rattle.manifest.specs.Reading.{IsKept};

use crate::error::ManifestError;
use crate::line::{Line, Word};
use crate::names::Name;
use crate::path::is_bad_path;
use crate::reader::{Reached, Reader};
use crate::text::{cut, decoded, is_skipped};
use rom_fields::OutOfMemory;
use std::alloc::Global;

const NOTHING: &[u8] = b"";

/// A bad line of a text, by its number, from 1 on, and the number of its least fault.
#[derive(Clone, Copy)]
pub struct BadLine {
    pub line: u64,
    pub number: u32,
}

/// The first three fields of a line. Those that it lacks are empty.
#[derive(Clone, Copy)]
struct Front<'a> {
    word: &'a [u8],
    path: &'a [u8],
    old: &'a [u8],
}

/// Returns the first field of a line, and the rest behind it.
fn first_field<'a>(rest: Option<&'a [u8]>) -> (&'a [u8], Option<&'a [u8]>)
    ensures first { result.0.now ≡ first_of (pieces_after 32 rest.entry) }
    ensures others { pieces_after 32 result.1 ≡ others_of (pieces_after 32 rest.entry) }
{
    match rest {
        None => (NOTHING, None),
        Some(text) => cut(text, b' '),
    }
}

/// Returns the first three fields of a line.
fn first_fields<'a>(line: &'a [u8]) -> Front<'a>
    ensures word { result.word.now ≡ first_of (pieces 32 line.now) }
    ensures path { result.path.now ≡ first_of (others_of (pieces 32 line.now)) }
    ensures old { result.old.now ≡ first_of (others_of (others_of (pieces 32 line.now))) }
{
    let (word, more) = first_field(Some(line));
    let (path, others) = first_field(more);
    let (old, _) = first_field(others);
    Front { word, path, old }
}

/// Returns the kind of file of an earlier line, or a regular file if there is none.
fn kind_or_file(kind: Option<Reached>) -> Reached
    ensures { result ≡ kind_or_file kind }
{
    match kind {
        Some(kind) => kind,
        None => Reached::RegularFile,
    }
}

/// Returns the word of a line that makes a file of this kind.
fn word_of(kind: Reached) -> Word
    ensures { result ≡ word_of_kind kind }
{
    match kind {
        Reached::Directory => Word::Dir,
        Reached::RegularFile => Word::File,
        Reached::Other => Word::Fifo,
    }
}

/// Returns a line that makes a path.
fn making(alloc: Global, number: u64, kind: Reached, path: Name) -> Line
    ensures { result ≡ making number kind path }
{
    Line {
        number,
        word: word_of(kind),
        path,
        mode: 0,
        uid: 0,
        gid: 0,
        align: 0,
        major: 0,
        minor: 0,
        text: Vec::new(alloc).into(),
    }
}

impl Reader {
    /// Returns the kind of file that a bad line with this first word counts as.
    fn kind_of(&self, word: &[u8], old: &[u8]) -> Reached
        requires { IsKept self.now }
        ensures { result ≡ kind_of (reverse self.now.lines.items) word.now old.now }
    {
        if word == b"dir".as_slice() {
            return Reached::Directory;
        }
        if word == b"file".as_slice() || word == b"same".as_slice() {
            return Reached::RegularFile;
        }
        if word == b"hard".as_slice() {
            return kind_or_file(self.reached(old));
        }
        Reached::Other
    }

    /// Adds a line as which a bad one counts, unless its path is none or an earlier line has it.
    #[tactic(auto, using(crate::proofs::Reached::stands_is))]
    fn count(&mut self, alloc: Global, line: Line) -> Result<(), OutOfMemory>
        requires kept { IsKept self.old }
        requires leads { grammar.has_target
            (reverse self.old.lines.items) line.word line.text ≡ true }
        ensures { OnOk result (Counts self.old self.new line) }
    {
        let path = line.path.as_bytes();
        if is_bad_path(path, line.word.is_dir()) || self.reached(path).is_some() {
            return Ok(());
        }
        self.add(alloc, line)?;
        Ok(())
    }

    /// Passes a bad line. It counts as one that makes its path, or names the volume.
    #[tactic(auto, using(crate::proofs::Passing::making_leads, crate::proofs::Passing::passed_is))]
    fn pass(&mut self, alloc: Global, number: u64, line: &[u8]) -> Result<(), OutOfMemory>
        requires { IsKept self.old }
        ensures { OnOk result (Passes self.old self.new number line.now) }
    {
        let front = first_fields(line);
        if front.word == b"volume".as_slice() {
            self.volume_line = number;
            return Ok(());
        }
        let old = decoded(alloc, front.old)?;
        let path = decoded(alloc, front.path)?;
        let kind = self.kind_of(front.word, old.as_bytes());
        let line = making(alloc, number, kind, path);
        self.count(alloc, line)?;
        Ok(())
    }

    /// Reads a line. If it is bad, passes it and returns its fault.
    #[tactic(auto, using(crate::proofs::Tried::skipped, crate::proofs::Tried::good, crate::proofs::Tried::bad))]
    fn try_line(
        &mut self,
        alloc: Global,
        number: u64,
        line: &[u8],
    ) -> Result<Option<BadLine>, OutOfMemory>
        requires { IsKept self.old }
        ensures { IfOk result (λ bad. Tries self.old self.new number line.now bad) }
    {
        if is_skipped(line) {
            return Ok(None);
        }
        match self.read(alloc, number, line) {
            Ok(()) => Ok(None),
            Err(ManifestError::OutOfMemory) => Err(OutOfMemory),
            Err(
                ManifestError::Bad {
                    line: at,
                    number: fault,
                },
            ) => {
                self.pass(alloc, number, line)?;
                Ok(Some(BadLine {
                    line: at,
                    number: fault,
                }))
            }
        }
    }
}

/// Appends a line, if there is one.
fn note_bad(bad: &mut Vec<BadLine>, one: Option<BadLine>) -> Result<(), OutOfMemory>
    ensures { OnOk result (as_faults bad.new.items ≡ as_faults bad.old.items ++ as_told one) }
{
    if let Some(line) = one {
        bad.push(line)?;
    }
    Ok(())
}

/// Returns the bad lines of a text in their order, each with its least fault behind the lines
/// before it. A bad line counts as one that makes its path, so that no line is bad because of
/// another one's fault. `parse` returns the first of them.
///
/// # Errors
///
/// `OutOfMemory` if memory was refused.
#[tactic(auto, using(crate::proofs::Tried::one_more), unfolding(crate::specs::Faults::faults_of))]
pub fn bad_lines(alloc: Global, text: &[u8]) -> Result<Vec<BadLine>, OutOfMemory>
    ensures { IfOk result (λ bad. as_faults bad.items ≡ faults_of text.now) }
{
    let mut reader = Reader::new(alloc, text);
    let mut bad = Vec::new(alloc);
    let mut rest = Some(text);
    let mut number = 0u64;
    while let Some(bytes) = rest {
        let (line, more) = cut(bytes, b'\n');
        number += 1;
        let one = reader.try_line(alloc, number, line)?;
        note_bad(&mut bad, one)?;
        rest = more;
    }
    Ok(bad)
}
