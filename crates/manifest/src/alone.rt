//! A line by itself.
ghost use Rattle.std.specs.Prelude.{◌≡◌};
ghost use Rattle.manifest.specs.Alone.{own_fault, numbers_alone, line_alone};
ghost use Rattle.manifest.specs.Grammar as grammar;
ghost use Rattle.manifest.specs.Reading.{Gives};
ghost use Rattle.manifest.specs.Views.{fields_view};

use crate::error::{BAD_ALIGN, BAD_NUMBER, BAD_PATH, BAD_WORD, ManifestError};
use crate::fields::{self, Fields};
use crate::line::Line;
use crate::numbers::line_of;
use crate::path::is_bad_path;
use crate::reader::{bad, is_align, is_bad_text};
use std::alloc::Global;

/// Returns the least fault that a line has whatever lines are before it, from `BAD_PATH` on.
pub fn own_fault(line: &Line) -> Option<u32>
    ensures { result ≡ own_fault line.now }
{
    if is_bad_path(line.path.as_bytes(), line.word.is_dir()) || is_bad_text(line) {
        return Some(BAD_PATH);
    }
    if line.word.is_file() && !is_align(line.align) {
        return Some(BAD_ALIGN);
    }
    None
}

/// Reads a line of these fields.
fn read_fields(alloc: Global, number: u64, fields: &Fields) -> Result<Line, ManifestError>
    ensures { Gives result
        (numbers_alone number (grammar.line_of number (fields_view fields.now))) }
{
    let Some(line) = line_of(alloc, number, fields)? else {
        return Err(bad(number, BAD_NUMBER));
    };
    if let Some(fault) = own_fault(&line) {
        return Err(bad(number, fault));
    }
    Ok(line)
}

/// Reads a line of a path by itself: its directory and what it names count as made, and its path as
/// free.
///
/// # Errors
///
/// `Bad` exactly if the line has a fault whatever lines are before it, with its least one, unless
/// memory was refused first; `OutOfMemory` if memory was refused.
#[tactic(auto, unfolding(crate::specs::Alone::line_alone))]
pub fn read_line(alloc: Global, number: u64, line: &[u8]) -> Result<Line, ManifestError>
    ensures { Gives result (line_alone number line.now) }
{
    let Some(texts) = fields::split(line) else {
        return Err(bad(number, BAD_WORD));
    };
    let Some(fields) = fields::by_word(&texts) else {
        return Err(bad(number, BAD_WORD));
    };
    read_fields(alloc, number, &fields)
}
