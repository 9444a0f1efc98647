//! The numbers of a line, and the line that has them.
ghost use Rattle.std.specs.Prelude.{◌≡◌, IfOk};
ghost use Rattle.manifest.specs.Grammar as grammar;
ghost use Rattle.manifest.specs.Views.{fields_view};

use crate::fields::Fields;
use crate::line::Line;
use crate::text::{decimal, decoded, octal};
use rom_fields::OutOfMemory;
use std::alloc::Global;

/// The numbers of a line.
#[derive(Clone, Copy)]
pub struct Numbers {
    pub mode: u32,
    pub uid: u32,
    pub gid: u32,
    pub align: u32,
    pub major: u32,
    pub minor: u32,
}

/// Returns the numbers of a line, if each text that should be a number is one.
#[tactic(auto, unfolding(crate::specs::Grammar::numbers_of))]
fn read_numbers(fields: &Fields) -> Option<Numbers>
    ensures { result ≡ grammar.numbers_of (fields_view fields.now) }
{
    Some(Numbers {
        mode: octal(fields.mode)?,
        uid: decimal(fields.uid)?,
        gid: decimal(fields.gid)?,
        align: decimal(fields.align)?,
        major: decimal(fields.major)?,
        minor: decimal(fields.minor)?,
    })
}

/// Returns the line of these fields, if each text that should be a number is one.
pub fn line_of(alloc: Global, number: u64, fields: &Fields) -> Result<Option<Line>, OutOfMemory>
    ensures { IfOk result (λ line. line ≡ grammar.line_of number (fields_view fields.now)) }
{
    let Some(numbers) = read_numbers(fields) else {
        return Ok(None);
    };
    let path = decoded(alloc, fields.path)?;
    let text = decoded(alloc, fields.text)?;
    Ok(Some(Line {
        number,
        word: fields.word,
        path,
        mode: numbers.mode,
        uid: numbers.uid,
        gid: numbers.gid,
        align: numbers.align,
        major: numbers.major,
        minor: numbers.minor,
        text,
    }))
}
