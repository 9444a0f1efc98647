//! The parts of lines.
ghost use Rattle.rom_fields.specs.Written.{Puts, sink};
ghost use Rattle.build_commands.specs.Lines.{part_text};

use rom_fields::{ByteWrite, put, put_escaped, put_long_decimal, put_octal};

/// A part of a line.
#[derive(Clone, Copy)]
pub enum Part<'a> {
    /// Bytes as they are.
    Text(&'a [u8]),
    /// A number in decimal digits.
    Number(u64),
    /// The last four octal digits of a mode.
    Mode(u32),
    /// A name, escaped.
    Name(&'a [u8]),
}

/// Puts a part.
#[tactic(auto, unfolding(crate::specs::Lines::part_text))]
pub(crate) fn put_part<W: ByteWrite>(w: &mut W, failed: &mut bool, part: &Part<'_>)
    ensures { Puts (sink (W.output w.old) failed.old) (sink (W.output w.new) failed.new)
        (part_text part.now) }
{
    match *part {
        Part::Text(bytes) => put(w, failed, bytes),
        Part::Number(n) => put_long_decimal(w, failed, n),
        Part::Mode(mode) => put_octal(w, failed, mode),
        Part::Name(name) => put_escaped(w, failed, name),
    }
}
