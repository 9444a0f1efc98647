//! The writing of lines.
ghost use Rattle.std.specs.Prelude.{◌≡◌, OnOk};
ghost use Rattle.rom_fields.specs.Failures.{Counts, one_more};
ghost use Rattle.rom_fields.specs.Written.{Puts, WritesText, sink};
ghost use Rattle.build_commands.specs.Lines.{line_text};

use crate::part::{Part, put_part};
use rom_fields::{ByteWrite, Failed};

/// Puts a line.
pub fn put_line<W: ByteWrite>(w: &mut W, failed: &mut bool, line: &[Part<'_>])
    ensures { Puts (sink (W.output w.old) failed.old) (sink (W.output w.new) failed.new)
        (line_text line.now) }
{
    for part in line {
        put_part(w, failed, part);
    }
}

/// Writes a line.
///
/// # Errors
///
/// `Failed` if a write failed. Then a prefix of the line was written.
pub fn write_line<W: ByteWrite>(w: &mut W, line: &[Part<'_>]) -> Result<(), Failed>
    ensures text { WritesText (W.output w.old).contents (W.output w.new).contents result
        (line_text line.now) }
    ensures count { Counts (W.output w.old).failures (W.output w.new).failures result }
    ensures unflushed { (W.output w.new).flushes ≡ (W.output w.old).flushes }
{
    let mut failed = false;
    put_line(w, &mut failed, line);
    if failed { Err(Failed) } else { Ok(()) }
}

/// Writes a line, and flushes it.
///
/// # Errors
///
/// `Failed` if a write or the flush failed. Then a prefix of the line was written.
pub fn print_line<W: ByteWrite>(w: &mut W, line: &[Part<'_>]) -> Result<(), Failed>
    ensures text { WritesText (W.output w.old).contents (W.output w.new).contents result
        (line_text line.now) }
    ensures count { Counts (W.output w.old).failures (W.output w.new).failures result }
    ensures flushed { OnOk result ((W.output w.new).flushes ≡ one_more (W.output w.old).flushes) }
{
    write_line(w, line)?;
    w.flush()
}
