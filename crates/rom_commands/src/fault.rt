//! The text of a fault.
ghost use Rattle.rom_fields.specs.Written.{Puts, sink};
ghost use Rattle.rom_commands.specs.Lines.{fault_text};

use rom_fields::fault::name;
use rom_fields::{ByteWrite, put, put_decimal};

/// Puts `fault NUMBER NAME at OFFSET`.
pub fn put_fault<W: ByteWrite>(w: &mut W, failed: &mut bool, number: u32, at: u32)
    ensures { Puts (sink (W.output w.old) failed.old)
        (sink (W.output w.new) failed.new) (fault_text number at) }
{
    put(w, failed, b"fault ");
    put_decimal(w, failed, number);
    put(w, failed, b" ");
    put(w, failed, name(number).as_bytes());
    put(w, failed, b" at ");
    put_decimal(w, failed, at);
}
