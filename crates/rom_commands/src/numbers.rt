//! The description of an image, for firmware that opens it without a check.
ghost use Rattle.rom_commands.specs.Ends.{Ends, Writes};
ghost use Rattle.rom_commands.specs.Texts.{IsNumbers, NeverStops};

use crate::ending::Ending;
use crate::inspected::end;
use image_info::{Numbers, write_number_array, write_numbers};
use rom_fields::ByteWrite;

/// Writes a description as bytes or as an array of C.
fn write_one<W: ByteWrite>(numbers: Numbers, is_array: bool, w: &mut W) -> Ending<'static>
    ensures { Writes (IsNumbers is_array numbers) NeverStops (W.output w.old) (W.output w.new)
        result }
{
    if is_array {
        match write_number_array(numbers, w) {
            Ok(()) => Ending::Done,
            Err(_) => Ending::WriteFault,
        }
    } else {
        match write_numbers(numbers, w) {
            Ok(()) => Ending::Done,
            Err(_) => Ending::WriteFault,
        }
    }
}

/// Prints the description of an image with these numbers to `out`, as bytes or as an array of C,
/// and flushes it. Returns `Done`; or `WriteFault` if a write or the flush failed, and `err` says
/// so.
pub fn print_numbers<W: ByteWrite, E: ByteWrite>(
    numbers: Numbers,
    is_array: bool,
    out: &mut W,
    err: &mut E,
) -> Ending<'static>
    ensures { Ends (IsNumbers is_array numbers) NeverStops (W.output out.old) (W.output out.new)
        (E.output err.old) (E.output err.new) result }
{
    let printed = write_one(numbers, is_array, out);
    end(out, err, printed)
}
