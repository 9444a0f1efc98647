//! Whether a dump has an image.
ghost use Rattle.std.specs.Prelude.{◌≡◌, drop, length, IfOk, IfSome, OnErr};
ghost use Rattle.image_compare.specs.Differences.{Compares};
ghost use Rattle.rom_commands.specs.Ends.{Ends, Writes};
ghost use Rattle.rom_commands.specs.Texts.{IsVerdict, NeverStops, verdict_ending};

use crate::ending::Ending;
use crate::inspected::end;
use image_compare::{Dump, compare_from, write_verdict};
use rom_fields::ByteWrite;
use std::io;

/// The ending of a comparison.
fn verdict_ending(found: Option<usize>) -> Ending<'static>
    ensures { result ≡ verdict_ending found }
{
    match found {
        None => Ending::Done,
        Some(_) => Ending::Warned,
    }
}

/// Writes the line of a comparison.
fn write_one<W: ByteWrite>(size: usize, found: Option<usize>, w: &mut W) -> Ending<'static>
    ensures { Writes (IsVerdict size found) NeverStops (W.output w.old) (W.output w.new) result }
{
    match write_verdict(size, found, w) {
        Ok(()) => verdict_ending(found),
        Err(_) => Ending::WriteFault,
    }
}

/// Prints to `out` whether a dump has an image of `size` bytes, `ok SIZE`, or `differ OFFSET` with
/// the offset of the first byte that it has not, and flushes it. Returns `Done`, or `Warned` if the
/// dump differs; or `WriteFault` if a write or the flush failed, and `err` says so.
pub(crate) fn print_verdict<W: ByteWrite, E: ByteWrite>(
    size: usize,
    found: Option<usize>,
    out: &mut W,
    err: &mut E,
) -> Ending<'static>
    ensures { Ends (IsVerdict size found) NeverStops (W.output out.old) (W.output out.new)
        (E.output err.old) (E.output err.new) result }
{
    let printed = write_one(size, found, out);
    end(out, err, printed)
}

/// A comparison whose result was printed: how it ended, and the offset of the first byte of the
/// image that the dump does not have, if there is one.
#[derive(Clone, Copy, PartialEq, Eq)]
pub struct Verified {
    pub ending: Ending<'static>,
    pub difference: Option<usize>,
}

/// Compares an image with the bytes of a dump from `offset` on, and prints the result as
/// `print_verdict` does.
///
/// # Errors
///
/// Those of the dump and of its reader. Nothing was printed then.
pub fn verify_dump<D: Dump, W: ByteWrite, E: ByteWrite>(
    image: &[u8],
    dump: D,
    offset: u64,
    out: &mut W,
    err: &mut E,
) -> io::Result<Verified>
    ensures printed { IfOk result (λ v. Ends (IsVerdict (length image.now) v.difference)
        NeverStops (W.output out.old) (W.output out.new) (E.output err.old) (E.output err.new)
        v.ending) }
    ensures compared { IfOk result (λ v. IfSome (D.stored dump)
        (λ xs. Compares image.now (drop offset xs) v.difference)) }
    ensures out { OnErr result (W.output out.new ≡ W.output out.old) }
    ensures err { OnErr result (E.output err.new ≡ E.output err.old) }
{
    let difference = compare_from(image, dump, offset)?;
    let ending = print_verdict(image.len(), difference, out, err);
    Ok(Verified { ending, difference })
}
