//! What is at some addresses of an image.
ghost use Rattle.std.specs.Prelude.{◌≡◌, ◌&&◌, IfOk};
ghost use Rattle.std.specs.List.Sorted.{IsNonDecreasingBy};
ghost use Rattle.rom_fields.specs.Failures.{Counts};
ghost use Rattle.rom_fields.specs.Written.{WritesText};
ghost use Rattle.image_info.specs.Gaps.{IsChecked};
ghost use Rattle.image_extents.specs.Apart.{AreApart};
ghost use Rattle.image_extents.specs.Sorted.{start_of};
ghost use Rattle.rom_commands.specs.Ends.{Ends, Writes};
ghost use Rattle.rom_commands.specs.Texts.{IsPlaces, StopsOfMemory, are_inside, places_ending};
ghost use Rattle.rom_commands.specs.Texts.{places_text};

use crate::ending::Ending;
use crate::inspected::end;
use image_check::AnyImage;
use image_extents::{Extents, extents, write_which};
use rom_fields::{ByteWrite, Failed};
use std::alloc::Global;

/// Whether both are so.
fn both(one: bool, other: bool) -> bool
    ensures { result ≡ (one && other) }
{
    one && other
}

/// Writes what is at some addresses, and returns whether the file has a byte at each of them.
fn write_lines<W: ByteWrite>(
    found: &Extents<'_>,
    base: u64,
    file: u64,
    addresses: &[u64],
    w: &mut W,
) -> Result<bool, Failed>
    requires sorted { IsNonDecreasingBy start_of found.now.extents.items }
    requires apart { AreApart found.now.extents.items }
    ensures text { WritesText (W.output w.old).contents (W.output w.new).contents result
        (places_text base file found.now addresses.now) }
    ensures count { Counts (W.output w.old).failures (W.output w.new).failures result }
    ensures inside { IfOk result (λ b. b ≡ are_inside base file found.now addresses.now) }
{
    let mut inside = true;
    for address in addresses {
        match write_which(found, base, file, *address, w) {
            Ok(here) => inside = both(inside, here),
            Err(_) => return Err(Failed),
        }
    }
    Ok(inside)
}

/// The ending, by whether the file has a byte at each address.
fn places_ending(inside: bool) -> Ending<'static>
    ensures { result ≡ places_ending inside }
{
    if inside { Ending::Done } else { Ending::Warned }
}

/// Writes what is at some addresses of an image.
fn write_all<W: ByteWrite>(
    alloc: Global,
    image: &AnyImage<'_>,
    base: u64,
    file: u64,
    addresses: &[u64],
    w: &mut W,
) -> Ending<'static>
    requires { IsChecked image.now }
    ensures { Writes (IsPlaces image.now base file addresses.now) StopsOfMemory (W.output w.old)
        (W.output w.new) result }
{
    let Ok(found) = extents(alloc, image) else {
        return Ending::Memory;
    };
    match write_lines(&found, base, file, addresses, w) {
        Ok(inside) => places_ending(inside),
        Err(_) => Ending::WriteFault,
    }
}

/// Prints to `out` what is at some addresses of a checked image, whose first byte has the address
/// `base`, in a file of so many bytes, and flushes it. Returns `Done`, or `Warned` if the file has
/// no byte at one of the addresses. Otherwise `err` says why: `Memory` if memory was refused, of
/// which nothing is printed, and `WriteFault` if a write or the flush failed.
pub fn print_places<W: ByteWrite, E: ByteWrite>(
    alloc: Global,
    image: &AnyImage<'_>,
    base: u64,
    file: u64,
    addresses: &[u64],
    out: &mut W,
    err: &mut E,
) -> Ending<'static>
    requires { IsChecked image.now }
    ensures { Ends (IsPlaces image.now base file addresses.now) StopsOfMemory (W.output out.old)
        (W.output out.new) (E.output err.old) (E.output err.new) result }
{
    let printed = write_all(alloc, image, base, file, addresses, out);
    end(out, err, printed)
}
