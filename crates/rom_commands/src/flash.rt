//! Where the bytes of an image lie in the flash.
ghost use Rattle.image_info.specs.Gaps.{IsChecked};
ghost use Rattle.rom_commands.specs.Ends.{Ends, Finishes, IsPictured, Writes};
ghost use Rattle.rom_commands.specs.Texts.{IsExtents, StopsOfMemory};

use crate::ending::Ending;
use crate::inspected::end;
use image_check::AnyImage;
use image_extents::{extents, write_extents};
use map_forms::{PictureError, write_picture};
use rom_fields::ByteWrite;
use std::alloc::Global;

/// Writes the lines of the extents of an image.
fn write_all<W: ByteWrite>(
    alloc: Global,
    image: &AnyImage<'_>,
    base: u64,
    file: u64,
    w: &mut W,
) -> Ending<'static>
    requires { IsChecked image.now }
    ensures { Writes (IsExtents image.now base file) StopsOfMemory (W.output w.old) (W.output w.new)
        result }
{
    let Ok(found) = extents(alloc, image) else {
        return Ending::Memory;
    };
    match write_extents(&found, base, file, w) {
        Ok(()) => Ending::Done,
        Err(_) => Ending::WriteFault,
    }
}

/// Prints to `out` the lines of the extents of a checked image, whose first byte has the address
/// `base`, in a file of so many bytes, and flushes it. Returns `Done`. Otherwise `err` says why:
/// `Memory` if memory was refused, of which nothing is printed, and `WriteFault` if a write or the
/// flush failed.
pub fn print_extents<W: ByteWrite, E: ByteWrite>(
    alloc: Global,
    image: &AnyImage<'_>,
    base: u64,
    file: u64,
    out: &mut W,
    err: &mut E,
) -> Ending<'static>
    requires { IsChecked image.now }
    ensures { Ends (IsExtents image.now base file) StopsOfMemory (W.output out.old)
        (W.output out.new) (E.output err.old) (E.output err.new) result }
{
    let printed = write_all(alloc, image, base, file, out);
    end(out, err, printed)
}

/// Writes the picture of an image.
fn write_image<W: ByteWrite>(
    alloc: Global,
    image: &AnyImage<'_>,
    base: u64,
    file: u64,
    w: &mut W,
) -> Ending<'static>
    requires { IsChecked image.now }
    ensures { IsPictured result }
{
    let Ok(found) = extents(alloc, image) else {
        return Ending::Memory;
    };
    match write_picture(alloc, &found, base, file, w) {
        Ok(()) => Ending::Done,
        Err(PictureError::OutOfMemory) => Ending::Memory,
        Err(PictureError::WriteFault) => Ending::WriteFault,
    }
}

/// Prints to `out` a picture of the extents of a checked image, whose first byte has the address
/// `base`, in a file of so many bytes, and flushes it. Returns `Done`. Otherwise `err` says why:
/// `Memory` if memory was refused, and `WriteFault` if a write or the flush failed.
pub fn print_picture<W: ByteWrite, E: ByteWrite>(
    alloc: Global,
    image: &AnyImage<'_>,
    base: u64,
    file: u64,
    out: &mut W,
    err: &mut E,
) -> Ending<'static>
    requires { IsChecked image.now }
    ensures { Finishes (W.output out.new) (E.output err.old) (E.output err.new) result }
{
    let printed = write_image(alloc, image, base, file, out);
    end(out, err, printed)
}
