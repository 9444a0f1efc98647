//! The digests of the files of an image, or that of the image.
ghost use Rattle.std.specs.Prelude.{◌≤◌};
ghost use Rattle.rom_tree.specs.Tree.{IsShallow};
ghost use Rattle.image_check.specs.Any.{any_view};
ghost use Rattle.rom_commands.specs.Ends.{Ends, Writes};
ghost use Rattle.rom_commands.specs.Texts.{IsDigest, IsDigests, NeverStops, StopsDigests};

use crate::ending::Ending;
use crate::inspected::end;
use image_check::AnyImage;
use image_compare::{DigestError, write_digests, write_image_digest};
use rom_fields::ByteWrite;
use std::alloc::Global;

/// Writes the digests of the files of an image.
fn write_all<W: ByteWrite>(alloc: Global, image: &AnyImage<'_>, w: &mut W) -> Ending<'static>
    requires { IsShallow (any_view image.now).tree }
    ensures { Writes (IsDigests (any_view image.now)) (StopsDigests (any_view image.now))
        (W.output w.old) (W.output w.new) result }
{
    match write_digests(alloc, image, w) {
        Ok(()) => Ending::Done,
        Err(DigestError::LongPath) => Ending::LongPath,
        Err(DigestError::WriteFault) => Ending::WriteFault,
    }
}

/// Writes the digest of an image.
fn write_one<W: ByteWrite>(bytes: &[u8], w: &mut W) -> Ending<'static>
    ensures { Writes (IsDigest bytes.now) NeverStops (W.output w.old) (W.output w.new) result }
{
    match write_image_digest(bytes, w) {
        Ok(()) => Ending::Done,
        Err(_) => Ending::WriteFault,
    }
}

/// Prints the digests of the files of an image to `out`, each a line as `sha256sum` has it, and
/// flushes it. Returns `Done`. Otherwise `err` says why: `WriteFault` if a write or the flush
/// failed, and `LongPath` if the path of a regular file has more than 16,384 bytes.
pub fn print_digests<W: ByteWrite, E: ByteWrite>(
    alloc: Global,
    image: &AnyImage<'_>,
    out: &mut W,
    err: &mut E,
) -> Ending<'static>
    requires { IsShallow (any_view image.now).tree }
    ensures { Ends (IsDigests (any_view image.now)) (StopsDigests (any_view image.now))
        (W.output out.old) (W.output out.new) (E.output err.old) (E.output err.new) result }
{
    let printed = write_all(alloc, image, out);
    end(out, err, printed)
}

/// Prints the digest of an image with these bytes to `out`, a line as `sha256sum` has it for its
/// standard input, and flushes it. Returns `Done`; or `WriteFault` if a write or the flush failed,
/// and `err` says so.
pub fn print_image_digest<W: ByteWrite, E: ByteWrite>(
    bytes: &[u8],
    out: &mut W,
    err: &mut E,
) -> Ending<'static>
    ensures { Ends (IsDigest bytes.now) NeverStops (W.output out.old) (W.output out.new)
        (E.output err.old) (E.output err.new) result }
{
    let printed = write_one(bytes, out);
    end(out, err, printed)
}
