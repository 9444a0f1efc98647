//! Whether an image fits into a number of bytes.
ghost use Rattle.std.specs.Prelude.{◌≡◌, nat_lt, not, IfOk, IfErr};
ghost use Rattle.rom_fields.specs.Failures.{Counts};
ghost use Rattle.rom_fields.specs.Written.{Puts, WritesText, sink};
ghost use Rattle.image_check.specs.Any.{size_of};
ghost use Rattle.image_info.specs.Gaps.{gaps_of, IsChecked};
ghost use Rattle.image_info.specs.declared.info.InfoError.TheVariants as info;
ghost use Rattle.image_info.specs.Info.{number_line};
ghost use Rattle.rom_commands.specs.Room.{fits_word, room_lines};

use image_check::AnyImage;
use image_info::{InfoError, count_gaps};
use rom_fields::{ByteWrite, Failed, put, put_long_decimal};
use std::alloc::Global;

/// Returns the number of bytes of an image, as its superblock states it.
pub(crate) fn image_size(image: &AnyImage<'_>) -> u64
    ensures { result ≡ size_of image.now }
{
    image.size() as u64
}

/// How many of these bytes are unused.
pub(crate) fn free_bytes(alloc: Global, image: &AnyImage<'_>) -> Result<u64, InfoError>
    requires { IsChecked image.now }
    ensures ok { IfOk result (λ n. n ≡ gaps_of image.now) }
    ensures err { IfErr result (λ e. e ≡ info.OutOfMemory) }
{
    match count_gaps(alloc, image) {
        Ok(gaps) => Ok(gaps as u64),
        Err(_) => Err(InfoError::OutOfMemory),
    }
}

/// The word that says whether a size is within a limit.
fn fits_word(size: u64, limit: u64) -> &'static [u8]
    ensures { result.now ≡ fits_word (not (nat_lt limit size)) }
{
    if limit < size { b"no" } else { b"yes" }
}

/// Puts a key, a number in decimal digits, and a line feed.
fn put_number<W: ByteWrite>(w: &mut W, failed: &mut bool, key: &[u8], n: u64)
    ensures { Puts (sink (W.output w.old) failed.old) (sink (W.output w.new) failed.new)
        (number_line key.now n) }
{
    put(w, failed, key);
    put_long_decimal(w, failed, n);
    put(w, failed, b"\n");
}

/// Writes how many bytes are free, whether the image fits, and how many bytes are left.
pub(crate) fn write_room<W: ByteWrite>(
    w: &mut W,
    free: u64,
    size: u64,
    limit: u64,
) -> Result<(), Failed>
    ensures text { WritesText (W.output w.old).contents (W.output w.new).contents result
        (room_lines free size limit) }
    ensures count { Counts (W.output w.old).failures (W.output w.new).failures result }
{
    let mut failed = false;
    put_number(w, &mut failed, b"free ", free);
    put(w, &mut failed, b"fits ");
    put(w, &mut failed, fits_word(size, limit));
    put(w, &mut failed, b"\n");
    put_number(w, &mut failed, b"left ", limit.saturating_sub(size));
    if failed { Err(Failed) } else { Ok(()) }
}
