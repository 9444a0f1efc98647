//! What differs between the formats.
ghost use Rattle.std.specs.Prelude.{◌≡◌, IfOk};
ghost use Rattle.rom_fields.specs.Written.{Puts, sink};
ghost use Rattle.image_info.specs.Gaps.{gaps_of, IsChecked};
ghost use Rattle.image_info.specs.Info.{fields_text, superblock_text};
ghost use Rattle.image_info.specs.Volumes.{volume_of};

use crate::counting::{count_cramfs, count_romfs};
use crate::line::put_plain;
use crate::superblock::{put_cramfs, put_romfs, volume_of_cramfs};
use image_check::AnyImage;
use rom_fields::{ByteWrite, OutOfMemory};
use rom_tree::TreeImage;
use romfs_format::superblock as romfs;
use std::alloc::Global;

/// Returns the name of an image's volume, as it is in the image. In romfs it is the bytes from
/// offset 16 to the first zero (Linux Documentation/filesystems/romfs.rst). In cramfs it is the
/// bytes of the field of 16 bytes at 48, to the first zero (include/uapi/linux/cramfs_fs.h). It may
/// be empty, and may have any byte except zero.
pub fn volume<'a>(image: &AnyImage<'a>) -> &'a [u8]
    ensures { result.now ≡ volume_of image.now }
{
    match image {
        AnyImage::Romfs(image) => romfs::volume(image.bytes()),
        AnyImage::Cramfs(image) => volume_of_cramfs(image.bytes()),
    }
}

/// Puts the lines of an image's superblock, except that of the format.
fn put_fields<W: ByteWrite>(w: &mut W, failed: &mut bool, file: u64, image: &AnyImage<'_>)
    ensures { Puts (sink (W.output w.old) failed.old) (sink (W.output w.new) failed.new)
        (fields_text file image.now) }
{
    match image {
        AnyImage::Romfs(image) => put_romfs(w, failed, file, image.bytes()),
        AnyImage::Cramfs(image) => put_cramfs(w, failed, file, image.parts().order, image.bytes()),
    }
}

/// Puts the lines of an image's superblock.
pub(crate) fn put_superblock<W: ByteWrite>(
    w: &mut W,
    failed: &mut bool,
    file: u64,
    image: &AnyImage<'_>,
)
    ensures { Puts (sink (W.output w.old) failed.old) (sink (W.output w.new) failed.new)
        (superblock_text file image.now) }
{
    put_plain(w, failed, b"format ", image.format().name().as_bytes());
    put_fields(w, failed, file, image);
}

/// Counts the accessible bytes of an image that nothing uses: no superblock, record with its name,
/// list, table or contents. The records are read again. For r records and w block pointers, the
/// time grows as n log n, with n = r + w. The memory is some 120 bytes a record, and in cramfs 24
/// for each whole block that does not begin where the one before it in its file ends. (Time and
/// memory are not proved.)
///
/// # Errors
///
/// `OutOfMemory` if memory is refused.
pub fn count_gaps(alloc: Global, image: &AnyImage<'_>) -> Result<u32, OutOfMemory>
    requires { IsChecked image.now }
    ensures { IfOk result (λ n. n ≡ gaps_of image.now) }
{
    match image {
        AnyImage::Romfs(image) => count_romfs(alloc, image),
        AnyImage::Cramfs(image) => count_cramfs(alloc, image),
    }
}
