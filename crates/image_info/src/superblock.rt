//! The superblock of an image of each format: the name of its volume, and its lines.
ghost use Rattle.std.specs.Prelude.{◌≡◌, ◌+◌, ◌≤◌, length, take, drop};
ghost use Rattle.rom_fields.specs.Written.{Puts, sink};
ghost use Rattle.image_info.specs.Volumes.{cramfs_volume};
ghost use Rattle.image_info.specs.Info.{romfs_text, cramfs_text};

use crate::line::{put_number, put_text, put_word};
use cramfs_format::Order;
use cramfs_format::superblock::{accessible_size, flags, stored_crc};
use rom_fields::ByteWrite;
use romfs_format::superblock as romfs;
use romfs_format::superblock::upto_zero;

/// The bytes from `at` on.
fn bytes_from<'a>(bytes: &'a [u8], at: usize) -> &'a [u8]
    ensures { result.now ≡ drop at bytes.now }
{
    &bytes[at.min(bytes.len())..]
}

/// The first `len` bytes, or all if there are fewer.
fn first_bytes<'a>(bytes: &'a [u8], len: usize) -> &'a [u8]
    ensures { result.now ≡ take len bytes.now }
{
    &bytes[..len.min(bytes.len())]
}

/// The volume's name in a cramfs image.
#[tactic(auto, unfolding(crate::specs::Volumes::cramfs_volume))]
pub(crate) fn volume_of_cramfs<'a>(bytes: &'a [u8]) -> &'a [u8]
    ensures { result.now ≡ cramfs_volume bytes.now }
{
    upto_zero(first_bytes(bytes_from(bytes, 48), 16))
}

/// Puts the lines of the superblock of a romfs image, except that of the format.
pub(crate) fn put_romfs<W: ByteWrite>(w: &mut W, failed: &mut bool, file: u64, bytes: &[u8])
    requires { 16 ≤ length bytes.now }
    ensures { Puts (sink (W.output w.old) failed.old) (sink (W.output w.new) failed.new)
        (romfs_text file bytes.now) }
{
    put_number(w, failed, b"size ", romfs::stated_size(bytes) as u64);
    put_number(w, failed, b"file ", file);
    put_text(w, failed, b"volume ", romfs::volume(bytes));
    put_word(w, failed, b"sum ", romfs::stored_sum(bytes));
}

/// Puts the lines of the superblock of a cramfs image, except that of the format.
pub(crate) fn put_cramfs<W: ByteWrite>(
    w: &mut W,
    failed: &mut bool,
    file: u64,
    order: Order,
    bytes: &[u8],
)
    requires { 76 ≤ length bytes.now }
    ensures { Puts (sink (W.output w.old) failed.old) (sink (W.output w.new) failed.new)
        (cramfs_text file order bytes.now) }
{
    put_number(w, failed, b"size ", accessible_size(order, bytes) as u64);
    put_number(w, failed, b"file ", file);
    put_text(w, failed, b"volume ", volume_of_cramfs(bytes));
    put_word(w, failed, b"flags ", flags(order, bytes));
    put_word(w, failed, b"sum ", stored_crc(order, bytes));
}
