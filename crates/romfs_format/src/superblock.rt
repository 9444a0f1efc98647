//! The fields of the superblock, read from the bytes of an image (Linux
//! Documentation/filesystems/romfs.rst).
ghost use Rattle.std.specs.Prelude.{◌≡◌, ◌≤◌, ◌↔◌, IsTrue, length, take, drop};
ghost use Rattle.rom_fields.specs.Words.{word_be};
ghost use Rattle.romfs_format.specs.Record.{before_zero};
ghost use Rattle.romfs_format.specs.Tree.{magic, full_size};

use crate::disk::MAGIC;
use crate::header::word;
use memchr::memchr;

/// Returns whether the bytes begin with the magic of romfs.
pub fn begins(bytes: &[u8]) -> bool
    ensures { IsTrue result ↔ (take 8 bytes.now ≡ magic) }
{
    bytes.len() >= 8 && &bytes[..8] == MAGIC.as_slice()
}

/// Reads the full size that an image states, in bytes. It is the number of accessible bytes.
pub fn stated_size(bytes: &[u8]) -> u32
    requires { 12 ≤ length bytes.now }
    ensures { result ≡ full_size bytes.now }
{
    word(bytes, 8)
}

/// Reads the checksum word.
pub fn stored_sum(bytes: &[u8]) -> u32
    requires { 16 ≤ length bytes.now }
    ensures { result ≡ word_be bytes.now 12 }
{
    word(bytes, 12)
}

/// Returns the bytes before the first zero, or all if there is none.
pub fn upto_zero<'a>(bytes: &'a [u8]) -> &'a [u8]
    ensures { result.now ≡ before_zero bytes.now }
{
    match memchr(0, bytes) {
        Some(len) => &bytes[..len],
        None => bytes,
    }
}

/// Reads the name of the volume: the bytes from offset 16 to the first zero.
pub fn volume<'a>(bytes: &'a [u8]) -> &'a [u8]
    ensures { result.now ≡ before_zero (drop 16 bytes.now) }
{
    upto_zero(&bytes[bytes.len().min(16)..])
}
