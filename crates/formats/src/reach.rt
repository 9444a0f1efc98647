//! The size that an image states.
ghost use Rattle.std.specs.Prelude.{◌≡◌, ◌≢◌, ◌≤◌, ◌↔◌, IsTrue, length, max, min, take};
ghost use Rattle.formats.specs.Reach.{IsSumRefused, Reaches, size_in};
ghost use Rattle.rom_fields.specs.Words.{words_sum};
ghost use Rattle.romfs_format.specs.Tree.{full_size};

use cramfs_format::disk::MOST_BYTES;
use cramfs_format::superblock::{has_size, order_in};
use cramfs_format::{Order, superblock as cramfs};
use rom_fields::word_sum;
use romfs_format::superblock::{begins, stated_size};

/// The number of bytes at the front of a file that determine the length to which its image reaches.
pub const HEAD: usize = 76;

/// The number of bytes at the front of a file that determine whether the sum of a romfs image is
/// right.
pub const SUMMED: usize = 512;

/// The size that a romfs image states, and at least 76.
fn romfs_size(head: &[u8]) -> u64
    requires { 76 ≤ length head.now }
    ensures { result ≡ max 76 (full_size head.now) }
{
    u64::from(stated_size(head)).max(HEAD as u64)
}

/// The size that a cramfs image in this byte order states, and at least 76; or 2^28 if it states
/// none.
fn cramfs_size(order: Order, head: &[u8]) -> u64
    requires { 76 ≤ length head.now }
    ensures { result ≡ size_in order head.now }
{
    if has_size(order, head) {
        let size = cramfs::stated_size(order, head);
        return u64::from(size).max(HEAD as u64);
    }
    MOST_BYTES as u64
}

/// Returns the number of bytes at the front of a file that a check of it looks at. `head` is the
/// first 76 bytes, or all if there are fewer. The number is the size that a romfs or a cramfs image
/// states, and at least 76; 2^28 for a cramfs image that states none; and 76 for bytes of no
/// format.
pub fn reach_of(head: &[u8]) -> u64
    ensures { Reaches head.now result }
{
    if head.len() < HEAD {
        return HEAD as u64;
    }
    if begins(head) {
        return romfs_size(head);
    }
    if let Some(order) = order_in(head) {
        return cramfs_size(order, head);
    }
    HEAD as u64
}

/// Whether the front has all bytes that the sum of a romfs image of this size is over, and the sum
/// is wrong.
fn is_sum_wrong(front: &[u8], size: u32) -> bool
    ensures { IsTrue result ↔ ((min 512 size ≤ length front.now)
        × (words_sum (take (min 512 size) front.now) ≢ 0)) }
{
    let summed = (size as usize).min(SUMMED);
    summed <= front.len() && word_sum(&front[..summed]) != 0
}

/// Returns whether the first 512 bytes of a file of `len` bytes (or all if there are fewer) refuse
/// it. They begin a romfs image of a size that the file has, and its sum is wrong. This is then the
/// fault of the whole file (`laws::refused`).
pub fn is_sum_refused(front: &[u8], len: u64) -> bool
    ensures { IsTrue result ↔ IsSumRefused front.now len }
{
    if front.len() < HEAD || !begins(front) {
        return false;
    }
    let size = stated_size(front);
    size >= 32 && u64::from(size) <= len && is_sum_wrong(front, size)
}
