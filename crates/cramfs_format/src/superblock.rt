//! The fields of the superblock, read from the bytes of an image (Linux
//! include/uapi/linux/cramfs_fs.h).
ghost use Rattle.std.specs.Prelude.{◌≡◌, ◌≤◌, IfSome, IfNone, length};
ghost use Rattle.cramfs_format.specs.Order.{word as word_of};
ghost use Rattle.cramfs_format.specs.Superblock.{accessible_size as size_of, has_crc, magic};
ghost use Rattle.cramfs_format.specs.Superblock.{order_of};

use crate::disk::{MAGIC, MOST_BYTES};
use crate::order::Order;

/// Returns the byte order in which the bytes begin with the magic of cramfs, or `None` if they do
/// not.
#[tactic(auto, unfolding(crate::specs::Superblock::order_of))]
pub fn order_in(bytes: &[u8]) -> Option<Order>
    ensures order { IfSome result (λ o. o ≡ order_of bytes.now) }
    ensures begins { IfSome result (λ o. (4 ≤ length bytes.now) × (word_of o bytes.now 0 ≡ magic)) }
    ensures other { IfNone result ((4 ≤ length bytes.now)
        × (word_of (order_of bytes.now) bytes.now 0 ≡ magic) → ⊥) }
{
    if bytes.len() < 4 {
        return None;
    }
    if Order::Big.word(bytes, 0) == MAGIC {
        return Some(Order::Big);
    }
    if Order::Little.word(bytes, 0) == MAGIC {
        return Some(Order::Little);
    }
    None
}

/// Returns whether the image states its size and its CRC: the lowest flag.
pub fn has_size(order: Order, bytes: &[u8]) -> bool
    requires { 76 ≤ length bytes.now }
    ensures { result ≡ has_crc order bytes.now }
{
    flags(order, bytes) % 2 == 1
}

/// Reads the flags.
pub fn flags(order: Order, bytes: &[u8]) -> u32
    requires { 76 ≤ length bytes.now }
    ensures { result ≡ word_of order bytes.now 8 }
{
    order.word(bytes, 8)
}

/// Reads the size that the image states, in bytes, if it states one.
pub fn stated_size(order: Order, bytes: &[u8]) -> u32
    requires { 76 ≤ length bytes.now }
    ensures { result ≡ word_of order bytes.now 4 }
{
    order.word(bytes, 4)
}

/// Reads the stored CRC.
pub fn stored_crc(order: Order, bytes: &[u8]) -> u32
    requires { 76 ≤ length bytes.now }
    ensures { result ≡ word_of order bytes.now 32 }
{
    order.word(bytes, 32)
}

/// Returns the number of accessible bytes: the size that the image states, or, if it states none,
/// the number of all bytes, up to 2^28.
#[tactic(auto, unfolding(crate::specs::Superblock::accessible_size))]
pub fn accessible_size(order: Order, bytes: &[u8]) -> u32
    requires { 76 ≤ length bytes.now }
    ensures { result ≡ size_of order bytes.now }
{
    if has_size(order, bytes) {
        stated_size(order, bytes)
    } else {
        bytes.len().min(MOST_BYTES as usize) as u32
    }
}
