//! The fields of an inode, read from the accessible bytes of an image (Linux
//! include/uapi/linux/cramfs_fs.h).
ghost use Rattle.std.specs.Prelude.{◌≡◌, ◌+◌, ◌%◌, ◌≤◌, ◌<◌, ◌^◌, length};
ghost use Rattle.cramfs_format.specs.Inode.{block_count, block_start, end_of, gid_of, list_end};
ghost use Rattle.cramfs_format.specs.Inode.{list_start, mode_of, name_room, offset_of, size_of};
ghost use Rattle.cramfs_format.specs.Inode.{type_of, uid_of};

use crate::order::Order;

/// Reads the file type and the permissions of the inode at `at`.
#[tactic(auto, unfolding(crate::specs::Inode::mode_of))]
pub fn mode_at(order: Order, b: &[u8], at: usize) -> u32
    requires { at + 12 ≤ length b.now }
    ensures mode { result ≡ mode_of order b.now at }
    ensures small { result < 2 ^ 16 }
{
    order.first_field(16, order.word(b, at))
}

/// Reads only the file type.
#[tactic(auto, unfolding(crate::specs::Inode::type_of))]
pub fn type_at(order: Order, b: &[u8], at: usize) -> u32
    requires { at + 12 ≤ length b.now }
    ensures { result ≡ type_of order b.now at }
{
    mode_at(order, b, at) / 4_096
}

/// Reads the owner.
#[tactic(auto, unfolding(crate::specs::Inode::uid_of))]
pub fn uid_at(order: Order, b: &[u8], at: usize) -> u32
    requires { at + 12 ≤ length b.now }
    ensures { result ≡ uid_of order b.now at }
{
    order.field_after(16, order.word(b, at))
}

/// Reads the size in bytes, or the numbers of a device.
#[tactic(auto, unfolding(crate::specs::Inode::size_of))]
pub fn size_at(order: Order, b: &[u8], at: usize) -> u32
    requires { at + 12 ≤ length b.now }
    ensures size { result ≡ size_of order b.now at }
    ensures small { result < 2 ^ 24 }
{
    order.first_field(24, order.word(b, at + 4))
}

/// Reads the group.
#[tactic(auto, unfolding(crate::specs::Inode::gid_of))]
pub fn gid_at(order: Order, b: &[u8], at: usize) -> u32
    requires { at + 12 ≤ length b.now }
    ensures { result ≡ gid_of order b.now at }
{
    order.field_after(24, order.word(b, at + 4))
}

/// Reads the length of the name with its padding, in bytes.
#[tactic(auto, unfolding(crate::specs::Inode::name_room))]
pub fn room_at(order: Order, b: &[u8], at: usize) -> u32
    requires { at + 12 ≤ length b.now }
    ensures room { result ≡ name_room order b.now at }
    ensures small { result < 256 }
{
    order.first_field(6, order.word(b, at + 8)) * 4
}

/// Reads the offset at which a list or the block pointers begin.
#[tactic(auto, unfolding(crate::specs::Inode::offset_of, crate::specs::Inode::list_start))]
pub fn offset_at(order: Order, b: &[u8], at: usize) -> u32
    requires { at + 12 ≤ length b.now }
    ensures offset { result ≡ offset_of order b.now at }
    ensures start { result ≡ list_start order b.now at }
    ensures small { result < 2 ^ 28 }
    ensures aligned { result % 4 ≡ 0 }
{
    order.field_after(6, order.word(b, at + 8)) * 4
}

/// Reads the offset at which the list of a directory ends, or 0 for all other types.
#[tactic(auto, unfolding(crate::specs::Inode::list_end))]
pub fn list_end_at(order: Order, b: &[u8], at: usize) -> u32
    requires { at + 12 ≤ length b.now }
    ensures { result ≡ list_end order b.now at }
{
    if type_at(order, b, at) == 4 {
        offset_at(order, b, at) + size_at(order, b, at)
    } else {
        0
    }
}

/// Reads the offset at which the inode ends with its padded name, and the next one of its list
/// begins.
#[tactic(auto, unfolding(crate::specs::Inode::end_of))]
pub fn end_at(order: Order, b: &[u8], at: usize) -> usize
    requires { at + 12 ≤ length b.now }
    ensures end { result ≡ end_of order b.now at }
    ensures near { result < at + 268 }
{
    at + 12 + room_at(order, b, at) as usize
}

/// Counts the blocks of 4,096 bytes that hold `size` bytes.
pub fn blocks_of(size: u32) -> u32
    requires { size < 2 ^ 24 }
    ensures { result ≡ block_count size }
{
    (size + 4_095) / 4_096
}

/// Returns the offset at which the block of a pointer begins.
pub fn start_of(pointer: u32) -> u32
    ensures { result ≡ block_start pointer }
{
    pointer % 1_073_741_824 * 4
}
