//! The three words of an inode, as `cramfs_layout` has them (Linux include/uapi/linux/cramfs_fs.h).
//! They are computed in 64 bits; those of a layout that fits have 32.
ghost use Rattle.std.specs.Prelude.{◌≡◌, ◌+◌, ◌-◌, ◌*◌, ◌^◌, ◌<◌, ℕ, length};
ghost use Rattle.cramfs_layout.specs.Layout as layout;
ghost use Rattle.plan_rows.specs.Rows.{inode_view};

use cramfs_format::Order;
use plan_rows::Inode;
use rom_fields::pad;
use rom_tree::Kind;

/// Returns the file type, which is the upper four of the sixteen bits of the mode.
fn type_bits(kind: Kind) -> u64
    ensures bits { result ≡ layout.type_bits kind }
    ensures small { result < 16 }
{
    match kind {
        Kind::Directory => 4,
        Kind::Regular => 8,
        Kind::Symlink => 10,
        Kind::Block => 6,
        Kind::Character => 2,
        Kind::Socket => 12,
        Kind::Fifo => 1,
    }
}

/// Returns the size field of a file: for a device, its numbers.
pub fn size_by(inode: &Inode<'_>) -> u64
    requires { inode.now.size < 2 ^ 40 }
    ensures size { result ≡ layout.size_by inode.now.kind (inode_view inode.now) }
    ensures small { result < 2 ^ 41 }
{
    match inode.kind {
        Kind::Block | Kind::Character => inode.major as u64 * 256 + inode.minor as u64,
        Kind::Directory | Kind::Regular | Kind::Symlink => inode.size,
        Kind::Socket | Kind::Fifo => inode.size,
    }
}

/// Returns the word of the mode and the owner.
pub fn first_word(order: Order, inode: &Inode<'_>) -> u64
    ensures { result ≡ layout.first_word order (inode_view inode.now) }
{
    let mode = type_bits(inode.kind) * 4096 + inode.mode as u64;
    order.packed(16, mode, inode.uid as u64)
}

/// Returns the word of a size and the group.
pub fn second_word(order: Order, inode: &Inode<'_>, size: u64) -> u64
    requires { size < 2 ^ 41 }
    ensures { result ≡ layout.second_word order (inode_view inode.now) size }
{
    order.packed(24, size, inode.gid as u64)
}

/// Returns the length of a name with its zeros, in bytes.
fn name_len(name: &[u8]) -> u64
    requires { length name.now < 256 }
    ensures len { result ≡ layout.pad4 (length name.now) }
    ensures short { result < 260 }
{
    pad(name.len() as u64, 4)
}

/// Returns the word of the length of a name and an offset, both in units of 4 bytes.
pub fn third_word(order: Order, name: &[u8], offset: u64) -> u64
    requires short { length name.now < 256 }
    requires near { offset < 2 ^ 52 }
    ensures { result ≡ layout.third_word order name.now offset }
{
    order.packed(6, name_len(name) / 4, offset / 4)
}

/// Returns the length of an inode with its name, in bytes.
pub fn entry_len(name: &[u8]) -> u64
    requires { length name.now < 256 }
    ensures len { result ≡ layout.entry_len name.now }
    ensures short { result < 300 }
{
    12 + name_len(name)
}
