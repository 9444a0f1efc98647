//! The numbers of the format (Linux include/uapi/linux/cramfs_fs.h).

/// The first word of an image, in its own byte order.
pub const MAGIC: u32 = 0x28cd_3d45;

/// The bytes of the superblock at 16.
pub const SIGNATURE: [u8; 16] = *b"Compressed ROMFS";

/// The offset of the root's inode, with which the superblock ends.
pub const ROOT: u32 = 64;

/// The length of the superblock with the root's inode. The first list may follow it.
pub const HEAD: usize = 76;

/// The flag for a root whose list may be anywhere.
pub const SHIFTED_ROOT: u32 = 0x400;

/// The least unknown flag. All greater flags are unknown, too.
pub const ALL_FLAGS: u32 = 0x1000;

/// The most accessible bytes of an image that states no size, and the most bytes of an image that
/// is built: 2^28, this project's limit.
pub const MOST_BYTES: u32 = 1 << 28;
