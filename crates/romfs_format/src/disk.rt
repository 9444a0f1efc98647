//! The numbers of the format (Linux Documentation/filesystems/romfs.rst).

/// The bytes with which an image begins.
pub const MAGIC: [u8; 8] = *b"-rom1fs-";

/// The most bytes of an image that is built: 2^28, this project's limit.
pub const MOST_BYTES: u32 = 1 << 28;
