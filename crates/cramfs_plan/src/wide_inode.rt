//! An inode with its name, and the offsets of its bytes.

use plan_rows::Bytes;

/// An inode with its name and its offset. Its numbers are those of the format, in 64 bits.
#[derive(Clone, Copy, PartialEq, Eq)]
pub struct WideInode<'a> {
    pub place: u64,
    pub words: [u64; 3],
    pub name: &'a [u8],
    pub table: u64,
    pub start: u64,
    pub len: u64,
    pub bytes: Bytes<'a>,
}
