//! One record of a planned image.

use manifest::Name;

/// The bytes of a file or of a link.
#[derive(Drop)]
pub enum Fill {
    /// None.
    Nothing,
    /// The text of a symbolic link.
    Text(Name),
    /// The contents of the source at this index.
    File(usize),
}

/// A romfs header or a cramfs inode. All offsets are in bytes, from the image's first byte on.
#[derive(Drop)]
pub struct Item {
    /// The offset of the record.
    pub place: u32,
    /// Its first three words: next with the mode's bits, spec and size, or the three of an inode.
    pub words: [u32; 3],
    /// The name behind them.
    pub name: Name,
    /// The offset of the table of block pointers, or 0 if there is none.
    pub table: u32,
    /// The offset of the bytes, or 0 if there are none.
    pub start: u32,
    /// The number of the bytes.
    pub len: u32,
    /// The bytes.
    pub fill: Fill,
}
