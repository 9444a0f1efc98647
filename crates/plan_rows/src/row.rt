//! A name in its row, and the file that it names.

use rom_tree::Kind;

/// The bytes of a file or of a link.
#[derive(Clone, Copy, Debug, PartialEq, Eq)]
pub enum Bytes<'a> {
    /// None.
    Nothing,
    /// The text of a symbolic link.
    Text(&'a [u8]),
    /// The contents of the source at this index.
    Source(usize),
}

/// A file, whatever names it has.
#[derive(Clone, Copy, Debug, PartialEq, Eq)]
pub struct Inode<'a> {
    /// The number of the line that makes it, or 0 for a root without a line.
    pub line: u64,
    pub kind: Kind,
    /// The lowest twelve bits of a POSIX mode.
    pub mode: u32,
    pub uid: u32,
    pub gid: u32,
    /// A device's numbers; 0 for other files.
    pub major: u32,
    pub minor: u32,
    /// The alignment of its bytes: their offset is to be a multiple of it.
    pub align: u32,
    /// The number of its bytes.
    pub size: u64,
    pub bytes: Bytes<'a>,
}

/// The kind of a name: that of a file which is not a directory, a further name of such a file, or
/// that of a directory.
#[derive(Clone, Copy, Debug, PartialEq, Eq)]
pub enum What {
    Leaf,
    Link,
    Directory,
}

/// A name in its row.
#[derive(Clone, Copy, Debug, PartialEq, Eq)]
pub struct Row<'a> {
    /// The number of names that lead to it, at least 1.
    pub depth: usize,
    pub name: &'a [u8],
    pub what: What,
    /// The file that it names.
    pub inode: Inode<'a>,
}
