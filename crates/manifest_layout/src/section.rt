//! Bytes of a planned image that are together.

/// What a section holds. Items are counted from 0 on.
#[derive(Clone, Copy, Debug, PartialEq, Eq)]
pub enum Body {
    /// The superblock, in cramfs with the root's inode.
    Super,
    /// The header or inode of an item, with its name.
    Record { item: usize },
    /// The block pointers of an item.
    Table { item: usize },
    /// The text of an item that is a link.
    Text { item: usize },
    /// The contents of a source.
    Content { file: usize },
}

/// A section: its offset, its length in bytes, and what it holds.
#[derive(Clone, Copy, Debug, PartialEq, Eq)]
pub struct Section {
    pub place: u32,
    pub len: u32,
    pub body: Body,
}
