//! A reference from one record of an image to another, and the record that it leads to.

/// One reference of an image: the offset of the record that makes it (0 for the superblock, which
/// is no record), and which of that record's references it is. Each format decides what `which`
/// counts.
#[derive(Clone, Copy, Debug, PartialEq, Eq)]
pub struct Reference {
    pub source: u32,
    pub which: u32,
}

/// A reference with the offset of the record that it leads to, or `None` if it leads to none, as
/// after the last record of a list.
#[derive(Clone, Copy)]
pub struct Edge {
    pub reference: Reference,
    pub target: Option<u32>,
}

/// The references that follow from a reference to a valid record: one to the first record of its
/// own list, and one to the next record of the list that it is in.
#[derive(Clone, Copy)]
pub struct Edges {
    pub own: Edge,
    pub after: Edge,
}

/// A record that a traversal met: its offset, the reference that led there, the directory that has
/// it in its list, that directory's own directory, and the number of names from the root to it.
#[derive(Clone, Copy, Debug, PartialEq, Eq)]
pub struct Row {
    pub offset: u32,
    pub reference: Reference,
    pub directory: u32,
    pub parent: u32,
    pub depth: u32,
}
