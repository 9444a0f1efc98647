//! Records and extents of an image.
ghost use Rattle.std.specs.Prelude.{◌≡◌, ◌+◌};

/// What an extent holds.
#[derive(Clone, Copy, PartialEq, Eq)]
pub enum Kind {
    /// The superblock: in romfs all bytes before the first header, in cramfs 76 bytes.
    Super,
    /// The header of a romfs record with its padded name.
    Header,
    /// The entries of a cramfs directory.
    List,
    /// The block pointers of a cramfs file or link.
    Table,
    /// The contents of a file, or the text of a link.
    Data,
}

/// A record of an image, in the order of a list. The first one is the root, and has no name.
#[derive(Clone, Copy, PartialEq, Eq)]
pub struct Record {
    /// The offset of the record.
    pub offset: u32,
    /// The offset of its name.
    pub name: u32,
    /// The number of bytes of its name.
    pub length: u32,
    /// The number of the directory that lists it, counted from 0.
    pub directory: usize,
}

/// Bytes that belong to one record.
#[derive(Clone, Copy, PartialEq, Eq)]
pub struct Extent {
    /// What the bytes hold.
    pub kind: Kind,
    /// The offset of the first byte in the image.
    pub start: u32,
    /// The number of bytes.
    pub len: u32,
    /// For data: the offset of the first byte in the contents.
    pub offset: u32,
    /// The number of the record that has the bytes.
    pub owner: usize,
}

/// The records of an image in the order of a list, and their extents in the order of offset.
/// Extents of one offset are in the order of their records. Of records with the same block
/// pointers, only the first has extents here: the others have the same bytes.
#[derive(Drop)]
pub struct Extents<'a> {
    /// The accessible bytes.
    pub bytes: &'a [u8],
    pub records: Vec<Record>,
    /// For each record the number of the next one with its block pointers, if there is one.
    pub next: Vec<Option<usize>>,
    pub extents: Vec<Extent>,
}

/// Where an extent ends.
pub(crate) fn end(x: Extent) -> u64
    ensures { result ≡ x.start + x.len }
{
    u64::from(x.start) + u64::from(x.len)
}
