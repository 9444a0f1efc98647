//! The arguments and results of an image's calls.
ghost use Rattle.std.specs.Prelude.{◌≡◌};

use thiserror::Error;

/// The kind of a node.
#[derive(Clone, Copy, Debug, PartialEq, Eq)]
pub enum Kind {
    Directory,
    Regular,
    Symlink,
    Block,
    Character,
    Socket,
    Fifo,
}

/// The number of a node, by which an image names it.
#[derive(Clone, Copy, Debug, Default, PartialEq, Eq)]
pub struct NodeId(pub u32);

/// A cursor in a directory's list: it names the entry that comes next.
#[derive(Clone, Copy, Default, PartialEq, Eq)]
pub struct Cursor(pub u64);

impl Cursor {
    /// The cursor at the front of each directory's list.
    pub const START: Cursor = Cursor(0);
}

/// The attributes of a node. `size` is the number of bytes of a regular file or of a symbolic
/// link's text, and 0 for other kinds. `major` and `minor` are the numbers of a device.
#[derive(Clone, Copy, Debug, PartialEq, Eq)]
pub struct Stat {
    pub ino: u32,
    pub kind: Kind,
    pub mode: u32,
    pub uid: u32,
    pub gid: u32,
    pub size: u32,
    pub major: u32,
    pub minor: u32,
}

/// Bytes of a file that follow one another in the image: `len` bytes from offset `place` on.
#[derive(Clone, Copy, PartialEq, Eq)]
pub struct Run {
    pub place: u32,
    pub len: u32,
}

/// An entry of a directory, and the cursor of the entry after it.
#[derive(Clone, Copy)]
pub struct Entry<'a> {
    pub name: &'a [u8],
    pub node: NodeId,
    pub cursor: Cursor,
}

/// Bytes of an image, and the offset of the first of them.
#[derive(Clone, Copy)]
pub struct Piece<'a> {
    pub place: u32,
    pub bytes: &'a [u8],
}

/// The limits of a check: at most `references` references to records, including the superblock's,
/// and at most `depth` names on the way to an entry (more than 64 counts as 64).
#[derive(Clone, Copy, PartialEq, Eq)]
pub struct Limits {
    pub references: u32,
    pub depth: u32,
}

impl Limits {
    /// Returns the usual limits: 1,048,576 references and 64 names.
    pub fn usual() -> Limits
        ensures references { result.references ≡ 1048576 }
        ensures depth { result.depth ≡ 64 }
    {
        Limits {
            references: 1_048_576,
            depth: 64,
        }
    }
}

/// What a check found in a valid image: the number of its references, and the greatest number of
/// names from the root to a node.
#[derive(Clone, Copy, Debug, PartialEq, Eq)]
pub struct Report {
    pub references: u32,
    pub depth: u32,
}

/// The reason why a list was not written whole.
#[derive(Clone, Copy, Debug, PartialEq, Eq, Error)]
pub enum ListError {
    #[error("a write failed")]
    WriteFault,
}

/// The error of a path that does not fit in a buffer.
#[derive(Clone, Copy, Debug, PartialEq, Eq, Error)]
#[error("no room for a path")]
pub struct NoRoom;
