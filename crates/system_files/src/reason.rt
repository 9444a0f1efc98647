//! Why a file is refused.
use std::alloc::{AllocError, AllocFailed};
use std::io;

/// Why this program refuses a file that the system would let it use.
#[derive(Clone, Copy, Debug, PartialEq, Eq)]
pub enum Reason {
    /// A source is a directory, a device, a FIFO or a socket.
    NotRegular,
    /// The file that is to be scanned or filled is no directory.
    NotADirectory,
    /// A source is a symbolic link, and none is followed.
    SourceLink,
    /// A source changed while it was read.
    SourceChanged,
    /// A source has another length than the system reported.
    SourceUnread,
    /// A manifest is longer than it may be.
    ManifestTooLong,
    /// A line of a device is longer than that of a manifest.
    LineTooLong,
    /// The environment does not say how large images may be.
    NoMaxSize,
    /// A device of overlayfs stands for a name that was removed.
    Whiteout,
    /// A file is of a kind that no manifest has.
    NoKind,
    /// A directory has a name that is no UTF-8.
    ForeignName,
    /// The text of a scanned link is no UTF-8.
    ForeignLink,
    /// A file or a directory changed during a scan.
    ScanChanged,
    /// Owners and devices would not be those that fakeroot or pseudo shows.
    Faked,
    /// Another file has the name now.
    Replaced,
    /// Symbolic links lead to one another.
    TooManyLinks,
    /// A link to the file that is written is another user's, or another user may replace it.
    LinkToOutput,
    /// The file that is to be replaced belongs to another user, in a directory such as `/tmp`.
    OutputOfAnother,
    /// No name is left for the part of a build.
    HundredParts,
    /// A file system on the block device, or on a partition of it, is mounted.
    Mounted,
    /// Swap space is on the block device, or on a partition of it.
    Swapped,
    /// A directory that is to be filled is not empty.
    NotEmpty,
    /// A directory that is to be filled belongs to another user, who could change it meanwhile.
    OfAnotherUser,
    /// Other users may replace what is made in the directory.
    OpenToOthers,
    /// Another user made the link to the directory, or may replace it.
    LinkOfAnother,
    /// The empty file that shows the process's mask could not be removed.
    ProbeLeft,
    /// A name of an image is longer than the system allows.
    NameUnfit,
    /// A name is no UTF-8.
    NoText,
    /// The system does not allow the text of a link.
    LinkUnfit,
    /// The system took not all of a file.
    FileNotTaken,
}

/// Why something about a file was refused.
#[derive(Clone, Copy)]
pub enum Refusal {
    /// The system's error.
    System(io::Error),
    /// What this program requires.
    Reason(Reason),
    /// So many bytes of an image would be read, of which the option or the variable of this name
    /// allows fewer.
    TooLong {
        bytes: u64,
        most: u64,
        by: &'static str,
    },
}

impl Refusal {
    /// Returns whether it was memory that was refused.
    pub fn is_memory(&self) -> bool {
        match self {
            Refusal::System(e) => e.kind() == io::ErrorKind::OutOfMemory,
            Refusal::Reason(_) | Refusal::TooLong { .. } => false,
        }
    }
}

impl From<io::Error> for Refusal {
    fn from(e: io::Error) -> Refusal {
        Refusal::System(e)
    }
}

impl From<Reason> for Refusal {
    fn from(reason: Reason) -> Refusal {
        Refusal::Reason(reason)
    }
}

impl From<AllocError> for Refusal {
    fn from(_: AllocError) -> Refusal {
        Refusal::System(io::Error::from(io::ErrorKind::OutOfMemory))
    }
}

impl<T: Drop> From<AllocFailed<T>> for Refusal {
    fn from(_: AllocFailed<T>) -> Refusal {
        Refusal::System(io::Error::from(io::ErrorKind::OutOfMemory))
    }
}
