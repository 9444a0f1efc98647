//! One line of a manifest.
ghost use Rattle.std.specs.Prelude.{◌≡◌};
ghost use Rattle.manifest.specs.Lines.{is_dir, is_file};

use crate::names::Name;

/// The word of a line. `Block` and `Character` are the two kinds of `nod`, `Fifo` is `pipe`, and
/// `Socket` is `sock`.
#[derive(Clone, Copy, Debug, PartialEq, Eq)]
pub enum Word {
    /// A directory; for the path `/`, the attributes of the root.
    Dir,
    /// A regular file with the contents of a source.
    File,
    /// A symbolic link.
    Slink,
    /// A block device.
    Block,
    /// A character device.
    Character,
    /// A FIFO.
    Fifo,
    /// A socket.
    Socket,
    /// A further name of the file at an earlier path.
    Hard,
    /// A regular file of its own, with the contents of the file at an earlier path.
    Same,
}

impl Word {
    pub(crate) fn is_dir(self) -> bool
        ensures { result ≡ is_dir self }
    {
        matches!(self, Word::Dir)
    }

    pub(crate) fn is_file(self) -> bool
        ensures { result ≡ is_file self }
    {
        matches!(self, Word::File)
    }
}

/// One line. A field that its word lacks is 0 or empty.
#[derive(Drop)]
pub struct Line {
    /// The line's number in the text, from 1 on; skipped lines count.
    pub number: u64,
    pub word: Word,
    /// The path, from the root on.
    pub path: Name,
    /// The lowest twelve bits of a POSIX mode.
    pub mode: u32,
    /// The owner.
    pub uid: u32,
    /// The group.
    pub gid: u32,
    /// The alignment of the contents, in bytes: their offset is to be a multiple of it.
    pub align: u32,
    /// A device's major number.
    pub major: u32,
    /// A device's minor number.
    pub minor: u32,
    /// The source of `File`, the target of `Slink`, the earlier path of `Hard` and `Same`.
    pub text: Name,
}
