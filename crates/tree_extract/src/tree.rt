//! A tree that is extracted.
ghost use Rattle.std.specs.Prelude.{◌≡◌, ◌<◌, ◌⊎◌, List, length, true, OnOk};
ghost use Rattle.std.specs.Io.KnownBytes.{Appends};
ghost use Rattle.tree_extract.specs.Extracted.{is_file};
ghost use Rattle.tree_extract.specs.Members.{Member, kind_at, bytes_at};
ghost use Rattle.tree_extract.specs.declared.tree.Kind.TheVariants.{Symlink as ALink};

use rom_fields::{ByteWrite, Failed};

/// What is made of a member of a tree.
#[derive(Clone, Copy, Debug, PartialEq, Eq)]
pub enum Kind {
    Directory,
    /// A regular file.
    File,
    /// A further name of the regular file at this index.
    Further(usize),
    Symlink,
    /// Nothing is made. The directory that is extracted into exists, and no device, pipe or socket
    /// is made.
    Nothing,
}

/// The numbers of an owner and a group.
#[derive(Clone, Copy, Debug, PartialEq, Eq)]
pub struct Owner {
    pub uid: u32,
    pub gid: u32,
}

/// The mode and the owner of what is made. Without an owner, it stays with the user of the process.
#[derive(Clone, Copy, Debug, PartialEq, Eq)]
pub struct Rights {
    pub mode: u32,
    pub owner: Option<Owner>,
}

/// A tree that is extracted. Each member has an index.
pub trait Tree {
    // The members.
    ghost members: { Self → List Member };

    /// Returns the number of members.
    fn len(&self) -> usize
        ensures { result ≡ length (members self.now) };

    /// Returns what is made of the member at an index.
    fn kind(&self, index: usize) -> Kind
        requires within { index < length (members self.now) }
        ensures { result ≡ kind_at (members self.now) index };

    /// Writes the contents of the file at an index.
    fn write_contents<W: ByteWrite>(&self, index: usize, w: &mut W) -> Result<(), Failed>
        requires within { index < length (members self.now) }
        requires file { is_file (kind_at (members self.now) index) ≡ true }
        ensures { OnOk result (Appends (W.output w.old).contents (W.output w.new).contents
            (bytes_at (members self.now) index)) };

    /// Returns the text of the symbolic link at an index.
    fn link_text(&self, index: usize) -> &[u8]
        requires within { index < length (members self.now) }
        requires link { kind_at (members self.now) index ≡ ALink }
        ensures { result.now ≡ bytes_at (members self.now) index };
}
