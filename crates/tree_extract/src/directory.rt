//! A directory that a tree is extracted into.
ghost use Rattle.std.specs.Prelude.{◌≡◌, ◌<◌, ℕ, List, Option, length, IfOk, IfSome};
ghost use Rattle.tree_extract.specs.Log.{Event, MakeDirectory, MakeFile, FinishFile, MakeName};
ghost use Rattle.tree_extract.specs.Log.{MakeSymlink, SetRights, Logs, LogsName};
ghost use Rattle.tree_extract.specs.Members.{Member, kind_at, path_at, bytes_at};
ghost use Rattle.tree_extract.specs.Members.{rights_at, owner_at};
ghost use Rattle.tree_extract.specs.Safe.{IsSafe};
ghost use Rattle.tree_extract.specs.declared.tree.Kind.TheVariants.{Further};

use rom_fields::ByteWrite;

/// A directory that was empty, in which nobody else makes anything. A member of the tree is known
/// by its index. Nothing is made where something is, and each call has to be safe.
pub trait Directory {
    /// The reason why a call was refused.
    type Error: Drop;

    /// A file that was made, and is written to.
    type File: ByteWrite + Drop;

    // The members of the tree.
    ghost members: { Self → List Member };

    // What was asked, newest first.
    ghost log: { Self → List Event };

    // What is known of the bytes of a new file: that it has none, or nothing.
    ghost fresh: { Option (List ℕ) };

    // The reason why not all was written to a file, if the file has it.
    ghost reason: { Self.File → Option Self.Error };

    /// Makes a directory.
    fn make_directory(&mut self, index: usize) -> Result<(), Self::Error>
        requires within { index < length (members self.old) }
        requires safe { IsSafe (log self.old) (MakeDirectory (path_at (members self.old) index)) }
        ensures same { members self.new ≡ members self.old }
        ensures logged { Logs (MakeDirectory (path_at (members self.old) index)) result
            (log self.old) (log self.new) };

    /// Makes an empty file.
    fn make_file(&mut self, index: usize) -> Result<Self::File, Self::Error>
        requires within { index < length (members self.old) }
        requires safe { IsSafe (log self.old) (MakeFile (path_at (members self.old) index)) }
        ensures same { members self.new ≡ members self.old }
        ensures logged { Logs (MakeFile (path_at (members self.old) index)) result
            (log self.old) (log self.new) }
        ensures empty { IfOk result (λ file. (Self.File.output file).contents ≡ fresh) };

    /// Sets the rights of the file that was made last to those of the member, and closes it.
    fn finish_file(&mut self, index: usize, file: Self::File) -> Result<(), Self::Error>
        requires within { index < length (members self.old) }
        requires safe { IsSafe (log self.old) (FinishFile (path_at (members self.old) index)
            (Self.File.output file).contents (rights_at (members self.old) index)) }
        ensures same { members self.new ≡ members self.old }
        ensures logged { Logs (FinishFile (path_at (members self.old) index)
            (Self.File.output file).contents (rights_at (members self.old) index)) result
            (log self.old) (log self.new) };

    /// Returns why not all was written to a file: the file's own reason, if it has one.
    fn unwritten(&self, file: Self::File) -> Self::Error
        ensures { IfSome (reason file) (λ e. result ≡ e) };

    /// Makes a further name of the file at the index `first`, and returns whether the directory can
    /// do that.
    fn make_name(&mut self, index: usize, first: usize) -> Result<bool, Self::Error>
        requires within { index < length (members self.old) }
        requires first { kind_at (members self.old) index ≡ Further first }
        requires first_within { first < length (members self.old) }
        requires safe { IsSafe (log self.old) (MakeName (path_at (members self.old) index)
            (path_at (members self.old) first)) }
        ensures same { members self.new ≡ members self.old }
        ensures logged { LogsName (MakeName (path_at (members self.old) index)
            (path_at (members self.old) first)) result (log self.old) (log self.new) };

    /// Makes a symbolic link of this text, which is that of the member, and gives it the member's
    /// owner.
    fn make_symlink(&mut self, index: usize, text: &[u8]) -> Result<(), Self::Error>
        requires within { index < length (members self.old) }
        requires text { text.now ≡ bytes_at (members self.old) index }
        requires safe { IsSafe (log self.old) (MakeSymlink (path_at (members self.old) index)
            text.now (owner_at (members self.old) index)) }
        ensures same { members self.new ≡ members self.old }
        ensures logged { Logs (MakeSymlink (path_at (members self.old) index) text.now
            (owner_at (members self.old) index)) result (log self.old) (log self.new) };

    /// Sets the rights of a directory that was made to those of the member.
    fn set_rights(&mut self, index: usize) -> Result<(), Self::Error>
        requires within { index < length (members self.old) }
        requires safe { IsSafe (log self.old) (SetRights (path_at (members self.old) index)
            (rights_at (members self.old) index)) }
        ensures same { members self.new ≡ members self.old }
        ensures logged { Logs (SetRights (path_at (members self.old) index)
            (rights_at (members self.old) index)) result (log self.old) (log self.new) };
}
