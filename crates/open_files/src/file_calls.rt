//! The calls on one image with open files.
ghost use Rattle.std.specs.Prelude.{◌≡◌, ◌≤◌, ℕ, length, take, drop, Option, Some, None, Ok, Err};
ghost use Rattle.std.specs.Prelude.{MatchResult, MatchOption, option_map};
ghost use Rattle.std.specs.Io.{ReadsAtMost};
ghost use Rattle.rom_tree.specs.Tree.{IsShallow};
ghost use Rattle.open_files.specs.Calls.{Of, Named, answer, viewed};
ghost use Rattle.open_files.specs.Machine.{no_files};
ghost use Rattle.open_files.specs.Slots.{unlabelled, lent_by, named_by};
ghost use Rattle.open_files.specs.Seen.{held, image_in, table, calls, EntryLeadsOn, IsNamePart};

use crate::error::CallError;
use crate::files::Files;
use crate::one_image;
use crate::slot::{Fd, Slots};
use rom_tree::{Entry, NodeId, Piece, Stat, TreeImage};
use std::marker::PhantomData;

impl<'a, T: TreeImage<'a>, const N: usize> Files<'a, T, N> {
    /// Makes a value with nothing open. Directories of the image may be 64 deep, and N is at most
    /// 65,536.
    pub fn new(image: T) -> Self
        requires narrow { N ≤ 65536 }
        requires deep { IsShallow (T.image image).tree }
        ensures image { held result ≡ image }
        ensures empty { table result ≡ no_files N }
    {
        Files {
            image,
            slots: Slots::new(),
            borrows: PhantomData,
        }
    }

    /// Returns the node to which a path leads. A symbolic link as the last component is followed.
    ///
    /// # Errors
    ///
    /// Those of `path_walk::walk`.
    pub fn lookup(&mut self, path: &[u8]) -> Result<NodeId, CallError>
        ensures reply { (calls self.old).lookup (table self.old) path.now
            ≡ answer (viewed (unlabelled (λ n. n.0)) result) (table self.new) }
        ensures image { image_in self.new ≡ image_in self.old }
    {
        one_image::lookup(&mut self.image, path)
    }

    /// Returns the kind and numbers of the node to which a path leads. A symbolic link as the last
    /// component is followed.
    ///
    /// # Errors
    ///
    /// Those of `path_walk::walk`.
    pub fn stat(&mut self, path: &[u8]) -> Result<Stat, CallError>
        ensures reply { (calls self.old).stat (table self.old) path.now
            ≡ answer (viewed (unlabelled (λ s. s)) result) (table self.new) }
        ensures image { image_in self.new ≡ image_in self.old }
    {
        one_image::stat(&mut self.image, path)
    }

    /// Returns the kind and numbers of the node to which a path leads. A symbolic link as the last
    /// component is not followed.
    ///
    /// # Errors
    ///
    /// Those of `path_walk::walk`.
    pub fn lstat(&mut self, path: &[u8]) -> Result<Stat, CallError>
        ensures reply { (calls self.old).lstat (table self.old) path.now
            ≡ answer (viewed (unlabelled (λ s. s)) result) (table self.new) }
        ensures image { image_in self.new ≡ image_in self.old }
    {
        one_image::lstat(&mut self.image, path)
    }

    /// Returns the text of the symbolic link to which a path leads, and its offset in the image.
    ///
    /// # Errors
    ///
    /// Those of `path_walk::walk`, then `Einval` if the node is no link.
    pub fn readlink(&mut self, path: &[u8]) -> Result<Piece<'a>, CallError>
        ensures reply { (calls self.old).readlink (table self.old) path.now
            ≡ answer (viewed (unlabelled lent_by) result) (table self.new) }
        ensures image { image_in self.new ≡ image_in self.old }
    {
        one_image::readlink(&mut self.image, path)
    }

    /// Opens the directory or regular file to which a path leads, at its first byte or entry.
    /// Returns the lowest free descriptor below N. A symbolic link as the last component is
    /// followed.
    ///
    /// # Errors
    ///
    /// Those of `path_walk::walk`, then `Enxio` if the node is neither, then `Emfile` if all N
    /// descriptors are open.
    pub fn open(&mut self, path: &[u8]) -> Result<Fd, CallError>
        ensures reply { (calls self.old).open_path (table self.old) path.now
            ≡ answer (viewed (λ d. d.0) result) (table self.new) }
        ensures image { image_in self.new ≡ image_in self.old }
    {
        one_image::open(&mut self.image, &mut self.slots, path)
    }

    /// Returns the kind and numbers of an open node.
    ///
    /// # Errors
    ///
    /// `Ebadf` if the descriptor is not open.
    pub fn fstat(&self, fd: Fd) -> Result<Stat, CallError>
        ensures { (calls self.now).fstat (table self.now) fd.0
            ≡ answer (viewed (unlabelled (λ s. s)) result) (table self.now) }
    {
        one_image::fstat(&self.image, &self.slots, fd)
    }

    /// Copies the next bytes of an open file to the front of a buffer, and returns their number:
    /// the lesser of the buffer's length and of the rest of the file. The position moves by this
    /// number. The rest of the buffer does not change, nor does any of it after a refusal.
    ///
    /// # Errors
    ///
    /// `Ebadf` if the descriptor is not open, `Eisdir` if it is a directory.
    pub fn read(&mut self, fd: Fd, buf: &mut [u8]) -> Result<usize, CallError>
        ensures reply { (calls self.old).read_bytes (table self.old) fd.0 (length buf.old)
            ≡ answer (viewed (λ n. take n buf.new) result) (table self.new) }
        ensures bound { ReadsAtMost result buf.new }
        ensures rest { MatchResult result (λ n. drop n buf.new ≡ drop n buf.old)
            (λ e. buf.new ≡ buf.old) }
        ensures image { image_in self.new ≡ image_in self.old }
    {
        one_image::read(&self.image, &mut self.slots, fd, buf)
    }

    /// Lends the next bytes of an open file: as many of at most `max` as follow one another in the
    /// image, also past the end of a block if the next block adjoins. The position moves by their
    /// number. The piece is a part of the image's bytes and outlives the descriptor. An empty piece
    /// has `place` 0.
    ///
    /// # Errors
    ///
    /// `Ebadf` if the descriptor is not open, `Eisdir` if it is a directory.
    pub fn lend(&mut self, fd: Fd, max: u64) -> Result<Piece<'a>, CallError>
        ensures reply { (calls self.old).lend_piece (table self.old) fd.0 max
            ≡ answer (viewed (unlabelled lent_by) result) (table self.new) }
        ensures image { image_in self.new ≡ image_in self.old }
    {
        one_image::lend(&self.image, &mut self.slots, fd, max)
    }

    /// Lends exactly the `len` bytes of an open file from byte `off` on, for any position of the
    /// file.
    ///
    /// # Errors
    ///
    /// In this order: `Ebadf` if the descriptor is not open, `Eisdir` if it is a directory,
    /// `Einval` if `len` is 0 or the range does not end within the file, `Erange` if the bytes do
    /// not follow one another in the image.
    pub fn map(&self, fd: Fd, off: u64, len: u64) -> Result<Piece<'a>, CallError>
        ensures { (calls self.now).map_piece (table self.now) fd.0 off len
            ≡ answer (viewed (unlabelled lent_by) result) (table self.now) }
    {
        one_image::map(&self.image, &self.slots, fd, off, len)
    }

    /// Sets the position of an open file, which may be past its end.
    ///
    /// # Errors
    ///
    /// `Ebadf` if the descriptor is not open, `Eisdir` if it is a directory.
    pub fn seek(&mut self, fd: Fd, position: u64) -> Result<(), CallError>
        ensures reply { (calls self.old).seek_to (table self.old) fd.0 position
            ≡ answer result (table self.new) }
        ensures image { image_in self.new ≡ image_in self.old }
    {
        one_image::seek(&self.image, &mut self.slots, fd, position)
    }

    /// Returns the next entry of an open directory, or `None` at the end, each time. It adds no `.`
    /// and `..`. The entry's cursor is that of the descriptor's new position.
    ///
    /// # Errors
    ///
    /// `Ebadf` if the descriptor is not open, `Enotdir` if it is a file.
    pub fn readdir(&mut self, fd: Fd) -> Result<Option<Entry<'a>>, CallError>
        ensures reply { (calls self.old).readdir (table self.old) fd.0
            ≡ answer (viewed (option_map {U = Of Named} (unlabelled named_by)) result)
            (table self.new) }
        ensures cursor { MatchResult result (λ r. MatchOption r (Unit {0})
            (λ e. EntryLeadsOn self.new fd.0 e.cursor.0))
            (λ e. Unit {0}) }
        ensures part { MatchResult result (λ r. MatchOption r (Unit {0})
            (λ e. IsNamePart self.new fd.0 e.name.now))
            (λ e. Unit {0}) }
        ensures image { image_in self.new ≡ image_in self.old }
    {
        one_image::readdir(&self.image, &mut self.slots, fd)
    }

    /// Sets an open directory back to its first entry.
    ///
    /// # Errors
    ///
    /// `Ebadf` if the descriptor is not open, `Enotdir` if it is a file.
    pub fn rewind(&mut self, fd: Fd) -> Result<(), CallError>
        ensures reply { (calls self.old).rewind (table self.old) fd.0
            ≡ answer result (table self.new) }
        ensures image { image_in self.new ≡ image_in self.old }
    {
        one_image::rewind(&self.image, &mut self.slots, fd)
    }

    /// Closes a descriptor, which is then free. Bytes that were lent stay.
    ///
    /// # Errors
    ///
    /// `Ebadf` if the descriptor is not open.
    pub fn close(&mut self, fd: Fd) -> Result<(), CallError>
        ensures reply { (calls self.old).close (table self.old) fd.0
            ≡ answer result (table self.new) }
        ensures image { image_in self.new ≡ image_in self.old }
    {
        one_image::close(&self.image, &mut self.slots, fd)
    }
}
