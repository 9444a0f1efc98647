//! The calls of sessions on several images with mounts.
#![tactic(auto, using(crate::proofs::OneSession::slots_sound))]

ghost use Rattle.std.specs.Prelude.{◌≡◌, ◌<◌, ◌≤◌, ℕ, length, take, drop, map, Option, Some, None};
ghost use Rattle.std.specs.Prelude.{Ok, Err, MatchResult, MatchOption, option_map};
ghost use Rattle.std.specs.Io.{ReadsAtMost};
ghost use Rattle.path_walk.specs.declared.error.WalkError.{WalkError};
ghost use Rattle.path_walk.specs.Resolution.{resolution};
ghost use Rattle.path_walk.specs.Graft.{MountedNode, graft, AreShallow, IsUncovered};
ghost use Rattle.open_files.specs.Errors.{error_of};
ghost use Rattle.open_files.specs.Calls.{Of, Named, answer, give, viewed};
ghost use Rattle.open_files.specs.Sessions.{no_sessions};
ghost use Rattle.open_files.specs.Slots.{graft_view, labelled, lent_by, named_by};
ghost use Rattle.open_files.specs.SeenSpace.{held, images_in, state, calls, EntryLeadsOn};
ghost use Rattle.open_files.specs.SeenSpace.{IsNamePart};

use crate::calls;
use crate::error::CallError;
use crate::images::{Several, image_of};
use crate::mounts::{check_cover, has_mount_in, is_mounted_in, mount_index};
use crate::slot::{Fd, Slots};
use crate::space::Space;
use arrayvec::ArrayVec;
use path_walk::{Mount, walk_mounts};
use rom_tree::{Entry, NodeId, Piece, Stat, TreeImage};
use std::marker::PhantomData;

impl<'a, T: TreeImage<'a>, const N: usize> Space<'a, T, N> {
    /// Makes a value with nothing mounted and nothing open. There are 1 to 8 images, whose
    /// directories may be 64 deep, and N is at most 65,536.
    pub fn new(images: Vec<T>) -> Self
        requires narrow { N ≤ 65536 }
        requires some { 0 < length images.items }
        requires few { length images.items ≤ 8 }
        requires shallow { AreShallow (map T.image images.items) }
        ensures images { held result ≡ images }
        ensures empty { state result ≡ no_sessions N }
    {
        let slots = Slots::new();
        Space {
            images,
            mounts: ArrayVec::new(),
            tables: [slots; 8],
            borrows: PhantomData,
        }
    }

    /// The place to which a path leads. No mount covers it.
    fn walk(&mut self, path: &[u8], follow_last: bool) -> Result<(u32, NodeId), CallError>
        ensures leads { MatchResult result
            (λ p. (s : MountedNode)
            × (resolution (graft (images_in self.old) self.old.mounts.items)
            path.now follow_last ≡ Ok s)
            × ((graft_view (images_in self.old) self.old.mounts.items).place
            p.0 p.1.0 ≡ Some s)
            × IsUncovered self.old.mounts.items p.0 p.1.0)
            (λ e. (w : WalkError)
            × (resolution (graft (images_in self.old) self.old.mounts.items)
            path.now follow_last ≡ Err w) × (e ≡ error_of w)) }
        ensures images { images_in self.new ≡ images_in self.old }
        ensures mounts { self.new.mounts ≡ self.old.mounts }
        ensures tables { self.new.tables ≡ self.old.tables }
    {
        let (image, node) = walk_mounts(
            self.images.as_mut_slice(),
            self.mounts.as_slice(),
            path,
            follow_last,
        )?;
        Ok((image, node))
    }

    /// Returns the node to which a path leads. A symbolic link as the last component is followed.
    ///
    /// # Errors
    ///
    /// Those of `path_walk::walk`.
    pub fn lookup(&mut self, session: u32, path: &[u8]) -> Result<(u32, NodeId), CallError>
        requires session { session < 8 }
        ensures reply { (calls self.old session).lookup (state self.old) path.now
            ≡ answer (viewed (labelled Some (λ n. n.0)) result) (state self.new) }
        ensures images { images_in self.new ≡ images_in self.old }
    {
        self.walk(path, true)
    }

    /// Returns the kind and numbers of the node to which a path leads. A symbolic link as the last
    /// component is followed.
    ///
    /// # Errors
    ///
    /// Those of `path_walk::walk`.
    pub fn stat(&mut self, session: u32, path: &[u8]) -> Result<(u32, Stat), CallError>
        requires session { session < 8 }
        ensures reply { (calls self.old session).stat (state self.old) path.now
            ≡ answer (viewed (labelled Some (λ s. s)) result) (state self.new) }
        ensures images { images_in self.new ≡ images_in self.old }
    {
        let (image, node) = self.walk(path, true)?;
        let images = Several::new(&self.images, &self.mounts);
        Ok(calls::stat(&images, image, node))
    }

    /// Returns the kind and numbers of the node to which a path leads. A symbolic link as the last
    /// component is not followed.
    ///
    /// # Errors
    ///
    /// Those of `path_walk::walk`.
    pub fn lstat(&mut self, session: u32, path: &[u8]) -> Result<(u32, Stat), CallError>
        requires session { session < 8 }
        ensures reply { (calls self.old session).lstat (state self.old) path.now
            ≡ answer (viewed (labelled Some (λ s. s)) result) (state self.new) }
        ensures images { images_in self.new ≡ images_in self.old }
    {
        let (image, node) = self.walk(path, false)?;
        let images = Several::new(&self.images, &self.mounts);
        Ok(calls::stat(&images, image, node))
    }

    /// Returns the text of the symbolic link to which a path leads, and its offset in the image.
    ///
    /// # Errors
    ///
    /// Those of `path_walk::walk`, then `Einval` if the node is no link.
    pub fn readlink(&mut self, session: u32, path: &[u8]) -> Result<(u32, Piece<'a>), CallError>
        requires session { session < 8 }
        ensures reply { (calls self.old session).readlink (state self.old) path.now
            ≡ answer (viewed (labelled Some lent_by) result) (state self.new) }
        ensures images { images_in self.new ≡ images_in self.old }
    {
        let (image, node) = self.walk(path, false)?;
        let images = Several::new(&self.images, &self.mounts);
        calls::readlink(&images, image, node)
    }

    /// Opens the directory or regular file to which a path leads, at its first byte or entry.
    /// Returns the lowest free descriptor below N. A symbolic link as the last component is
    /// followed.
    ///
    /// # Errors
    ///
    /// Those of `path_walk::walk`, then `Enxio` if the node is neither, then `Emfile` if all N
    /// descriptors are open.
    pub fn open(&mut self, session: u32, path: &[u8]) -> Result<Fd, CallError>
        requires session { session < 8 }
        ensures reply { (calls self.old session).open_path (state self.old) path.now
            ≡ answer (viewed (λ d. d.0) result) (state self.new) }
        ensures images { images_in self.new ≡ images_in self.old }
    {
        let (image, node) = self.walk(path, true)?;
        let images = Several::new(&self.images, &self.mounts);
        let tables = &mut self.tables;
        calls::open(&images, &mut tables[session as usize], image, node)
    }

    /// Returns the kind and numbers of an open node.
    ///
    /// # Errors
    ///
    /// `Ebadf` if the descriptor is not open.
    pub fn fstat(&self, session: u32, fd: Fd) -> Result<(u32, Stat), CallError>
        requires session { session < 8 }
        ensures { (calls self.now session).fstat (state self.now) fd.0
            ≡ answer (viewed (labelled Some (λ s. s)) result) (state self.now) }
    {
        let images = Several::new(&self.images, &self.mounts);
        calls::fstat(&images, &self.tables[session as usize], fd)
    }

    /// Copies the next bytes of an open file to the front of a buffer, and returns their number:
    /// the lesser of the buffer's length and of the rest of the file. The position moves by this
    /// number. The rest of the buffer does not change, nor does any of it after a refusal.
    ///
    /// # Errors
    ///
    /// `Ebadf` if the descriptor is not open, `Eisdir` if it is a directory.
    pub fn read(&mut self, session: u32, fd: Fd, buf: &mut [u8]) -> Result<usize, CallError>
        requires session { session < 8 }
        ensures reply { (calls self.old session).read_bytes (state self.old) fd.0 (length buf.old)
            ≡ answer (viewed (λ n. take n buf.new) result) (state self.new) }
        ensures bound { ReadsAtMost result buf.new }
        ensures rest { MatchResult result (λ n. drop n buf.new ≡ drop n buf.old)
            (λ e. buf.new ≡ buf.old) }
        ensures images { images_in self.new ≡ images_in self.old }
    {
        let images = Several::new(&self.images, &self.mounts);
        let tables = &mut self.tables;
        calls::read(&images, &mut tables[session as usize], fd, buf)
    }

    /// Lends the next bytes of an open file: as many of at most `max` as follow one another in the
    /// image, also past the end of a block if the next block adjoins. The position moves by their
    /// number. The piece is a part of the image's bytes and outlives the descriptor. An empty piece
    /// has `place` 0.
    ///
    /// # Errors
    ///
    /// `Ebadf` if the descriptor is not open, `Eisdir` if it is a directory.
    pub fn lend(&mut self, session: u32, fd: Fd, max: u64) -> Result<(u32, Piece<'a>), CallError>
        requires session { session < 8 }
        ensures reply { (calls self.old session).lend_piece (state self.old) fd.0 max
            ≡ answer (viewed (labelled Some lent_by) result) (state self.new) }
        ensures images { images_in self.new ≡ images_in self.old }
    {
        let images = Several::new(&self.images, &self.mounts);
        let tables = &mut self.tables;
        calls::lend(&images, &mut tables[session as usize], fd, max)
    }

    /// Lends exactly the `len` bytes of an open file from byte `off` on, for any position of the
    /// file.
    ///
    /// # Errors
    ///
    /// In this order: `Ebadf` if the descriptor is not open, `Eisdir` if it is a directory,
    /// `Einval` if `len` is 0 or the range does not end within the file, `Erange` if the bytes do
    /// not follow one another in the image.
    pub fn map(
        &self,
        session: u32,
        fd: Fd,
        off: u64,
        len: u64,
    ) -> Result<(u32, Piece<'a>), CallError>
        requires session { session < 8 }
        ensures { (calls self.now session).map_piece (state self.now) fd.0 off len
            ≡ answer (viewed (labelled Some lent_by) result) (state self.now) }
    {
        let images = Several::new(&self.images, &self.mounts);
        calls::map(&images, &self.tables[session as usize], fd, off, len)
    }

    /// Sets the position of an open file, which may be past its end.
    ///
    /// # Errors
    ///
    /// `Ebadf` if the descriptor is not open, `Eisdir` if it is a directory.
    pub fn seek(&mut self, session: u32, fd: Fd, position: u64) -> Result<(), CallError>
        requires session { session < 8 }
        ensures reply { (calls self.old session).seek_to (state self.old) fd.0 position
            ≡ answer result (state self.new) }
        ensures images { images_in self.new ≡ images_in self.old }
    {
        let images = Several::new(&self.images, &self.mounts);
        let tables = &mut self.tables;
        calls::seek(&images, &mut tables[session as usize], fd, position)
    }

    /// Returns the next entry of an open directory, or `None` at the end, each time. It adds no `.`
    /// and `..`. The entry's cursor is that of the descriptor's new position.
    ///
    /// # Errors
    ///
    /// `Ebadf` if the descriptor is not open, `Enotdir` if it is a file.
    pub fn readdir(&mut self, session: u32, fd: Fd) -> Result<Option<(u32, Entry<'a>)>, CallError>
        requires session { session < 8 }
        ensures reply { (calls self.old session).readdir (state self.old) fd.0
            ≡ answer (viewed (option_map {U = Of Named} (labelled Some named_by)) result)
            (state self.new) }
        ensures cursor { MatchResult result (λ r. MatchOption r (Unit {0})
            (λ e. EntryLeadsOn self.new session fd.0 e.0 e.1.cursor.0))
            (λ e. Unit {0}) }
        ensures part { MatchResult result (λ r. MatchOption r (Unit {0})
            (λ e. IsNamePart self.new session fd.0 e.1.name.now))
            (λ e. Unit {0}) }
        ensures images { images_in self.new ≡ images_in self.old }
    {
        let images = Several::new(&self.images, &self.mounts);
        let tables = &mut self.tables;
        calls::readdir(&images, &mut tables[session as usize], fd)
    }

    /// Sets an open directory back to its first entry.
    ///
    /// # Errors
    ///
    /// `Ebadf` if the descriptor is not open, `Enotdir` if it is a file.
    pub fn rewind(&mut self, session: u32, fd: Fd) -> Result<(), CallError>
        requires session { session < 8 }
        ensures reply { (calls self.old session).rewind (state self.old) fd.0
            ≡ answer result (state self.new) }
        ensures images { images_in self.new ≡ images_in self.old }
    {
        let images = Several::new(&self.images, &self.mounts);
        let tables = &mut self.tables;
        calls::rewind(&images, &mut tables[session as usize], fd)
    }

    /// Closes a descriptor, which is then free. Bytes that were lent stay.
    ///
    /// # Errors
    ///
    /// `Ebadf` if the descriptor is not open.
    pub fn close(&mut self, session: u32, fd: Fd) -> Result<(), CallError>
        requires session { session < 8 }
        ensures reply { (calls self.old session).close (state self.old) fd.0
            ≡ answer result (state self.new) }
        ensures images { images_in self.new ≡ images_in self.old }
    {
        let images = Several::new(&self.images, &self.mounts);
        let tables = &mut self.tables;
        calls::close(&images, &mut tables[session as usize], fd)
    }

    /// Closes all that a session has open.
    pub fn close_all(&mut self, session: u32)
        requires session { session < 8 }
        ensures reply { (calls self.old session).close_all (state self.old)
            ≡ give tt (state self.new) }
        ensures images { images_in self.new ≡ images_in self.old }
    {
        let tables = &mut self.tables;
        tables[session as usize] = Slots::new();
    }

    /// Mounts an image: its root covers the directory to which a path leads. A symbolic link as the
    /// last component is followed. All sessions see the mount, and what they have open stays open.
    ///
    /// # Errors
    ///
    /// In this order: `Enodev` if there is no such image, `Ebusy` if it is image 0 or is mounted,
    /// those of `path_walk::walk_mounts`, `Enotdir` if the path leads to no directory, `Ebusy` if
    /// it leads to the root of an image.
    pub fn mount(&mut self, session: u32, image: u32, path: &[u8]) -> Result<(), CallError>
        requires session { session < 8 }
        ensures reply { (calls self.old session).mount_at (state self.old) image path.now
            ≡ answer result (state self.new) }
        ensures images { images_in self.new ≡ images_in self.old }
    {
        if image as usize >= self.images.len() {
            return Err(CallError::Enodev);
        }
        if image == 0 || is_mounted_in(self.mounts.as_slice(), image) {
            return Err(CallError::Ebusy);
        }
        let (on, dir) = self.walk(path, true)?;
        check_cover(image_of(self.images.as_slice(), on), dir)?;
        self.mounts.push(Mount { image, on, dir });
        Ok(())
    }

    /// Unmounts an image from the directory that it covers. Open files do not prevent this, and
    /// stay open.
    ///
    /// # Errors
    ///
    /// In this order: `Enodev` if there is no such image, `Einval` if it is not mounted, `Ebusy` if
    /// another image is mounted in it.
    pub fn umount(&mut self, session: u32, image: u32) -> Result<(), CallError>
        requires session { session < 8 }
        ensures reply { (calls self.old session).unmount (state self.old) image
            ≡ answer result (state self.new) }
        ensures images { images_in self.new ≡ images_in self.old }
    {
        if image as usize >= self.images.len() {
            return Err(CallError::Enodev);
        }
        let Some(i) = mount_index(self.mounts.as_slice(), image) else {
            return Err(CallError::Einval);
        };
        if has_mount_in(self.mounts.as_slice(), image) {
            return Err(CallError::Ebusy);
        }
        self.mounts.remove(i);
        Ok(())
    }
}
