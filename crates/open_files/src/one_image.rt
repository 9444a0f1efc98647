//! The calls on one image and on what is open in it, each over references to both. So code that is
//! generic over the image can make them, for image types of any size.
ghost use Rattle.std.specs.Prelude.{◌≡◌, ◌≤◌, ℕ, length, take, drop, Option, Some, None, Ok, Err};
ghost use Rattle.std.specs.Prelude.{MatchResult, MatchOption, option_map};
ghost use Rattle.std.specs.Io.{ReadsAtMost};
ghost use Rattle.rom_tree.specs.Tree.{Node, IsShallow};
ghost use Rattle.open_files.specs.Calls.{Of, Named, answer, give, viewed};
ghost use Rattle.open_files.specs.Machine.{Table, image_calls};
ghost use Rattle.open_files.specs.Slots.{table_in, AreSound, LeadsIn, IsPartIn, unlabelled};
ghost use Rattle.open_files.specs.Slots.{lent_by, named_by};

use crate::calls;
use crate::error::CallError;
use crate::images::One;
use crate::slot::{Fd, Slots};
use path_walk::walk;
use rom_tree::{Entry, NodeId, Piece, Stat, TreeImage};

/// Returns the node to which a path leads. A symbolic link as the last component is followed.
///
/// # Errors
///
/// Those of `path_walk::walk`.
pub fn lookup<'a, T: TreeImage<'a>>(image: &mut T, path: &[u8]) -> Result<NodeId, CallError>
    requires { IsShallow (T.image image.old).tree }
    ensures reply { (n : ℕ) (t : Table Node)
        → (image_calls n (T.image image.old)).lookup t path.now
        ≡ answer (viewed (unlabelled (λ n. n.0)) result) t }
    ensures stays { T.image image.new ≡ T.image image.old }
{
    let node = walk(image, path, true)?;
    Ok(node)
}

/// Returns the kind and numbers of the node to which a path leads. A symbolic link as the last
/// component is followed.
///
/// # Errors
///
/// Those of `path_walk::walk`.
pub fn stat<'a, T: TreeImage<'a>>(image: &mut T, path: &[u8]) -> Result<Stat, CallError>
    requires { IsShallow (T.image image.old).tree }
    ensures reply { (n : ℕ) (t : Table Node)
        → (image_calls n (T.image image.old)).stat t path.now
        ≡ answer (viewed (unlabelled (λ s. s)) result) t }
    ensures stays { T.image image.new ≡ T.image image.old }
{
    let node = walk(image, path, true)?;
    Ok(image.stat(node))
}

/// Returns the kind and numbers of the node to which a path leads. A symbolic link as the last
/// component is not followed.
///
/// # Errors
///
/// Those of `path_walk::walk`.
pub fn lstat<'a, T: TreeImage<'a>>(image: &mut T, path: &[u8]) -> Result<Stat, CallError>
    requires { IsShallow (T.image image.old).tree }
    ensures reply { (n : ℕ) (t : Table Node)
        → (image_calls n (T.image image.old)).lstat t path.now
        ≡ answer (viewed (unlabelled (λ s. s)) result) t }
    ensures stays { T.image image.new ≡ T.image image.old }
{
    let node = walk(image, path, false)?;
    Ok(image.stat(node))
}

/// Returns the text of the symbolic link to which a path leads, and its offset in the image.
///
/// # Errors
///
/// Those of `path_walk::walk`, then `Einval` if the node is no link.
pub fn readlink<'a, T: TreeImage<'a>>(image: &mut T, path: &[u8]) -> Result<Piece<'a>, CallError>
    requires { IsShallow (T.image image.old).tree }
    ensures reply { (n : ℕ) (t : Table Node)
        → (image_calls n (T.image image.old)).readlink t path.now
        ≡ answer (viewed (unlabelled lent_by) result) t }
    ensures stays { T.image image.new ≡ T.image image.old }
{
    let node = walk(image, path, false)?;
    let (_, piece) = calls::readlink(&One { image: &*image }, 0, node)?;
    Ok(piece)
}

/// Opens the directory or regular file to which a path leads, at its first byte or entry. Returns
/// the lowest free descriptor below N. A symbolic link as the last component is followed.
///
/// # Errors
///
/// Those of `path_walk::walk`, then `Enxio` if the node is neither, then `Emfile` if all N
/// descriptors are open.
pub fn open<'a, T: TreeImage<'a>, const N: usize>(
    image: &mut T,
    slots: &mut Slots<N>,
    path: &[u8],
) -> Result<Fd, CallError>
    requires deep { IsShallow (T.image image.old).tree }
    requires narrow { N ≤ 65536 }
    requires sound { AreSound (T.image image.old) slots.old }
    ensures reply { (image_calls N (T.image image.old)).open_path
        (table_in (T.image image.old) slots.old) path.now
        ≡ answer (viewed (λ d. d.0) result)
        (table_in (T.image image.old) slots.new) }
    ensures sound { AreSound (T.image image.old) slots.new }
    ensures stays { T.image image.new ≡ T.image image.old }
{
    let node = walk(image, path, true)?;
    calls::open(&One { image: &*image }, slots, 0, node)
}

/// Returns the kind and numbers of an open node.
///
/// # Errors
///
/// `Ebadf` if the descriptor is not open.
pub fn fstat<'a, T: TreeImage<'a>, const N: usize>(
    image: &T,
    slots: &Slots<N>,
    fd: Fd,
) -> Result<Stat, CallError>
    requires { AreSound (T.image image.now) slots.now }
    ensures { (image_calls N (T.image image.now)).fstat
        (table_in (T.image image.now) slots.now) fd.0
        ≡ answer (viewed (unlabelled (λ s. s)) result)
        (table_in (T.image image.now) slots.now) }
{
    let (_, stat) = calls::fstat(&One { image }, slots, fd)?;
    Ok(stat)
}

/// Copies the next bytes of an open file to the front of a buffer, and returns their number: the
/// lesser of the buffer's length and of the rest of the file. The position moves by this number.
/// The rest of the buffer does not change, nor does any of it after a refusal.
///
/// # Errors
///
/// `Ebadf` if the descriptor is not open, `Eisdir` if it is a directory.
pub fn read<'a, T: TreeImage<'a>, const N: usize>(
    image: &T,
    slots: &mut Slots<N>,
    fd: Fd,
    buf: &mut [u8],
) -> Result<usize, CallError>
    requires { AreSound (T.image image.now) slots.old }
    ensures reply { (image_calls N (T.image image.now)).read_bytes
        (table_in (T.image image.now) slots.old) fd.0 (length buf.old)
        ≡ answer (viewed (λ n. take n buf.new) result)
        (table_in (T.image image.now) slots.new) }
    ensures bound { ReadsAtMost result buf.new }
    ensures rest { MatchResult result (λ n. drop n buf.new ≡ drop n buf.old)
        (λ e. buf.new ≡ buf.old) }
    ensures sound { AreSound (T.image image.now) slots.new }
{
    calls::read(&One { image }, slots, fd, buf)
}

/// Lends the next bytes of an open file: as many of at most `max` as follow one another in the
/// image, also past the end of a block if the next block adjoins. The position moves by their
/// number. The piece is a part of the image's bytes and outlives the descriptor. An empty piece has
/// `place` 0.
///
/// # Errors
///
/// `Ebadf` if the descriptor is not open, `Eisdir` if it is a directory.
pub fn lend<'a, T: TreeImage<'a>, const N: usize>(
    image: &T,
    slots: &mut Slots<N>,
    fd: Fd,
    max: u64,
) -> Result<Piece<'a>, CallError>
    requires { AreSound (T.image image.now) slots.old }
    ensures reply { (image_calls N (T.image image.now)).lend_piece
        (table_in (T.image image.now) slots.old) fd.0 max
        ≡ answer (viewed (unlabelled lent_by) result)
        (table_in (T.image image.now) slots.new) }
    ensures sound { AreSound (T.image image.now) slots.new }
{
    let (_, piece) = calls::lend(&One { image }, slots, fd, max)?;
    Ok(piece)
}

/// Lends exactly the `len` bytes of an open file from byte `off` on, for any position of the file.
///
/// # Errors
///
/// In this order: `Ebadf` if the descriptor is not open, `Eisdir` if it is a directory, `Einval` if
/// `len` is 0 or the range does not end within the file, `Erange` if the bytes do not follow one
/// another in the image.
pub fn map<'a, T: TreeImage<'a>, const N: usize>(
    image: &T,
    slots: &Slots<N>,
    fd: Fd,
    off: u64,
    len: u64,
) -> Result<Piece<'a>, CallError>
    requires { AreSound (T.image image.now) slots.now }
    ensures { (image_calls N (T.image image.now)).map_piece
        (table_in (T.image image.now) slots.now) fd.0 off len
        ≡ answer (viewed (unlabelled lent_by) result)
        (table_in (T.image image.now) slots.now) }
{
    let (_, piece) = calls::map(&One { image }, slots, fd, off, len)?;
    Ok(piece)
}

/// Sets the position of an open file, which may be past its end.
///
/// # Errors
///
/// `Ebadf` if the descriptor is not open, `Eisdir` if it is a directory.
pub fn seek<'a, T: TreeImage<'a>, const N: usize>(
    image: &T,
    slots: &mut Slots<N>,
    fd: Fd,
    position: u64,
) -> Result<(), CallError>
    requires { AreSound (T.image image.now) slots.old }
    ensures reply { (image_calls N (T.image image.now)).seek_to
        (table_in (T.image image.now) slots.old) fd.0 position
        ≡ answer result (table_in (T.image image.now) slots.new) }
    ensures sound { AreSound (T.image image.now) slots.new }
{
    calls::seek(&One { image }, slots, fd, position)
}

/// Returns the next entry of an open directory, or `None` at the end, each time. It adds no `.` and
/// `..`. The entry's cursor is that of the descriptor's new position.
///
/// # Errors
///
/// `Ebadf` if the descriptor is not open, `Enotdir` if it is a file.
pub fn readdir<'a, T: TreeImage<'a>, const N: usize>(
    image: &T,
    slots: &mut Slots<N>,
    fd: Fd,
) -> Result<Option<Entry<'a>>, CallError>
    requires { AreSound (T.image image.now) slots.old }
    ensures reply { (image_calls N (T.image image.now)).readdir
        (table_in (T.image image.now) slots.old) fd.0
        ≡ answer (viewed (option_map {U = Of Named} (unlabelled named_by)) result)
        (table_in (T.image image.now) slots.new) }
    ensures cursor { MatchResult result (λ r. MatchOption r (Unit {0})
        (λ e. LeadsIn (T.image image.now) slots.new fd.0 e.cursor.0))
        (λ e. Unit {0}) }
    ensures part { MatchResult result (λ r. MatchOption r (Unit {0})
        (λ e. IsPartIn (T.image image.now) slots.new fd.0 e.name.now))
        (λ e. Unit {0}) }
    ensures sound { AreSound (T.image image.now) slots.new }
{
    match calls::readdir(&One { image }, slots, fd)? {
        None => Ok(None),
        Some((_, entry)) => Ok(Some(entry)),
    }
}

/// Sets an open directory back to its first entry.
///
/// # Errors
///
/// `Ebadf` if the descriptor is not open, `Enotdir` if it is a file.
pub fn rewind<'a, T: TreeImage<'a>, const N: usize>(
    image: &T,
    slots: &mut Slots<N>,
    fd: Fd,
) -> Result<(), CallError>
    requires { AreSound (T.image image.now) slots.old }
    ensures reply { (image_calls N (T.image image.now)).rewind
        (table_in (T.image image.now) slots.old) fd.0
        ≡ answer result (table_in (T.image image.now) slots.new) }
    ensures sound { AreSound (T.image image.now) slots.new }
{
    calls::rewind(&One { image }, slots, fd)
}

/// Closes a descriptor, which is then free. Bytes that were lent stay.
///
/// # Errors
///
/// `Ebadf` if the descriptor is not open.
pub fn close<'a, T: TreeImage<'a>, const N: usize>(
    image: &T,
    slots: &mut Slots<N>,
    fd: Fd,
) -> Result<(), CallError>
    requires { AreSound (T.image image.now) slots.old }
    ensures reply { (image_calls N (T.image image.now)).close
        (table_in (T.image image.now) slots.old) fd.0
        ≡ answer result (table_in (T.image image.now) slots.new) }
    ensures sound { AreSound (T.image image.now) slots.new }
{
    calls::close(&One { image }, slots, fd)
}

/// Closes all that is open.
pub fn close_all<'a, T: TreeImage<'a>, const N: usize>(image: &T, slots: &mut Slots<N>)
    ensures reply { (t : Table Node) → (image_calls N (T.image image.now)).close_all t
        ≡ give tt (table_in (T.image image.now) slots.new) }
    ensures sound { AreSound (T.image image.now) slots.new }
{
    *slots = Slots::new();
}
