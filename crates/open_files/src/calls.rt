//! The calls on descriptors, written once for one image and for several.
#![tactic(auto, using(crate::proofs::OneCall::asks))]

ghost use Rattle.std.specs.Prelude.{◌≡◌, ℕ, true, length, take, drop, Option, Some, None, Ok, Err};
ghost use Rattle.std.specs.Prelude.{MatchResult, MatchOption, option_map, ◌||◌, ◌≤◌};
ghost use Rattle.std.specs.Io.{ReadsAtMost};
ghost use Rattle.rom_tree.specs.Tree.{is_directory, is_regular, is_link};
ghost use Rattle.rom_tree.specs.Image.{stat_of};
ghost use Rattle.open_files.specs.Calls.{Of, Named, answer, viewed};
ghost use Rattle.open_files.specs.Machine.{Table, open_place, read_link};
ghost use Rattle.open_files.specs.Slots.{IsPartThere, are_sound, table_of, calls_of, labelled};
ghost use Rattle.open_files.specs.Slots.{lent_by, named_by, LeadsOn};

use crate::error::CallError;
use crate::images::Images;
use crate::lent::{is_openable, link_piece};
use crate::opened;
use crate::slot::{Fd, OpenNode, Slots};
use rom_tree::{Cursor, Entry, NodeId, Piece, Stat, TreeImage, is_link_at};

/// The kind and numbers of the node at a place.
pub(crate) fn stat<'a, T: TreeImage<'a>, I: Images<'a, T>>(
    images: &I,
    image: u32,
    node: NodeId,
) -> (u32, Stat)
    requires { (x : I.Place) × ((I.view images.now).place image node.0 ≡ Some x) }
    ensures { (x : I.Place) → (I.view images.now).place image node.0 ≡ Some x
        → labelled (I.view images.now).label (λ s. s) result
        ≡ ((I.view images.now).number x, stat_of ((I.view images.now).names.node x)) }
{
    (image, images.image(image).stat(node))
}

/// The text of the symbolic link at a place.
pub(crate) fn readlink<'a, T: TreeImage<'a>, I: Images<'a, T>>(
    images: &I,
    image: u32,
    node: NodeId,
) -> Result<(u32, Piece<'a>), CallError>
    requires { (x : I.Place) × ((I.view images.now).place image node.0 ≡ Some x) }
    ensures { (x : I.Place) (t : Table I.Place) → (I.view images.now).place image node.0 ≡ Some x
        → read_link ((I.view images.now).number x) ((I.view images.now).names.bytes x) t
        ((I.view images.now).names.node x) (is_link ((I.view images.now).names.node x))
        ≡ answer (viewed (labelled (I.view images.now).label lent_by) result) t }
{
    let holder = images.image(image);
    if !is_link_at(holder, node) {
        return Err(CallError::Einval);
    }
    Ok((image, link_piece(holder, node)))
}

/// Opens the directory or regular file at a place, and returns the lowest free descriptor.
pub(crate) fn open<'a, T: TreeImage<'a>, I: Images<'a, T>, const N: usize>(
    images: &I,
    slots: &mut Slots<N>,
    image: u32,
    node: NodeId,
) -> Result<Fd, CallError>
    requires place { (x : I.Place) × ((I.view images.now).place image node.0 ≡ Some x) }
    requires sound { are_sound (I.view images.now) slots.old.slots ≡ true }
    requires narrow { N ≤ 65536 }
    ensures reply { (x : I.Place) → (I.view images.now).place image node.0 ≡ Some x
        → open_place (table_of (I.view images.now) slots.old.slots) x
        (is_directory ((I.view images.now).names.node x) || is_regular
        ((I.view images.now).names.node x))
        ≡ answer (viewed (λ d. d.0) result) (table_of (I.view images.now) slots.new.slots) }
    ensures sound { are_sound (I.view images.now) slots.new.slots ≡ true }
{
    if !is_openable(images.image(image), node) {
        return Err(CallError::Enxio);
    }
    let Some(i) = slots.free() else {
        return Err(CallError::Emfile);
    };
    let opened = OpenNode {
        image,
        node,
        position: Cursor::START.0,
    };
    slots.set(i, Some(opened));
    Ok(Fd(i as u32))
}

/// The kind and numbers of an open node.
pub(crate) fn fstat<'a, T: TreeImage<'a>, I: Images<'a, T>, const N: usize>(
    images: &I,
    slots: &Slots<N>,
    fd: Fd,
) -> Result<(u32, Stat), CallError>
    requires { are_sound (I.view images.now) slots.now.slots ≡ true }
    ensures { (calls_of N (I.view images.now)).fstat (table_of (I.view images.now) slots.now.slots)
        fd.0
        ≡ answer (viewed (labelled (I.view images.now).label (λ s. s)) result)
        (table_of (I.view images.now) slots.now.slots) }
{
    let opened = slots.get(fd)?;
    let stat = opened::fstat(images.image(opened.image), opened);
    Ok((opened.image, stat))
}

/// Sets the position of an open file.
pub(crate) fn seek<'a, T: TreeImage<'a>, I: Images<'a, T>, const N: usize>(
    images: &I,
    slots: &mut Slots<N>,
    fd: Fd,
    position: u64,
) -> Result<(), CallError>
    requires { are_sound (I.view images.now) slots.old.slots ≡ true }
    ensures reply { (calls_of N (I.view images.now)).seek_to
        (table_of (I.view images.now) slots.old.slots)
        fd.0 position ≡ answer result (table_of (I.view images.now) slots.new.slots) }
    ensures sound { are_sound (I.view images.now) slots.new.slots ≡ true }
{
    let mut opened = slots.get(fd)?;
    opened::seek(images.image(opened.image), &mut opened, position)?;
    slots.set(fd.0 as usize, Some(opened));
    Ok(())
}

/// Sets an open directory back to its first entry.
pub(crate) fn rewind<'a, T: TreeImage<'a>, I: Images<'a, T>, const N: usize>(
    images: &I,
    slots: &mut Slots<N>,
    fd: Fd,
) -> Result<(), CallError>
    requires { are_sound (I.view images.now) slots.old.slots ≡ true }
    ensures reply { (calls_of N (I.view images.now)).rewind
        (table_of (I.view images.now) slots.old.slots)
        fd.0 ≡ answer result (table_of (I.view images.now) slots.new.slots) }
    ensures sound { are_sound (I.view images.now) slots.new.slots ≡ true }
{
    let mut opened = slots.get(fd)?;
    opened::rewind(images.image(opened.image), &mut opened)?;
    slots.set(fd.0 as usize, Some(opened));
    Ok(())
}

/// Copies the next bytes of an open file, as many as fit. The rest of the buffer does not change.
pub(crate) fn read<'a, T: TreeImage<'a>, I: Images<'a, T>, const N: usize>(
    images: &I,
    slots: &mut Slots<N>,
    fd: Fd,
    buf: &mut [u8],
) -> Result<usize, CallError>
    requires { are_sound (I.view images.now) slots.old.slots ≡ true }
    ensures reply { (calls_of N (I.view images.now)).read_bytes
        (table_of (I.view images.now) slots.old.slots) fd.0 (length buf.old)
        ≡ answer (viewed (λ n. take n buf.new) result)
        (table_of (I.view images.now) slots.new.slots) }
    ensures bound { ReadsAtMost result buf.new }
    ensures rest { MatchResult result (λ n. drop n buf.new ≡ drop n buf.old)
        (λ e. buf.new ≡ buf.old) }
    ensures sound { are_sound (I.view images.now) slots.new.slots ≡ true }
{
    let mut opened = slots.get(fd)?;
    let count = opened::read(images.image(opened.image), &mut opened, buf)?;
    slots.set(fd.0 as usize, Some(opened));
    Ok(count)
}

/// Lends as many of at most `max` next bytes of an open file as follow one another.
pub(crate) fn lend<'a, T: TreeImage<'a>, I: Images<'a, T>, const N: usize>(
    images: &I,
    slots: &mut Slots<N>,
    fd: Fd,
    max: u64,
) -> Result<(u32, Piece<'a>), CallError>
    requires { are_sound (I.view images.now) slots.old.slots ≡ true }
    ensures reply { (calls_of N (I.view images.now)).lend_piece
        (table_of (I.view images.now) slots.old.slots) fd.0 max
        ≡ answer (viewed (labelled (I.view images.now).label lent_by) result)
        (table_of (I.view images.now) slots.new.slots) }
    ensures sound { are_sound (I.view images.now) slots.new.slots ≡ true }
{
    let mut opened = slots.get(fd)?;
    let piece = opened::lend(images.image(opened.image), &mut opened, max)?;
    slots.set(fd.0 as usize, Some(opened));
    Ok((opened.image, piece))
}

/// Lends exactly these bytes of an open file.
pub(crate) fn map<'a, T: TreeImage<'a>, I: Images<'a, T>, const N: usize>(
    images: &I,
    slots: &Slots<N>,
    fd: Fd,
    off: u64,
    len: u64,
) -> Result<(u32, Piece<'a>), CallError>
    requires { are_sound (I.view images.now) slots.now.slots ≡ true }
    ensures { (calls_of N (I.view images.now)).map_piece
        (table_of (I.view images.now) slots.now.slots) fd.0 off len
        ≡ answer (viewed (labelled (I.view images.now).label lent_by) result)
        (table_of (I.view images.now) slots.now.slots) }
{
    let opened = slots.get(fd)?;
    let piece = opened::map(images.image(opened.image), opened, off, len)?;
    Ok((opened.image, piece))
}

/// The next entry of an open directory. Its cursor is that of the descriptor's new position.
pub(crate) fn readdir<'a, T: TreeImage<'a>, I: Images<'a, T>, const N: usize>(
    images: &I,
    slots: &mut Slots<N>,
    fd: Fd,
) -> Result<Option<(u32, Entry<'a>)>, CallError>
    requires { are_sound (I.view images.now) slots.old.slots ≡ true }
    ensures reply { (calls_of N (I.view images.now)).readdir
        (table_of (I.view images.now) slots.old.slots) fd.0
        ≡ answer (viewed (option_map {U = Of Named} (labelled (I.view images.now).label named_by))
        result)
        (table_of (I.view images.now) slots.new.slots) }
    ensures cursor { MatchResult result (λ r. MatchOption r (Unit {0})
        (λ e. LeadsOn (I.view images.now) (table_of (I.view images.now) slots.new.slots)
        fd.0 e.0 e.1.cursor.0))
        (λ e. Unit {0}) }
    ensures part { MatchResult result (λ r. MatchOption r (Unit {0})
        (λ e. IsPartThere (I.view images.now) (table_of (I.view images.now) slots.new.slots)
        fd.0 e.1.name.now))
        (λ e. Unit {0}) }
    ensures sound { are_sound (I.view images.now) slots.new.slots ≡ true }
{
    let mut opened = slots.get(fd)?;
    let entry = opened::readdir(images.image(opened.image), &mut opened)?;
    slots.set(fd.0 as usize, Some(opened));
    match entry {
        None => Ok(None),
        Some(entry) => Ok(Some((opened.image, entry))),
    }
}

/// Closes a descriptor.
pub(crate) fn close<'a, T: TreeImage<'a>, I: Images<'a, T>, const N: usize>(
    images: &I,
    slots: &mut Slots<N>,
    fd: Fd,
) -> Result<(), CallError>
    requires { are_sound (I.view images.now) slots.old.slots ≡ true }
    ensures reply { (calls_of N (I.view images.now)).close
        (table_of (I.view images.now) slots.old.slots)
        fd.0 ≡ answer result (table_of (I.view images.now) slots.new.slots) }
    ensures sound { are_sound (I.view images.now) slots.new.slots ≡ true }
{
    slots.get(fd)?;
    slots.set(fd.0 as usize, None);
    Ok(())
}
