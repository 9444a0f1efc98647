//! Calls on open files of an image.
ghost use Rattle.std.specs.Prelude.{◌≡◌, Some, None, true, is_some, length, ◌||◌};
ghost use Rattle.rom_tree.specs.Tree.{Node, is_directory, is_regular};
ghost use Rattle.rom_tree.specs.Image.{HasNode, LieIn, image_node};
ghost use Rattle.open_files.specs.Machine.{Open, fstat_on, seek_on, read_on, lend_on};
ghost use Rattle.open_files.specs.Machine.{readdir_on};
ghost use Rattle.open_files.specs.Slots.{stands, image_view};
ghost use Rattle.image_check.specs.Any.{any_view};
ghost use Rattle.rom_c.specs.Outcomes.{error_reported, place_reported, file_stat_reported};
ghost use Rattle.rom_c.specs.Outcomes.{IsCopied, IsListed, asks_nothing, mapped_reported};
ghost use Rattle.rom_c.specs.Outcomes.{Follows, HasKindIn};

use crate::answers::{RomtoolPlace, RomtoolStat, no_place, number_of, shown};
use crate::file::{RomtoolEntry, no_entry};
use image_check::AnyImage;
use open_files::{CallError, OpenNode, opened};
use rom_tree::{NodeId, Piece, TreeImage, is_directory_at, is_regular_at};

/// Returns whether a node can be opened.
pub(crate) fn can_open(image: &AnyImage<'_>, node: NodeId) -> bool
    requires { HasNode (any_view image.now) node.0 }
    ensures { (x : Node) → image_node (any_view image.now) node.0 ≡ Some x
        → result ≡ is_directory x || is_regular x }
{
    is_directory_at(image, node) || is_regular_at(image, node)
}

/// Returns the kind and numbers of an open file.
pub(crate) fn fstat_in(image: &AnyImage<'_>, opened: OpenNode) -> RomtoolStat
    requires { (o : Open Node) × (stands (image_view (any_view image.now)) opened ≡ Some o) }
    ensures { (o : Open Node) → stands (image_view (any_view image.now)) opened ≡ Some o
        → result ≡ file_stat_reported (fstat_on None o.place o.position) }
{
    shown(opened::fstat(image, opened))
}

/// Returns whether the bytes that are asked for are none, and the node is a file without bytes.
fn asks_nothing(image: &AnyImage<'_>, node: NodeId, off: u64, len: u64) -> bool
    requires { HasNode (any_view image.now) node.0 }
    ensures { (x : Node) → image_node (any_view image.now) node.0 ≡ Some x
        → result ≡ asks_nothing x off len }
{
    if !is_regular_at(image, node) {
        return false;
    }
    image.stat(node).size == 0 && off == 0 && len == 0
}

/// Returns the offset and the number of bytes of an open file. No bytes of an empty file are at 0.
pub(crate) fn map_in(image: &AnyImage<'_>, opened: OpenNode, off: u64, len: u64) -> RomtoolPlace
    requires { (o : Open Node) × (stands (image_view (any_view image.now)) opened ≡ Some o) }
    ensures { (o : Open Node) → stands (image_view (any_view image.now)) opened ≡ Some o
        → result ≡ mapped_reported (any_view image.now).bytes off len o.place o.position }
{
    if asks_nothing(image, opened.node, off, len) {
        return no_place(0);
    }
    match opened::map(image, opened, off, len) {
        Ok(piece) => RomtoolPlace {
            error: 0,
            at: piece.place,
            len: piece.bytes.len() as u64,
        },
        Err(error) => no_place(error.number()),
    }
}

/// Returns the offset and the number of the next bytes of an open file, as many of at most `max` as
/// follow one another.
pub(crate) fn lend_in(image: &AnyImage<'_>, opened: &mut OpenNode, max: u64) -> RomtoolPlace
    requires { (o : Open Node) × (stands (image_view (any_view image.now)) opened.old ≡ Some o) }
    ensures lent { (o : Open Node) → stands (image_view (any_view image.now)) opened.old ≡ Some o
        → (result ≡ place_reported (lend_on None (any_view image.now).bytes max o.place o.position))
        × Follows (image_view (any_view image.now)) o opened.old opened.new
        (lend_on None (any_view image.now).bytes max o.place o.position) }
    ensures stands { is_some (stands (image_view (any_view image.now)) opened.new) ≡ true }
    ensures node { opened.new.node.0 ≡ opened.old.node.0 }
{
    match opened::lend(image, opened, max) {
        Ok(piece) => RomtoolPlace {
            error: 0,
            at: piece.place,
            len: piece.bytes.len() as u64,
        },
        Err(error) => no_place(error.number()),
    }
}

/// Copies the next bytes of an open file, as many as fit, and sets `count` to their number. Returns
/// 0 or an error.
pub(crate) fn read_in(
    image: &AnyImage<'_>,
    opened: &mut OpenNode,
    buffer: &mut [u8],
    count: &mut usize,
) -> u32
    requires { (o : Open Node) × (stands (image_view (any_view image.now)) opened.old ≡ Some o) }
    ensures read { (o : Open Node) → stands (image_view (any_view image.now)) opened.old ≡ Some o
        → IsCopied (read_on (any_view image.now).bytes (length buffer.old) o.place o.position)
        result count.new buffer.new buffer.old
        × Follows (image_view (any_view image.now)) o opened.old opened.new
        (read_on (any_view image.now).bytes (length buffer.old) o.place o.position) }
    ensures stands { is_some (stands (image_view (any_view image.now)) opened.new) ≡ true }
    ensures node { opened.new.node.0 ≡ opened.old.node.0 }
{
    match opened::read(image, opened, buffer) {
        Ok(copied) => {
            *count = copied;
            0
        }
        Err(error) => {
            *count = 0;
            error.number()
        }
    }
}

/// Copies bytes of an open file from `off` on, as many as fit, and sets `count` to their number.
/// Returns 0 or an error.
pub(crate) fn read_at_in(
    image: &AnyImage<'_>,
    opened: OpenNode,
    off: u64,
    buffer: &mut [u8],
    count: &mut usize,
) -> u32
    requires { (o : Open Node) × (stands (image_view (any_view image.now)) opened ≡ Some o) }
    ensures { (o : Open Node) → stands (image_view (any_view image.now)) opened ≡ Some o
        → IsCopied (read_on (any_view image.now).bytes (length buffer.old) o.place off)
        result count.new buffer.new buffer.old }
{
    let mut there = opened;
    match opened::seek(image, &mut there, off) {
        Ok(()) => read_in(image, &mut there, buffer, count),
        Err(error) => {
            *count = 0;
            error.number()
        }
    }
}

/// Sets the position of an open file. Returns 0 or an error.
pub(crate) fn seek_in(image: &AnyImage<'_>, opened: &mut OpenNode, position: u64) -> u32
    requires { (o : Open Node) × (stands (image_view (any_view image.now)) opened.old ≡ Some o) }
    ensures sought { (o : Open Node) → stands (image_view (any_view image.now)) opened.old ≡ Some o
        → (result ≡ error_reported (seek_on position o.place o.position))
        × Follows (image_view (any_view image.now)) o opened.old opened.new
        (seek_on position o.place o.position) }
    ensures stands { is_some (stands (image_view (any_view image.now)) opened.new) ≡ true }
    ensures node { opened.new.node.0 ≡ opened.old.node.0 }
{
    match opened::seek(image, opened, position) {
        Ok(()) => 0,
        Err(error) => error.number(),
    }
}

/// Reads the next entry of an open directory. Returns 0 or an error.
pub(crate) fn readdir_in<'a>(
    image: &AnyImage<'a>,
    opened: &mut OpenNode,
    entry: &mut RomtoolEntry<'a>,
) -> u32
    requires { (o : Open Node) × (stands (image_view (any_view image.now)) opened.old ≡ Some o) }
    ensures read { (o : Open Node) → stands (image_view (any_view image.now)) opened.old ≡ Some o
        → IsListed (readdir_on None o.place o.position) result entry.new
        × Follows (image_view (any_view image.now)) o opened.old opened.new
        (readdir_on None o.place o.position) }
    ensures stands { is_some (stands (image_view (any_view image.now)) opened.new) ≡ true }
    ensures node { opened.new.node.0 ≡ opened.old.node.0 }
    ensures lies { LieIn (any_view image.now).bytes entry.new.name.now }
    ensures kind { HasKindIn (any_view image.now).tree entry.new }
{
    match opened::readdir(image, opened) {
        Ok(Some(found)) => {
            *entry = RomtoolEntry {
                name: found.name,
                node: found.node.0,
                some: 1,
                kind: number_of(image.stat(found.node).kind),
            };
            0
        }
        Ok(None) => {
            *entry = no_entry();
            0
        }
        Err(error) => {
            *entry = no_entry();
            error.number()
        }
    }
}
