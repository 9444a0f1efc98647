//! The calls of C on open files. A file keeps its image, its node and its `error` in each call.
ghost use Rattle.std.specs.Prelude.{◌≡◌, ◌≢◌, true, length, None, IsSomeAnd, IsSome, IfSome, ◌||◌};
ghost use Rattle.std.specs.Prelude.{is_some};
ghost use Rattle.std.specs.Bool.{OnTrue, OnFalse};
ghost use Rattle.rom_tree.specs.Tree.{Node, node_at, is_directory, is_regular};
ghost use Rattle.rom_tree.specs.Image.{LieIn};
ghost use Rattle.path_walk.specs.Resolution.{resolution, tree_namespace};
ghost use Rattle.open_files.specs.Machine.{fstat_on, seek_on, read_on, lend_on, readdir_on};
ghost use Rattle.image_check.specs.Checked.{HasTree};
ghost use Rattle.rom_c.specs.Held.{usual};
ghost use Rattle.rom_c.specs.Reported.{no_stat as no_stat_reported, no_place as no_place_reported};
ghost use Rattle.rom_c.specs.Outcomes.{error_reported, place_reported, file_stat_reported};
ghost use Rattle.rom_c.specs.Outcomes.{IsCopied, IsListed, mapped_reported};
ghost use Rattle.rom_c.specs.Outcomes.{IsNoEntry, HasKindIn};
ghost use Rattle.rom_c.specs.Directories.{told_on, seekdir_on};
ghost use Rattle.rom_c.specs.Files.{IsNoFile, IsOpen, IsOpenAt, IsOpenedBy, MovesTo, file_in};
ghost use Rattle.rom_c.specs.Files.{parts_in};
ghost use Rattle.rom_c.specs.Opened.{stands_in};

use crate::answers::{CLOSED, RomtoolPlace, RomtoolStat, no_place, no_stat};
use crate::directories::{seekdir_in, telldir_in};
use crate::file::{RomtoolEntry, RomtoolFile, moved, no_entry, no_file, node_of, opened_at};
use crate::image::{OPEN, RomtoolImage, image_of};
use crate::lending::{fstat_in, lend_in, map_in, read_at_in, read_in, readdir_in, seek_in};
use crate::opening::{open_at, open_in};
use image_check::laws::one_tree;
use rom_tree::NodeId;

/// The error: the file is not open.
const BAD_FILE: u32 = 6;

/// Returns whether a file is open.
fn is_open(file: &RomtoolFile<'_>) -> bool
    ensures open { OnTrue result (IsOpen file.now) }
    ensures closed { OnFalse result (IsOpen file.now → ⊥) }
{
    if file.image.status != OPEN {
        return false;
    }
    file.error == 0
}

/// Opens the directory or regular file to which a path leads, at its start. A symbolic link as the
/// last component is followed. Returns 0, or the number of the error, which is also in the file: 13
/// if no image is open, the errors of `path_walk::walk`, and 8 if the path leads to neither.
#[unsafe(no_mangle)]
pub extern "C" fn romtool_open_v3<'a>(
    file: &mut RomtoolFile<'a>,
    image: &RomtoolImage<'a>,
    path: &[u8],
) -> u32
    ensures error { result ≡ file.new.error }
    ensures image { file.new.image ≡ image.now }
    ensures closed { image.now.status ≢ 1 → IsNoFile 13 file.new }
    ensures opened { image.now.status ≡ 1 → (t : Node) → HasTree image.now.bytes.now usual t
        → IsOpenedBy t (resolution (tree_namespace image.now.bytes.now t) path.now true) file.new }
{
    if image.status != OPEN {
        *file = no_file(image, CLOSED);
        return CLOSED;
    }
    *file = open_in(image, path);
    file.error
}

/// Opens the directory or regular file with this node number, which a call on the same image
/// returned, at its start. There is no look-up. Returns 0, or the number of the error, which is
/// also in the file: 13 if no image is open, and 8 if the node is neither.
#[unsafe(no_mangle)]
pub extern "C" fn romtool_open_node_v3<'a>(
    file: &mut RomtoolFile<'a>,
    image: &RomtoolImage<'a>,
    node: u32,
) -> u32
    requires { image.now.status ≡ 1 → (t : Node) → HasTree image.now.bytes.now usual t
        → IsSome (node_at t node) }
    ensures error { result ≡ file.new.error }
    ensures image { file.new.image ≡ image.now }
    ensures closed { image.now.status ≢ 1 → IsNoFile 13 file.new }
    ensures opened { image.now.status ≡ 1 → (t : Node) → HasTree image.now.bytes.now usual t
        → IfSome (node_at t node)
        (λ x. IsOpenAt t x file.new (is_directory x || is_regular x)) }
{
    if image.status != OPEN {
        *file = no_file(image, CLOSED);
        return CLOSED;
    }
    *file = open_at(image, NodeId(node));
    file.error
}

/// Opens again what was open: a directory or regular file with this node number, at this position.
/// Both were those of an open file of the same image. Returns 0, or the number of the error, which
/// is also in the file: 13 if no image is open.
#[unsafe(no_mangle)]
pub extern "C" fn romtool_reopen_v3<'a>(
    file: &mut RomtoolFile<'a>,
    image: &RomtoolImage<'a>,
    node: u32,
    position: u64,
) -> u32
    requires { image.now.status ≡ 1 → (t : Node) → HasTree image.now.bytes.now usual t
        → is_some (stands_in t image.now.bytes.now (parts_in image.now) node position) ≡ true }
    ensures error { result ≡ file.new.error }
    ensures image { file.new.image ≡ image.now }
    ensures closed { image.now.status ≢ 1 → IsNoFile 13 file.new }
    ensures opened { image.now.status ≡ 1 → (file.new.error ≡ 0) × (file.new.node ≡ node)
        × (file.new.position ≡ position) }
    ensures stands { image.now.status ≡ 1 → (t : Node) → file_in t file.new
        ≡ stands_in t image.now.bytes.now (parts_in image.now) node position }
{
    if image.status != OPEN {
        *file = no_file(image, CLOSED);
        return CLOSED;
    }
    *file = opened_at(image, NodeId(node), position);
    0
}

/// Returns the kind and numbers of an open file. The error is 6 if the file is not open.
#[unsafe(no_mangle)]
pub extern "C" fn romtool_fstat_v3(file: &RomtoolFile<'_>) -> RomtoolStat
    ensures closed { (IsOpen file.now → ⊥) → result ≡ no_stat_reported 6 }
    ensures shows { IsOpen file.now → (t : Node) → HasTree file.now.image.bytes.now usual t
        → IsSomeAnd (file_in t file.now)
        (λ o. result ≡ file_stat_reported (fstat_on None o.place o.position)) }
{
    one_tree();
    if !is_open(file) {
        return no_stat(BAD_FILE);
    }
    fstat_in(&image_of(&file.image), node_of(file))
}

/// Returns the offset in the image of exactly the `len` bytes of an open file from byte `off` on,
/// whatever its position is. If the file is empty, and `off` and `len` are 0, the offset is 0. The
/// errors otherwise, in this order: 6 if the file is not open, 7 if it is a directory, 5 if `len`
/// is 0 or the range does not end within the file, 10 if the bytes do not follow one another in the
/// image.
#[unsafe(no_mangle)]
pub extern "C" fn romtool_map_v3(file: &RomtoolFile<'_>, off: u64, len: u64) -> RomtoolPlace
    ensures closed { (IsOpen file.now → ⊥) → result ≡ no_place_reported 6 }
    ensures lent { IsOpen file.now → (t : Node) → HasTree file.now.image.bytes.now usual t
        → IsSomeAnd (file_in t file.now)
        (λ o. result ≡ mapped_reported file.now.image.bytes.now off len o.place o.position) }
{
    one_tree();
    if !is_open(file) {
        return no_place(BAD_FILE);
    }
    map_in(&image_of(&file.image), node_of(file), off, len)
}

/// Returns the offset and the number of the next bytes of an open file: as many of at most `max` as
/// follow one another in the image. The position moves by their number. If there are none, the
/// offset is 0. The error is 6 if the file is not open and 7 if it is a directory; then the
/// position stays as it is.
#[unsafe(no_mangle)]
pub extern "C" fn romtool_lend_v3(file: &mut RomtoolFile<'_>, max: u64) -> RomtoolPlace
    ensures image { file.new.image ≡ file.old.image }
    ensures node { file.new.node ≡ file.old.node }
    ensures error { file.new.error ≡ file.old.error }
    ensures closed { (IsOpen file.old → ⊥)
        → (result ≡ no_place_reported 6) × (file.new.position ≡ file.old.position) }
    ensures lent { IsOpen file.old → (t : Node) → HasTree file.old.image.bytes.now usual t
        → IsSomeAnd (file_in t file.old)
        (λ o. (result ≡ place_reported (lend_on None file.old.image.bytes.now max o.place
        o.position))
        × MovesTo t file.old file.new.position
        (lend_on None file.old.image.bytes.now max o.place o.position)) }
{
    one_tree();
    if !is_open(file) {
        return no_place(BAD_FILE);
    }
    let mut opened = node_of(file);
    let place = lend_in(&image_of(&file.image), &mut opened, max);
    *file = moved(file, opened.position);
    place
}

/// Copies the next bytes of an open file to the front of a buffer, as many as fit, and sets `count`
/// to their number. The position moves by it, and the rest of the buffer stays as it is. Returns 0,
/// or an error: 6 if the file is not open, 7 if it is a directory. Then file and buffer stay as
/// they are.
#[unsafe(no_mangle)]
pub extern "C" fn romtool_read_v3(
    file: &mut RomtoolFile<'_>,
    buffer: &mut [u8],
    count: &mut usize,
) -> u32
    ensures image { file.new.image ≡ file.old.image }
    ensures node { file.new.node ≡ file.old.node }
    ensures error { file.new.error ≡ file.old.error }
    ensures closed { (IsOpen file.old → ⊥) → (result ≡ 6) × (count.new ≡ 0)
        × (buffer.new ≡ buffer.old) × (file.new.position ≡ file.old.position) }
    ensures read { IsOpen file.old → (t : Node) → HasTree file.old.image.bytes.now usual t
        → IsSomeAnd (file_in t file.old)
        (λ o. IsCopied (read_on file.old.image.bytes.now (length buffer.old) o.place o.position)
        result count.new buffer.new buffer.old
        × MovesTo t file.old file.new.position
        (read_on file.old.image.bytes.now (length buffer.old) o.place o.position)) }
{
    one_tree();
    if !is_open(file) {
        *count = 0;
        return BAD_FILE;
    }
    let mut opened = node_of(file);
    let error = read_in(&image_of(&file.image), &mut opened, buffer, count);
    *file = moved(file, opened.position);
    error
}

/// Copies the bytes of an open file from byte `off` on to the front of a buffer, as many as fit,
/// whatever the position of the file is, and sets `count` to their number. The rest of the buffer
/// stays as it is. Returns 0, or an error: 6 if the file is not open, 7 if it is a directory. Then
/// the buffer stays as it is.
#[unsafe(no_mangle)]
pub extern "C" fn romtool_read_at_v3(
    file: &RomtoolFile<'_>,
    off: u64,
    buffer: &mut [u8],
    count: &mut usize,
) -> u32
    ensures closed { (IsOpen file.now → ⊥) → (result ≡ 6) × (count.new ≡ 0)
        × (buffer.new ≡ buffer.old) }
    ensures read { IsOpen file.now → (t : Node) → HasTree file.now.image.bytes.now usual t
        → IsSomeAnd (file_in t file.now)
        (λ o. IsCopied (read_on file.now.image.bytes.now (length buffer.old) o.place off)
        result count.new buffer.new buffer.old) }
{
    one_tree();
    if !is_open(file) {
        *count = 0;
        return BAD_FILE;
    }
    read_at_in(&image_of(&file.image), node_of(file), off, buffer, count)
}

/// Sets the position of an open file, also behind its end. Returns 0, or an error: 6 if the file is
/// not open, 7 if it is a directory. Then the position stays as it is.
#[unsafe(no_mangle)]
pub extern "C" fn romtool_seek_v3(file: &mut RomtoolFile<'_>, position: u64) -> u32
    ensures image { file.new.image ≡ file.old.image }
    ensures node { file.new.node ≡ file.old.node }
    ensures error { file.new.error ≡ file.old.error }
    ensures closed { (IsOpen file.old → ⊥)
        → (result ≡ 6) × (file.new.position ≡ file.old.position) }
    ensures sought { IsOpen file.old → (t : Node) → HasTree file.old.image.bytes.now usual t
        → IsSomeAnd (file_in t file.old)
        (λ o. (result ≡ error_reported (seek_on position o.place o.position))
        × MovesTo t file.old file.new.position (seek_on position o.place o.position)) }
{
    one_tree();
    if !is_open(file) {
        return BAD_FILE;
    }
    let mut opened = node_of(file);
    let error = seek_in(&image_of(&file.image), &mut opened, position);
    *file = moved(file, opened.position);
    error
}

/// Reads the next entry of an open directory, without `.` and `..`, with the kind of its node; at
/// the end, `some` of the entry is 0. Returns 0, or an error: 6 if the file is not open, 2 if it is
/// not a directory. Then the position stays as it is, and there is no entry.
#[unsafe(no_mangle)]
pub extern "C" fn romtool_readdir_v3<'a>(
    file: &mut RomtoolFile<'a>,
    entry: &mut RomtoolEntry<'a>,
) -> u32
    ensures image { file.new.image ≡ file.old.image }
    ensures node { file.new.node ≡ file.old.node }
    ensures error { file.new.error ≡ file.old.error }
    ensures lies { LieIn file.old.image.bytes.now entry.new.name.now }
    ensures closed { (IsOpen file.old → ⊥) → (result ≡ 6) × IsNoEntry entry.new
        × (file.new.position ≡ file.old.position) }
    ensures read { IsOpen file.old → (t : Node) → HasTree file.old.image.bytes.now usual t
        → IsSomeAnd (file_in t file.old)
        (λ o. IsListed (readdir_on None o.place o.position) result entry.new
        × MovesTo t file.old file.new.position (readdir_on None o.place o.position)) }
    ensures kind { IsOpen file.old → (t : Node) → HasTree file.old.image.bytes.now usual t
        → HasKindIn t entry.new }
{
    one_tree();
    if !is_open(file) {
        *entry = no_entry();
        return BAD_FILE;
    }
    let mut opened = node_of(file);
    let error = readdir_in(&image_of(&file.image), &mut opened, entry);
    *file = moved(file, opened.position);
    error
}

/// Returns the number of entries before the next one of an open directory. Each entry that is read
/// adds 1. If no directory is open, it is 0. The time grows with the number of entries.
#[unsafe(no_mangle)]
pub extern "C" fn romtool_telldir_v3(file: &RomtoolFile<'_>) -> u64
    ensures closed { (IsOpen file.now → ⊥) → result ≡ 0 }
    ensures told { IsOpen file.now → (t : Node) → HasTree file.now.image.bytes.now usual t
        → IsSomeAnd (file_in t file.now) (λ o. result ≡ told_on o.place o.position) }
{
    one_tree();
    if !is_open(file) {
        return 0;
    }
    telldir_in(&image_of(&file.image), node_of(file))
}

/// Sets an open directory to the position after so many of its entries; 0 is its start. Returns 0,
/// or an error: 6 if the file is not open, 2 if it is not a directory, 5 if the directory has fewer
/// entries. Then the position stays as it is. The time grows with the number of entries.
#[unsafe(no_mangle)]
pub extern "C" fn romtool_seekdir_v3(file: &mut RomtoolFile<'_>, entries: u64) -> u32
    ensures image { file.new.image ≡ file.old.image }
    ensures node { file.new.node ≡ file.old.node }
    ensures error { file.new.error ≡ file.old.error }
    ensures closed { (IsOpen file.old → ⊥)
        → (result ≡ 6) × (file.new.position ≡ file.old.position) }
    ensures sought { IsOpen file.old → (t : Node) → HasTree file.old.image.bytes.now usual t
        → IsSomeAnd (file_in t file.old)
        (λ o. (result ≡ error_reported (seekdir_on entries o.place))
        × MovesTo t file.old file.new.position (seekdir_on entries o.place)) }
{
    one_tree();
    if !is_open(file) {
        return BAD_FILE;
    }
    let mut opened = node_of(file);
    let error = seekdir_in(&image_of(&file.image), &mut opened, entries);
    *file = moved(file, opened.position);
    error
}
