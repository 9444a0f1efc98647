//! The calls on one open node.
#![tactic(auto, using(crate::proofs::Standing::node_asks))]

ghost use Rattle.std.specs.Prelude.{◌≡◌, ℕ, length, take, drop, Option, Some, Ok, Err, MatchResult};
ghost use Rattle.std.specs.Prelude.{MatchOption, option_map};
ghost use Rattle.std.specs.Io.{ReadsAtMost};
ghost use Rattle.rom_tree.specs.Tree.{Node};
ghost use Rattle.rom_tree.specs.Image.{LieIn, stat_of};
ghost use Rattle.open_files.specs.Calls.{Of, Named, viewed};
ghost use Rattle.open_files.specs.Machine.{Open, seek_on, rewind_on, read_on, lend_on, map_on};
ghost use Rattle.open_files.specs.Machine.{readdir_on};
ghost use Rattle.open_files.specs.Slots.{image_view, stands, Moves, lent_by, named_by};

use crate::copied::copy_bytes;
use crate::error::CallError;
use crate::lent::bytes_at;
use crate::slot::OpenNode;
use rom_tree::{Cursor, Entry, Piece, Stat, TreeImage, is_directory_at, longest_run};

/// Returns a node's kind and numbers.
pub fn fstat<'a, T: TreeImage<'a>>(image: &T, opened: OpenNode) -> Stat
    requires { (o : Open Node) × (stands (image_view (T.image image.now)) opened ≡ Some o) }
    ensures { (o : Open Node) → stands (image_view (T.image image.now)) opened ≡ Some o
        → result ≡ stat_of o.place }
{
    image.stat(opened.node)
}

/// Sets the position of a file.
pub fn seek<'a, T: TreeImage<'a>>(
    image: &T,
    opened: &mut OpenNode,
    position: u64,
) -> Result<(), CallError>
    requires { (o : Open Node) × (stands (image_view (T.image image.now)) opened.old ≡ Some o) }
    ensures { (o : Open Node) → stands (image_view (T.image image.now)) opened.old ≡ Some o
        → Moves (image_view (T.image image.now)) o opened.old opened.new
        (seek_on position o.place o.position) result }
{
    if is_directory_at(image, opened.node) {
        return Err(CallError::Eisdir);
    }
    opened.position = position;
    Ok(())
}

/// Sets a directory back to its first entry.
pub fn rewind<'a, T: TreeImage<'a>>(image: &T, opened: &mut OpenNode) -> Result<(), CallError>
    requires { (o : Open Node) × (stands (image_view (T.image image.now)) opened.old ≡ Some o) }
    ensures { (o : Open Node) → stands (image_view (T.image image.now)) opened.old ≡ Some o
        → Moves (image_view (T.image image.now)) o opened.old opened.new
        (rewind_on o.place o.position) result }
{
    if !is_directory_at(image, opened.node) {
        return Err(CallError::Enotdir);
    }
    opened.position = Cursor::START.0;
    Ok(())
}

/// Copies the next bytes of a file, as many as fit, and returns their number.
pub fn read<'a, T: TreeImage<'a>>(
    image: &T,
    opened: &mut OpenNode,
    buf: &mut [u8],
) -> Result<usize, CallError>
    requires { (o : Open Node) × (stands (image_view (T.image image.now)) opened.old ≡ Some o) }
    ensures moves { (o : Open Node) → stands (image_view (T.image image.now)) opened.old ≡ Some o
        → Moves (image_view (T.image image.now)) o opened.old opened.new
        (read_on (T.image image.now).bytes (length buf.old) o.place o.position)
        (viewed (λ n. take n buf.new) result) }
    ensures bound { ReadsAtMost result buf.new }
    ensures rest { MatchResult result (λ n. drop n buf.new ≡ drop n buf.old)
        (λ e. buf.new ≡ buf.old) }
{
    if is_directory_at(image, opened.node) {
        return Err(CallError::Eisdir);
    }
    let count = copy_bytes(image, opened.node, opened.position, buf);
    opened.position += count as u64;
    Ok(count)
}

/// Lends as many of at most `max` next bytes of a file as follow one another.
pub fn lend<'a, T: TreeImage<'a>>(
    image: &T,
    opened: &mut OpenNode,
    max: u64,
) -> Result<Piece<'a>, CallError>
    requires { (o : Open Node) × (stands (image_view (T.image image.now)) opened.old ≡ Some o) }
    ensures { (o : Open Node) (i : Option ℕ)
        → stands (image_view (T.image image.now)) opened.old ≡ Some o
        → Moves (image_view (T.image image.now)) o opened.old opened.new
        (lend_on i (T.image image.now).bytes max o.place o.position)
        (viewed (λ p. (i, lent_by p)) result) }
{
    if is_directory_at(image, opened.node) {
        return Err(CallError::Eisdir);
    }
    let bytes = image.bytes();
    let (place, len) = longest_run(image, opened.node, opened.position, max);
    opened.position += len;
    Ok(Piece {
        place,
        bytes: bytes_at(bytes, place, len),
    })
}

/// Lends exactly these bytes of a file.
pub fn map<'a, T: TreeImage<'a>>(
    image: &T,
    opened: OpenNode,
    off: u64,
    len: u64,
) -> Result<Piece<'a>, CallError>
    requires { (o : Open Node) × (stands (image_view (T.image image.now)) opened ≡ Some o) }
    ensures { (o : Open Node) (i : Option ℕ) → stands (image_view (T.image image.now)) opened
        ≡ Some o
        → MatchResult result
        (λ p. map_on i (T.image image.now).bytes off len o.place o.position
        ≡ Ok ((i, lent_by p), o.position))
        (λ e. map_on i (T.image image.now).bytes off len o.place o.position ≡ Err e) }
{
    if is_directory_at(image, opened.node) {
        return Err(CallError::Eisdir);
    }
    if len == 0 {
        return Err(CallError::Einval);
    }
    let size = u64::from(image.stat(opened.node).size);
    if off > size {
        return Err(CallError::Einval);
    }
    if len > size - off {
        return Err(CallError::Einval);
    }
    let bytes = image.bytes();
    let (place, run) = longest_run(image, opened.node, off, len);
    if run < len {
        return Err(CallError::Erange);
    }
    Ok(Piece {
        place,
        bytes: bytes_at(bytes, place, len),
    })
}

/// Returns the next entry of a directory, or `None` at its end.
pub fn readdir<'a, T: TreeImage<'a>>(
    image: &T,
    opened: &mut OpenNode,
) -> Result<Option<Entry<'a>>, CallError>
    requires { (o : Open Node) × (stands (image_view (T.image image.now)) opened.old ≡ Some o) }
    ensures moves { (o : Open Node) (i : Option ℕ)
        → stands (image_view (T.image image.now)) opened.old ≡ Some o
        → Moves (image_view (T.image image.now)) o opened.old opened.new
        (readdir_on i o.place o.position)
        (viewed (option_map {U = Of Named} (λ e. (i, named_by e))) result) }
    ensures cursor { MatchResult result
        (λ r. MatchOption r (Unit {0}) (λ e. e.cursor.0 ≡ opened.new.position)) (λ e. Unit {0}) }
    ensures lies { MatchResult result
        (λ r. MatchOption r (Unit {0}) (λ e. LieIn (T.image image.now).bytes e.name.now))
        (λ e. Unit {0}) }
{
    if !is_directory_at(image, opened.node) {
        return Err(CallError::Enotdir);
    }
    let Some(entry) = image.entry(opened.node, Cursor(opened.position)) else {
        return Ok(None);
    };
    opened.position = entry.cursor.0;
    Ok(Some(entry))
}
