//! Positions in open directories, as numbers of entries.
ghost use Rattle.std.specs.Prelude.{◌≡◌, ◌<◌, ◌≤◌, ◌^◌, Some, true, is_some, length, MatchOption};
ghost use Rattle.rom_tree.specs.Tree.{Node, entries_of, entry_count, nodes};
ghost use Rattle.rom_tree.specs.Image.{HasCursor, HasDirectory, image_node};
ghost use Rattle.open_files.specs.Machine.{Open};
ghost use Rattle.open_files.specs.Slots.{stands, image_view};
ghost use Rattle.image_check.specs.Any.{any_view};
ghost use Rattle.rom_c.specs.Directories.{entries_after, told_on, seekdir_on};
ghost use Rattle.rom_c.specs.Outcomes.{error_reported, Follows};

use image_check::AnyImage;
use open_files::{CallError, OpenNode};
use rom_tree::{Cursor, NodeId, TreeImage, is_directory_at};

/// Counts the entries of a directory from a cursor on.
fn count_from(image: &AnyImage<'_>, directory: NodeId, cursor: Cursor) -> u64
    requires directory { HasDirectory (any_view image.now) directory.0 }
    requires cursor { HasCursor (any_view image.now) directory.0 cursor.0 }
    requires few { entry_count (entries_after (any_view image.now) directory.0 cursor.0) < 2 ^ 64 }
    ensures { result ≡ entry_count (entries_after (any_view image.now) directory.0 cursor.0) }
{
    let mut at = cursor;
    let mut count = 0;
    while let Some(entry) = image.entry(directory, at) {
        at = entry.cursor;
        count += 1;
    }
    count
}

/// Returns the cursor after so many entries of a directory, or `None` if it has fewer.
fn cursor_after(image: &AnyImage<'_>, directory: NodeId, entries: u64) -> Option<Cursor>
    requires { HasDirectory (any_view image.now) directory.0 }
    ensures { (x : Node) → image_node (any_view image.now) directory.0 ≡ Some x
        → MatchOption result (entry_count (entries_of x) < entries)
        (λ c. (entries ≤ entry_count (entries_of x))
        × ((any_view image.now).cursor_index directory.0 c.0 ≡ Some entries)) }
{
    let mut cursor = Cursor::START;
    for passed in 0..entries {
        let Some(entry) = image.entry(directory, cursor) else {
            return None;
        };
        cursor = entry.cursor;
    }
    Some(cursor)
}

/// Returns the number of entries before the next one of an open directory, and 0 for a file.
pub(crate) fn telldir_in(image: &AnyImage<'_>, opened: OpenNode) -> u64
    requires open { (o : Open Node) × (stands (image_view (any_view image.now)) opened ≡ Some o) }
    requires few { length (nodes (any_view image.now).tree) < 2 ^ 64 }
    ensures { (o : Open Node) → stands (image_view (any_view image.now)) opened ≡ Some o
        → result ≡ told_on o.place o.position }
{
    if !is_directory_at(image, opened.node) {
        return 0;
    }
    let all = count_from(image, opened.node, Cursor::START);
    all - count_from(image, opened.node, Cursor(opened.position))
}

/// Sets an open directory to the position after so many of its entries. Returns 0 or an error.
pub(crate) fn seekdir_in(image: &AnyImage<'_>, opened: &mut OpenNode, entries: u64) -> u32
    requires { (o : Open Node) × (stands (image_view (any_view image.now)) opened.old ≡ Some o) }
    ensures sought { (o : Open Node) → stands (image_view (any_view image.now)) opened.old ≡ Some o
        → (result ≡ error_reported (seekdir_on entries o.place))
        × Follows (image_view (any_view image.now)) o opened.old opened.new
        (seekdir_on entries o.place) }
    ensures stands { is_some (stands (image_view (any_view image.now)) opened.new) ≡ true }
    ensures node { opened.new.node.0 ≡ opened.old.node.0 }
{
    if !is_directory_at(image, opened.node) {
        return CallError::Enotdir.number();
    }
    let Some(cursor) = cursor_after(image, opened.node, entries) else {
        return CallError::Einval.number();
    };
    opened.position = cursor.0;
    0
}
