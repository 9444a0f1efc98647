//! The files that Linux's cramfs knows by their tables.
ghost use Rattle.std.specs.Prelude.{◌≡◌, Some, not, if◌then◌else◌};
ghost use Rattle.rom_tree.specs.Tree.{Node};
ghost use Rattle.rom_tree.specs.Image.{image_node, HasNode};
ghost use Rattle.linux_misreads.specs.Differences.{is_other, is_same};
ghost use Rattle.linux_misreads.specs.Tables.{has_table, known_of as known_node};

use crate::seen::{Known, known_of, seen_at};
use rom_tree::{NodeId, TreeImage, is_link_at, is_regular_at};

/// The facts that are kept of a node.
pub(crate) fn kept_of<'a, T: TreeImage<'a>>(image: &T, n: NodeId) -> Known
    requires { HasNode (T.image image.now) n.0 }
    ensures { (x : Node) → image_node (T.image image.now) n.0 ≡ Some x → result ≡ known_node x }
{
    known_of(seen_at(image, n, 0))
}

/// Whether both are links, or neither is.
fn are_of_one_kind(a: bool, b: bool) -> bool
    ensures { result ≡ (if a then b else not b) }
{
    if a { b } else { !b }
}

/// Whether the facts kept of two files are the same.
fn is_same_file(a: Known, b: Known) -> bool
    ensures { result ≡ is_same a b }
{
    are_of_one_kind(a.link, b.link)
        && (a.mode == b.mode && (a.uid == b.uid && (a.gid == b.gid && a.size == b.size)))
}

/// Whether Linux has other facts under the number of a file.
pub(crate) fn is_other_file(known: Known, kept: Option<Known>) -> bool
    ensures { result ≡ is_other known kept }
{
    match kept {
        Some(kept) => !is_same_file(kept, known),
        None => false,
    }
}

/// Whether Linux knows a node by the offset of its table: a regular file or a link that is not
/// empty.
pub(crate) fn is_known_by_table<'a, T: TreeImage<'a>>(image: &T, n: NodeId) -> bool
    requires { HasNode (T.image image.now) n.0 }
    ensures { (x : Node) → image_node (T.image image.now) n.0 ≡ Some x → result ≡ has_table x }
{
    let size = image.stat(n).size;
    (is_regular_at(image, n) || is_link_at(image, n)) && 0 < size
}
