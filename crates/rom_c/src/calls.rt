//! Calls by paths and by nodes, on an image that is open.
ghost use Rattle.std.specs.Prelude.{◌≡◌, ◌≤◌, ◌-◌, false, Some};
ghost use Rattle.rom_tree.specs.Tree.{Node, IsShallow, is_link};
ghost use Rattle.rom_tree.specs.Image.{HasNode, image_node, stat_of};
ghost use Rattle.path_walk.specs.Resolution.{resolution, tree_namespace};
ghost use Rattle.path_walk.specs.Compared.{names_compared};
ghost use Rattle.image_check.specs.Any.{any_view};
ghost use Rattle.rom_c.specs.Reported.{IsText, IsTextAt, entry_reported, led_reported};
ghost use Rattle.rom_c.specs.Reported.{within_reported, shown_reported, stat_reported};

use crate::answers::{RomtoolNode, RomtoolPlace, RomtoolStat, no_node, no_place, no_stat, shown};
use image_check::AnyImage;
use path_walk::{WithinError, walk, walk_within};
use rom_tree::{NodeId, TreeImage, is_directory_at, is_link_at};

/// The error: a directory has no entry of the name.
const NO_ENTRY: u32 = 1;

/// The error: the node is not a directory.
const NO_DIRECTORY: u32 = 2;

/// The error: the path does not lead to a symbolic link.
const NO_LINK: u32 = 5;

/// The error: more names would be compared than the budget.
const TOO_MANY_NAMES: u32 = 16;

/// Returns the node to which a path leads in an image.
pub(crate) fn lookup_in(image: &mut AnyImage<'_>, path: &[u8], follow: bool) -> RomtoolNode
    requires { IsShallow (any_view image.old).tree }
    ensures { result ≡ led_reported (resolution
        (tree_namespace (any_view image.old).bytes (any_view image.old).tree) path.now follow) }
{
    match walk(image, path, follow) {
        Ok(node) => RomtoolNode {
            error: 0,
            node: node.0,
        },
        Err(error) => no_node(error.number()),
    }
}

/// Returns the node to which a path leads in an image, if the look-up compares no more names than
/// the budget, from which they are taken.
pub(crate) fn lookup_within_in(
    image: &mut AnyImage<'_>,
    path: &[u8],
    follow: bool,
    budget: &mut u64,
) -> RomtoolNode
    requires { IsShallow (any_view image.old).tree }
    ensures leads { result ≡ within_reported budget.old
        (names_compared (tree_namespace (any_view image.old).bytes (any_view image.old).tree)
        path.now follow)
        (led_reported (resolution
        (tree_namespace (any_view image.old).bytes (any_view image.old).tree) path.now follow)) }
    ensures left { budget.new ≡ budget.old
        - names_compared (tree_namespace (any_view image.old).bytes (any_view image.old).tree)
        path.now follow }
{
    match walk_within(image, path, follow, budget) {
        Ok(node) => RomtoolNode {
            error: 0,
            node: node.0,
        },
        Err(refusal) => match refusal {
            WithinError::Path(error) => no_node(error.number()),
            WithinError::TooManyNames => no_node(TOO_MANY_NAMES),
        },
    }
}

/// Returns the kind and numbers of the node to which a path leads in an image.
pub(crate) fn stat_in(image: &mut AnyImage<'_>, path: &[u8], follow: bool) -> RomtoolStat
    requires { IsShallow (any_view image.old).tree }
    ensures { result ≡ shown_reported (resolution
        (tree_namespace (any_view image.old).bytes (any_view image.old).tree) path.now follow) }
{
    match walk(image, path, follow) {
        Ok(node) => shown(image.stat(node)),
        Err(error) => no_stat(error.number()),
    }
}

/// Returns the kind and numbers of a node of an image.
pub(crate) fn stat_at(image: &AnyImage<'_>, node: NodeId) -> RomtoolStat
    requires { HasNode (any_view image.now) node.0 }
    ensures { (x : Node) → image_node (any_view image.now) node.0 ≡ Some x
        → result ≡ stat_reported (stat_of x) }
{
    shown(image.stat(node))
}

/// Returns the node of the entry of this name in a directory of an image.
pub(crate) fn lookup_at(image: &mut AnyImage<'_>, directory: NodeId, name: &[u8]) -> RomtoolNode
    requires { HasNode (any_view image.old) directory.0 }
    ensures { (x : Node) → image_node (any_view image.old) directory.0 ≡ Some x
        → result ≡ entry_reported x name.now }
{
    if !is_directory_at(image, directory) {
        return no_node(NO_DIRECTORY);
    }
    match image.lookup(directory, name) {
        Some(node) => RomtoolNode {
            error: 0,
            node: node.0,
        },
        None => no_node(NO_ENTRY),
    }
}

/// Returns the offset and the length of the text of a link of an image.
pub(crate) fn readlink_at(image: &AnyImage<'_>, node: NodeId) -> RomtoolPlace
    requires { HasNode (any_view image.now) node.0 }
    ensures { (x : Node) → image_node (any_view image.now) node.0 ≡ Some x
        → IsTextAt x result (is_link x) }
{
    if !is_link_at(image, node) {
        return no_place(NO_LINK);
    }
    match image.run(node, 0) {
        Some(run) => RomtoolPlace {
            error: 0,
            at: run.place,
            len: u64::from(run.len),
        },
        None => no_place(NO_LINK),
    }
}

/// Returns the offset and the length of the text of the link to which a path leads in an image.
pub(crate) fn readlink_in(image: &mut AnyImage<'_>, path: &[u8]) -> RomtoolPlace
    requires { IsShallow (any_view image.old).tree }
    ensures { IsText (resolution
        (tree_namespace (any_view image.old).bytes (any_view image.old).tree)
        path.now false) result }
{
    match walk(image, path, false) {
        Ok(node) => readlink_at(image, node),
        Err(error) => no_place(error.number()),
    }
}
