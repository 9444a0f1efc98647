//! The calls of C on an image.
ghost use Rattle.std.specs.Prelude.{◌≡◌, ◌≢◌, ◌⊎◌, ◌↔◌, ◌-◌, false, true, Some, IsSome, IfSome};
ghost use Rattle.std.specs.Bool.{IsTrue};
ghost use Rattle.rom_tree.specs.Tree.{Node, node_at, is_link};
ghost use Rattle.rom_tree.specs.Image.{stat_of};
ghost use Rattle.path_walk.specs.Resolution.{resolution, tree_namespace};
ghost use Rattle.path_walk.specs.Compared.{names_compared};
ghost use Rattle.rom_fields.specs.declared.check_error.CheckError.TheVariants.{Fault, OutOfMemory};
ghost use Rattle.image_check.specs.Checked.{HasTree, IsLeastFaultUnder};
ghost use Rattle.rom_c.specs.Held.{usual, IsFormat, IsReported};
ghost use Rattle.rom_c.specs.Reported.{IsText, IsTextAt, entry_reported, led_reported};
ghost use Rattle.rom_c.specs.Reported.{within_reported, shown_reported, stat_reported};
ghost use Rattle.rom_c.specs.Reported.{no_node as no_node_reported, no_stat as no_stat_reported};
ghost use Rattle.rom_c.specs.Reported.{no_place as no_place_reported};

use crate::answers::{CLOSED, RomtoolNode, RomtoolPlace, RomtoolStat, no_node, no_place, no_stat};
use crate::calls::{
    lookup_at, lookup_in, lookup_within_in, readlink_at, readlink_in, stat_at, stat_in,
};
use crate::image::{OPEN, RomtoolImage, check_into, image_of};
use image_check::laws::one_tree;
use rom_tree::{NodeId, TreeImage};
use std::alloc::Global;

/// Checks an image, and stores the struct that C passes to each call on it.
///
/// Returns 0 if the bytes hold an image. Then its status is 1, its format is 1 (romfs), 2 (cramfs)
/// or 3 (big-endian cramfs), `root` is the number of the tree's root, and it has the numbers of the
/// check. Otherwise the status is 0, and
/// the result is 14 if the bytes have a fault, whose number and offset are in `fault` and `at` (the
/// numbers are those of `rom_fields`), or 15 if memory was refused.
#[unsafe(no_mangle)]
pub extern "C" fn romtool_check_v3<'a>(
    alloc: Global,
    image: &mut RomtoolImage<'a>,
    bytes: &'a [u8],
) -> u32
    ensures bytes { image.new.bytes.now ≡ bytes.now }
    ensures open { result ≡ 0 → image.new.status ≡ 1 }
    ensures tree { result ≡ 0 → (t : Node) × HasTree bytes.now usual t }
    ensures format { result ≡ 0 → IsFormat bytes.now image.new.format }
    ensures root { result ≡ 0 → (t : Node) → HasTree bytes.now usual t
        → node_at t image.new.root ≡ Some t }
    ensures report { result ≡ 0 → IsReported bytes.now image.new.references image.new.depth }
    ensures sound { result ≡ 0 → (image.new.fault ≡ 0) × (image.new.at ≡ 0) }
    ensures closed { result ≢ 0 → (image.new.status ≡ 0) × (image.new.format ≡ 0) }
    ensures numbers { result ≢ 0 → (image.new.accessible ≡ 0) × (image.new.root ≡ 0)
        × (image.new.references ≡ 0) × (image.new.depth ≡ 0) }
    ensures refused { result ≡ 14 → (t : Node) → HasTree bytes.now usual t → ⊥ }
    ensures least { result ≡ 14
        → IsLeastFaultUnder bytes.now usual (Fault image.new.fault image.new.at) }
    ensures memory { result ≡ 15 → IsLeastFaultUnder bytes.now usual OutOfMemory }
    ensures no_fault { result ≡ 15 → (image.new.fault ≡ 0) × (image.new.at ≡ 0) }
    ensures codes { (result ≡ 0) ⊎ ((result ≡ 14) ⊎ (result ≡ 15)) }
{
    check_into(alloc, image, bytes)
}

/// Returns the node to which a path leads; `follow` is true if a symbolic link as the last
/// component is followed. The errors are 13 if no image is open, and those of `path_walk::walk`.
#[unsafe(no_mangle)]
pub extern "C" fn romtool_lookup_v3(
    image: &RomtoolImage<'_>,
    path: &[u8],
    follow: bool,
) -> RomtoolNode
    ensures closed { image.now.status ≢ 1 → result ≡ no_node_reported 13 }
    ensures leads { image.now.status ≡ 1 → (t : Node) → HasTree image.now.bytes.now usual t
        → result ≡ led_reported
        (resolution (tree_namespace image.now.bytes.now t) path.now follow) }
{
    one_tree();
    if image.status != OPEN {
        return no_node(CLOSED);
    }
    lookup_in(&mut image_of(image), path, follow)
}

/// Returns the node to which a path leads, as `romtool_lookup` does, if the look-up compares no
/// more names than `budget`; the names that it compares are taken from the budget. The errors are
/// those of `romtool_lookup`, and 16 if more names are compared than the budget; then nothing is
/// left of it. If no image is open, the budget stays as it is.
#[unsafe(no_mangle)]
pub extern "C" fn romtool_lookup_within_v3(
    image: &RomtoolImage<'_>,
    path: &[u8],
    follow: bool,
    budget: &mut u64,
) -> RomtoolNode
    ensures closed { image.now.status ≢ 1
        → (result ≡ no_node_reported 13) × (budget.new ≡ budget.old) }
    ensures leads { image.now.status ≡ 1 → (t : Node) → HasTree image.now.bytes.now usual t
        → result ≡ within_reported budget.old
        (names_compared (tree_namespace image.now.bytes.now t) path.now follow)
        (led_reported (resolution (tree_namespace image.now.bytes.now t) path.now follow)) }
    ensures left { image.now.status ≡ 1 → (t : Node) → HasTree image.now.bytes.now usual t
        → budget.new
        ≡ budget.old - names_compared (tree_namespace image.now.bytes.now t) path.now follow }
{
    one_tree();
    if image.status != OPEN {
        return no_node(CLOSED);
    }
    lookup_within_in(&mut image_of(image), path, follow, budget)
}

/// Returns the kind and numbers of the node to which a path leads; `follow` and the errors are
/// those of `romtool_lookup`.
#[unsafe(no_mangle)]
pub extern "C" fn romtool_stat_v3(
    image: &RomtoolImage<'_>,
    path: &[u8],
    follow: bool,
) -> RomtoolStat
    ensures closed { image.now.status ≢ 1 → result ≡ no_stat_reported 13 }
    ensures shows { image.now.status ≡ 1 → (t : Node) → HasTree image.now.bytes.now usual t
        → result ≡ shown_reported (resolution (tree_namespace image.now.bytes.now t) path.now
        follow) }
{
    one_tree();
    if image.status != OPEN {
        return no_stat(CLOSED);
    }
    stat_in(&mut image_of(image), path, follow)
}

/// Returns the kind and numbers of the node with this number, which a call on the same image
/// returned. There is no look-up. The error is 13 if no image is open.
#[unsafe(no_mangle)]
pub extern "C" fn romtool_stat_node_v3(image: &RomtoolImage<'_>, node: u32) -> RomtoolStat
    requires { image.now.status ≡ 1 → (t : Node) → HasTree image.now.bytes.now usual t
        → IsSome (node_at t node) }
    ensures closed { image.now.status ≢ 1 → result ≡ no_stat_reported 13 }
    ensures shows { image.now.status ≡ 1 → (t : Node) → HasTree image.now.bytes.now usual t
        → IfSome (node_at t node) (λ x. result ≡ stat_reported (stat_of x)) }
{
    one_tree();
    if image.status != OPEN {
        return no_stat(CLOSED);
    }
    stat_at(&image_of(image), NodeId(node))
}

/// Returns the offset and the length of the text of the symbolic link to which a path leads; its
/// bytes follow one another in the image. The errors are those of `romtool_lookup`, and 5 if the
/// path does not lead to a link.
#[unsafe(no_mangle)]
pub extern "C" fn romtool_readlink_v3(image: &RomtoolImage<'_>, path: &[u8]) -> RomtoolPlace
    ensures closed { image.now.status ≢ 1 → result ≡ no_place_reported 13 }
    ensures text { image.now.status ≡ 1 → (t : Node) → HasTree image.now.bytes.now usual t
        → IsText (resolution (tree_namespace image.now.bytes.now t) path.now false) result }
{
    one_tree();
    if image.status != OPEN {
        return no_place(CLOSED);
    }
    readlink_in(&mut image_of(image), path)
}

/// Returns whether a number is that of a node. If no image is open, none is. The time grows with
/// the number of references, and no memory is taken.
#[unsafe(no_mangle)]
pub extern "C" fn romtool_is_node_v3(image: &RomtoolImage<'_>, node: u32) -> bool
    ensures closed { image.now.status ≢ 1 → result ≡ false }
    ensures node { image.now.status ≡ 1 → (t : Node) → HasTree image.now.bytes.now usual t
        → IsTrue result ↔ IsSome (node_at t node) }
{
    one_tree();
    if image.status != OPEN {
        return false;
    }
    image_of(image).is_node(NodeId(node))
}

/// Returns the node of the entry with exactly this name in the directory with this number, which a
/// call on the same image returned. No entry is named `.` or `..`, and no link is followed. The
/// errors are 13 if no image is open, 2 if the node is not a directory, and 1 if it has no such
/// entry.
#[unsafe(no_mangle)]
pub extern "C" fn romtool_lookup_at_v3(
    image: &RomtoolImage<'_>,
    directory: u32,
    name: &[u8],
) -> RomtoolNode
    requires { image.now.status ≡ 1 → (t : Node) → HasTree image.now.bytes.now usual t
        → IsSome (node_at t directory) }
    ensures closed { image.now.status ≢ 1 → result ≡ no_node_reported 13 }
    ensures entry { image.now.status ≡ 1 → (t : Node) → HasTree image.now.bytes.now usual t
        → IfSome (node_at t directory) (λ x. result ≡ entry_reported x name.now) }
{
    one_tree();
    if image.status != OPEN {
        return no_node(CLOSED);
    }
    lookup_at(&mut image_of(image), NodeId(directory), name)
}

/// Returns the offset and the length of the text of the symbolic link with this number, which a
/// call on the same image returned; its bytes follow one another in the image. There is no
/// look-up. The errors are 13 if no image is open, and 5 if the node is not a link.
#[unsafe(no_mangle)]
pub extern "C" fn romtool_readlink_node_v3(image: &RomtoolImage<'_>, node: u32) -> RomtoolPlace
    requires { image.now.status ≡ 1 → (t : Node) → HasTree image.now.bytes.now usual t
        → IsSome (node_at t node) }
    ensures closed { image.now.status ≢ 1 → result ≡ no_place_reported 13 }
    ensures text { image.now.status ≡ 1 → (t : Node) → HasTree image.now.bytes.now usual t
        → IfSome (node_at t node) (λ x. IsTextAt x result (is_link x)) }
{
    one_tree();
    if image.status != OPEN {
        return no_place(CLOSED);
    }
    readlink_at(&image_of(image), NodeId(node))
}
