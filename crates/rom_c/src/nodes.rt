//! The calls of C on the names of nodes.
ghost use Rattle.std.specs.Prelude.{◌≡◌, ◌≢◌, ◌≤◌, ◌<◌, ◌==◌, ℕ, true, IsSome, IfSome, length};
ghost use Rattle.std.specs.Prelude.{take, drop};
ghost use Rattle.std.specs.List.{count_by};
ghost use Rattle.std.specs.List.Sorted.{IsNonDecreasing};
ghost use Rattle.rom_tree.specs.Tree.{Node, is_directory, node_at, nodes};
ghost use Rattle.image_check.specs.Checked.{HasTree};
ghost use Rattle.rom_c.specs.Held.{usual};
ghost use Rattle.rom_c.specs.Linked.{links_of, parent_reported};
ghost use Rattle.rom_c.specs.Reported.{no_node as no_node_reported};

use crate::answers::{CLOSED, RomtoolNode, no_node};
use crate::image::{OPEN, RomtoolImage, image_of};
use crate::linked::{links_in, nodes_in, parent_in};
use image_check::laws::one_tree;
use rom_tree::NodeId;

/// Returns the number of names of the node with this number. A directory has one, and so has the
/// root. It is 0 if no node has the number, or if no image is open. The time grows with the number
/// of references.
#[unsafe(no_mangle)]
pub extern "C" fn romtool_links_v3(image: &RomtoolImage<'_>, node: u32) -> u64
    ensures closed { image.now.status ≢ 1 → result ≡ 0 }
    ensures counts { image.now.status ≡ 1 → (t : Node) → HasTree image.now.bytes.now usual t
        → result ≡ links_of t node }
{
    one_tree();
    if image.status != OPEN {
        return 0;
    }
    links_in(&image_of(image), NodeId(node))
}

/// Writes the numbers of the nodes of all names to the front of `numbers`, in rising order, so that
/// a number occurs as often as names lead to its node. Returns the number of names, with that of
/// the root. If there is less room, `numbers` stays as it is. Without an open image it is 0. For n
/// names, the time is n log n.
#[unsafe(no_mangle)]
pub extern "C" fn romtool_nodes_v3(image: &RomtoolImage<'_>, numbers: &mut [u32]) -> u64
    ensures closed { image.now.status ≢ 1 → result ≡ 0 }
    ensures rest { drop result numbers.new ≡ drop result numbers.old }
    ensures small { length numbers.old < result → numbers.new ≡ numbers.old }
    ensures count { image.now.status ≡ 1 → (t : Node) → HasTree image.now.bytes.now usual t
        → result ≡ length (nodes t) }
    ensures sorted { result ≤ length numbers.old → IsNonDecreasing (take result numbers.new) }
    ensures links { image.now.status ≡ 1 → result ≤ length numbers.old
        → (t : Node) → HasTree image.now.bytes.now usual t
        → (n : ℕ) → count_by (λ v. v == n) (take result numbers.new) ≡ links_of t n }
{
    one_tree();
    if image.status != OPEN {
        return 0;
    }
    nodes_in(&image_of(image), numbers)
}

/// Returns the parent of the directory with this number, which a call on the same image returned.
/// The root is its own parent. The errors are 13 if no image is open, and 2 if the node is not a
/// directory. The time grows with the number of references.
#[unsafe(no_mangle)]
pub extern "C" fn romtool_parent_v3(image: &RomtoolImage<'_>, directory: u32) -> RomtoolNode
    requires { image.now.status ≡ 1 → (t : Node) → HasTree image.now.bytes.now usual t
        → IsSome (node_at t directory) }
    ensures closed { image.now.status ≢ 1 → result ≡ no_node_reported 13 }
    ensures parent { image.now.status ≡ 1 → (t : Node) → HasTree image.now.bytes.now usual t
        → IfSome (node_at t directory) (λ x. result ≡ parent_reported t x) }
    ensures some { image.now.status ≡ 1 → (t : Node) → HasTree image.now.bytes.now usual t
        → IfSome (node_at t directory) (λ x. is_directory x ≡ true → result.error ≡ 0) }
{
    one_tree();
    if image.status != OPEN {
        return no_node(CLOSED);
    }
    parent_in(&image_of(image), NodeId(directory))
}
