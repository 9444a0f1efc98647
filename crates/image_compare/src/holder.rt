//! The file that has a byte of an image.
ghost use Rattle.std.specs.Prelude.{◌≡◌, ◌+◌, ◌<◌, ◌≤◌, Some, IfSome, IfNone};
ghost use Rattle.std.specs.Bool.{OnTrue, OnFalse};
ghost use Rattle.rom_tree.specs.Tree.{Node, IsShallow, places_of};
ghost use Rattle.rom_tree.specs.Image.{image_node, HasNode};
ghost use Rattle.image_compare.specs.Holders.{HasPlace, Holds, IsHolder, HasNoHolder};

use rom_tree::{NodeId, Run, TreeImage, Walk, is_regular_at};

/// Whether a run has the byte at this offset of the image.
fn covers(run: Run, place: u32) -> bool
    ensures yes { OnTrue result ((run.place ≤ place) × (place < run.place + run.len)) }
    ensures no { OnFalse result (run.place ≤ place → place < run.place + run.len → ⊥) }
{
    run.place <= place && place - run.place < run.len
}

/// Whether a byte of a file or a link is at this offset of the image.
fn has_place<'a, T: TreeImage<'a>>(image: &T, node: NodeId, place: u32) -> bool
    requires { HasNode (T.image image.now) node.0 }
    ensures found { OnTrue result ((x : Node) → image_node (T.image image.now) node.0 ≡ Some x
        → HasPlace (places_of x) place) }
    ensures none { OnFalse result ((x : Node) → image_node (T.image image.now) node.0 ≡ Some x
        → HasPlace (places_of x) place → ⊥) }
{
    let size = image.stat(node).size;
    let mut at = 0;
    while at < size {
        let Some(run) = image.run(node, u64::from(at)) else {
            return false;
        };
        if covers(run, place) {
            return true;
        }
        at += run.len;
    }
    false
}

/// Whether a regular file has a byte at this offset of the image.
fn is_holder<'a, T: TreeImage<'a>>(image: &T, node: NodeId, place: u32) -> bool
    requires { HasNode (T.image image.now) node.0 }
    ensures found { OnTrue result ((x : Node) → image_node (T.image image.now) node.0 ≡ Some x
        → Holds x place) }
    ensures none { OnFalse result ((x : Node) → image_node (T.image image.now) node.0 ≡ Some x
        → Holds x place → ⊥) }
{
    is_regular_at(image, node) && has_place(image, node, place)
}

/// Returns a walk at the first name, in the list's order, of a regular file that has the byte at
/// this offset of the image. The walk's path is that name's path. Returns `None` if no file has the
/// byte: it belongs to a header, to a list or to no extent. Directories may be 64 deep.
pub fn find_holder<'a, T: TreeImage<'a>>(image: &T, place: u32) -> Option<Walk<'a>>
    requires { IsShallow (T.image image.now).tree }
    ensures found { IfSome result (λ w. IsHolder (T.image image.now).tree w place) }
    ensures none { IfNone result (HasNoHolder (T.image image.now).tree place) }
{
    let mut walk = Walk::new();
    while let Some(node) = walk.next(image) {
        if is_holder(image, node, place) {
            return Some(walk);
        }
    }
    None
}
