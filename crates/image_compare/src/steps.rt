//! The lines of the next names of two lists.
ghost use Rattle.std.specs.Prelude.{◌≡◌, ◌+◌, ◌<◌, ◌≤◌, ◌∷◌, List, Some, IfNone, IsSome, ◌⊎◌};
ghost use Rattle.rom_fields.specs.Written.{sink};
ghost use Rattle.rom_tree.specs.Image.{image_node, HasNode};
ghost use Rattle.rom_tree.specs.Names.{Name};
ghost use Rattle.image_check.specs.Any.{any_view};
ghost use Rattle.image_compare.specs.Rows.{IsNext, StepPuts};
ghost use Rattle.image_compare.specs.Same.{AreSame};

use crate::lines::{put_added, put_nodes, put_removed};
use crate::order::is_before;
use crate::same::Same;
use image_check::AnyImage;
use rom_fields::ByteWrite;
use rom_tree::NodeId;

/// A name of an image: its path, and the node to which it leads.
#[derive(Clone, Copy)]
pub(crate) struct Named<'p> {
    pub(crate) path: &'p [u8],
    pub(crate) node: NodeId,
}

/// The number of names that a step used of each list, and whether it put a line.
#[derive(Clone, Copy)]
pub(crate) struct Step {
    pub(crate) old: usize,
    pub(crate) new: usize,
    pub(crate) printed: bool,
}

/// The old image has a path that the new one lacks.
const REMOVED: Step = Step {
    old: 1,
    new: 0,
    printed: true,
};

/// The new image has a path that the old one lacks.
const ADDED: Step = Step {
    old: 0,
    new: 1,
    printed: true,
};

/// Puts the lines of the lesser of two paths, or of both if they are the same.
fn put_lesser<W: ByteWrite>(
    old: &AnyImage<'_>,
    new: &AnyImage<'_>,
    same: &mut Same,
    places: bool,
    w: &mut W,
    failed: &mut bool,
    x: Named<'_>,
    y: Named<'_>,
) -> Step
    requires old { HasNode (any_view old.now) x.node.0 }
    requires new { HasNode (any_view new.now) y.node.0 }
    requires same { AreSame (any_view old.now) (any_view new.now) same.old }
    ensures same { AreSame (any_view old.now) (any_view new.now) same.new }
    ensures puts { (p q : Name) (ps qs : List Name) → x.entry.path.now ≡ p.path
        → image_node (any_view old.now) x.entry.node.0 ≡ Some p.node
        → y.entry.path.now ≡ q.path → image_node (any_view new.now) y.entry.node.0 ≡ Some q.node
        → StepPuts (sink (W.output w.old) failed.old) (sink (W.output w.new) failed.new) places
        (any_view old.now).bytes (any_view new.now).bytes (p ∷ ps) (q ∷ qs) result }
    ensures old_one { result.old ≤ 1 }
    ensures new_one { result.new ≤ 1 }
    ensures some { 0 < result.old + result.new }
{
    if is_before(x.path, y.path) {
        put_removed(w, failed, x.path);
        return REMOVED;
    }
    if is_before(y.path, x.path) {
        put_added(w, failed, y.path);
        return ADDED;
    }
    let nodes = (x.node, y.node);
    let printed = put_nodes(old, new, same, places, w, failed, x.path, nodes);
    Step {
        old: 1,
        new: 1,
        printed,
    }
}

/// Puts the lines of the next names of both lists, at least one of which has one.
pub(crate) fn put_step<W: ByteWrite>(
    old: &AnyImage<'_>,
    new: &AnyImage<'_>,
    same: &mut Same,
    places: bool,
    w: &mut W,
    failed: &mut bool,
    x: Option<Named<'_>>,
    y: Option<Named<'_>>,
) -> Step
    requires old { (ps : List Name) × IsNext (any_view old.now) x ps }
    requires new { (qs : List Name) × IsNext (any_view new.now) y qs }
    requires some { IsSome x ⊎ IsSome y }
    requires same { AreSame (any_view old.now) (any_view new.now) same.old }
    ensures same { AreSame (any_view old.now) (any_view new.now) same.new }
    ensures puts { (ps qs : List Name) → IsNext (any_view old.now) x.entry ps
        → IsNext (any_view new.now) y.entry qs
        → StepPuts (sink (W.output w.old) failed.old) (sink (W.output w.new) failed.new) places
        (any_view old.now).bytes (any_view new.now).bytes ps qs result }
    ensures old_one { result.old ≤ 1 }
    ensures new_one { result.new ≤ 1 }
    ensures old_none { IfNone x.entry (result.old ≡ 0) }
    ensures new_none { IfNone y.entry (result.new ≡ 0) }
    ensures some { 0 < result.old + result.new }
{
    match (x, y) {
        (Some(x), Some(y)) => put_lesser(old, new, same, places, w, failed, x, y),
        (Some(x), None) => {
            put_removed(w, failed, x.path);
            REMOVED
        }
        (None, Some(y)) => {
            put_added(w, failed, y.path);
            ADDED
        }
        (None, None) => ADDED,
    }
}
