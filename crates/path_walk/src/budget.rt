//! The names that a walk compares, taken from a purse.
ghost use Rattle.std.specs.Prelude.{◌≡◌, Some};
ghost use Rattle.std.specs.Bool.{OnTrue, OnFalse};
ghost use Rattle.rom_tree.specs.Tree.{Node, entries_of};
ghost use Rattle.rom_tree.specs.Image.{image_node, HasNode, HasDirectory};
ghost use Rattle.path_walk.specs.Compared.{entries_until, is_looked_up, compared_at};
ghost use Rattle.path_walk.specs.Compared.{AreTaken, AreTooMany, names_left};
ghost use Rattle.path_walk.specs.Compared.{AreTakenFrom, AreTooManyFor};

use crate::step::COMPONENT_MAX;
use rom_tree::{Cursor, NodeId, TreeImage, is_directory_at, is_dot, is_dot_dot};

/// How many names a walk may still compare: any number, or so many.
#[derive(Clone, Copy)]
pub(crate) enum Purse {
    Unlimited,
    Limited(u64),
}

impl Purse {
    /// How many names are left if it is limited, otherwise 0.
    pub(crate) fn left(self) -> u64
        ensures { result ≡ names_left self }
    {
        match self {
            Purse::Unlimited => 0,
            Purse::Limited(left) => left,
        }
    }
}

/// Returns whether a component is looked up at a node by comparing names.
fn is_compared<'a, T: TreeImage<'a>>(image: &T, node: NodeId, component: &[u8]) -> bool
    requires { HasNode (T.image image.now) node.0 }
    ensures { (x : Node) → image_node (T.image image.now) node.0 ≡ Some x
        → result ≡ is_looked_up x component.now }
{
    if !is_directory_at(image, node) {
        return false;
    }
    if component.len() > COMPONENT_MAX {
        return false;
    }
    if is_dot(component) {
        return false;
    }
    !is_dot_dot(component)
}

/// Takes from a budget the names of a directory's entries, in their order, up to the one that is
/// equal to this name. Returns `false` if there are more than the budget; then nothing is left.
fn take_entries<'a, T: TreeImage<'a>>(
    image: &T,
    directory: NodeId,
    name: &[u8],
    budget: &mut u64,
) -> bool
    requires { HasDirectory (T.image image.now) directory.0 }
    ensures taken { OnTrue result ((x : Node)
        → image_node (T.image image.now) directory.0 ≡ Some x
        → AreTaken budget.old budget.new (entries_until (entries_of x) name.now)) }
    ensures too_many { OnFalse result ((x : Node)
        → image_node (T.image image.now) directory.0 ≡ Some x
        → AreTooMany budget.old budget.new (entries_until (entries_of x) name.now)) }
{
    let mut cursor = Cursor::START;
    while let Some(entry) = image.entry(directory, cursor) {
        if *budget == 0 {
            return false;
        }
        *budget -= 1;
        if entry.name == name {
            return true;
        }
        cursor = entry.cursor;
    }
    true
}

/// Takes from a purse the names with which a component is compared at a node. Returns `false` if
/// there are more; then nothing is left. From an unlimited purse nothing is taken.
pub(crate) fn take_names<'a, T: TreeImage<'a>>(
    image: &T,
    node: NodeId,
    component: &[u8],
    purse: &mut Purse,
) -> bool
    requires { HasNode (T.image image.now) node.0 }
    ensures taken { OnTrue result ((x : Node) → image_node (T.image image.now) node.0 ≡ Some x
        → AreTakenFrom purse.old purse.new (compared_at x component.now)) }
    ensures too_many { OnFalse result ((x : Node) → image_node (T.image image.now) node.0 ≡ Some x
        → AreTooManyFor purse.old purse.new (compared_at x component.now)) }
{
    let Purse::Limited(budget) = purse else {
        return true;
    };
    if is_compared(image, node, component) {
        return take_entries(image, node, component, budget);
    }
    true
}
