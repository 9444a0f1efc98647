//! The walk along a path that compares no more names than a budget.
ghost use Rattle.std.specs.Prelude.{◌≡◌, MatchResult, Ok, Some};
ghost use Rattle.rom_tree.specs.Tree.{Node, IsShallow};
ghost use Rattle.rom_tree.specs.Image.{image_node};
ghost use Rattle.path_walk.specs.Resolution.{resolution, tree_namespace};
ghost use Rattle.path_walk.specs.Compared.{names_compared, IsRefusedBy, AreTaken, Leaves};

use crate::budget::Purse;
use crate::error::WithinError;
use crate::images::One;
use crate::paths::{PLACES, find_place};
use rom_tree::{NodeId, TreeImage};

/// Finds the node to which a path leads, as `walk` does, if a look-up of the path compares no more
/// names than `budget`. The names that were compared are taken from the budget, so that one budget
/// serves several paths. The image does not change.
///
/// The names that are compared are those of the entries of each directory on the way, in their
/// order, up to the one with the component's name. Each is read at most twice: to count it and to
/// look it up. `.` and `..` compare none. What else is done is bounded by the bytes of the path and
/// of at most 40 links, each of which has at most 4095. No memory is allocated.
///
/// # Errors
///
/// `TooManyNames` if more names are compared than the budget, and nothing is left of it then;
/// otherwise the error of `walk`.
pub fn walk_within<'a, T: TreeImage<'a>>(
    image: &mut T,
    path: &[u8],
    follow_last: bool,
    budget: &mut u64,
) -> Result<NodeId, WithinError>
    requires { IsShallow (T.image image.old).tree }
    ensures leads { MatchResult result
        (λ n. (x : Node)
        × (resolution (tree_namespace (T.image image.old).bytes (T.image image.old).tree)
        path.now follow_last ≡ Ok x)
        × (image_node (T.image image.old) n.0 ≡ Some x))
        (IsRefusedBy (resolution (tree_namespace (T.image image.old).bytes
        (T.image image.old).tree) path.now follow_last)) }
    ensures left { MatchResult result
        (λ n. AreTaken budget.old budget.new
        (names_compared (tree_namespace (T.image image.old).bytes (T.image image.old).tree)
        path.now follow_last))
        (Leaves budget.old budget.new
        (names_compared (tree_namespace (T.image image.old).bytes (T.image image.old).tree)
        path.now follow_last)) }
    ensures stays { T.image image.new ≡ T.image image.old }
{
    let mut one = One { image };
    let mut purse = Purse::Limited(*budget);
    let found = find_place::<One<'_, T>, PLACES>(&mut one, &[], path, follow_last, &mut purse);
    *budget = purse.left();
    Ok(found?.node)
}
