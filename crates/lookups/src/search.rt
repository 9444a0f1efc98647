//! The look-up of a name in an index.
ghost use Rattle.std.specs.Prelude.{◌≡◌, ◌≤◌, length, true, false};
ghost use Rattle.std.specs.List.Sorted.{IsSorted, IsPartitionPoint};
ghost use Rattle.lookups.specs.Indices.{by_name, first_of, is_below};

use crate::names::{is_before, is_same};
use crate::rows::NamedNode;
use rom_tree::NodeId;

/// The number of rows of an index whose names sort before this one, found by halving.
fn rows_before(rows: &[NamedNode<'_>], name: &[u8]) -> usize
    ensures within { result ≤ length rows.now }
    ensures parts { IsSorted by_name rows.now
        → IsPartitionPoint (λ x. is_below name.now x ≡ true) (λ x. is_below name.now x ≡ false)
        rows.now result }
{
    let mut low = 0;
    let mut high = rows.len();
    while low < high {
        let middle = low + (high - low) / 2;
        if is_before(rows[middle].name, name) {
            low = middle + 1;
        } else {
            high = middle;
        }
    }
    low
}

/// The node of the first row with exactly this name, or `None` if no row has it.
pub(crate) fn find(rows: &[NamedNode<'_>], name: &[u8]) -> Option<NodeId>
    ensures { IsSorted by_name rows.now → result ≡ first_of rows.now name.now }
{
    let place = rows_before(rows, name);
    if place < rows.len() && is_same(rows[place].name, name) {
        return Some(rows[place].node);
    }
    None
}
