//! The answer of the first entries of a list for a name.
ghost use Rattle.rom_tree.specs.Image.{HasDirectory};
ghost use Rattle.lookups.specs.Indices.{entries_in, IsKnown};

use crate::names::is_same;
use rom_tree::{Cursor, NodeId, TreeImage};

/// What is known of a name after the first 17 entries of a list, or after all of a shorter list.
pub(crate) enum Front {
    /// The first entry with exactly this name leads here.
    Leads(NodeId),
    /// The list has no such entry.
    Absent,
    /// The list has more than 16 entries.
    Longer,
}

/// Goes over the entries of a directory's list up to the name, and over no more than 17.
pub(crate) fn front_of<'a, T: TreeImage<'a>>(image: &T, d: NodeId, name: &[u8]) -> Front
    requires { HasDirectory (T.image image.now) d.0 }
    ensures { IsKnown (entries_in (T.image image.now) d.0) name.now result }
{
    let mut cursor = Cursor::START;
    'entries: for i in 0..17usize {
        let Some(entry) = image.entry(d, cursor) else {
            return Front::Absent;
        };
        if is_same(entry.name, name) {
            return Front::Leads(entry.node);
        }
        cursor = entry.cursor;
    }
    Front::Longer
}
