//! The index of one directory's list.
ghost use Rattle.std.specs.Prelude.{IfOk};
ghost use Rattle.rom_tree.specs.Image.{HasDirectory};
ghost use Rattle.lookups.specs.Indices.{IsIndexOf, entries_in};

use rom_fields::OutOfMemory;
use rom_tree::{Cursor, NodeId, TreeImage};
use std::alloc::Global;

/// A name of a list, which is a slice of the image's bytes, and the node to which it leads.
#[derive(Clone, Copy)]
pub(crate) struct NamedNode<'a> {
    pub(crate) name: &'a [u8],
    pub(crate) node: NodeId,
}

/// Makes the index of a directory's list: a row for each entry, sorted by names. Rows of the same
/// name are in the order of their entries. Each entry is read once.
///
/// # Errors
///
/// `OutOfMemory` if memory is refused.
pub(crate) fn rows_of<'a, T: TreeImage<'a>>(
    alloc: Global,
    image: &T,
    d: NodeId,
) -> Result<Vec<NamedNode<'a>>, OutOfMemory>
    requires { HasDirectory (T.image image.now) d.0 }
    ensures { IfOk result (λ rows. IsIndexOf (entries_in (T.image image.now) d.0) rows.items) }
{
    let mut rows: Vec<NamedNode<'a>> = Vec::new(alloc);
    let mut cursor = Cursor::START;
    while let Some(entry) = image.entry(d, cursor) {
        rows.push(NamedNode {
            name: entry.name,
            node: entry.node,
        })?;
        cursor = entry.cursor;
    }
    rows.sort_by_key(|row| row.name)?;
    rows.shrink_to_fit();
    Ok(rows)
}
