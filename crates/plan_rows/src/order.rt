//! The rows of a manifest.
ghost use Rattle.std.specs.BTreeMap.{values};
ghost use Rattle.std.specs.Prelude.{◌≡◌, IfOk, ℕ, List, map};
ghost use Rattle.manifest_tree.specs.Tree.{tree_of};
ghost use Rattle.plan_rows.specs.Files.{IsOf};
ghost use Rattle.plan_rows.specs.Rows.{row_view, rows};

use crate::files::PathTargets;
use crate::keyed::put_line;
use crate::row::Row;
use manifest::Manifest;
use rom_fields::OutOfMemory;
use std::alloc::Global;
use std::collections::BTreeMap;

/// Returns the rows of a map, in the order of its keys.
fn in_order<'a>(
    alloc: Global,
    keyed: BTreeMap<Vec<u8>, Row<'a>>,
) -> Result<Vec<Row<'a>>, OutOfMemory>
    ensures { IfOk result (λ v. v.items ≡ values keyed.entry) }
{
    let rows = keyed.into_values().collect(alloc)?;
    Ok(rows)
}

/// Returns the rows of the names of a manifest, if its sources have the sizes with which `files`
/// was made. A directory comes before what it holds, and lists are in the order of their names. It
/// takes time in n log n for n lines.
///
/// # Errors
///
/// `OutOfMemory` if memory was refused.
pub fn rows<'a>(
    alloc: Global,
    m: &'a Manifest,
    files: &PathTargets,
) -> Result<Vec<Row<'a>>, OutOfMemory>
    ensures { (sizes : List ℕ) → IsOf m.now.lines sizes files.now
        → IfOk result (λ v. map row_view v.items ≡ rows 1 (tree_of m.now.lines sizes)) }
{
    let mut keyed = BTreeMap::new(alloc);
    let all = m.lines();
    for line in all {
        put_line(alloc, &mut keyed, m, files, line)?;
    }
    in_order(alloc, keyed)
}
