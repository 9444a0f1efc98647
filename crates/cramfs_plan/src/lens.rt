//! The lengths of directories' lists.
ghost use Rattle.std.specs.List.{All};
ghost use Rattle.std.specs.Prelude.{◌≡◌, ◌+◌, ◌<◌, ◌≤◌, ◌^◌, ◌*◌, map, length, replicate};
ghost use Rattle.std.specs.Prelude.{slice_index, IfOk};
ghost use Rattle.cramfs_plan.specs.Bounds.{IsNarrow};
ghost use Rattle.cramfs_plan.specs.Passes.{lens_of, own_lens};
ghost use Rattle.plan_rows.specs.Rows.{row_view};

use crate::words::entry_len;
use plan_rows::Row;
use rom_fields::OutOfMemory;
use std::alloc::Global;

/// One more than the greatest depth of a row, and one for the list below it.
pub const DEPTHS: usize = 66;

/// The length of the root's list, and for each row that of its own list, or 0 if it has none.
#[derive(Drop)]
pub struct Lens {
    pub root: u64,
    pub own: Vec<u64>,
}

/// Returns the lengths of the lists.
pub fn list_lens(alloc: Global, rows: &[Row<'_>]) -> Result<Lens, OutOfMemory>
    requires narrow { All IsNarrow rows.now }
    requires few { length rows.now ≤ 2 ^ 20 }
    ensures root { IfOk result (λ l. l.root
        ≡ slice_index (lens_of (replicate 66 0) (map row_view rows.now)) 1) }
    ensures own { IfOk result (λ l. l.own.items
        ≡ own_lens (replicate 66 0) (map row_view rows.now)) }
{
    let mut lens = [0u64; DEPTHS];
    let mut own = Vec::new(alloc);
    for i in (0..rows.len()).rev() {
        let row = rows[i];
        let longer = lens[row.depth] + entry_len(row.name);
        own.push(lens[row.depth + 1])?;
        lens[row.depth + 1] = 0;
        lens[row.depth] = longer;
    }
    own.reverse();
    Ok(Lens { root: lens[1], own })
}
