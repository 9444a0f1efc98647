//! The two passes over rows.
ghost use Rattle.std.specs.Prelude.{◌≡◌, ◌<◌, ◌≤◌, ◌^◌, IfOk, length, map, replicate};
ghost use Rattle.std.specs.List.{All};
ghost use Rattle.manifest_tree.specs.Files.{height};
ghost use Rattle.manifest_tree.specs.Names.{Names};
ghost use Rattle.plan_rows.specs.Rows.{rows as rows_of, row_view};
ghost use Rattle.romfs_plan.specs.Passes.{places, places_end, places_of, named_places};
ghost use Rattle.romfs_plan.specs.Rows.{IsFitRow};

use crate::places::{Place, row_end, row_place};
use plan_rows::Row;
use rom_fields::OutOfMemory;
use std::alloc::Global;

/// One more than the greatest depth of a row, and one for the list below it.
pub const DEPTHS: usize = 66;

/// Returns the offsets of the headers of rows, if what was placed before ends at `from`.
fn row_places(alloc: Global, rows: &[Row<'_>], from: u64) -> Result<Vec<u64>, OutOfMemory>
    requires fit { All (λ r. IsFitRow (row_view r)) rows.now }
    requires few { length rows.now ≤ 2 ^ 20 }
    requires from { from < 2 ^ 30 }
    ensures { IfOk result (λ v. v.items ≡ places from (map row_view rows.now)) }
{
    let mut found = Vec::new(alloc);
    let mut at = from;
    for row in rows {
        found.push(row_place(at, row))?;
        at = row_end(at, row);
    }
    Ok(found)
}

/// Returns the end of all that rows place, if what was placed before ends at `from`.
pub fn rows_end(rows: &[Row<'_>], from: u64) -> u64
    requires fit { All (λ r. IsFitRow (row_view r)) rows.now }
    requires few { length rows.now ≤ 2 ^ 20 }
    requires from { from < 2 ^ 30 }
    ensures end { result ≡ places_end from (map row_view rows.now) }
    ensures near { result < 2 ^ 56 }
{
    let mut at = from;
    for row in rows {
        at = row_end(at, row);
    }
    at
}

/// Returns what rows lead on to, if their headers are at these offsets.
fn linked(alloc: Global, rows: &[Row<'_>], places: &[u64]) -> Result<Vec<Place>, OutOfMemory>
    requires shallow { All (λ r. r.depth < 65) rows.now }
    requires places { length places.now ≡ length rows.now }
    ensures { IfOk result (λ v. v.items
        ≡ places_of (replicate 66 0) (map row_view rows.now) places.now) }
{
    let mut heads = [0u64; DEPTHS];
    let mut found = Vec::new(alloc);
    for i in (0..rows.len()).rev() {
        let row = &rows[i];
        let at = places[i];
        found.push(Place {
            at,
            next: heads[row.depth],
            first: heads[row.depth + 1],
        })?;
        heads[row.depth + 1] = 0;
        heads[row.depth] = at;
    }
    found.reverse();
    Ok(found)
}

/// Returns the offsets of the headers of rows and what they lead on to, if what was placed before
/// ends at `from`.
pub fn places_of(alloc: Global, rows: &[Row<'_>], from: u64) -> Result<Vec<Place>, OutOfMemory>
    requires fit { All (λ r. IsFitRow (row_view r)) rows.now }
    requires shallow { All (λ r. r.depth < 65) rows.now }
    requires few { length rows.now ≤ 2 ^ 20 }
    requires from { from < 2 ^ 30 }
    ensures passes { IfOk result (λ v. v.items
        ≡ places_of (replicate 66 0) (map row_view rows.now)
        (places from (map row_view rows.now))) }
    ensures named { (n : Names) → map row_view rows.now ≡ rows_of 1 n → height n ≤ 64
        → IfOk result (λ v. v.items ≡ named_places from n) }
{
    let places = row_places(alloc, rows, from)?;
    linked(alloc, rows, &places)
}
