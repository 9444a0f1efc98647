//! The items of a romfs image.
ghost use Rattle.std.specs.Prelude.{◌≡◌, ◌++◌, ℕ, List, IfOk, OnOk, length, map, replicate};
ghost use Rattle.std.specs.List.{All};
ghost use Rattle.manifest_tree.specs.Names.{Names};
ghost use Rattle.plan_rows.specs.Rows.{rows as rows_of, inode_view, row_view};
ghost use Rattle.manifest_layout.specs.Views.{item_view};
ghost use Rattle.romfs_layout.specs.Items.{item_of, items_of};
ghost use Rattle.romfs_layout.specs.Layout.{place_with};
ghost use Rattle.romfs_layout.specs.Planned.{IsPlanned};
ghost use Rattle.romfs_plan.specs.Headers.{headers_of, noted, noted_by, placed_of, first_of};
ghost use Rattle.romfs_plan.specs.Headers.{IsNear, IsFineRow};

use crate::headers::{push_root, push_row};
use crate::passes::{DEPTHS, places_of};
use crate::places::Place;
use crate::size::root_at;
use manifest_layout::Item;
use plan_rows::{Inode, Row, What};
use rom_fields::OutOfMemory;
use std::alloc::Global;
use std::collections::BTreeMap;

/// Notes the offset of a file's header, unless the row is a further name.
fn note_row(lines: &mut BTreeMap<u64, u32>, row: &Row<'_>, at: u32) -> Result<(), OutOfMemory>
    ensures { OnOk result ((line : ℕ) → noted lines.new line
        ≡ noted_by (row_view row.now).what at (noted lines.old line) line) }
{
    match row.what {
        What::Leaf | What::Directory => {
            lines.insert(row.inode.line, at)?;
        }
        What::Link => {}
    }
    Ok(())
}

/// Returns the offsets of the headers of the lines' files: for each file the first, in the order of
/// rows.
fn lines_of(
    alloc: Global,
    rows: &[Row<'_>],
    places: &[Place],
) -> Result<BTreeMap<u64, u32>, OutOfMemory>
    requires places { length places.now ≡ length rows.now }
    requires near { All IsNear places.now }
    ensures { IfOk result (λ m. (line : ℕ) → noted m line
        ≡ place_with (placed_of (map row_view rows.now) places.now) line) }
{
    let mut lines = BTreeMap::new(alloc);
    for i in (0..rows.len()).rev() {
        note_row(&mut lines, &rows[i], places[i].at as u32)?;
    }
    Ok(lines)
}

/// Appends the headers of rows. The root's header is at `root`.
fn push_rows(
    alloc: Global,
    found: &mut Vec<Item>,
    rows: &[Row<'_>],
    places: &[Place],
    lines: &BTreeMap<u64, u32>,
    root: u32,
) -> Result<(), OutOfMemory>
    requires rows { All (λ r. IsFineRow (row_view r)) rows.now }
    requires places { length places.now ≡ length rows.now }
    requires near { All IsNear places.now }
    ensures { OnOk result (map item_view found.new.items ≡ map item_view found.old.items
        ++ map item_of (headers_of (noted lines.now) (replicate 66 root) (map row_view rows.now)
        places.now)) }
{
    let mut dirs = [root; DEPTHS];
    for i in 0..rows.len() {
        let row = &rows[i];
        let place = places[i];
        push_row(alloc, found, row, place, dirs[row.depth], lines)?;
        dirs[row.depth + 1] = place.at as u32;
    }
    Ok(())
}

/// Returns the offset of the first header, or 0 if there is none.
fn first_of(places: &[Place]) -> u32
    requires { All IsNear places.now }
    ensures { result ≡ first_of places.now }
{
    match places.first() {
        None => 0,
        Some(place) => place.at as u32,
    }
}

/// Returns the items of the image of a volume, if its names below the root have these rows.
pub fn items(
    alloc: Global,
    volume: &[u8],
    root: &Inode<'_>,
    rows: &[Row<'_>],
) -> Result<Vec<Item>, OutOfMemory>
    requires planned { (n : Names) × (contents : List (List ℕ))
        × (map row_view rows.now ≡ rows_of 1 n)
        × IsPlanned volume.now (inode_view root.now) n contents }
    ensures { (n : Names) (contents : List (List ℕ)) → map row_view rows.now ≡ rows_of 1 n
        → IsPlanned volume.now (inode_view root.now) n contents
        → IfOk result (λ v. map item_view v.items ≡ items_of volume.now (inode_view root.now) n) }
{
    let at = root_at(volume);
    let places = places_of(alloc, rows, at + 64)?;
    let lines = lines_of(alloc, rows, &places)?;
    let mut found = Vec::new(alloc);
    push_root(alloc, &mut found, root, at as u32, first_of(&places))?;
    push_rows(alloc, &mut found, rows, &places, &lines, at as u32)?;
    Ok(found)
}
