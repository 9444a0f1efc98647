//! The phases of the check that go over the records of a forest: depth, extents and names.
ghost use Rattle.std.specs.Prelude.{◌≡◌, ◌+◌, ◌≤◌, ◌<◌, ◌^◌, length, IfOk, MatchOption};
ghost use Rattle.std.specs.List.{All};
ghost use Rattle.romfs_format.specs.Record.{IsSound};
ghost use Rattle.romfs_format.specs.Tree.{listed_rows};
ghost use Rattle.romfs_image.specs.Phases.{AreWell, IsLaterFault};

use crate::accessible::Accessible;
use crate::depth::least_too_deep;
use crate::names::least_name_fault;
use crate::overlap::least_overlap;
use record_forest::Row;
use rom_fields::fault::OVERLAP;
use rom_fields::{Fault, OutOfMemory};
use std::alloc::Global;

/// The rows that are in lists: all of them if the root is the first of its own list, otherwise all
/// except the root's.
#[tactic(auto, unfolding(romfs_format::specs::Tree::listed_rows, romfs_format::specs::Refers::heads_itself))]
fn listed<'a>(b: &Accessible<'_>, rows: &'a [Row]) -> &'a [Row]
    requires some { 1 ≤ length rows.now }
    ensures { result.now ≡ listed_rows b.now.bytes.now b.now.root rows.now }
{
    if b.first_offset(b.root as usize) == b.root {
        rows
    } else {
        &rows[1..]
    }
}

/// Returns the least fault of depth, extents and names among the rows of an image, by phases, or
/// `None` if they have none.
pub fn later_fault(
    alloc: Global,
    b: &Accessible<'_>,
    rows: &[Row],
    most: u32,
) -> Result<Option<Fault>, OutOfMemory>
    requires sound { All (λ x. IsSound b.now.bytes.now b.now.root x.offset) rows.now }
    requires some { 1 ≤ length rows.now }
    ensures { IfOk result (λ o. MatchOption o (AreWell b.now.bytes.now b.now.root most rows.now)
        (IsLaterFault b.now.bytes.now b.now.root most rows.now)) }
{
    if let Some(fault) = least_too_deep(b, rows, most) {
        return Ok(Some(fault));
    }
    if let Some(at) = least_overlap(alloc, b, rows)? {
        let fault = Fault {
            number: OVERLAP,
            at,
        };
        return Ok(Some(fault));
    }
    let named = least_name_fault(alloc, b, rows, listed(b, rows))?;
    Ok(named)
}
