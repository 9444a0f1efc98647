//! The phases of the check that go over the records of a forest: depth, extents and names.
ghost use Rattle.std.specs.Prelude.{◌≡◌, ◌+◌, ◌≤◌, ◌<◌, ◌^◌, length, drop, IfOk, MatchOption};
ghost use Rattle.std.specs.List.{All};
ghost use Rattle.cramfs_format.specs.Made.{IsGood};
ghost use Rattle.cramfs_image.specs.Phases.{IsRecord, AreWell, IsLaterFault};

use crate::accessible::Accessible;
use crate::depth::least_too_deep;
use crate::names::least_name_fault;
use crate::overlap::least_overlap;
use record_forest::Row;
use rom_fields::fault::OVERLAP;
use rom_fields::{Fault, OutOfMemory};
use std::alloc::Global;

/// Returns all rows except the root's, which is the first.
pub fn below_root<'a>(rows: &'a [Row]) -> &'a [Row]
    requires { 1 ≤ length rows.now }
    ensures { result.now ≡ drop 1 rows.now }
{
    &rows[1..]
}

/// Returns the least fault of depth, extents and names among the rows of an image, by phases, or
/// `None` if they have none.
pub fn later_fault(
    alloc: Global,
    b: &Accessible<'_>,
    rows: &[Row],
    most: u32,
) -> Result<Option<Fault>, OutOfMemory>
    requires records { All (λ x. IsRecord b.now.order b.now.bytes.now x.offset) rows.now }
    requires good { All (λ x. IsGood b.now.order b.now.bytes.now x.offset) (drop 1 rows.now) }
    requires some { 1 ≤ length rows.now }
    ensures { IfOk result (λ o. MatchOption o (AreWell b.now.order b.now.bytes.now most rows.now)
        (IsLaterFault b.now.order b.now.bytes.now most rows.now)) }
{
    let below = below_root(rows);
    if let Some(fault) = least_too_deep(b, below, most) {
        return Ok(Some(fault));
    }
    if let Some(at) = least_overlap(alloc, b, rows)? {
        let fault = Fault {
            number: OVERLAP,
            at,
        };
        return Ok(Some(fault));
    }
    let named = least_name_fault(alloc, b, below)?;
    Ok(named)
}
