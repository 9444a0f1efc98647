//! The phase that looks for entries below the limit on depth.
ghost use Rattle.std.specs.Prelude.{◌≡◌, ◌+◌, ◌≤◌, ◌<◌, ◌⊎◌, ◌↔◌, ◌^◌, IsTrue, length};
ghost use Rattle.std.specs.Bool.{OnTrue, OnFalse};
ghost use Rattle.std.specs.List.{All, Any};
ghost use Rattle.cramfs_format.specs.Inode.{name_of};
ghost use Rattle.cramfs_format.specs.Made.{IsGood};
ghost use Rattle.cramfs_format.specs.Tree.{IsNoDot};
ghost use Rattle.rom_tree.specs.Dots.{dot, dot_dot};
ghost use Rattle.record_forest.specs.Sweep.{IsLeastRowFault};
ghost use Rattle.cramfs_image.specs.Phases.{IsTooDeep, IsShallow};

use crate::accessible::Accessible;
use record_forest::{Row, lesser_fault};
use rom_fields::Fault;
use rom_fields::fault::TOO_DEEP;
use rom_tree::is_dots;

/// Returns whether a row is an entry with another name than `.` and `..`.
pub fn is_other(b: &Accessible<'_>, row: Row) -> bool
    requires good { IsGood b.now.order b.now.bytes.now row.offset }
    ensures { IsTrue result ↔ IsNoDot b.now.order b.now.bytes.now row }
{
    !is_dots(b.name_at(row.offset as usize))
}

/// Whether a row is an entry deeper than `most`.
fn is_too_deep(b: &Accessible<'_>, row: Row, most: u32) -> bool
    requires good { IsGood b.now.order b.now.bytes.now row.offset }
    ensures other { OnTrue result (IsNoDot b.now.order b.now.bytes.now row) }
    ensures deep { OnTrue result (most < row.depth) }
    ensures shallow { OnFalse result (IsNoDot b.now.order b.now.bytes.now row → row.depth ≤ most) }
{
    row.depth > most && is_other(b, row)
}

/// Returns the least fault of an entry deeper than `most`, or `None` if there is none.
pub fn least_too_deep(b: &Accessible<'_>, rows: &[Row], most: u32) -> Option<Fault>
    requires good { All (λ x. IsGood b.now.order b.now.bytes.now x.offset) rows.now }
    ensures { IsLeastRowFault (IsShallow b.now.order b.now.bytes.now most)
        (IsTooDeep b.now.order b.now.bytes.now most) rows.now result }
{
    let mut noted: Option<Fault> = None;
    'rows: for row in rows {
        if is_too_deep(b, *row, most) {
            let fault = Fault {
                number: TOO_DEEP,
                at: row.offset,
            };
            noted = lesser_fault(noted, fault);
        }
    }
    noted
}

/// Returns the greatest depth of a row, or 0 if there is no row.
pub fn greatest_depth(rows: &[Row]) -> u32
    ensures bound { All (λ x. x.depth ≤ result) rows.now }
    ensures reached { (result ≡ 0) ⊎ Any (λ x. x.depth ≡ result) rows.now }
{
    let mut deepest: u32 = 0;
    'rows: for row in rows {
        if row.depth > deepest {
            deepest = row.depth;
        }
    }
    deepest
}
