//! The phase that looks for entries below the limit on depth.
ghost use Rattle.std.specs.Prelude.{◌≡◌, ◌+◌, ◌≤◌, ◌<◌, ◌⊎◌, not, false};
ghost use Rattle.std.specs.Bool.{OnTrue, OnFalse};
ghost use Rattle.std.specs.List.{All, Any};
ghost use Rattle.romfs_format.specs.Record.{name_of, IsSound};
ghost use Rattle.rom_tree.specs.Dots.{is_dots};
ghost use Rattle.record_forest.specs.Sweep.{IsLeastRowFault};
ghost use Rattle.romfs_image.specs.Phases.{IsTooDeep, IsShallow};

use crate::accessible::Accessible;
use record_forest::{Row, lesser_fault};
use rom_fields::Fault;
use rom_fields::fault::TOO_DEEP;
use rom_tree::is_dots;

/// Whether a row is an entry, and not `.` or `..`.
fn is_entry(b: &Accessible<'_>, row: Row) -> bool
    requires { IsSound b.now.bytes.now b.now.root row.offset }
    ensures { result ≡ not (is_dots (name_of b.now.bytes.now row.offset)) }
{
    !is_dots(b.name_at(row.offset))
}

/// Whether a row is an entry deeper than `most`.
fn is_too_deep(b: &Accessible<'_>, row: Row, most: u32) -> bool
    requires { IsSound b.now.bytes.now b.now.root row.offset }
    ensures entry { OnTrue result (is_dots (name_of b.now.bytes.now row.offset) ≡ false) }
    ensures deep { OnTrue result (most < row.depth) }
    ensures shallow { OnFalse result (is_dots (name_of b.now.bytes.now row.offset) ≡ false
        → row.depth ≤ most) }
{
    row.depth > most && is_entry(b, row)
}

/// Returns the least fault of an entry deeper than `most`, or `None` if there is none.
pub fn least_too_deep(b: &Accessible<'_>, rows: &[Row], most: u32) -> Option<Fault>
    requires { All (λ x. IsSound b.now.bytes.now b.now.root x.offset) rows.now }
    ensures { IsLeastRowFault (IsShallow b.now.bytes.now most)
        (IsTooDeep b.now.bytes.now most) rows.now result }
{
    let mut noted: Option<Fault> = None;
    'rows: for row in rows {
        if is_too_deep(b, *row, most) {
            let fault = Fault {
                number: TOO_DEEP,
                at: row.offset,
            };
            noted = lesser_fault(noted, fault);
        }
    }
    noted
}

/// Returns the greatest depth of an entry, or 0 if there is none.
pub fn greatest_depth(b: &Accessible<'_>, rows: &[Row]) -> u32
    requires { All (λ x. IsSound b.now.bytes.now b.now.root x.offset) rows.now }
    ensures bound { All (λ x. is_dots (name_of b.now.bytes.now x.offset) ≡ false
        → x.depth ≤ result) rows.now }
    ensures reached { (result ≡ 0) ⊎ Any (λ x. (is_dots (name_of b.now.bytes.now x.offset) ≡ false)
        × (x.depth ≡ result)) rows.now }
{
    let mut deepest: u32 = 0;
    'rows: for row in rows {
        if is_too_deep(b, *row, deepest) {
            deepest = row.depth;
        }
    }
    deepest
}
