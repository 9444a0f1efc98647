//! The phase that looks at the names in each list.
ghost use Rattle.std.specs.Prelude.{◌≡◌, ◌≢◌, ◌≤◌, ◌<◌, ◌^◌, ◌↔◌, IsTrue, IfNone, IfSome, IfOk};
ghost use Rattle.std.specs.Prelude.{Some, None, List, ℕ, length, false};
ghost use Rattle.std.specs.Bool.{OnTrue, OnFalse};
ghost use Rattle.std.specs.List.{All};
ghost use Rattle.record_forest.specs.declared.reference.Row.{Row};
ghost use Rattle.record_forest.specs.Faults.{IsLeast};
ghost use Rattle.cramfs_format.specs.Inode.{name_of};
ghost use Rattle.cramfs_format.specs.Made.{IsGood};
ghost use Rattle.cramfs_format.specs.Tree.{precedes, is_sorted, IsNoDot};
ghost use Rattle.record_forest.specs.Listed.{AreNames};
ghost use Rattle.record_forest.specs.Sweep.{IsLeastRowFault};
ghost use Rattle.cramfs_image.specs.Phases.{FindsEarlier, last_name, name_seen, IsUnsorted};
ghost use Rattle.cramfs_image.specs.Phases.{IsNameFault, IsWellNamed};

use crate::accessible::Accessible;
use crate::depth::is_other;
use record_forest::{ListedName, Row, lesser_fault, repeats};
use rom_fields::fault::{DOT, DUPLICATE_NAME, UNSORTED};
use rom_fields::{Fault, OutOfMemory};
use std::alloc::Global;
use std::collections::BTreeMap;

/// Whether a name sorts before another: by unsigned bytes, a proper front first.
fn comes_before(one: &[u8], other: &[u8]) -> bool
    ensures { result ≡ precedes one.now other.now }
{
    let mut xs = one;
    let mut ys = other;
    while !ys.is_empty() {
        if xs.is_empty() {
            return true;
        }
        if xs[0] < ys[0] {
            return true;
        }
        if xs[0] != ys[0] {
            return false;
        }
        xs = &xs[1..];
        ys = &ys[1..];
    }
    false
}

/// Whether lists are sorted.
fn has_sorted_lists(b: &Accessible<'_>) -> bool
    ensures { result ≡ is_sorted b.now.order b.now.bytes.now }
{
    b.word(8) / 2 % 2 == 1
}

/// Whether a name sorts before that of the row directly before it in its list, and lists are
/// sorted.
fn is_unsorted(b: &Accessible<'_>, last: Option<&[u8]>, row: Row) -> bool
    requires row { IsGood b.now.order b.now.bytes.now row.offset }
    ensures unsorted { (before : List Row) → name_seen last.entry
        ≡ last_name b.now.order b.now.bytes.now row.directory None before
        → OnTrue result (IsUnsorted b.now.order b.now.bytes.now before row) }
    ensures sorted { (before : List Row) → name_seen last.entry
        ≡ last_name b.now.order b.now.bytes.now row.directory None before
        → OnFalse result (IsUnsorted b.now.order b.now.bytes.now before row → ⊥) }
{
    if !has_sorted_lists(b) {
        return false;
    }
    let Some(last) = last else {
        return false;
    };
    if comes_before(b.name_at(row.offset as usize), last) {
        return true;
    }
    false
}

/// The least fault of a row's name, for any rows before it; `repeated` is whether one of them has
/// the name in its list, and `last` is the name directly before it there.
fn name_fault(b: &Accessible<'_>, row: Row, repeated: bool, last: Option<&[u8]>) -> Option<u32>
    requires row { IsGood b.now.order b.now.bytes.now row.offset }
    ensures well { (before : List Row) → FindsEarlier b.now.order b.now.bytes.now before row
        repeated last.entry → IfNone result (IsWellNamed b.now.order b.now.bytes.now before row) }
    ensures fault { (before : List Row) → FindsEarlier b.now.order b.now.bytes.now before row
        repeated last.entry
        → IfSome result (λ n. IsLeast (IsNameFault b.now.order b.now.bytes.now before row) n) }
{
    if repeated {
        return Some(DUPLICATE_NAME);
    }
    if !is_other(b, row) {
        return Some(DOT);
    }
    if is_unsorted(b, last, row) {
        return Some(UNSORTED);
    }
    None
}

/// The names of the rows, by their index.
fn names_of<'a>(
    alloc: Global,
    b: &Accessible<'a>,
    rows: &[Row],
) -> Result<Vec<ListedName<'a>>, OutOfMemory>
    requires good { All (λ x. IsGood b.now.order b.now.bytes.now x.offset) rows.now }
    ensures { IfOk result (λ v. AreNames (name_of b.now.order b.now.bytes.now) rows.now v.items) }
{
    let mut names = Vec::new(alloc);
    for index in 0..rows.len() {
        let row = rows[index];
        names.push(ListedName {
            list: row.directory,
            name: b.name_at(row.offset as usize),
            index,
        })?;
    }
    Ok(names)
}

/// Returns the least fault of a name among these rows, or `None` if there is none.
pub fn least_name_fault(
    alloc: Global,
    b: &Accessible<'_>,
    rows: &[Row],
) -> Result<Option<Fault>, OutOfMemory>
    requires good { All (λ x. IsGood b.now.order b.now.bytes.now x.offset) rows.now }
    ensures { IfOk result (IsLeastRowFault (IsWellNamed b.now.order b.now.bytes.now)
        (IsNameFault b.now.order b.now.bytes.now) rows.now) }
{
    let repeated = repeats(alloc, names_of(alloc, b, rows)?)?;
    let mut last_names: BTreeMap<u32, &[u8], Global> = BTreeMap::new(alloc);
    let mut noted: Option<Fault> = None;
    for i in 0..rows.len() {
        let row = rows[i];
        let name = b.name_at(row.offset as usize);
        let last = last_names.insert(row.directory, name)?;
        if let Some(number) = name_fault(b, row, repeated[i], last) {
            let fault = Fault {
                number,
                at: row.offset,
            };
            noted = lesser_fault(noted, fault);
        }
    }
    Ok(noted)
}
