//! The phase that looks at the names in each list, and at the records to which hard links lead.
ghost use Rattle.std.specs.Prelude.{◌≡◌, ◌≢◌, ◌<◌, ◌↔◌, IsTrue, IfNone, IfSome, IfOk, Some, List};
ghost use Rattle.std.specs.Prelude.{ℕ, false};
ghost use Rattle.std.specs.Bool.{OnTrue, OnFalse};
ghost use Rattle.std.specs.List.{All};
ghost use Rattle.record_forest.specs.declared.reference.Row.{Row};
ghost use Rattle.record_forest.specs.Faults.{IsLeast};
ghost use Rattle.romfs_format.specs.Record.{name_of, type_of, IsSound};
ghost use Rattle.romfs_format.specs.Tree.{follow};
ghost use Rattle.rom_tree.specs.Dots.{dot, dot_dot, is_dots};
ghost use Rattle.record_forest.specs.Listed.{AreNames};
ghost use Rattle.record_forest.specs.Sweep.{IsLeastRowFault};
ghost use Rattle.romfs_image.specs.Phases.{AreOffsets, FindsRepeated, IsNameFault, IsWellNamed};

use crate::accessible::Accessible;
use crate::rows::{led_to, offsets_of};
use record_forest::{ListedName, Row, lesser_fault, repeats};
use rom_fields::fault::{DOT, DUPLICATE_NAME, HARD_LINK};
use rom_fields::{Fault, OutOfMemory};
use rom_tree::{is_dot, is_dot_dot, is_dots};
use std::alloc::Global;

/// Whether a record leads to the one at `to`.
fn leads(led: Option<u32>, to: u32) -> bool
    ensures { IsTrue result ↔ (led ≡ Some to) }
{
    match led {
        Some(at) => at == to,
        None => false,
    }
}

/// Whether `.` or `..` does not lead where it must, or the root is the first of its own list under
/// another name.
fn is_astray(b: &Accessible<'_>, all: &[Row], offsets: &[u32], row: Row) -> bool
    requires all { All (λ x. IsSound b.now.bytes.now b.now.root x.offset) all.now }
    requires offsets { AreOffsets all.now offsets.now }
    requires row { IsSound b.now.bytes.now b.now.root row.offset }
    ensures astray { OnTrue result ((before : List Row)
        → IsNameFault b.now.bytes.now b.now.root all.now before row 24) }
    ensures here { OnFalse result (name_of b.now.bytes.now row.offset ≡ dot
        → follow b.now.bytes.now all.now 8 row.offset ≡ Some row.directory) }
    ensures above { OnFalse result (name_of b.now.bytes.now row.offset ≡ dot_dot
        → follow b.now.bytes.now all.now 8 row.offset ≡ Some row.parent) }
    ensures root { OnFalse result (row.offset ≡ b.now.root
        → name_of b.now.bytes.now row.offset ≡ dot) }
{
    let name = b.name_at(row.offset);
    if is_dot(name) {
        if leads(led_to(b, all, offsets, row.offset), row.directory) {
            return false;
        }
        return true;
    }
    if row.offset == b.root {
        return true;
    }
    if is_dot_dot(name) {
        if leads(led_to(b, all, offsets, row.offset), row.parent) {
            return false;
        }
        return true;
    }
    false
}

/// Whether a hard link of another name leads to no record, or to a directory.
fn is_link_astray(b: &Accessible<'_>, all: &[Row], offsets: &[u32], row: Row) -> bool
    requires all { All (λ x. IsSound b.now.bytes.now b.now.root x.offset) all.now }
    requires offsets { AreOffsets all.now offsets.now }
    requires row { IsSound b.now.bytes.now b.now.root row.offset }
    ensures astray { OnTrue result ((before : List Row)
        → IsNameFault b.now.bytes.now b.now.root all.now before row 25) }
    ensures leads { OnFalse result (is_dots (name_of b.now.bytes.now row.offset) ≡ false
        → type_of b.now.bytes.now row.offset ≡ 0
        → (q : ℕ) × (follow b.now.bytes.now all.now 8 row.offset ≡ Some q)
        × (type_of b.now.bytes.now q ≢ 1)) }
{
    if is_dots(b.name_at(row.offset)) {
        return false;
    }
    if b.type_at(row.offset as usize) != 0 {
        return false;
    }
    match led_to(b, all, offsets, row.offset) {
        Some(at) => {
            if b.type_at(at as usize) == 1 {
                return true;
            }
            false
        }
        None => true,
    }
}

/// The least fault of a row's name, for any rows before it; `repeated` is whether one of them has
/// the name in its list.
fn name_fault(
    b: &Accessible<'_>,
    all: &[Row],
    offsets: &[u32],
    row: Row,
    repeated: bool,
) -> Option<u32>
    requires all { All (λ x. IsSound b.now.bytes.now b.now.root x.offset) all.now }
    requires offsets { AreOffsets all.now offsets.now }
    requires row { IsSound b.now.bytes.now b.now.root row.offset }
    ensures well { (before : List Row) → FindsRepeated b.now.bytes.now before row repeated
        → IfNone result (IsWellNamed b.now.bytes.now b.now.root all.now before row) }
    ensures fault { (before : List Row) → FindsRepeated b.now.bytes.now before row repeated
        → IfSome result (λ n. IsLeast (IsNameFault b.now.bytes.now b.now.root all.now before row)
        n) }
{
    if repeated {
        return Some(DUPLICATE_NAME);
    }
    if is_astray(b, all, offsets, row) {
        return Some(DOT);
    }
    if is_link_astray(b, all, offsets, row) {
        return Some(HARD_LINK);
    }
    None
}

/// The names of the rows, by their index.
fn names_of<'a>(
    alloc: Global,
    b: &Accessible<'a>,
    rows: &[Row],
) -> Result<Vec<ListedName<'a>>, OutOfMemory>
    requires { All (λ x. IsSound b.now.bytes.now b.now.root x.offset) rows.now }
    ensures { IfOk result (λ v. AreNames (name_of b.now.bytes.now) rows.now v.items) }
{
    let mut names = Vec::new(alloc);
    for index in 0..rows.len() {
        let row = rows[index];
        names.push(ListedName {
            list: row.directory,
            name: b.name_at(row.offset),
            index,
        })?;
    }
    Ok(names)
}

/// Returns the least fault of a name among the rows that are in lists, or `None` if there is none.
/// `all` are the rows of the whole image.
pub fn least_name_fault(
    alloc: Global,
    b: &Accessible<'_>,
    all: &[Row],
    listed: &[Row],
) -> Result<Option<Fault>, OutOfMemory>
    requires all { All (λ x. IsSound b.now.bytes.now b.now.root x.offset) all.now }
    requires listed { All (λ x. IsSound b.now.bytes.now b.now.root x.offset) listed.now }
    ensures { IfOk result (IsLeastRowFault (IsWellNamed b.now.bytes.now b.now.root all.now)
        (IsNameFault b.now.bytes.now b.now.root all.now) listed.now) }
{
    let offsets = offsets_of(alloc, all)?;
    let repeated = repeats(alloc, names_of(alloc, b, listed)?)?;
    let mut noted: Option<Fault> = None;
    for i in 0..listed.len() {
        let row = listed[i];
        if let Some(number) = name_fault(b, all, &offsets, row, repeated[i]) {
            let fault = Fault {
                number,
                at: row.offset,
            };
            noted = lesser_fault(noted, fault);
        }
    }
    Ok(noted)
}
