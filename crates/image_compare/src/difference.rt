//! The differences of two images.
ghost use Rattle.std.specs.Prelude.{◌≡◌, ◌||◌, ◌⊎◌, IsNone, IsSome, List};
ghost use Rattle.std.specs.Bool.{OnTrue, OnFalse};
ghost use Rattle.rom_tree.specs.Tree.{IsShallow};
ghost use Rattle.rom_tree.specs.Names.{Name};
ghost use Rattle.image_check.specs.Any.{any_view};
ghost use Rattle.image_compare.specs.Diff.{names_lines};
ghost use Rattle.image_compare.specs.Endings.{DiffEnds, WritesLines};
ghost use Rattle.image_compare.specs.Rows.{AreKnown, HasNames};
ghost use Rattle.image_compare.specs.Same.{AreSame};

use crate::rows::{NoRows, Rows, name_at, rows_of};
use crate::same::Same;
use crate::steps::{Named, put_step};
use arrayvec::ArrayVec;
use image_check::AnyImage;
use rom_fields::{ByteWrite, Failed};
use std::alloc::Global;
use thiserror::Error;

/// Why not all lines of two images were written.
#[derive(Clone, Copy, Debug, PartialEq, Eq, Error)]
pub enum DiffError {
    /// Memory was refused. Nothing was written.
    #[error("out of memory")]
    OutOfMemory,
    /// A path has more than 16,384 bytes. Nothing was written.
    #[error("a path of more than 16384 bytes")]
    LongPath,
    /// A write failed.
    #[error("a write failed")]
    WriteFault,
}

/// Whether neither list has a next name.
fn are_over(x: Option<Named<'_>>, y: Option<Named<'_>>) -> bool
    ensures old { OnTrue result (IsNone x.entry) }
    ensures new { OnTrue result (IsNone y.entry) }
    ensures left { OnFalse result (IsSome x.entry ⊎ IsSome y.entry) }
{
    match (x, y) {
        (None, None) => true,
        _ => false,
    }
}

/// Whether at least one of two is true.
fn either(one: bool, other: bool) -> bool
    ensures { result ≡ (one || other) }
{
    one || other
}

/// Writes the lines of two lists of rows, and returns whether there are any.
fn write_lines<W: ByteWrite>(
    old: &AnyImage<'_>,
    new: &AnyImage<'_>,
    same: &mut Same,
    places: bool,
    xs: &Rows<'_>,
    ys: &Rows<'_>,
    w: &mut W,
) -> Result<bool, Failed>
    requires old { AreKnown (any_view old.now) xs.now }
    requires new { AreKnown (any_view new.now) ys.now }
    requires same { AreSame (any_view old.now) (any_view new.now) same.old }
    ensures { (ps qs : List Name) → HasNames (any_view old.now) xs.now ps
        → HasNames (any_view new.now) ys.now qs
        → WritesLines (W.output w.old) (W.output w.new)
        (names_lines places (any_view old.now).bytes (any_view new.now).bytes ps qs) result }
{
    let (mut old_path, mut new_path) = (ArrayVec::new(), ArrayVec::new());
    let mut printed = false;
    let mut failed = false;
    let mut i = 0;
    let mut j = 0;
    while !failed {
        let x = name_at(xs, i, &mut old_path);
        let y = name_at(ys, j, &mut new_path);
        if are_over(x, y) {
            return Ok(printed);
        }
        let step = put_step(old, new, same, places, w, &mut failed, x, y);
        i += step.old;
        j += step.new;
        printed = either(printed, step.printed);
    }
    Err(Failed)
}

/// Writes the differences of two images, sorted by path, compared as bytes. Returns whether there
/// is a line. Directories may be 64 deep. The lines of a path are:
///
/// - `- PATH` if only the old image has it, `+ PATH` if only the new one has it, and both if its
///   two nodes have different kinds;
/// - otherwise `m PATH OLD NEW` if attributes differ, where OLD and NEW are
///   KIND/MODE/UID/GID/MAJOR/MINOR, each as in a list;
/// - `c PATH OLDLEN NEWLEN` if the bytes of a file or the text of a link differ;
/// - `@ PATH OLD NEW` if `places` is true and a file's first byte is at another offset, where OLD
///   and NEW are `0x` and eight hexadecimal digits.
///
/// PATH is escaped as in a list. Bytes that names share are compared once if memory is there to
/// keep the answer.
///
/// # Errors
///
/// `OutOfMemory` if memory was refused, and `LongPath` if a path has more than 16,384 bytes. Then
/// nothing was written. `WriteFault` if a write failed. Then a prefix of the lines was written.
pub fn write_diff<W: ByteWrite>(
    alloc: Global,
    old: &AnyImage<'_>,
    new: &AnyImage<'_>,
    places: bool,
    w: &mut W,
) -> Result<bool, DiffError>
    requires old { IsShallow (any_view old.now).tree }
    requires new { IsShallow (any_view new.now).tree }
    ensures { DiffEnds places (any_view old.now) (any_view new.now) (W.output w.old)
        (W.output w.new) result }
{
    let xs = match rows_of(alloc, old) {
        Ok(rows) => rows,
        Err(NoRows::OutOfMemory) => return Err(DiffError::OutOfMemory),
        Err(NoRows::LongPath) => return Err(DiffError::LongPath),
    };
    let ys = match rows_of(alloc, new) {
        Ok(rows) => rows,
        Err(NoRows::OutOfMemory) => return Err(DiffError::OutOfMemory),
        Err(NoRows::LongPath) => return Err(DiffError::LongPath),
    };
    let mut same = Same::new(alloc, old, new);
    match write_lines(old, new, &mut same, places, &xs, &ys, w) {
        Ok(printed) => Ok(printed),
        Err(_) => Err(DiffError::WriteFault),
    }
}
