//! The extents of an image, and the phase that looks for those that overlap.
ghost use Rattle.std.specs.Prelude.{◌≡◌, ◌+◌, ◌<◌, ◌^◌, ◌++◌, ℕ, length, OnOk, IfOk};
ghost use Rattle.std.specs.List.{All};
ghost use Rattle.rom_fields.specs.Extents.{OverlapsAt, IsLeastOf, added};
ghost use Rattle.romfs_format.specs.Record.{IsSound};
ghost use Rattle.romfs_format.specs.Tree.{row_extents, extents_of};

use crate::accessible::Accessible;
use record_forest::Row;
use rom_fields::{Extent, OutOfMemory, Span};
use std::alloc::Global;

/// Adds an extent at the end. One of length 0 is ignored.
fn add(spans: &mut Vec<Span>, kind: Extent, start: u32, len: u32) -> Result<(), OutOfMemory>
    ensures { OnOk result (spans.new.items ≡ spans.old.items ++ added kind start len) }
{
    if len > 0 {
        spans.push(Span { kind, start, len })?;
    }
    Ok(())
}

/// Adds the extents of a row's record: its header with its name, and its data if it has any.
fn add_row(spans: &mut Vec<Span>, b: &Accessible<'_>, row: Row) -> Result<(), OutOfMemory>
    requires sound { IsSound b.now.bytes.now b.now.root row.offset }
    ensures { OnOk result (spans.new.items
        ≡ spans.old.items ++ row_extents b.now.bytes.now row) }
{
    let end = b.end_at(row.offset);
    add(spans, Extent::Record, row.offset, end - row.offset)?;
    let kind = b.type_at(row.offset as usize);
    if kind == 2 || kind == 3 {
        add(spans, Extent::Data, end, b.size_at(row.offset as usize))?;
    }
    Ok(())
}

/// Returns the extents of the superblock and of the rows' records, in this order.
pub fn all_extents(
    alloc: Global,
    b: &Accessible<'_>,
    rows: &[Row],
) -> Result<Vec<Span>, OutOfMemory>
    requires { All (λ x. IsSound b.now.bytes.now b.now.root x.offset) rows.now }
    ensures { IfOk result (λ v. v.items ≡ extents_of b.now.bytes.now b.now.root rows.now) }
{
    let mut spans = Vec::new(alloc);
    add(&mut spans, Extent::Super, 0, b.root)?;
    'rows: for row in rows {
        add_row(&mut spans, b, *row)?;
    }
    Ok(spans)
}

/// Returns the least offset at which two extents of the image overlap, or `None` if no two do.
pub fn least_overlap(
    alloc: Global,
    b: &Accessible<'_>,
    rows: &[Row],
) -> Result<Option<u32>, OutOfMemory>
    requires sound { All (λ x. IsSound b.now.bytes.now b.now.root x.offset) rows.now }
    ensures { IfOk result (IsLeastOf (OverlapsAt
        (extents_of b.now.bytes.now b.now.root rows.now))) }
{
    let mut spans = all_extents(alloc, b, rows)?;
    Ok(rom_fields::least_overlap(&mut spans))
}
