//! Facts about the rows that several phases need.
ghost use Rattle.std.specs.Prelude.{◌≡◌, ◌==◌, IfSome, IfOk};
ghost use Rattle.std.specs.List.{All, list_any};
ghost use Rattle.romfs_format.specs.Record.{IsSound};
ghost use Rattle.romfs_format.specs.Tree.{follow};
ghost use Rattle.romfs_image.specs.Phases.{AreOffsets};

use crate::accessible::Accessible;
use record_forest::Row;
use rom_fields::OutOfMemory;
use std::alloc::Global;

/// Returns the offsets of the rows, in rising order.
pub fn offsets_of(alloc: Global, rows: &[Row]) -> Result<Vec<u32>, OutOfMemory>
    ensures { IfOk result (λ v. AreOffsets rows.now v.items) }
{
    let mut offsets = Vec::new(alloc);
    'rows: for row in rows {
        offsets.push(row.offset)?;
    }
    offsets.sort_unstable();
    Ok(offsets)
}

/// Whether one of the rows, which have these offsets, has this offset.
fn is_among(rows: &[Row], offsets: &[u32], offset: u32) -> bool
    requires { AreOffsets rows.now offsets.now }
    ensures { result ≡ list_any (λ x. x.offset == offset) rows.now }
{
    offsets.binary_search(&offset).is_ok()
}

/// Returns the offset of the record to which the one at `at` leads among the rows, over at most 8
/// hard links.
pub fn led_to(b: &Accessible<'_>, rows: &[Row], offsets: &[u32], at: u32) -> Option<u32>
    requires here { IsSound b.now.bytes.now b.now.root at }
    requires offsets { AreOffsets rows.now offsets.now }
    requires rows { All (λ x. IsSound b.now.bytes.now b.now.root x.offset) rows.now }
    ensures leads { result ≡ follow b.now.bytes.now rows.now 8 at }
    ensures sound { IfSome result (λ q. IsSound b.now.bytes.now b.now.root q) }
{
    let mut p = at;
    'links: for i in 0..8usize {
        if b.type_at(p as usize) != 0 {
            return Some(p);
        }
        let target = b.spec_offset(p as usize);
        if !is_among(rows, offsets, target) {
            return None;
        }
        p = target;
    }
    if b.type_at(p as usize) == 0 {
        None
    } else {
        Some(p)
    }
}
