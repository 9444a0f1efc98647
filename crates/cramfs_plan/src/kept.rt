//! The offsets of a file's bytes.
ghost use Rattle.std.specs.Prelude.{◌≡◌, ◌+◌, ◌<◌, ◌≤◌, ◌^◌, ℕ, List, OnOk, IfOk};
ghost use Rattle.cramfs_format.specs.declared.order.Order.{Order};
ghost use Rattle.cramfs_format.specs.Inode.{block_count};
ghost use Rattle.cramfs_layout.specs.Layout as layout;
ghost use Rattle.cramfs_layout.specs.Items.{file_item};
ghost use Rattle.cramfs_layout.specs.Layout.{State, Table};
ghost use Rattle.cramfs_plan.specs.Bounds.{IsPlaceable};
ghost use Rattle.cramfs_plan.specs.Entries.{kept_view, stored_by, stored_item, listed_by};
ghost use Rattle.cramfs_plan.specs.Entries.{tables_after, IsBelow, Knows, AreNear};
ghost use Rattle.plan_rows.specs.Rows.{bytes_view, inode_view};

use crate::words::size_by;
use plan_rows::{Bytes, Inode};
use rom_fields::{OutOfMemory, pad};
use std::collections::BTreeMap;

/// How the bytes of a file are kept.
#[derive(Clone, Copy, PartialEq, Eq)]
pub enum Kept {
    /// It has no bytes.
    Nowhere,
    /// Behind the table at this offset, which another file has too.
    Shared(u64),
    /// Behind a table of its own.
    Fresh,
}

/// The size and offset fields of a file or a directory, the offsets of its table and its bytes, the
/// number of its bytes, and the end of what it places.
#[derive(Clone, Copy, PartialEq, Eq)]
pub struct Stored {
    pub size: u64,
    pub offset: u64,
    pub table: u64,
    pub start: u64,
    pub len: u64,
    pub end: u64,
}

/// Returns how the bytes of a file are kept, by the tables of sources so far.
#[tactic(auto, unfolding(cramfs_layout::specs::Layout::kept))]
pub fn how_kept(tables: &BTreeMap<usize, u64>, inode: &Inode<'_>) -> Kept
    ensures kept { (ts : List Table) → Knows ts tables.now
        → kept_view result ≡ layout.kept ts (inode_view inode.now) }
    ensures near { (near : ℕ) → AreNear near tables.now → IsBelow near result }
{
    if inode.size == 0 {
        return Kept::Nowhere;
    }
    match inode.bytes {
        Bytes::Nothing => Kept::Nowhere,
        Bytes::Text(_) => Kept::Fresh,
        Bytes::Source(source) => match tables.get(&source) {
            None => Kept::Fresh,
            Some(table) => Kept::Shared(*table),
        },
    }
}

/// Returns the offset of a file's bytes, if its own table is placed behind `from`.
#[tactic(auto, unfolding(cramfs_layout::specs::Layout::data_of))]
fn data_of(from: u64, inode: &Inode<'_>) -> u64
    requires near { from < 2 ^ 51 }
    requires small { inode.now.size < 2 ^ 24 }
    requires some { 0 < inode.now.align }
    requires few { inode.now.align ≤ 65536 }
    ensures start { result ≡ layout.data_of from (inode_view inode.now) }
    ensures near { result ≤ from + 2 ^ 17 }
{
    let blocks = (inode.size + 4095) / 4096;
    pad(pad(from, 4) + 4 * blocks, inode.align as u64)
}

/// Returns the offsets of the bytes of a file that is kept so, if what was placed before ends at
/// `at`.
pub fn stored_as(kept: Kept, at: u64, inode: &Inode<'_>) -> Stored
    requires near { at < 2 ^ 50 }
    requires shared { IsBelow (2 ^ 50) kept }
    requires small { inode.now.size < 2 ^ 24 }
    requires some { 0 < inode.now.align }
    requires few { inode.now.align ≤ 65536 }
    ensures stored { result ≡ stored_by (kept_view kept) at (inode_view inode.now) }
    ensures near { result.end ≤ at + 2 ^ 25 }
    ensures small { (result.size < 2 ^ 41) × (result.offset < 2 ^ 52) }
{
    let size = size_by(inode);
    match kept {
        Kept::Nowhere => Stored {
            size,
            offset: 0,
            table: 0,
            start: 0,
            len: inode.size,
            end: at,
        },
        Kept::Shared(table) => Stored {
            size,
            offset: table,
            table,
            start: data_of(table, inode),
            len: inode.size,
            end: at,
        },
        Kept::Fresh => {
            let table = pad(at, 4);
            let start = data_of(at, inode);
            Stored {
                size,
                offset: table,
                table,
                start,
                len: inode.size,
                end: start + inode.size,
            }
        }
    }
}

/// Notes the table of a file that is kept so, if it is that of a source. What was placed before
/// ends at `at`.
pub fn note_table(
    tables: &mut BTreeMap<usize, u64>,
    kept: Kept,
    at: u64,
    bytes: Bytes<'_>,
) -> Result<(), OutOfMemory>
    requires { at < 2 ^ 50 }
    ensures knows { (ts : List Table) → Knows ts tables.old
        → OnOk result (Knows (tables_after (kept_view kept) at
        (bytes_view bytes.entry) ts) tables.new) }
    ensures near { (near : ℕ) → AreNear near tables.old → layout.pad4 at ≤ near
        → OnOk result (AreNear near tables.new) }
{
    match (kept, bytes) {
        (Kept::Fresh, Bytes::Source(source)) => {
            tables.insert(source, pad(at, 4))?;
        }
        (Kept::Fresh, Bytes::Nothing) | (Kept::Fresh, Bytes::Text(_)) => {}
        (Kept::Nowhere, _) | (Kept::Shared(_), _) => {}
    }
    Ok(())
}

/// Returns the offsets of a file's bytes, if what was placed before ends at `at`, and notes the
/// table of a source.
pub fn stored_file(
    tables: &mut BTreeMap<usize, u64>,
    at: u64,
    inode: &Inode<'_>,
) -> Result<Stored, OutOfMemory>
    requires near { at < 2 ^ 49 }
    requires tables { AreNear (2 ^ 50) tables.old }
    requires placeable { IsPlaceable inode.now }
    ensures item { (s : State) → s.at ≡ at → Knows s.tables tables.old
        → IfOk result (λ r. (o : Order) (l : ℕ) (name : List ℕ)
        → stored_item o l name (inode_view inode.now) r (bytes_view inode.now.bytes)
        ≡ file_item o l s name (inode_view inode.now)) }
    ensures end { (s : State) → s.at ≡ at → Knows s.tables tables.old
        → IfOk result (λ r. r.end ≡ (layout.after_file s (inode_view inode.now)).at) }
    ensures knows { (s : State) → s.at ≡ at → Knows s.tables tables.old
        → OnOk result (Knows (layout.after_file s (inode_view inode.now)).tables tables.new) }
    ensures near { IfOk result (λ r. r.end ≤ at + 2 ^ 25) }
    ensures small { IfOk result (λ r. (r.size < 2 ^ 41) × (r.offset < 2 ^ 52)) }
    ensures tables { (near : ℕ) → AreNear near tables.old → at + 3 ≤ near
        → OnOk result (AreNear near tables.new) }
{
    let kept = how_kept(tables, inode);
    let stored = stored_as(kept, at, inode);
    note_table(tables, kept, at, inode.bytes)?;
    Ok(stored)
}

/// Returns the offsets of a directory's list of this length, if what was placed before ends at
/// `at`.
pub fn stored_list(at: u64, len: u64) -> Stored
    requires near { at < 2 ^ 50 }
    requires len { len < 2 ^ 50 }
    ensures { result ≡ listed_by len at }
{
    let place = pad(at, 4);
    Stored {
        size: len,
        offset: if len == 0 { 0 } else { place },
        table: 0,
        start: 0,
        len: 0,
        end: place + len,
    }
}
