//! Records that share block pointers.
ghost use Rattle.std.specs.Prelude.{◌≡◌, ◌+◌, ◌<◌, ◌≤◌, ℕ, IfOk, length, map, slice_index_or};
ghost use Rattle.std.specs.BTreeMap.{get};
ghost use Rattle.std.specs.List.{All};
ghost use Rattle.image_extents.specs.Found.{IsWithin, table_in, table_of};
ghost use Rattle.image_extents.specs.Tables.{first_with, is_first, nexts, no_next, pair_cmp};
ghost use Rattle.image_extents.specs.declared.extent.Record.{Record};

use crate::extent::Record;
use cramfs_format::Order;
use cramfs_format::inode::{offset_at, size_at, type_at};
use rom_fields::OutOfMemory;
use std::alloc::Global;
use std::collections::BTreeMap;

/// Returns which record is the next one with its block pointers, if no record has some.
///
/// # Errors
///
/// `OutOfMemory` if memory was refused.
pub(crate) fn none_next(
    alloc: Global,
    records: &[Record],
) -> Result<Vec<Option<usize>>, OutOfMemory>
    ensures { IfOk result (λ next. next.items ≡ map no_next records.now) }
{
    let mut next = Vec::new(alloc);
    next.resize(records.len(), None)?;
    Ok(next)
}

/// The block pointers of the record at `at`, if it is a file or a link: their offset, and the
/// number of bytes of the contents.
fn table_at(order: Order, b: &[u8], at: u32) -> Option<(u32, u32)>
    requires { at + 12 ≤ length b.now }
    ensures { result ≡ table_of order b.now at }
{
    let kind = type_at(order, b, at as usize);
    if kind == 8 || kind == 10 {
        let offset = offset_at(order, b, at as usize);
        return Some((offset, size_at(order, b, at as usize)));
    }
    None
}

/// Which record is the first one with some block pointers.
pub(crate) type First = BTreeMap<(u32, u32), usize>;

/// Returns which record is the next one with the block pointers of each, and which is the first
/// with them.
///
/// # Errors
///
/// `OutOfMemory` if memory was refused.
pub(crate) fn tables(
    alloc: Global,
    order: Order,
    b: &[u8],
    records: &[Record],
) -> Result<(Vec<Option<usize>>, First), OutOfMemory>
    requires { All (λ (x : Record). IsWithin order b.now x.offset) records.now }
    ensures next { IfOk result (λ r. r.0.items ≡ nexts (table_in order b.now) 0 records.now) }
    ensures first { IfOk result (λ r. (t : ℕ × ℕ)
        → get pair_cmp r.1 t ≡ first_with (table_in order b.now) t 0 records.now) }
{
    let mut first = BTreeMap::new(alloc);
    let mut next = Vec::new(alloc);
    next.resize(records.len(), None)?;
    let mut number = records.len();
    while number > 0 {
        number -= 1;
        if let Some(table) = table_at(order, b, records[number].offset) {
            next[number] = first.get(&table).copied();
            first.insert(table, number)?;
        }
    }
    Ok((next, first))
}

/// Whether the record of this number is the first one with its block pointers, or has none.
pub(crate) fn is_first(
    first: &First,
    order: Order,
    b: &[u8],
    records: &[Record],
    number: usize,
) -> bool
    requires number { number < length records.now }
    requires within { All (λ (x : Record). IsWithin order b.now x.offset) records.now }
    requires first { (t : ℕ × ℕ)
        → get pair_cmp first.now t ≡ first_with (table_in order b.now) t 0 records.now }
    ensures { (d : Record) → result ≡ is_first (table_in order b.now) records.now number
        (slice_index_or records.now number d) }
{
    let Some(table) = table_at(order, b, records[number].offset) else {
        return true;
    };
    match first.get(&table) {
        Some(other) => *other == number,
        None => true,
    }
}
