//! The records of a cramfs image with their extents.
ghost use Rattle.std.specs.Prelude.{◌≡◌, ◌+◌, ◌*◌, ◌<◌, ◌≤◌, ◌^◌, [], ℕ, length, OnOk, false};
ghost use Rattle.std.specs.Prelude.{if◌then◌else◌, IfOk};
ghost use Rattle.std.specs.BTreeMap.{get};
ghost use Rattle.std.specs.List.{All};
ghost use Rattle.cramfs_format.specs.Inode.{block_count, end_of, name_of, without_zeros, TableLies};
ghost use Rattle.cramfs_format.specs.Made.{IsCramfs};
ghost use Rattle.image_extents.specs.Listed.{cramfs_entry, cramfs_listed};
ghost use Rattle.image_extents.specs.Found.{cramfs_all_found, goes_on, is_data, with_block};
ghost use Rattle.image_extents.specs.Found.{cramfs_nexts, table_in, with_blocks, with_contents};
ghost use Rattle.image_extents.specs.Found.{IsWithin};
ghost use Rattle.image_extents.specs.Found.{with_list, with_records};
ghost use Rattle.image_extents.specs.Tables.{first_with, pair_cmp};
ghost use Rattle.image_extents.specs.declared.extent.Record.{Record};

use crate::extent::{Extent, Kind, Record, end};
use crate::order::add;
use crate::tables::{First, is_first, tables};
use cramfs_format::inode::{
    blocks_of, list_end_at, offset_at, room_at, size_at, start_of, type_at,
};
use cramfs_format::{Order, inode};
use rom_fields::OutOfMemory;
use std::alloc::Global;

/// Where the record at `at` ends, and the next of its list begins.
fn end_at(order: Order, b: &[u8], at: u32) -> u32
    requires header { at + 12 ≤ length b.now }
    requires within { end_of order b.now at ≤ length b.now }
    requires small { length b.now < 2 ^ 32 }
    ensures { result ≡ end_of order b.now at }
{
    inode::end_at(order, b, at as usize) as u32
}

/// The bytes without the zeros at their end.
fn cut_zeros<'a>(bytes: &'a [u8]) -> &'a [u8]
    ensures { result.now ≡ without_zeros bytes.now }
{
    let mut len = bytes.len();
    while len > 0 {
        if bytes[len - 1] != 0 {
            return &bytes[..len];
        }
        len -= 1;
    }
    &bytes[..0]
}

/// The name of the record at `at`.
#[tactic(auto, unfolding(cramfs_format::specs::Inode::end_of))]
fn name_at<'a>(order: Order, b: &'a [u8], at: usize) -> &'a [u8]
    requires header { at + 12 ≤ length b.now }
    requires within { end_of order b.now at ≤ length b.now }
    ensures { result.now ≡ name_of order b.now at }
{
    let start = at + 12;
    let room = room_at(order, b, at) as usize;
    cut_zeros(&b[start..start + room])
}

/// The entry of the record at `at` in the list of a directory.
fn entry_at(order: Order, b: &[u8], at: u32, directory: usize) -> Record
    requires header { at + 12 ≤ length b.now }
    requires within { end_of order b.now at ≤ length b.now }
    requires small { length b.now < 2 ^ 32 }
    ensures { result ≡ cramfs_entry order b.now at directory }
{
    let name = name_at(order, b, at as usize);
    Record {
        offset: at,
        name: at + 12,
        length: name.len() as u32,
        directory,
    }
}

/// Whether an extent is data.
fn is_data(kind: Kind) -> bool
    ensures { result ≡ is_data kind }
{
    match kind {
        Kind::Data => true,
        Kind::Super | Kind::Header | Kind::List | Kind::Table => false,
    }
}

/// Whether a block goes on where an extent of the same contents ends.
fn goes_on(x: Extent, block: Extent) -> bool
    ensures { result ≡ goes_on x block }
{
    is_data(x.kind)
        && x.owner == block.owner
        && end(x) == u64::from(block.start)
        && u64::from(x.offset) + u64::from(x.len) == u64::from(block.offset)
        && u64::from(x.len) + u64::from(block.len) < 4_294_967_296
}

/// Whether a block becomes a part of the extent before it.
fn is_joined(joined: bool, x: Extent, block: Extent) -> bool
    ensures { result ≡ (if joined then goes_on x block else false) }
{
    joined && goes_on(x, block)
}

/// Adds a block. If blocks are joined and it goes on where the last extent ends, that extent
/// becomes longer.
fn add_block(extents: &mut Vec<Extent>, block: Extent, joined: bool) -> Result<(), OutOfMemory>
    ensures { OnOk result (extents.new.items ≡ with_block joined extents.old.items block) }
{
    let Some(last) = extents.pop() else {
        extents.push(block)?;
        return Ok(());
    };
    if is_joined(joined, last, block) {
        extents.push(Extent {
            len: last.len + block.len,
            ..last
        })?;
        return Ok(());
    }
    extents.push(last)?;
    extents.push(block)?;
    Ok(())
}

/// Adds the blocks of `size` bytes, whose block pointers begin at `table`.
fn add_blocks(
    extents: &mut Vec<Extent>,
    order: Order,
    b: &[u8],
    table: u32,
    size: u32,
    owner: usize,
    joined: bool,
) -> Result<(), OutOfMemory>
    requires small { size < 2 ^ 24 }
    requires table { 0 < size → table + 4 * block_count size ≤ length b.now }
    ensures { OnOk result (extents.new.items ≡ with_blocks joined order b.now owner
        extents.old.items (block_count size) table size 0) }
{
    let count = blocks_of(size);
    'pointers: for i in 0..count {
        let pointer = order.word(b, table as usize + 4 * i as usize);
        let block = Extent {
            kind: Kind::Data,
            start: start_of(pointer),
            len: (size - 4_096 * i).min(4_096),
            offset: 4_096 * i,
            owner,
        };
        add_block(extents, block, joined)?;
    }
    Ok(())
}

/// Adds the extents of the record at `at`: the list of a directory, or the block pointers and the
/// data of a file or a link.
fn add_record(
    extents: &mut Vec<Extent>,
    order: Order,
    b: &[u8],
    at: u32,
    owner: usize,
    joined: bool,
) -> Result<(), OutOfMemory>
    requires header { at + 12 ≤ length b.now }
    requires table { TableLies order b.now at }
    ensures { OnOk result (extents.new.items ≡ with_contents joined order b.now at owner
        (with_list order b.now at owner extents.old.items)) }
{
    let kind = type_at(order, b, at as usize);
    let offset = offset_at(order, b, at as usize);
    let size = size_at(order, b, at as usize);
    if kind == 4 {
        add(extents, Kind::List, offset, size, owner)?;
    }
    if kind == 8 || kind == 10 {
        add(extents, Kind::Table, offset, 4 * blocks_of(size), owner)?;
        add_blocks(extents, order, b, offset, size, owner, joined)?;
    }
    Ok(())
}

/// Adds the records of a cramfs image in the order of a list.
fn list_records(
    alloc: Global,
    records: &mut Vec<Record>,
    order: Order,
    b: &[u8],
) -> Result<(), OutOfMemory>
    requires cramfs { (k : ℕ) × (k ≤ 2 ^ 32) × IsCramfs order b.now k }
    requires none { records.old.items ≡ [] }
    ensures records { OnOk result (records.new.items ≡ cramfs_listed order b.now) }
    ensures within { OnOk result (All (λ (x : Record). IsWithin order b.now x.offset)
        records.new.items) }
{
    records.push(Record {
        offset: 64,
        name: 64,
        length: 0,
        directory: 0,
    })?;
    let mut lists = Vec::new(alloc);
    lists.push((offset_at(order, b, 64), list_end_at(order, b, 64), 0))?;
    while let Some(list) = lists.pop() {
        let at = list.0;
        if at >= list.1 {
            continue;
        }
        let number = records.len();
        records.push(entry_at(order, b, at, list.2))?;
        lists.push((end_at(order, b, at), list.1, list.2))?;
        lists.push((
            offset_at(order, b, at as usize),
            list_end_at(order, b, at as usize),
            number,
        ))?;
    }
    Ok(())
}

/// Adds the extents of those records that are the first ones with their block pointers, or have
/// none.
fn add_extents(
    extents: &mut Vec<Extent>,
    first: &First,
    order: Order,
    b: &[u8],
    records: &[Record],
    joined: bool,
) -> Result<(), OutOfMemory>
    requires within { All (λ (x : Record). IsWithin order b.now x.offset) records.now }
    requires first { (t : ℕ × ℕ)
        → get pair_cmp first.now t ≡ first_with (table_in order b.now) t 0 records.now }
    ensures { OnOk result (extents.new.items
        ≡ with_records joined order b.now records.now extents.old.items 0 records.now) }
{
    for number in 0..records.len() {
        if !is_first(first, order, b, records, number) {
            continue;
        }
        add_record(extents, order, b, records[number].offset, number, joined)?;
    }
    Ok(())
}

/// Adds the records of a cramfs image in the order of a list, and their extents in the same order.
/// Of records with the same block pointers, only the first has extents. `b` has its accessible
/// bytes. If blocks are joined, blocks of a file that follow one another are one extent. Returns
/// which record is the next one with the block pointers of each.
///
/// # Errors
///
/// `OutOfMemory` if memory was refused.
pub(crate) fn add_cramfs(
    alloc: Global,
    records: &mut Vec<Record>,
    extents: &mut Vec<Extent>,
    order: Order,
    b: &[u8],
    joined: bool,
) -> Result<Vec<Option<usize>>, OutOfMemory>
    requires cramfs { (k : ℕ) × (k ≤ 2 ^ 32) × IsCramfs order b.now k }
    requires none { (records.old.items ≡ []) × (extents.old.items ≡ []) }
    ensures records { OnOk result (records.new.items ≡ cramfs_listed order b.now) }
    ensures next { IfOk result (λ next. next.items ≡ cramfs_nexts order b.now) }
    ensures extents { OnOk result (extents.new.items ≡ cramfs_all_found joined order b.now) }
{
    list_records(alloc, records, order, b)?;
    let (next, first) = tables(alloc, order, b, records)?;
    add(extents, Kind::Super, 0, 76, 0)?;
    add_extents(extents, &first, order, b, records, joined)?;
    Ok(next)
}
