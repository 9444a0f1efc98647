//! The records of a romfs image with their extents.
ghost use Rattle.std.specs.Prelude.{◌≡◌, ◌+◌, ◌<◌, ◌≤◌, ◌^◌, ◌++◌, ◌∷◌, [], ℕ, length, OnOk};
ghost use Rattle.romfs_format.specs.Record.{name_of, end_of};
ghost use Rattle.romfs_format.specs.Made.{IsRomfs};
ghost use Rattle.image_extents.specs.Listed.{romfs_entry, romfs_listed};
ghost use Rattle.image_extents.specs.Found.{romfs_found, romfs_all_found};

use crate::extent::{Extent, Kind, Record};
use crate::order::add;
use rom_fields::OutOfMemory;
use romfs_format::header::{end_at, first_at, next_at, size_at, start_at, type_at};
use romfs_format::superblock::upto_zero;
use std::alloc::Global;

/// The entry of the record at `at` in the list of a directory.
fn entry_at(b: &[u8], at: u32, directory: usize) -> Record
    requires small { length b.now < 2 ^ 32 }
    requires name { at + 16 + length (name_of b.now at) < length b.now }
    ensures { result ≡ romfs_entry b.now at directory }
{
    let name = upto_zero(&b[at as usize + 16..]);
    Record {
        offset: at,
        name: at + 16,
        length: name.len() as u32,
        directory,
    }
}

/// Adds the extents of the record at `at`: its header with its name, and its data, if it has some.
fn add_record(
    extents: &mut Vec<Extent>,
    b: &[u8],
    at: u32,
    number: usize,
) -> Result<(), OutOfMemory>
    requires small { length b.now < 2 ^ 32 }
    requires header { at + 32 ≤ length b.now }
    requires name { at + 16 + length (name_of b.now at) < length b.now }
    requires within { end_of b.now at ≤ length b.now }
    ensures { OnOk result (extents.new.items
        ≡ extents.old.items ++ romfs_found b.now at number) }
{
    let end = end_at(b, at);
    add(extents, Kind::Header, at, end - at, number)?;
    let kind = type_at(b, at as usize);
    if kind == 2 || kind == 3 {
        add(extents, Kind::Data, end, size_at(b, at as usize), number)?;
    }
    Ok(())
}

/// Adds the records of a romfs image in the order of a list, and their extents in the same order.
/// `b` has its accessible bytes.
///
/// # Errors
///
/// `OutOfMemory` if memory was refused.
pub(crate) fn add_romfs(
    alloc: Global,
    records: &mut Vec<Record>,
    extents: &mut Vec<Extent>,
    b: &[u8],
    root: u32,
) -> Result<(), OutOfMemory>
    requires romfs { (k : ℕ) × (k ≤ 2 ^ 32) × IsRomfs b.now root k }
    requires none { (records.old.items ≡ []) × (extents.old.items ≡ []) }
    ensures records { OnOk result (records.new.items ≡ romfs_listed b.now root) }
    ensures extents { OnOk result (extents.new.items ≡ romfs_all_found b.now root) }
{
    records.push(Record {
        offset: root,
        name: root,
        length: 0,
        directory: 0,
    })?;
    add(extents, Kind::Super, 0, root, 0)?;
    add_record(extents, b, root, 0)?;
    let mut lists = Vec::new(alloc);
    lists.push((start_at(b, root), 0))?;
    while let Some(list) = lists.pop() {
        let at = list.0;
        if at == 0 {
            continue;
        }
        let number = records.len();
        records.push(entry_at(b, at, list.1))?;
        add_record(extents, b, at, number)?;
        lists.push((next_at(b, at as usize), list.1))?;
        lists.push((first_at(b, at as usize), number))?;
    }
    Ok(())
}
