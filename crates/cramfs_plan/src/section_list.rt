//! The sections of an image, from its items.
ghost use Rattle.std.specs.List.{AllByRecursion as Every};
ghost use Rattle.std.specs.Prelude.{◌≡◌, ◌*◌, ◌<◌, ◌++◌, ℕ, map, length, IfOk, OnOk};
ghost use Rattle.cramfs_format.specs.Inode.{block_count};
ghost use Rattle.cramfs_layout.specs.Items.{sections_of};
ghost use Rattle.cramfs_plan.specs.Tables.{own_sections, unsorted};
ghost use Rattle.manifest_tree.specs.Items as terms;
ghost use Rattle.manifest_tree.specs.Items.{SectionsRise, bytes_section};
ghost use Rattle.manifest_layout.specs.Views.{item_view, section_view};

use crate::words::entry_len;
use cramfs_format::disk::HEAD;
use manifest_layout::{Body, Fill, Item, Section};
use rom_fields::OutOfMemory;
use std::alloc::Global;
use std::collections::BTreeSet;

/// The length of the superblock in bytes, with the root's inode.
const SUPER: u32 = HEAD as u32;

/// Returns the length in bytes of the table of block pointers for so many bytes: four for each
/// block of 4,096.
fn table_len(len: u32) -> u32
    ensures { result ≡ 4 * block_count len }
{
    ((len as u64 + 4095) / 4096 * 4) as u32
}

/// Adds the section of the bytes of an item.
fn push_bytes(found: &mut Vec<Section>, index: usize, item: &Item) -> Result<(), OutOfMemory>
    ensures { OnOk result (map section_view found.new.items
        ≡ map section_view found.old.items ++ bytes_section index (item_view item.now)) }
{
    if item.len == 0 {
        return Ok(());
    }
    let body = match item.fill {
        Fill::Nothing => return Ok(()),
        Fill::Text(_) => Body::Text { item: index },
        Fill::File(file) => Body::Content { file },
    };
    found.push(Section {
        place: item.start,
        len: item.len,
        body,
    })?;
    Ok(())
}

/// Adds the sections of the item at an index; `fresh` is true if its table is new.
fn push_item(
    found: &mut Vec<Section>,
    fresh: bool,
    index: usize,
    item: &Item,
) -> Result<(), OutOfMemory>
    requires { length item.now.name < 256 }
    ensures { OnOk result (map section_view found.new.items
        ≡ map section_view found.old.items ++ own_sections fresh index (item_view item.now)) }
{
    found.push(Section {
        place: item.place,
        len: entry_len(item.name.as_bytes()) as u32,
        body: Body::Record { item: index },
    })?;
    if item.len != 0 && fresh {
        found.push(Section {
            place: item.table,
            len: table_len(item.len),
            body: Body::Table { item: index },
        })?;
        push_bytes(found, index, item)?;
    }
    Ok(())
}

/// Returns the sections of items, the superblock's first, and then item for item.
fn unsorted_sections(alloc: Global, items: &[Item]) -> Result<Vec<Section>, OutOfMemory>
    requires { Every (λ (i : terms.Item). length i.name < 256) (map item_view items.now) }
    ensures { IfOk result (λ found. map section_view found.items
        ≡ unsorted (map item_view items.now)) }
{
    let mut found = Vec::new(alloc);
    let mut seen = BTreeSet::new(alloc);
    found.push(Section {
        place: 0,
        len: SUPER,
        body: Body::Super,
    })?;
    for i in 1..items.len() {
        let item = &items[i];
        let fresh = seen.insert(item.table)?;
        push_item(&mut found, fresh, i, item)?;
    }
    Ok(found)
}

/// Returns the sections of items, the superblock's first, in the order of their offsets. A table
/// that items share occurs once, with the first of them.
pub fn sections(alloc: Global, items: &[Item]) -> Result<Vec<Section>, OutOfMemory>
    requires { Every (λ (i : terms.Item). length i.name < 256) (map item_view items.now) }
    ensures { (end : ℕ) → SectionsRise 0 end (sections_of (map item_view items.now))
        → IfOk result (λ found. map section_view found.items
        ≡ sections_of (map item_view items.now)) }
{
    let mut found = unsorted_sections(alloc, items)?;
    found.sort_by_key(|section| section.place)?;
    Ok(found)
}
