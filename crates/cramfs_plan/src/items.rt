//! The items of a layout, from what the rows place.
ghost use Rattle.std.specs.List.{All, AllByRecursion as Every};
ghost use Rattle.std.specs.Prelude.{◌≡◌, ◌%◌, ◌^◌, List, map, IfOk, IsPermutation};
ghost use Rattle.cramfs_format.specs.Refers.{root_place};
ghost use Rattle.cramfs_layout.specs.Items.{item_of};
ghost use Rattle.cramfs_plan.specs.Entries.{entry_view};
ghost use Rattle.cramfs_plan.specs.Orders.{Rises};
ghost use Rattle.cramfs_plan.specs.Small.{IsSmall, cut};
ghost use Rattle.manifest_tree.specs.Items as terms;
ghost use Rattle.manifest_tree.specs.Names.{no_bytes};
ghost use Rattle.plan_rows.specs.Rows.{bytes_view, inode_view};
ghost use Rattle.manifest_layout.specs.Views.{fill_view, item_view};

use crate::wide_inode::WideInode;
use manifest::Name;
use manifest_layout::{Fill, Item};
use plan_rows::Bytes;
use rom_fields::OutOfMemory;
use std::alloc::Global;

/// Returns a copy of a name.
fn name_of(alloc: Global, bytes: &[u8]) -> Result<Name, OutOfMemory>
    ensures { IfOk result (λ name. name ≡ bytes.now) }
{
    let name = bytes.to_vec(alloc)?;
    Ok(name.into())
}

/// Returns the bytes of a file.
fn fill_of(alloc: Global, bytes: Bytes<'_>) -> Result<Fill, OutOfMemory>
    ensures { IfOk result (λ fill. fill_view fill ≡ bytes_view bytes.entry) }
{
    match bytes {
        Bytes::Nothing => Ok(Fill::Nothing),
        Bytes::Text(text) => Ok(Fill::Text(name_of(alloc, text)?)),
        Bytes::Source(source) => Ok(Fill::File(source)),
    }
}

/// Returns the lowest 32 bits.
fn low(n: u64) -> u32
    ensures { result ≡ n % 2 ^ 32 }
{
    (n % (1 << 32)) as u32
}

/// Returns the item of an entry, with its numbers cut to 32 bits.
fn item_of(alloc: Global, entry: &WideInode<'_>) -> Result<Item, OutOfMemory>
    ensures { IfOk result (λ item. item_view item ≡ cut (entry_view entry.now)) }
{
    let name = name_of(alloc, entry.name)?;
    let fill = fill_of(alloc, entry.bytes)?;
    Ok(Item {
        place: low(entry.place),
        words: [
            low(entry.words[0]),
            low(entry.words[1]),
            low(entry.words[2]),
        ],
        name,
        table: low(entry.table),
        start: low(entry.start),
        len: low(entry.len),
        fill,
    })
}

/// Returns the items of entries, in their order.
fn items_of(alloc: Global, entries: &[WideInode<'_>]) -> Result<Vec<Item>, OutOfMemory>
    ensures { IfOk result (λ items. map item_view items.items
        ≡ map (λ e. cut (entry_view e)) entries.now) }
{
    let mut items = Vec::new(alloc);
    for entry in entries {
        items.push(item_of(alloc, entry)?)?;
    }
    Ok(items)
}

/// Returns the items of entries, in the order of their offsets.
pub fn sorted_items(alloc: Global, entries: Vec<WideInode<'_>>) -> Result<Vec<Item>, OutOfMemory>
    ensures { (is : List terms.Item) → Rises (λ (i : terms.Item). i.place) is → Every IsSmall is
        → IsPermutation is (map entry_view entries.entry.items)
        → IfOk result (λ items. map item_view items.items ≡ is) }
{
    let mut entries = entries;
    entries.sort_by_key(|entry| entry.place)?;
    items_of(alloc, &entries)
}
