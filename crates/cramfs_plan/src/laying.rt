//! The layout of an image, without its bytes.
ghost use Rattle.std.specs.List.{AllByRecursion as Every, list_any};
ghost use Rattle.std.specs.Prelude.{◌≡◌, ◌==◌, ◌||◌, ◌^◌, ◌<◌, if◌then◌else◌, [], ◌∷◌, true, false};
ghost use Rattle.std.specs.Prelude.{ℕ, List, map, IfOk, IsPermutation, MatchOption};
ghost use Rattle.cramfs_format.specs.Refers.{root_place};
ghost use Rattle.cramfs_layout.specs.Items.{items_of, item_of};
ghost use Rattle.cramfs_layout.specs.Layout.{size_of};
ghost use Rattle.cramfs_layout.specs.Planned.{IsPlanned};
ghost use Rattle.cramfs_plan.specs.Entries.{entry_view};
ghost use Rattle.cramfs_plan.specs.Orders.{Rises};
ghost use Rattle.cramfs_plan.specs.Small.{IsSmall};
ghost use Rattle.cramfs_plan.specs.Wholes.{is_long_list, too_large};
ghost use Rattle.manifest_tree.specs.Items as terms;
ghost use Rattle.formats.specs.Format.{cramfs};
ghost use Rattle.manifest_tree.specs.Names.{Names, no_bytes};
ghost use Rattle.plan_rows.specs.Fits.{IsFit};
ghost use Rattle.plan_rows.specs.Rows.{rows as rows_of, row_view, inode_view};
ghost use Rattle.manifest_layout.specs.Views.{item_view};

use crate::items::sorted_items;
use crate::lens::{Lens, list_lens};
use crate::walk::{Placed, ROOT_LIST, place_rows};
use crate::wide_inode::WideInode;
use crate::words::{first_word, second_word, third_word};
use cramfs_format::{Order, disk};
use manifest_layout::{Item, Laid};
use plan_rows::{Bytes, Inode, Row, deepest};
use rom_fields::{OutOfMemory, pad};
use std::alloc::Global;

/// The offset of the root's inode.
const ROOT_PLACE: u64 = disk::ROOT as u64;

/// The most items of an image: 2^20, this project's limit of references.
const MOST_ITEMS: usize = 1 << 20;

/// The most names on the way to a file, this project's limit.
const MOST_NAMES: usize = 64;

/// The most bytes of an image.
const MOST_BYTES: u64 = disk::MOST_BYTES as u64;

/// The limit below which the length of a list is: 2^24, as its inode has 24 bits for it.
const LIST_LIMIT: u64 = 1 << 24;

/// Returns whether one of these lists is too long for its inode.
fn has_long(lens: &[u64]) -> bool
    ensures { result ≡ list_any is_long_list lens.now }
{
    lens.iter().any(|len| *len >= LIST_LIMIT)
}

/// Returns whether the root's list, or another list, is too long for its inode.
fn has_long_list(lens: &Lens) -> bool
    ensures { result ≡ is_long_list lens.now.root || list_any is_long_list lens.now.own.items }
{
    lens.root >= LIST_LIMIT || has_long(&lens.own)
}

/// Returns the entry of the root's inode, if the root's list has this length.
fn root_entry<'a>(order: Order, root: &Inode<'a>, len: u64) -> WideInode<'a>
    requires { len < 2 ^ 24 }
    ensures { entry_view result ≡ item_of order root_place [] (inode_view root.now) len
        (if len == 0 then 0 else 76) 0 0 0 no_bytes }
{
    let offset = if len == 0 { 0 } else { ROOT_LIST };
    WideInode {
        place: ROOT_PLACE,
        words: [
            first_word(order, root),
            second_word(order, root, len),
            third_word(order, &[], offset),
        ],
        name: &[],
        table: 0,
        start: 0,
        len: 0,
        bytes: Bytes::Nothing,
    }
}

/// Returns the items of the root and of what rows place, in the order of their offsets.
fn all_items<'a>(
    alloc: Global,
    order: Order,
    root: &Inode<'a>,
    len: u64,
    entries: Vec<WideInode<'a>>,
) -> Result<Vec<Item>, OutOfMemory>
    requires { len < 2 ^ 24 }
    ensures { (is : List terms.Item) → Rises (λ (i : terms.Item). i.place) is → Every IsSmall is
        → IsPermutation is (item_of order root_place [] (inode_view root.now) len
        (if len == 0 then 0 else 76) 0 0 0 no_bytes ∷ map entry_view entries.entry.items)
        → IfOk result (λ items. map item_view items.items ≡ is) }
{
    let mut entries = entries;
    entries.insert(0, root_entry(order, root, len))?;
    sorted_items(alloc, entries)
}

/// Returns the layout of names in a byte order, or nothing if the whole is too large.
pub fn lay_out<'a>(
    alloc: Global,
    order: Order,
    root: &Inode<'a>,
    rows: &[Row<'a>],
) -> Result<Option<Laid>, OutOfMemory>
    requires { Every (IsFit (cramfs order)) (map row_view rows.now) }
    ensures whole { (n : Names) → map row_view rows.now ≡ rows_of 1 n
        → IfOk result (λ o. MatchOption o
        (too_large order (inode_view root.now) n ≡ true)
        (λ l. (too_large order (inode_view root.now) n ≡ false) × (l.image_len ≡ size_of n))) }
    ensures items { (n : Names) (volume : List ℕ) (contents : List (List ℕ))
        → map row_view rows.now ≡ rows_of 1 n → IsPlanned volume (inode_view root.now) n contents
        → IfOk result (λ o. MatchOption o (Unit {0})
        (λ l. map item_view l.items.items ≡ items_of order (inode_view root.now) n)) }
{
    if rows.len() >= MOST_ITEMS || deepest(rows) > MOST_NAMES {
        return Ok(None);
    }
    let lens = list_lens(alloc, rows)?;
    if has_long_list(&lens) {
        return Ok(None);
    }
    let Placed { entries, end } = place_rows(alloc, order, rows, lens.root, &lens.own)?;
    let image_len = pad(end, 4096);
    if image_len > MOST_BYTES {
        return Ok(None);
    }
    let items = all_items(alloc, order, root, lens.root, entries)?;
    Ok(Some(Laid {
        image_len: image_len as usize,
        items,
    }))
}
