//! The pass forwards, which computes what each row places.
ghost use Rattle.std.specs.List.{All};
ghost use Rattle.cramfs_format.specs.declared.order.Order as order;
ghost use Rattle.std.specs.Prelude.{◌≡◌, ◌+◌, ◌*◌, ◌<◌, ◌≤◌, ◌^◌, ℕ, List, map, length, IfOk, OnOk};
ghost use Rattle.cramfs_plan.specs.Bounds.{IsRow};
ghost use Rattle.cramfs_plan.specs.Entries.{entry_view, stored_item, Knows, AreNear};
ghost use Rattle.cramfs_plan.specs.Passes.{Walk, first_walk, item_by, state_by, walked, after_rows};
ghost use Rattle.cramfs_plan.specs.Passes.{row_item, step};
ghost use Rattle.cramfs_plan.specs.Placers.{StandsAt, IsNear};
ghost use Rattle.plan_rows.specs.Rows.{bytes_view, inode_view, row_view};

use crate::kept::{Stored, stored_file, stored_list};
use crate::lens::DEPTHS;
use crate::wide_inode::WideInode;
use crate::words::{entry_len, first_word, second_word, third_word};
use cramfs_format::Order;
use cramfs_format::disk::HEAD;
use plan_rows::{Bytes, Row, What};
use rom_fields::{OutOfMemory, pad};
use std::alloc::Global;
use std::collections::BTreeMap;

/// The offset of the root's list, behind the superblock and the root's inode.
pub const ROOT_LIST: u64 = HEAD as u64;

/// What was placed so far.
#[derive(Drop)]
pub struct Placer {
    /// The end of it.
    at: u64,
    /// The offset of the next entry of a list, at each depth.
    lists: [u64; DEPTHS],
    /// The offsets of the tables of sources.
    tables: BTreeMap<usize, u64>,
}

/// What the rows place, and its end.
#[derive(Drop)]
pub struct Placed<'a> {
    pub entries: Vec<WideInode<'a>>,
    pub end: u64,
}

/// Returns an inode with its name.
fn entry<'a>(
    order: Order,
    place: u64,
    row: Row<'a>,
    stored: Stored,
    bytes: Bytes<'a>,
) -> WideInode<'a>
    requires short { length row.name.now < 256 }
    requires size { stored.size < 2 ^ 41 }
    requires offset { stored.offset < 2 ^ 52 }
    ensures { entry_view result ≡ stored_item order place row.entry.name.now
        (inode_view row.entry.inode) stored (bytes_view bytes.entry) }
{
    WideInode {
        place,
        words: [
            first_word(order, &row.inode),
            second_word(order, &row.inode, stored.size),
            third_word(order, row.name, stored.offset),
        ],
        name: row.name,
        table: stored.table,
        start: stored.start,
        len: stored.len,
        bytes,
    }
}

impl Placer {
    /// Returns the state before any row, behind the root's list of this length.
    fn new(alloc: Global, root: u64) -> Placer
        requires { root < 2 ^ 40 }
        ensures stands { StandsAt (first_walk root) result }
        ensures near { IsNear (root + 2 ^ 7) result }
    {
        Placer {
            at: ROOT_LIST + root,
            lists: [ROOT_LIST; DEPTHS],
            tables: BTreeMap::new(alloc),
        }
    }

    /// Returns the offsets of the bytes or of the list that a row's file has, and which bytes it
    /// has. `len` is the length of its own list.
    fn stored<'a>(&mut self, row: Row<'a>, len: u64) -> Result<(Stored, Bytes<'a>), OutOfMemory>
        requires row { IsRow row }
        requires len { len < 2 ^ 24 }
        requires near { IsNear (2 ^ 48) self.old }
        ensures item { (w : Walk) → StandsAt w self.old
            → IfOk result (λ r. (o : order.Order) (l : ℕ) (name : List ℕ)
            → stored_item o l name (inode_view row.entry.inode) r.0 (bytes_view r.1)
            ≡ item_by o w.state l name len (row_view row.entry).what) }
        ensures end { (w : Walk) → StandsAt w self.old → IfOk result (λ r. r.0.end
            ≡ (state_by w.state len (row_view row.entry).what).at) }
        ensures tables { (w : Walk) → StandsAt w self.old → OnOk result (Knows
            (state_by w.state len (row_view row.entry).what).tables self.new.tables) }
        ensures same { (self.new.at ≡ self.old.at) × (self.new.lists ≡ self.old.lists) }
        ensures near { (near : ℕ) → IsNear near self.old
            → OnOk result (AreNear (near + 3) self.new.tables) }
        ensures small { IfOk result
            (λ r. (r.0.end ≤ self.old.at + 2 ^ 25) × (r.0.size < 2 ^ 41) × (r.0.offset < 2 ^ 52)) }
    {
        match row.what {
            What::Directory => Ok((stored_list(self.at, len), Bytes::Nothing)),
            What::Leaf | What::Link => {
                let stored = stored_file(&mut self.tables, self.at, &row.inode)?;
                Ok((stored, row.inode.bytes))
            }
        }
    }

    /// Places a row; `len` is the length of its own list.
    fn place<'a>(
        &mut self,
        order: Order,
        row: Row<'a>,
        len: u64,
    ) -> Result<WideInode<'a>, OutOfMemory>
        requires row { IsRow row }
        requires len { len < 2 ^ 24 }
        requires near { IsNear (2 ^ 48) self.old }
        ensures entry { (w : Walk) → StandsAt w self.old → IfOk result (λ e. entry_view e
            ≡ row_item order w (row_view row.entry) len) }
        ensures stands { (w : Walk) → StandsAt w self.old → OnOk result
            (StandsAt (step w (row_view row.entry) len) self.new) }
        ensures near { (near : ℕ) → IsNear near self.old → OnOk result
            (IsNear (near + 2 ^ 26) self.new) }
    {
        let (stored, bytes) = self.stored(row, len)?;
        let place = self.lists[row.depth];
        self.lists[row.depth] = place + entry_len(row.name);
        self.lists[row.depth + 1] = pad(self.at, 4);
        self.at = stored.end;
        Ok(entry(order, place, row, stored, bytes))
    }
}

/// Returns what rows place behind the root's list, of the length `root`. `lens` has the lengths of
/// the rows' own lists.
pub fn place_rows<'a>(
    alloc: Global,
    order: Order,
    rows: &[Row<'a>],
    root: u64,
    lens: &[u64],
) -> Result<Placed<'a>, OutOfMemory>
    requires rows { All IsRow rows.now }
    requires few { length rows.now ≤ 2 ^ 20 }
    requires root { root < 2 ^ 24 }
    requires many { length lens.now ≡ length rows.now }
    requires lens { All (λ n. n < 2 ^ 24) lens.now }
    ensures entries { IfOk result (λ p. map entry_view p.entries.items
        ≡ walked order (first_walk root) (map row_view rows.now) lens.now) }
    ensures end { IfOk result (λ p. p.end
        ≡ (after_rows (first_walk root) (map row_view rows.now) lens.now).state.at) }
    ensures near { IfOk result (λ p. p.end ≤ 2 ^ 47) }
{
    let mut placer = Placer::new(alloc, root);
    let mut entries = Vec::new(alloc);
    for i in 0..rows.len() {
        entries.push(placer.place(order, rows[i], lens[i])?)?;
    }
    Ok(Placed {
        entries,
        end: placer.at,
    })
}
