//! A checked image as a tree of files.
ghost use Rattle.std.specs.Prelude.{◌≡◌, ◌<◌, ◌≤◌, ◌^◌, ℕ, length, take};
ghost use Rattle.cramfs_format.specs.Made.{IsCramfs};
ghost use Rattle.cramfs_image.specs.Cramfs.{cramfs_view};

use crate::accessible::Accessible;
use crate::depth::greatest_depth;
use crate::fields::{kind_named_by, of_device};
use arrayvec::ArrayVec;
use cramfs_format::Order;
use cramfs_format::disk::ROOT;
use cramfs_format::inode::start_of;
use record_forest::Row;
use rom_tree::{Cursor, Entry, Limits, NodeId, Report, Run, Stat, TreeImage, Viewed};

/// A checked image.
#[derive(Drop)]
pub struct Cramfs<'a> {
    all: &'a [u8],
    accessible: Accessible<'a>,
    references: u32,
    depth: u32,
    ghost sound: { IsCramfs accessible.order accessible.bytes.now references },
    ghost within: { length accessible.bytes.now ≤ length all.now },
    ghost front: { accessible.bytes.now ≡ take (length accessible.bytes.now) all.now },
}

/// The numbers that make a checked image again from its bytes: the byte order, the number of
/// accessible bytes, and what the check reported.
#[derive(Clone, Copy)]
pub struct Parts {
    pub order: Order,
    pub accessible: u32,
    pub references: u32,
    pub depth: u32,
}

impl Viewed for Cramfs<'_> {
    ghost use Rattle.cramfs_image.specs.Reported.{image_of};

    ghost image = { λ s. image_of s };
}

impl<'a> TreeImage<'a> for Cramfs<'a> {
    ghost use Rattle.std.specs.Prelude.{Some, None, MatchOption};
    ghost use Rattle.rom_tree.specs.Tree.{Node, places_of, entries_of, ino_of};
    ghost use Rattle.rom_tree.specs.Image.{image_node, find_entry, HasNode, HasDirectory, GivesRun};
    ghost use Rattle.rom_tree.specs.Image.{GivesWhole};
    ghost use Rattle.cramfs_image.specs.Reported.{report_of};
    ghost use Rattle.cramfs_image.specs.Cramfs.{GivesBlock};

    fn bytes(&self) -> &'a [u8] {
        self.all
    }

    fn root(&self) -> NodeId {
        NodeId(ROOT)
    }

    fn is_node(&self, n: NodeId) -> bool {
        if n.0 == ROOT {
            return true;
        }
        let b = &self.accessible;
        let mut stack: ArrayVec<(u32, u32), 65> = ArrayVec::new();
        stack.push((b.offset_at(64), b.list_end_at(64)));
        while let Some(list) = stack.pop() {
            let at = list.0;
            if at >= list.1 {
                continue;
            }
            if at == n.0 {
                return true;
            }
            stack.push((b.end_at(at as usize) as u32, list.1));
            stack.push((b.offset_at(at as usize), b.list_end_at(at as usize)));
        }
        false
    }

    fn stat(&self, n: NodeId) -> Stat {
        let at = n.0 as usize;
        let t = self.accessible.type_at(at);
        let size = self.accessible.size_at(at);
        Stat {
            ino: n.0,
            kind: kind_named_by(t),
            mode: self.accessible.mode_at(at) % 4_096,
            uid: self.accessible.uid_at(at),
            gid: self.accessible.gid_at(at),
            size: self.accessible.file_len(at),
            major: of_device(t, size / 256),
            minor: of_device(t, size % 256),
        }
    }

    fn entry(&self, d: NodeId, c: Cursor) -> Option<Entry<'a>> {
        let b = &self.accessible;
        let end = b.list_end_at(d.0 as usize);
        let next = if c.0 == 0 {
            u64::from(b.offset_at(d.0 as usize))
        } else {
            c.0
        };
        if next >= u64::from(end) {
            return None;
        }
        let at = next as u32;
        let name = b.name_at(at as usize);
        let cursor = Cursor(b.end_at(at as usize) as u64);
        Some(Entry {
            name,
            node: NodeId(at),
            cursor,
        })
    }

    /// Does not change the report.
    fn lookup(&mut self, d: NodeId, name: &[u8]) -> Option<NodeId>
        requires { HasDirectory (⟦<Cramfs<'a> as Viewed>⟧.image self.old) d.0 }
        ensures stays { ⟦<Cramfs<'a> as Viewed>⟧.image self.new
            ≡ ⟦<Cramfs<'a> as Viewed>⟧.image self.old }
        ensures found { (x : Node) → image_node (⟦<Cramfs<'a> as Viewed>⟧.image self.old) d.0
            ≡ Some x
            → MatchOption result (find_entry (entries_of x) name.now ≡ None)
            (λ n. (y : Node) × (find_entry (entries_of x) name.now ≡ Some y) × (ino_of y ≡ n.0)) }
        ensures report { report_of self.new ≡ report_of self.old }
    {
        let end = self.accessible.list_end_at(d.0 as usize);
        let mut at = self.accessible.offset_at(d.0 as usize);
        while at < end {
            if self.accessible.name_at(at as usize) == name {
                return Some(NodeId(at));
            }
            at = self.accessible.end_at(at as usize) as u32;
        }
        None
    }

    /// Returns a run that ends with its block, or with the file.
    fn run(&self, n: NodeId, off: u64) -> Option<Run>
        requires { HasNode (⟦<Cramfs<'a> as Viewed>⟧.image self.now) n.0 }
        ensures row { (x : Node) → image_node (⟦<Cramfs<'a> as Viewed>⟧.image self.now) n.0 ≡ Some x
            → GivesRun (places_of x) off result }
        ensures whole { (x : Node) → image_node (⟦<Cramfs<'a> as Viewed>⟧.image self.now) n.0
            ≡ Some x
            → GivesWhole x off result }
        ensures block { (x : Node) → image_node (⟦<Cramfs<'a> as Viewed>⟧.image self.now) n.0
            ≡ Some x
            → GivesBlock (places_of x) off result }
    {
        let at = n.0 as usize;
        let size = self.accessible.file_len(at);
        if off >= u64::from(size) {
            return None;
        }
        let off = off as u32;
        let table = self.accessible.offset_at(at) as usize;
        let pointer = self.accessible.word(table + 4 * (off / 4_096) as usize);
        let place = start_of(pointer) + off % 4_096;
        let len = (size - off).min(4_096 - off % 4_096);
        Some(Run { place, len })
    }
}

impl<'a> Cramfs<'a> {
    ghost use Rattle.std.specs.List.{All};
    ghost use Rattle.record_forest.specs.Forest.{Forest, all_rows};
    ghost use Rattle.cramfs_format.specs.Refers.{references};
    ghost use Rattle.cramfs_format.specs.Superblock.{IsSuperblock};
    ghost use Rattle.cramfs_format.specs.Tree.{IsTree};
    ghost use Rattle.cramfs_image.specs.Checked.{Shows};
    ghost use Rattle.cramfs_format.specs.Order.{is_big};
    ghost use Rattle.cramfs_image.specs.Reported.{order_in, report_of};
    ghost use Rattle.cramfs_image.specs.Parts.{AreParts, tree_of_parts, cursors_of_parts};

    /// Makes the image of the bytes `all`, whose accessible bytes are those of `b`, from the rows
    /// of its tree.
    pub(crate) fn opened(
        all: &'a [u8],
        b: Accessible<'a>,
        rows: &[Row],
        limits: Limits,
    ) -> Cramfs<'a>
        requires superblock { IsSuperblock b.order all.now b.bytes.now }
        requires few { length rows.now < 2 ^ 32 }
        requires tree { (f : Forest) × (rows.now ≡ all_rows (references b.order b.bytes.now) f)
            × IsTree b.order b.bytes.now limits.references limits.depth f }
        ensures shows { Shows b.entry.order all.now limits (⟦<Cramfs<'a> as Viewed>⟧.image result)
            (report_of result) }
        ensures order { order_in result ≡ b.entry.order }
    {
        let depth = greatest_depth(rows);
        Cramfs {
            all,
            accessible: b,
            references: rows.len() as u32,
            depth,
        }
    }

    /// Returns whether the image is big-endian: its first bytes are `28 cd 3d 45`.
    pub fn big(&self) -> bool
        ensures { result ≡ is_big (order_in self.now) }
    {
        match self.accessible.order {
            Order::Little => false,
            Order::Big => true,
        }
    }

    /// Returns its numbers, by which `again` makes an image of the same bytes.
    pub fn parts(&self) -> Parts
        ensures are { AreParts (⟦<Cramfs<'a> as Viewed>⟧.image self.now).bytes result }
        ensures tree { (⟦<Cramfs<'a> as Viewed>⟧.image self.now).tree
            ≡ tree_of_parts (⟦<Cramfs<'a> as Viewed>⟧.image self.now).bytes result }
        ensures order { result.order ≡ order_in self.now }
        ensures references { result.references ≡ (report_of self.now).references }
        ensures depth { result.depth ≡ (report_of self.now).depth }
    {
        let report = self.report();
        Parts {
            order: self.accessible.order,
            accessible: self.accessible.bytes.len() as u32,
            references: report.references,
            depth: report.depth,
        }
    }

    /// Makes the image of these bytes again from numbers that a check found. Reads nothing.
    pub fn again(all: &'a [u8], parts: Parts) -> Cramfs<'a>
        requires { AreParts all.now parts }
        ensures bytes { (⟦<Cramfs<'a> as Viewed>⟧.image result).bytes ≡ all.now }
        ensures tree { (⟦<Cramfs<'a> as Viewed>⟧.image result).tree ≡ tree_of_parts all.now parts }
        ensures cursors { (⟦<Cramfs<'a> as Viewed>⟧.image result).cursor_index
            ≡ cursors_of_parts all.now parts }
    {
        let accessible = Accessible {
            bytes: &all[..parts.accessible as usize],
            order: parts.order,
        };
        Cramfs {
            all,
            accessible,
            references: parts.references,
            depth: parts.depth,
        }
    }

    /// Returns the number of references of the image, including the superblock's, and the greatest
    /// number of names from the root to a node.
    pub fn report(&self) -> Report
        ensures { result ≡ report_of self.now }
    {
        Report {
            references: self.references,
            depth: self.depth,
        }
    }
}
