//! A checked image as a tree of files.
ghost use Rattle.std.specs.Prelude.{◌≡◌, ◌<◌, ◌≤◌, ◌^◌, length, take};
ghost use Rattle.romfs_format.specs.Made.{IsRomfs};
ghost use Rattle.romfs_image.specs.Romfs.{romfs_view};

use crate::accessible::Accessible;
use crate::depth::greatest_depth;
use crate::fields::{device_at, file_at, kind_at, mode_at};
use arrayvec::ArrayVec;
use record_forest::Row;
use rom_tree::{Cursor, Entry, Limits, NodeId, Report, Run, Stat, TreeImage, Viewed, is_dots};

/// Added to the offset of the next record to make a cursor other than the start. So the end of a
/// list, whose offset is 0, differs from the start.
const CURSOR_BASE: u64 = 1 << 32;

/// A checked image.
#[derive(Drop)]
pub struct Romfs<'a> {
    all: &'a [u8],
    accessible: Accessible<'a>,
    references: u32,
    depth: u32,
    ghost sound: { IsRomfs accessible.bytes.now accessible.root references },
    ghost few: { references < 2 ^ 32 },
    ghost within: { length accessible.bytes.now ≤ length all.now },
    ghost front: { accessible.bytes.now ≡ take (length accessible.bytes.now) all.now },
}

/// The numbers that make a checked image again from its bytes: the number of accessible bytes, the
/// root's offset, and what the check reported.
#[derive(Clone, Copy)]
pub struct Parts {
    pub accessible: u32,
    pub root: u32,
    pub references: u32,
    pub depth: u32,
}

impl Viewed for Romfs<'_> {
    ghost use Rattle.romfs_image.specs.Reported.{image_of};

    ghost image = { λ s. image_of s };
}

impl<'a> TreeImage<'a> for Romfs<'a> {
    ghost use Rattle.std.specs.Prelude.{Some, None, MatchOption};
    ghost use Rattle.rom_tree.specs.Tree.{Node, places_of, entries_of, ino_of};
    ghost use Rattle.rom_tree.specs.Image.{image_node, find_entry, HasNode, HasDirectory, GivesRun};
    ghost use Rattle.rom_tree.specs.Image.{GivesWhole};
    ghost use Rattle.romfs_image.specs.Reported.{report_of};
    ghost use Rattle.romfs_image.specs.Romfs.{GivesRest};

    fn bytes(&self) -> &'a [u8] {
        self.all
    }

    fn root(&self) -> NodeId {
        NodeId(self.accessible.root)
    }

    fn is_node(&self, n: NodeId) -> bool {
        if n.0 == self.accessible.root {
            return true;
        }
        let mut stack: ArrayVec<u32, 65> = ArrayVec::new();
        stack.push(self.accessible.list_start(self.accessible.root));
        while let Some(at) = stack.pop() {
            if at == 0 {
                continue;
            }
            stack.push(self.accessible.next_offset(at as usize));
            if is_dots(self.accessible.name_at(at)) {
                continue;
            }
            if self.accessible.led_at(at) == n.0 {
                return true;
            }
            stack.push(self.accessible.list_start(at));
        }
        false
    }

    fn stat(&self, n: NodeId) -> Stat {
        let at = n.0 as usize;
        let front = self.accessible.word(at);
        let spec = self.accessible.word(at + 4);
        let size = self.accessible.word(at + 8);
        let t = front % 8;
        Stat {
            ino: n.0,
            kind: kind_at(t),
            mode: mode_at(t, front / 8 % 2 == 1),
            uid: 0,
            gid: 0,
            size: file_at(t, size),
            major: device_at(t, spec / 65536),
            minor: device_at(t, spec % 65536),
        }
    }

    fn entry(&self, d: NodeId, c: Cursor) -> Option<Entry<'a>> {
        let b = &self.accessible;
        let mut at = if c.0 == 0 {
            b.list_start(d.0)
        } else {
            (c.0 - CURSOR_BASE) as u32
        };
        while at != 0 {
            let name = b.name_at(at);
            let next = b.next_offset(at as usize);
            if is_dots(name) {
                at = next;
                continue;
            }
            let node = NodeId(b.led_at(at));
            let cursor = Cursor(CURSOR_BASE + u64::from(next));
            return Some(Entry { name, node, cursor });
        }
        None
    }

    /// Does not change the report.
    fn lookup(&mut self, d: NodeId, name: &[u8]) -> Option<NodeId>
        requires { HasDirectory (⟦<Romfs<'a> as Viewed>⟧.image self.old) d.0 }
        ensures stays { ⟦<Romfs<'a> as Viewed>⟧.image self.new
            ≡ ⟦<Romfs<'a> as Viewed>⟧.image self.old }
        ensures found { (x : Node) → image_node (⟦<Romfs<'a> as Viewed>⟧.image self.old) d.0
            ≡ Some x
            → MatchOption result (find_entry (entries_of x) name.now ≡ None)
            (λ n. (y : Node) × (find_entry (entries_of x) name.now ≡ Some y) × (ino_of y ≡ n.0)) }
        ensures report { report_of self.new ≡ report_of self.old }
    {
        let mut at = self.accessible.list_start(d.0);
        while at != 0 {
            let found = self.accessible.name_at(at);
            if !is_dots(found) && found == name {
                return Some(NodeId(self.accessible.led_at(at)));
            }
            at = self.accessible.next_offset(at as usize);
        }
        None
    }

    /// Returns a run with the rest of the file.
    fn run(&self, n: NodeId, off: u64) -> Option<Run>
        requires { HasNode (⟦<Romfs<'a> as Viewed>⟧.image self.now) n.0 }
        ensures row { (x : Node) → image_node (⟦<Romfs<'a> as Viewed>⟧.image self.now) n.0 ≡ Some x
            → GivesRun (places_of x) off result }
        ensures whole { (x : Node) → image_node (⟦<Romfs<'a> as Viewed>⟧.image self.now) n.0
            ≡ Some x
            → GivesWhole x off result }
        ensures rest { (x : Node) → image_node (⟦<Romfs<'a> as Viewed>⟧.image self.now) n.0 ≡ Some x
            → GivesRest (places_of x) off result }
    {
        let at = n.0 as usize;
        let t = self.accessible.word(at) % 8;
        let size = file_at(t, self.accessible.word(at + 8));
        if off >= u64::from(size) {
            return None;
        }
        let off = off as u32;
        let place = self.accessible.end_at(n.0) + off;
        Some(Run {
            place,
            len: size - off,
        })
    }
}

impl<'a> Romfs<'a> {
    ghost use Rattle.std.specs.List.{All};
    ghost use Rattle.record_forest.specs.Forest.{Forest, all_rows};
    ghost use Rattle.romfs_format.specs.Record.{IsSound};
    ghost use Rattle.romfs_format.specs.Refers.{references};
    ghost use Rattle.romfs_format.specs.Tree.{IsTree, IsSuperblock};
    ghost use Rattle.romfs_image.specs.Checked.{Shows};
    ghost use Rattle.romfs_image.specs.Reported.{report_of};
    ghost use Rattle.romfs_image.specs.Parts.{AreParts, tree_of_parts, cursors_of_parts};

    /// Makes the image of the bytes `all`, whose accessible bytes are those of `b`, from the rows
    /// of its tree.
    pub(crate) fn opened(
        all: &'a [u8],
        b: Accessible<'a>,
        rows: &[Row],
        limits: Limits,
    ) -> Romfs<'a>
        requires superblock { IsSuperblock all.now b.bytes.now b.root }
        requires few { length rows.now < 2 ^ 32 }
        requires sound { All (λ x. IsSound b.bytes.now b.root x.offset) rows.now }
        requires tree { (f : Forest) × (rows.now ≡ all_rows (references b.bytes.now b.root) f)
            × IsTree b.bytes.now b.root limits.references limits.depth f }
        ensures { Shows all.now limits (⟦<Romfs<'a> as Viewed>⟧.image result) (report_of result) }
    {
        let depth = greatest_depth(&b, rows);
        Romfs {
            all,
            accessible: b,
            references: rows.len() as u32,
            depth,
        }
    }

    /// Returns its numbers, by which `again` makes an image of the same bytes.
    pub fn parts(&self) -> Parts
        ensures are { AreParts (⟦<Romfs<'a> as Viewed>⟧.image self.now).bytes result }
        ensures tree { (⟦<Romfs<'a> as Viewed>⟧.image self.now).tree
            ≡ tree_of_parts (⟦<Romfs<'a> as Viewed>⟧.image self.now).bytes result }
        ensures references { result.references ≡ (report_of self.now).references }
        ensures depth { result.depth ≡ (report_of self.now).depth }
    {
        let report = self.report();
        Parts {
            accessible: self.accessible.bytes.len() as u32,
            root: self.accessible.root,
            references: report.references,
            depth: report.depth,
        }
    }

    /// Makes the image of these bytes again from numbers that a check found. Reads nothing.
    pub fn again(all: &'a [u8], parts: Parts) -> Romfs<'a>
        requires { AreParts all.now parts }
        ensures bytes { (⟦<Romfs<'a> as Viewed>⟧.image result).bytes ≡ all.now }
        ensures tree { (⟦<Romfs<'a> as Viewed>⟧.image result).tree ≡ tree_of_parts all.now parts }
        ensures cursors { (⟦<Romfs<'a> as Viewed>⟧.image result).cursor_index
            ≡ cursors_of_parts all.now parts }
    {
        let accessible = Accessible {
            bytes: &all[..parts.accessible as usize],
            root: parts.root,
        };
        Romfs {
            all,
            accessible,
            references: parts.references,
            depth: parts.depth,
        }
    }

    /// Returns the number of references of the image, including the superblock's, and the greatest
    /// number of names from the root to a node.
    pub fn report(&self) -> Report
        ensures { result ≡ report_of self.now }
    {
        Report {
            references: self.references,
            depth: self.depth,
        }
    }
}
