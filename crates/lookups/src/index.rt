//! An image with indices of its directories' lists.
ghost use Rattle.std.specs.Prelude.{◌≡◌, ℕ, IsTrue, None, MatchOption};
ghost use Rattle.rom_tree.specs.Tree.{Node, ino_of, entries_of};
ghost use Rattle.rom_tree.specs.Image.{image_node, HasDirectory, find_entry};
ghost use Rattle.lookups.specs.Indices.{AreIndices, entries_in};

use crate::front::{Front, front_of};
use crate::rows::{NamedNode, rows_of};
use crate::search::find;
use rom_tree::{Cursor, Entry, NodeId, Run, Stat, TreeImage, Viewed};
use std::alloc::Global;
use std::collections::BTreeMap;

/// An image that sorts the names of a directory when one of them is first looked up. Each of its
/// calls answers as the image in it does.
///
/// A look-up goes over at most 17 entries. If they do not have the name, and the list has more than
/// 16 entries, its index answers. The index takes 24 bytes for each entry. Once memory was refused
/// for an index, no further index is made, and lists without an index are looked up in the image.
#[derive(Drop)]
pub struct Indexed<'a, T: Viewed> {
    image: T,
    alloc: Global,
    indices: BTreeMap<u32, Vec<NamedNode<'a>>>,
    full: bool,
    ghost right: { AreIndices (entries_in (T.image image)) indices },
}

impl<'a, T: TreeImage<'a>> Indexed<'a, T> {
    ghost use Rattle.lookups.specs.Inner.{inner};

    /// Makes an image without an index. Allocates no memory.
    pub fn new(alloc: Global, image: T) -> Indexed<'a, T>
        ensures { inner result ≡ image }
    {
        Indexed {
            image,
            alloc,
            indices: BTreeMap::new(alloc),
            full: false,
        }
    }
}

// The image has only the bound that the members above need: with `TreeImage<'a>` here, an `Indexed`
// in a `Cached` is not known to be a `TreeImage`.
impl<T: Viewed> Viewed for Indexed<'_, T> {
    ghost use Rattle.lookups.specs.Inner.{inner};

    ghost image = { λ s. T.image (inner s) };
}

impl<'a, T: TreeImage<'a>> TreeImage<'a> for Indexed<'a, T> {
    fn bytes(&self) -> &'a [u8] {
        self.image.bytes()
    }

    fn root(&self) -> NodeId {
        self.image.root()
    }

    fn is_node(&self, n: NodeId) -> bool {
        self.image.is_node(n)
    }

    fn stat(&self, n: NodeId) -> Stat {
        self.image.stat(n)
    }

    fn entry(&self, d: NodeId, c: Cursor) -> Option<Entry<'a>> {
        self.image.entry(d, c)
    }

    fn lookup(&mut self, d: NodeId, name: &[u8]) -> Option<NodeId> {
        if let Some(rows) = self.indices.get(&d.0) {
            return find(rows, name);
        }
        match front_of(&self.image, d, name) {
            Front::Leads(node) => return Some(node),
            Front::Absent => return None,
            Front::Longer => {}
        }
        if self.full {
            return self.image.lookup(d, name);
        }
        let Ok(rows) = rows_of(self.alloc, &self.image, d) else {
            self.full = true;
            return self.image.lookup(d, name);
        };
        let found = find(&rows, name);
        if self.indices.insert(d.0, rows).is_err() {
            self.full = true;
        }
        found
    }

    fn run(&self, n: NodeId, off: u64) -> Option<Run> {
        self.image.run(n, off)
    }
}
