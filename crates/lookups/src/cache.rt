//! An image with a cache of look-ups.
ghost use Rattle.std.specs.Prelude.{◌≡◌, ◌≤◌, ℕ, [], length, IfOk, IfErr, None, MatchOption};
ghost use Rattle.rom_tree.specs.Tree.{Node, ino_of, entries_of};
ghost use Rattle.rom_tree.specs.Image.{image_node, HasDirectory, find_entry};
ghost use Rattle.lookups.specs.Remembers.{Remembers, found_in};

use crate::short::{Key, short_name};
use lru::LruCache;
use rom_tree::{Cursor, Entry, NodeId, Run, Stat, TreeImage, Viewed};
use std::alloc::Global;
use std::marker::PhantomData;
use std::num::NonZeroUsize;

/// An image that remembers the nodes to which names led, and the names that were absent. Each of
/// its calls answers as the image in it does.
///
/// The most recent answers are kept, each for a name in a directory. A name of more than 255 bytes
/// is looked up in the image each time, and so is a name for which memory was refused.
#[derive(Drop)]
pub struct Cached<'a, T: Viewed> {
    image: T,
    kept: LruCache<Key, Option<NodeId>>,
    borrows: PhantomData<&'a [u8]>,
    ghost right: { Remembers (found_in (T.image image)) kept.entries },
    ghost room: { kept.cap ≤ 65536 },
}

/// The error of a cache for which memory was refused. It has the image.
#[derive(Drop)]
pub struct NoCache<T> {
    pub image: T,
}

impl<'a, T: TreeImage<'a>> Cached<'a, T> {
    ghost use Rattle.lookups.specs.Cache.{inner, entries, room};

    /// Makes an image with room for the answers about `names` names, of which none is kept yet. All
    /// of the room is allocated at once.
    ///
    /// # Errors
    ///
    /// `NoCache`, with the image, if memory is refused.
    pub fn new(alloc: Global, image: T, names: usize) -> Result<Cached<'a, T>, NoCache<T>>
        requires some { 1 ≤ names }
        requires few { names ≤ 65536 }
        ensures image { IfOk result (λ c. inner c ≡ image) }
        ensures empty { IfOk result (λ c. entries c ≡ []) }
        ensures room { IfOk result (λ c. room c ≡ names) }
        ensures back { IfErr result (λ e. e.image ≡ image) }
    {
        match LruCache::new(alloc, NonZeroUsize::new(names).unwrap()) {
            Ok(kept) => Ok(Cached {
                image,
                kept,
                borrows: PhantomData,
            }),
            Err(_) => Err(NoCache { image }),
        }
    }

    /// Returns the number of names that are kept: at most the number that `new` was asked for.
    pub fn held(&self) -> usize
        ensures kept { result ≡ length (entries self.now) }
        ensures most { result ≤ room self.now }
        ensures few { result ≤ 65536 }
    {
        self.kept.len()
    }
}

impl<'a, T: TreeImage<'a>> Viewed for Cached<'a, T> {
    ghost use Rattle.lookups.specs.Cache.{inner};

    ghost image = { λ s. T.image (inner s) };
}

impl<'a, T: TreeImage<'a>> TreeImage<'a> for Cached<'a, T> {
    ghost use Rattle.lookups.specs.Cache.{inner, room};

    fn bytes(&self) -> &'a [u8] {
        self.image.bytes()
    }

    fn root(&self) -> NodeId {
        self.image.root()
    }

    fn is_node(&self, n: NodeId) -> bool {
        self.image.is_node(n)
    }

    fn stat(&self, n: NodeId) -> Stat {
        self.image.stat(n)
    }

    fn entry(&self, d: NodeId, c: Cursor) -> Option<Entry<'a>> {
        self.image.entry(d, c)
    }

    fn lookup(&mut self, d: NodeId, name: &[u8]) -> Option<NodeId>
        requires { HasDirectory (T.image (inner self.old)) d.0 }
        ensures stays { T.image (inner self.new) ≡ T.image (inner self.old) }
        ensures found { (x : Node) → image_node (T.image (inner self.old)) d.0 ≡ Some x
            → MatchOption result (find_entry (entries_of x) name.now ≡ None)
            (λ n. (y : Node) × (find_entry (entries_of x) name.now ≡ Some y) × (ino_of y ≡ n.0)) }
        ensures room { room self.new ≡ room self.old }
    {
        let Some(key) = short_name(d.0, name) else {
            return self.image.lookup(d, name);
        };
        if let Some(found) = self.kept.get(&key) {
            return *found;
        }
        let found = self.image.lookup(d, name);
        let _ = self.kept.put(key, found);
        found
    }

    fn run(&self, n: NodeId, off: u64) -> Option<Run> {
        self.image.run(n, off)
    }
}
