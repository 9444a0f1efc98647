//! A borrowed image as one that looks names up.
ghost use Rattle.image_check.specs.Any.{any_view};

use image_check::AnyImage;
use rom_tree::{Cursor, Entry, NodeId, Run, Stat, TreeImage, Viewed};

/// An image that was borrowed.
#[derive(Drop)]
pub(crate) struct Lent<'i, 'a> {
    pub(crate) image: &'i AnyImage<'a>,
}

impl Viewed for Lent<'_, '_> {
    ghost image = { λ s. any_view s.image.now };
}

impl<'a> TreeImage<'a> for Lent<'_, 'a> {
    fn bytes(&self) -> &'a [u8] {
        self.image.bytes()
    }

    fn root(&self) -> NodeId {
        self.image.root()
    }

    fn is_node(&self, n: NodeId) -> bool {
        self.image.is_node(n)
    }

    fn stat(&self, n: NodeId) -> Stat {
        self.image.stat(n)
    }

    fn entry(&self, d: NodeId, c: Cursor) -> Option<Entry<'a>> {
        self.image.entry(d, c)
    }

    // A look-up remembers nothing in an image of its own.
    fn lookup(&mut self, d: NodeId, name: &[u8]) -> Option<NodeId> {
        AnyImage::again(self.image.bytes(), self.image.parts()).lookup(d, name)
    }

    fn run(&self, n: NodeId, off: u64) -> Option<Run> {
        self.image.run(n, off)
    }
}
