//! The digests of files, each computed once for all files that share their bytes.
ghost use Rattle.std.specs.Prelude.{◌≡◌, Some};
ghost use Rattle.sha2.specs.Sha256.{sha256};
ghost use Rattle.rom_tree.specs.Tree.{Node};
ghost use Rattle.rom_tree.specs.Image.{image_node, HasNode, contents_of};
ghost use Rattle.image_check.specs.Any.{any_view};
ghost use Rattle.image_compare.specs.Known.{AreDigests};

use crate::hashing::file_digest;
use image_check::{AnyImage, Parts};
use image_info::{Data, LEAST_KEPT, data_of};
use rom_tree::NodeId;
use std::alloc::Global;
use std::collections::BTreeMap;

/// What is kept of an image while its files are hashed: its numbers, and the digests so far, by
/// where the bytes are.
#[derive(Drop)]
pub(crate) struct Digests {
    parts: Parts,
    known: BTreeMap<Data, [u8; 32]>,
}

impl Digests {
    /// Returns that nothing was hashed of an image yet.
    pub(crate) fn new(alloc: Global, image: &AnyImage<'_>) -> Digests
        ensures { AreDigests (any_view image.now) result }
    {
        Digests {
            parts: image.parts(),
            known: BTreeMap::new(alloc),
        }
    }

    /// Returns the SHA-256 of the bytes of a regular file, or of a link's text. It is computed
    /// again only if memory was refused to keep it, or if the file is small.
    pub(crate) fn of(&mut self, image: &AnyImage<'_>, n: NodeId) -> [u8; 32]
        requires node { HasNode (any_view image.now) n.0 }
        requires known { AreDigests (any_view image.now) self.old }
        ensures digest { (x : Node) → image_node (any_view image.now) n.0 ≡ Some x
            → result ≡ sha256 (contents_of (any_view image.now).bytes x) }
        ensures known { AreDigests (any_view image.now) self.new }
    {
        let data = data_of(image, self.parts, n);
        if let Some(digest) = self.known.get(&data) {
            return *digest;
        }
        let digest = file_digest(image, n);
        if data.size >= LEAST_KEPT {
            match self.known.insert(data, digest) {
                Ok(_) => {}
                Err(_) => {}
            }
        }
        digest
    }
}
