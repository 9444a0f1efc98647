//! Where the bytes of a node are, as two numbers.
ghost use Rattle.std.specs.Prelude.{◌≡◌, Some};
ghost use Rattle.rom_tree.specs.Tree.{Node, places_of};
ghost use Rattle.rom_tree.specs.Image.{image_node, HasNode};
ghost use Rattle.image_check.specs.Any.{any_view};
ghost use Rattle.image_check.specs.Parts.{AreParts, tree_of_parts};
ghost use Rattle.image_info.specs.Data.{data_places};

use cramfs_format::inode::offset_at;
use image_check::{AnyImage, Parts};
use rom_tree::{NodeId, TreeImage};
use romfs_format::header::end_at;

/// What says where the bytes of a node are. Nodes with equal values have the same bytes.
#[derive(Clone, Copy, Debug, PartialEq, Eq, PartialOrd, Ord)]
pub struct Data {
    /// The offset where its bytes begin (romfs), or its block pointers (cramfs).
    pub start: u32,
    /// How many bytes it has.
    pub size: u32,
}

/// What is found of a file with fewer bytes is not kept for other files that share them, so that
/// the memory grows with the image's bytes, and not with the number of its files.
pub const LEAST_KEPT: u32 = 4_096;

/// Returns what says where the bytes of a node of an image are. `parts` are the numbers of the
/// image.
pub fn data_of(image: &AnyImage<'_>, parts: Parts, n: NodeId) -> Data
    requires parts { AreParts (any_view image.now).bytes parts }
    requires tree { (any_view image.now).tree ≡ tree_of_parts (any_view image.now).bytes parts }
    requires node { HasNode (any_view image.now) n.0 }
    ensures { (x : Node) → image_node (any_view image.now) n.0 ≡ Some x
        → places_of x ≡ data_places (any_view image.now).bytes parts result }
{
    let all = image.bytes();
    let size = image.stat(n).size;
    let start = match parts {
        Parts::Romfs(parts) => end_at(&all[..parts.accessible as usize], n.0),
        Parts::Cramfs(parts) => {
            let accessible = &all[..parts.accessible as usize];
            offset_at(parts.order, accessible, n.0 as usize)
        }
    };
    Data { start, size }
}
