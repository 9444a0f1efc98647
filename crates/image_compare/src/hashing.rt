//! The digest of one file.
ghost use Rattle.std.specs.Prelude.{◌≡◌, Some};
ghost use Rattle.sha2.specs.Sha256.{sha256};
ghost use Rattle.rom_tree.specs.Tree.{Node};
ghost use Rattle.rom_tree.specs.Image.{image_node, HasNode, contents_of};

use rom_tree::{NodeId, TreeImage, bytes_from};
use sha2::{Digest, Sha256};

/// Computes the SHA-256 of the bytes of a regular file, or of a link's text. It hashes each run
/// where it is in the image. Other nodes have no bytes.
pub(crate) fn file_digest<'a, T: TreeImage<'a>>(image: &T, node: NodeId) -> [u8; 32]
    requires { HasNode (T.image image.now) node.0 }
    ensures { (x : Node) → image_node (T.image image.now) node.0 ≡ Some x
        → result ≡ sha256 (contents_of (T.image image.now).bytes x) }
{
    let bytes = image.bytes();
    let size = image.stat(node).size;
    let mut hasher = Sha256::new();
    let mut at = 0;
    while at < size {
        let Some(run) = image.run(node, u64::from(at)) else {
            return hasher.finalize();
        };
        hasher.update(bytes_from(bytes, run.place, run.len));
        at += run.len;
    }
    hasher.finalize()
}
