//! The bytes of a file that follow one another in the image.
ghost use Rattle.std.specs.Prelude.{◌≡◌, Some, min};
ghost use Rattle.rom_tree.specs.Tree.{Node, places_of};
ghost use Rattle.rom_tree.specs.Image.{image_node, HasNode};
ghost use Rattle.rom_tree.specs.Runs.{IsLongest, front_of};

use crate::image::{TreeImage, bytes_from};
use crate::types::NodeId;

/// Returns the offset of byte `at` of a node, and the number of bytes from there that follow one
/// another in the image, at most `most`. Both are 0 if the node has no such byte or `most` is 0.
pub fn longest_run<'a, T: TreeImage<'a>>(image: &T, node: NodeId, at: u64, most: u64) -> (u32, u64)
    requires { HasNode (T.image image.now) node.0 }
    ensures { (x : Node) → image_node (T.image image.now) node.0 ≡ Some x
        → IsLongest (places_of x) at most result.0 result.1 }
{
    if most == 0 {
        return (0, 0);
    }
    let Some(first) = image.run(node, at) else {
        return (0, 0);
    };
    let size = u64::from(image.stat(node).size);
    let place = first.place;
    let mut len = lesser(u64::from(first.len), most);
    while len < most && len < size - at {
        let Some(run) = image.run(node, at + len) else {
            return (place, len);
        };
        if u64::from(run.place) != u64::from(place) + len {
            return (place, len);
        }
        len += lesser(u64::from(run.len), most - len);
    }
    (place, len)
}

/// Returns the bytes at the front of a node that follow one another in the image: all bytes of a
/// file that is in one run.
pub fn front_bytes<'a, T: TreeImage<'a>>(image: &T, node: NodeId) -> &'a [u8]
    requires { HasNode (T.image image.now) node.0 }
    ensures { (x : Node) → image_node (T.image image.now) node.0 ≡ Some x
        → result.now ≡ front_of (T.image image.now).bytes (places_of x) }
{
    let size = image.stat(node).size;
    let (place, len) = longest_run(image, node, 0, u64::from(size));
    bytes_from(image.bytes(), place, len as u32)
}

/// Returns the lesser of two numbers.
pub fn lesser(a: u64, b: u64) -> u64
    ensures { result ≡ min a b }
{
    if a < b { a } else { b }
}
