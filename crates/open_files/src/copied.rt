//! Bytes that are copied out of a file.
ghost use Rattle.std.specs.Prelude.{◌≡◌, ◌++◌, ◌+◌, ◌<◌, ◌≤◌, ◌^◌, ℕ, Some, length, take, drop};
ghost use Rattle.rom_tree.specs.Tree.{Node, places_of};
ghost use Rattle.rom_tree.specs.Image.{image_node, HasNode};
ghost use Rattle.open_files.specs.Lending.{bytes_of};

use crate::lent::bytes_at;
use rom_tree::{NodeId, TreeImage, lesser};

/// Writes a text over the bytes of a buffer from offset `at` on.
fn copy_at(buf: &mut [u8], at: usize, text: &[u8])
    requires { at + length text.now ≤ length buf.old }
    ensures { buf.new ≡ take at buf.old ++ (text.now ++ drop (at + length text.now) buf.old) }
{
    let end = at + text.len();
    buf[at..end].copy_from_slice(text);
}

/// Copies the bytes of a file from byte `at` on to the front of a buffer, as many as fit, and
/// returns their number. Each run is copied once, straight from the image.
pub(crate) fn copy_bytes<'a, T: TreeImage<'a>>(
    image: &T,
    node: NodeId,
    at: u64,
    buf: &mut [u8],
) -> usize
    requires { HasNode (T.image image.now) node.0 }
    ensures count { (x : Node) → image_node (T.image image.now) node.0 ≡ Some x
        → result ≡ length (take (length buf.old) (drop at (places_of x))) }
    ensures bytes { (x : Node) → image_node (T.image image.now) node.0 ≡ Some x
        → buf.new
        ≡ bytes_of (T.image image.now).bytes (take (length buf.old) (drop at (places_of x)))
        ++ drop result buf.old }
    ensures within { result ≤ length buf.new }
    ensures fits { at + result < 2 ^ 64 }
{
    let bytes = image.bytes();
    let size = u64::from(image.stat(node).size);
    let mut done = 0;
    if at >= size {
        return 0;
    }
    while done < buf.len() && (done as u64) < size - at {
        let Some(run) = image.run(node, at + done as u64) else {
            return done;
        };
        let count = lesser(u64::from(run.len), (buf.len() - done) as u64);
        copy_at(buf, done, bytes_at(bytes, run.place, count));
        done += count as usize;
    }
    done
}
