//! Compares the contents of two files.
ghost use Rattle.std.specs.Prelude.{◌≡◌, ◌+◌, ◌≤◌, Some, length, take, drop};
ghost use Rattle.std.specs.Str.{bytes_eq};
ghost use Rattle.rom_tree.specs.Tree.{Node};
ghost use Rattle.rom_tree.specs.Image.{image_node, HasNode, contents_of};

use rom_tree::{NodeId, Run, TreeImage, bytes_from};

/// Whether two slices are the same.
pub(crate) fn is_same(one: &[u8], other: &[u8]) -> bool
    ensures { result ≡ bytes_eq one.now other.now }
{
    one == other
}

/// Whether `len` bytes of one image from a run's offset on are those of the other.
fn is_same_part(one: &[u8], other: &[u8], r: Run, s: Run, len: u32) -> bool
    requires one { r.place + len ≤ length one.now }
    requires other { s.place + len ≤ length other.now }
    ensures { result ≡ bytes_eq (take len (drop r.place one.now))
        (take len (drop s.place other.now)) }
{
    is_same(
        bytes_from(one, r.place, len),
        bytes_from(other, s.place, len),
    )
}

/// Whether the files or links of two images have the same bytes. They are compared in the images,
/// without a copy.
pub(crate) fn have_same_bytes<'a, T: TreeImage<'a>>(old: &T, new: &T, x: NodeId, y: NodeId) -> bool
    requires old { HasNode (T.image old.now) x.0 }
    requires new { HasNode (T.image new.now) y.0 }
    ensures { (p q : Node) → image_node (T.image old.now) x.0 ≡ Some p
        → image_node (T.image new.now) y.0 ≡ Some q
        → result ≡ bytes_eq (contents_of (T.image old.now).bytes p)
        (contents_of (T.image new.now).bytes q) }
{
    let size = old.stat(x).size;
    if new.stat(y).size != size {
        return false;
    }
    let (old_bytes, new_bytes) = (old.bytes(), new.bytes());
    let mut at = 0;
    while at < size {
        let Some(r) = old.run(x, u64::from(at)) else {
            return true;
        };
        let Some(s) = new.run(y, u64::from(at)) else {
            return true;
        };
        let len = r.len.min(s.len);
        if !is_same_part(old_bytes, new_bytes, r, s, len) {
            return false;
        }
        at += len;
    }
    true
}
