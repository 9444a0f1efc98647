//! What decides how Linux reads a file, whether it is in an image or only in a plan.
ghost use Rattle.std.specs.Prelude.{◌≡◌, Some};
ghost use Rattle.rom_tree.specs.Tree.{Node};
ghost use Rattle.rom_tree.specs.Image.{image_node, HasNode};
ghost use Rattle.linux_misreads.specs.Seen.{known_by, seen_of, text_in};

use rom_tree::{Kind, NodeId, TreeImage, is_link_at, link_text};

/// A file: its attributes, and what Linux takes it for if it is a device.
#[derive(Clone, Copy)]
pub struct Seen {
    pub kind: Kind,
    pub mode: u32,
    pub uid: u32,
    pub gid: u32,
    /// The number of its bytes, or of those of a link's text.
    pub size: u64,
    pub major: u32,
    pub minor: u32,
    /// The number of the device in Linux; it does not count for other files.
    pub device: u64,
}

/// Where the bytes of a file of romfs begin.
#[derive(Clone, Copy)]
pub struct Place {
    /// The offset of the first byte.
    pub start: u64,
    /// The offset from which Linux reads.
    pub read: u64,
}

/// The facts that Linux's cramfs keeps of a regular file or of a link, and reports for each name
/// with the same number.
#[derive(Clone, Copy)]
pub struct Known {
    pub link: bool,
    pub mode: u32,
    pub uid: u32,
    pub gid: u32,
    pub size: u64,
}

/// Returns the facts that are kept of a file.
pub fn known_of(seen: Seen) -> Known
    ensures { result ≡ known_by seen }
{
    Known {
        link: matches!(seen.kind, Kind::Symlink),
        mode: seen.mode,
        uid: seen.uid,
        gid: seen.gid,
        size: seen.size,
    }
}

/// The file of a node, of which Linux makes a device of this number.
pub(crate) fn seen_at<'a, T: TreeImage<'a>>(image: &T, n: NodeId, device: u64) -> Seen
    requires { HasNode (T.image image.now) n.0 }
    ensures { (x : Node) → image_node (T.image image.now) n.0 ≡ Some x
        → result ≡ seen_of device x }
{
    let stat = image.stat(n);
    Seen {
        kind: stat.kind,
        mode: stat.mode,
        uid: stat.uid,
        gid: stat.gid,
        size: u64::from(stat.size),
        major: stat.major,
        minor: stat.minor,
        device,
    }
}

/// The text of a link, and nothing for other nodes.
pub(crate) fn text_at<'a, T: TreeImage<'a>>(image: &T, n: NodeId) -> &'a [u8]
    requires { HasNode (T.image image.now) n.0 }
    ensures { (x : Node) → image_node (T.image image.now) n.0 ≡ Some x
        → result.now ≡ text_in (T.image image.now).bytes x }
{
    if is_link_at(image, n) {
        return link_text(image, n);
    }
    &[]
}
