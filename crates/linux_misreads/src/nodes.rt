//! The nodes of an image, as files that Linux reads.
ghost use Rattle.std.specs.Prelude.{◌≡◌, Some};
ghost use Rattle.rom_tree.specs.Tree.{Node, ino_of};
ghost use Rattle.rom_tree.specs.Image.{image_node, HasNode};
ghost use Rattle.cramfs_image.specs.Reported.{order_in};
ghost use Rattle.linux_misreads.specs.Tables.{romfs_view, view};
ghost use Rattle.linux_misreads.specs.Readers.{romfs_device, cramfs_device};
ghost use Rattle.linux_misreads.specs.Seen.{romfs_place, seen_of};

use crate::inodes::size_field;
use crate::readers::{device_number, old_device, romfs_data};
use crate::seen::{Place, Seen, seen_at};
use cramfs_image::Cramfs;
use rom_tree::{NodeId, TreeImage};
use romfs_format::header;
use romfs_image::Romfs;

/// The file of a node of romfs.
pub(crate) fn seen_in_romfs(image: &Romfs<'_>, n: NodeId) -> Seen
    requires { HasNode (romfs_view image.now) n.0 }
    ensures { (x : Node) → image_node (romfs_view image.now) n.0 ≡ Some x
        → result ≡ seen_of (romfs_device (romfs_view image.now).bytes (ino_of x)) x }
{
    let spec = header::word(image.bytes(), n.0 as usize + 4);
    seen_at(image, n, device_number(spec / (1 << 16), spec % (1 << 16)))
}

/// The file of a node of cramfs.
pub(crate) fn seen_in_cramfs(image: &Cramfs<'_>, n: NodeId) -> Seen
    requires { HasNode (view image.now) n.0 }
    ensures { (x : Node) → image_node (view image.now) n.0 ≡ Some x
        → result ≡ seen_of (cramfs_device (order_in image.now) (view image.now).bytes
        (ino_of x)) x }
{
    seen_at(image, n, old_device(size_field(image, n)))
}

/// Where the bytes of a node of romfs begin, if it has any.
pub(crate) fn place_at(image: &Romfs<'_>, n: NodeId) -> Option<Place>
    requires { HasNode (romfs_view image.now) n.0 }
    ensures { (x : Node) → image_node (romfs_view image.now) n.0 ≡ Some x
        → result ≡ romfs_place (romfs_view image.now).bytes x }
{
    match image.run(n, 0) {
        Some(run) => Some(Place {
            start: u64::from(run.place),
            read: romfs_data(image.bytes(), n.0),
        }),
        None => None,
    }
}
