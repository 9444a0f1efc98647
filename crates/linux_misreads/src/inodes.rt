//! The fields of the inode of a node of cramfs.
ghost use Rattle.std.specs.Prelude.{◌≡◌};
ghost use Rattle.rom_tree.specs.Image.{HasNode};
ghost use Rattle.cramfs_format.specs.Inode.{name_room, offset_of, size_of, type_of};
ghost use Rattle.cramfs_image.specs.Reported.{order_in};
ghost use Rattle.linux_misreads.specs.Tables.{view};

use cramfs_format::inode;
use cramfs_image::Cramfs;
use rom_tree::{NodeId, TreeImage};

/// The type: the upper four of the sixteen bits of the mode.
pub(crate) fn type_field(image: &Cramfs<'_>, n: NodeId) -> u32
    requires { HasNode (view image.now) n.0 }
    ensures { result ≡ type_of (order_in image.now) (view image.now).bytes n.0 }
{
    let order = image.parts().order;
    inode::type_at(order, image.bytes(), n.0 as usize)
}

/// The size, or the numbers of a device.
pub(crate) fn size_field(image: &Cramfs<'_>, n: NodeId) -> u32
    requires { HasNode (view image.now) n.0 }
    ensures { result ≡ size_of (order_in image.now) (view image.now).bytes n.0 }
{
    let order = image.parts().order;
    inode::size_at(order, image.bytes(), n.0 as usize)
}

/// The length of the name with its padding, in bytes.
pub(crate) fn name_room_at(image: &Cramfs<'_>, n: NodeId) -> u32
    requires { HasNode (view image.now) n.0 }
    ensures { result ≡ name_room (order_in image.now) (view image.now).bytes n.0 }
{
    let order = image.parts().order;
    inode::room_at(order, image.bytes(), n.0 as usize)
}

/// The offset of its list or its block pointers.
pub(crate) fn offset_field(image: &Cramfs<'_>, n: NodeId) -> u32
    requires { HasNode (view image.now) n.0 }
    ensures { result ≡ offset_of (order_in image.now) (view image.now).bytes n.0 }
{
    let order = image.parts().order;
    inode::offset_at(order, image.bytes(), n.0 as usize)
}
