//! The bytes of a file that are lent.
ghost use Rattle.std.specs.Prelude.{◌≡◌, ◌+◌, ◌≤◌, Some, length, true, take, drop, ◌||◌};
ghost use Rattle.rom_tree.specs.Tree.{Node, places_of, is_directory, is_regular};
ghost use Rattle.rom_tree.specs.Image.{image_node, HasNode, HasLink};
ghost use Rattle.open_files.specs.Lending.{lent};
ghost use Rattle.open_files.specs.Slots.{lent_by};

use rom_tree::{NodeId, Piece, TreeImage, is_directory_at, is_regular_at, link_text};

/// Whether a node can be opened.
pub(crate) fn is_openable<'a, T: TreeImage<'a>>(image: &T, node: NodeId) -> bool
    requires { HasNode (T.image image.now) node.0 }
    ensures { (x : Node) → image_node (T.image image.now) node.0 ≡ Some x
        → result ≡ is_directory x || is_regular x }
{
    is_directory_at(image, node) || is_regular_at(image, node)
}

/// The `len` bytes from offset `place` on.
pub(crate) fn bytes_at<'a>(bytes: &'a [u8], place: u32, len: u64) -> &'a [u8]
    requires { place + len ≤ length bytes.now }
    ensures { result.now ≡ take len (drop place bytes.now) }
{
    &bytes[place as usize..place as usize + len as usize]
}

/// A link's text, and its offset in the image.
pub(crate) fn link_piece<'a, T: TreeImage<'a>>(image: &T, node: NodeId) -> Piece<'a>
    requires { HasLink (T.image image.now) node.0 }
    ensures { (x : Node) → image_node (T.image image.now) node.0 ≡ Some x
        → lent (T.image image.now).bytes (places_of x) ≡ lent_by result }
{
    let bytes = link_text(image, node);
    match image.run(node, 0) {
        Some(run) => Piece {
            place: run.place,
            bytes,
        },
        None => Piece { place: 0, bytes },
    }
}
