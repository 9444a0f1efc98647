//! The opening of files.
ghost use Rattle.std.specs.Prelude.{◌≡◌, true, IsSome, IfSome, ◌||◌};
ghost use Rattle.rom_tree.specs.Tree.{Node, node_at, is_directory, is_regular};
ghost use Rattle.path_walk.specs.Resolution.{resolution, tree_namespace};
ghost use Rattle.image_check.specs.Checked.{HasTree};
ghost use Rattle.rom_c.specs.Held.{usual};
ghost use Rattle.rom_c.specs.Files.{IsOpenAt, IsOpenedBy};

use crate::file::{RomtoolFile, no_file, opened_at};
use crate::image::{RomtoolImage, image_of};
use crate::lending::can_open;
use image_check::laws::one_tree;
use path_walk::walk;
use rom_tree::NodeId;

/// The error: the path leads neither to a directory nor to a regular file.
const NO_FILE: u32 = 8;

/// Opens the file or directory to which a path leads, in an image that is open.
pub(crate) fn open_in<'a>(image: &RomtoolImage<'a>, path: &[u8]) -> RomtoolFile<'a>
    requires { image.now.status ≡ 1 }
    ensures image { result.image ≡ image.now }
    ensures opened { (t : Node) → HasTree image.now.bytes.now usual t
        → IsOpenedBy t (resolution (tree_namespace image.now.bytes.now t) path.now true) result }
{
    one_tree();
    let mut held = image_of(image);
    match walk(&mut held, path, true) {
        Ok(node) => {
            if can_open(&held, node) {
                opened_at(image, node, 0)
            } else {
                no_file(image, NO_FILE)
            }
        }
        Err(error) => no_file(image, error.number()),
    }
}

/// Opens the node of this number, in an image that is open.
pub(crate) fn open_at<'a>(image: &RomtoolImage<'a>, node: NodeId) -> RomtoolFile<'a>
    requires open { image.now.status ≡ 1 }
    requires node { (t : Node) → HasTree image.now.bytes.now usual t
        → IsSome (node_at t node.0) }
    ensures image { result.image ≡ image.now }
    ensures opened { (t : Node) → HasTree image.now.bytes.now usual t
        → IfSome (node_at t node.0)
        (λ x. IsOpenAt t x result (is_directory x || is_regular x)) }
{
    one_tree();
    if can_open(&image_of(image), node) {
        opened_at(image, node, 0)
    } else {
        no_file(image, NO_FILE)
    }
}
