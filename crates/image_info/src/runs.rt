//! The runs of a file: its bytes in as few pieces as possible.
ghost use Rattle.std.specs.Prelude.{◌≡◌, Some};
ghost use Rattle.rom_tree.specs.Tree.{Node, places_of};
ghost use Rattle.rom_tree.specs.Image.{image_node, HasNode};
ghost use Rattle.image_info.specs.Runs.{GivesWholeRun};

use rom_tree::{NodeId, Run, TreeImage, longest_run};

/// The offset of byte `at` of a file, and the number of bytes from there that follow one another.
pub(crate) fn whole_run<'a, T: TreeImage<'a>>(image: &T, node: NodeId, at: u32) -> Option<Run>
    requires { HasNode (T.image image.now) node.0 }
    ensures { (x : Node) → image_node (T.image image.now) node.0 ≡ Some x
        → GivesWholeRun (places_of x) at result }
{
    let size = image.stat(node).size;
    let (place, len) = longest_run(image, node, u64::from(at), u64::from(size));
    if len == 0 {
        return None;
    }
    Some(Run {
        place,
        len: len as u32,
    })
}
