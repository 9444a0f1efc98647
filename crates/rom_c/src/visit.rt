//! A walk through the nodes of a tree that keeps no names: a `rom_tree::Walk` has 2.6 KiB.
ghost use Rattle.std.specs.Prelude.{◌≡◌, ◌<◌, false, [], MatchOption};
ghost use Rattle.arrayvec.specs.ArrayVec.{array_vec_len};
ghost use Rattle.rom_tree.specs.Tree.{IsShallow, nodes};
ghost use Rattle.rom_tree.specs.Image.{Image};
ghost use Rattle.image_check.specs.Any.{any_view};
ghost use Rattle.rom_c.specs.Visits.{ArePlaces, IsVisit, Passes, Yields, Visits, to_visit};

use arrayvec::ArrayVec;
use image_check::AnyImage;
use rom_tree::{Cursor, NodeId, TreeImage, is_directory_at};

/// A directory that a walk has entered, and the cursor of its next entry.
#[derive(Clone, Copy, Default)]
pub struct Place {
    pub directory: NodeId,
    pub cursor: Cursor,
}

/// A walk through the nodes of all names of a tree, in preorder from the root on. A directory's
/// names come in the order of its list. It needs an image with directories at most 64 deep, and
/// allocates no memory.
#[derive(Drop)]
pub struct Visit {
    /// The directories on the way, the deepest last.
    pub(crate) stack: ArrayVec<Place, 65>,
    /// Whether the root was returned.
    pub(crate) begun: bool,
}

/// Returns the node of the last directory's next entry, and enters it if it is a directory; or
/// leaves the last directory at its end.
fn step(image: &AnyImage<'_>, stack: &mut ArrayVec<Place, 65>) -> Option<NodeId>
    requires places { ArePlaces (any_view image.now) stack.old.items }
    requires some { 0 < array_vec_len stack.old }
    ensures { MatchOption result
        (Passes (any_view image.now) stack.old.items stack.new.items [])
        (λ n. Yields (any_view image.now) stack.old.items stack.new.items n.0) }
{
    let Some(place) = stack.pop() else {
        return None;
    };
    let Some(entry) = image.entry(place.directory, place.cursor) else {
        return None;
    };
    stack.push(Place {
        directory: place.directory,
        cursor: entry.cursor,
    });
    if is_directory_at(image, entry.node) {
        stack.push(Place {
            directory: entry.node,
            cursor: Cursor::START,
        });
    }
    Some(entry.node)
}

impl Visit {
    /// Makes a walk that has returned no node yet.
    pub(crate) fn new() -> Visit
        ensures visit { (m : Image) → IsShallow m.tree → IsVisit m result }
        ensures all { (m : Image) → to_visit m result ≡ nodes m.tree }
    {
        Visit {
            stack: ArrayVec::new(),
            begun: false,
        }
    }

    /// Returns the root.
    fn begin(&mut self, image: &AnyImage<'_>) -> NodeId
        requires visit { IsVisit (any_view image.now) self.old }
        requires fresh { self.old.begun ≡ false }
        ensures visit { IsVisit (any_view image.now) self.new }
        ensures given { Visits (any_view image.now) self.old self.new result.0 }
    {
        let root = image.root();
        self.begun = true;
        if is_directory_at(image, root) {
            self.stack.push(Place {
                directory: root,
                cursor: Cursor::START,
            });
        }
        root
    }

    /// Returns the next name's node, or `None` after the last name.
    pub(crate) fn next(&mut self, image: &AnyImage<'_>) -> Option<NodeId>
        requires { IsVisit (any_view image.now) self.old }
        ensures visit { IsVisit (any_view image.now) self.new }
        ensures given { MatchOption result (to_visit (any_view image.now) self.old ≡ [])
            (λ n. Visits (any_view image.now) self.old self.new n.0) }
    {
        if !self.begun {
            return Some(self.begin(image));
        }
        while !self.stack.is_empty() {
            if let Some(found) = step(image, &mut self.stack) {
                return Some(found);
            }
        }
        None
    }
}
