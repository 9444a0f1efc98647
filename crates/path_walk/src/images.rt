//! One image or several, by their numbers.
ghost use Rattle.std.specs.Prelude.{◌≡◌, ◌∷◌, [], ◌<◌, ℕ, true, length, map, Some, None};
ghost use Rattle.std.specs.Prelude.{MatchOption};
ghost use Rattle.std.specs.Bool.{OnTrue, OnFalse};
ghost use Rattle.rom_tree.specs.Tree.{Node, ino_of, is_directory, is_link, entries_of};
ghost use Rattle.rom_tree.specs.Image.{find_entry, contents_of};
ghost use Rattle.path_walk.specs.Graft.{MountedNode, tree_in, bytes_in};
ghost use Rattle.path_walk.specs.Trails.{Held, NamesAt, HasNodeAt};
ghost use Rattle.path_walk.specs.Compared.{compared_at, AreTakenFrom, AreTooManyFor};

use crate::budget::{Purse, take_names};
use crate::mount::Location;
use rom_tree::{NodeId, TreeImage, Viewed, is_directory_at, is_link_at, link_text};

/// A value that is viewed as several images.
pub(crate) trait Gathered {
    // Their bytes and trees, and the reference that lends them.
    ghost held: { Self → Held };
}

/// Images that are reached by their numbers.
pub(crate) trait Images<'a>: Gathered {
    /// Returns whether a place is a directory.
    fn is_directory_in(&self, place: Location) -> bool
        requires { HasNodeAt (Self.held self.now).images place (λ x. Unit {0}) }
        ensures { (s : MountedNode) → NamesAt (Self.held self.now).images place s
            → result ≡ is_directory s.node };

    /// Returns whether a place is a symbolic link.
    fn is_link_in(&self, place: Location) -> bool
        requires { HasNodeAt (Self.held self.now).images place (λ x. Unit {0}) }
        ensures { (s : MountedNode) → NamesAt (Self.held self.now).images place s
            → result ≡ is_link s.node };

    /// Returns a link's text.
    fn link_text_in(&self, place: Location) -> &'a [u8]
        requires { HasNodeAt (Self.held self.now).images place (λ x. is_link x ≡ true) }
        ensures { (s : MountedNode) → NamesAt (Self.held self.now).images place s
            → result.now ≡ contents_of (bytes_in (Self.held self.now).images s.image) s.node };

    /// Returns the root of an image.
    fn root_in(&self, image: u32) -> NodeId
        requires { image < length (Self.held self.now).images }
        ensures { result.0 ≡ ino_of (tree_in (Self.held self.now).images image) };

    /// Returns the node of a directory's entry of this name, in the same image, or `None` if there
    /// is no such entry. The images do not change.
    fn find_in(&mut self, place: Location, name: &[u8]) -> Option<NodeId>
        requires { HasNodeAt (Self.held self.old).images place (λ x. is_directory x ≡ true) }
        ensures stays { Self.held self.new ≡ Self.held self.old }
        ensures found { (s : MountedNode) → NamesAt (Self.held self.old).images place s
            → MatchOption result (find_entry (entries_of s.node) name.now ≡ None)
            (λ n. (y : Node) × (find_entry (entries_of s.node) name.now ≡ Some y)
            × (ino_of y ≡ n.0)) };

    /// Takes from a purse the names with which a component is compared at a place, and returns
    /// whether there were as many. If not, nothing is left.
    fn take_names_in(&self, place: Location, component: &[u8], purse: &mut Purse) -> bool
        requires { HasNodeAt (Self.held self.now).images place (λ x. Unit {0}) }
        ensures taken { OnTrue result ((s : MountedNode)
            → NamesAt (Self.held self.now).images place s
            → AreTakenFrom purse.old purse.new (compared_at s.node component.now)) }
        ensures too_many { OnFalse result ((s : MountedNode)
            → NamesAt (Self.held self.now).images place s
            → AreTooManyFor purse.old purse.new (compared_at s.node component.now)) };
}

/// One image, of number 0.
#[derive(Drop)]
pub(crate) struct One<'s, T> {
    pub(crate) image: &'s mut T,
}

impl<'s, T: Viewed> Gathered for One<'s, T> {
    ghost held = { λ s. record { images = T.image s.image.now ∷ []; loan = s.image.ghost_name } };
}

impl<'s, 'a, T: TreeImage<'a>> Images<'a> for One<'s, T> {
    fn is_directory_in(&self, place: Location) -> bool {
        is_directory_at(&*self.image, place.node)
    }

    fn is_link_in(&self, place: Location) -> bool {
        is_link_at(&*self.image, place.node)
    }

    fn link_text_in(&self, place: Location) -> &'a [u8] {
        link_text(&*self.image, place.node)
    }

    fn root_in(&self, _image: u32) -> NodeId {
        self.image.root()
    }

    fn find_in(&mut self, place: Location, name: &[u8]) -> Option<NodeId> {
        self.image.lookup(place.node, name)
    }

    fn take_names_in(&self, place: Location, component: &[u8], purse: &mut Purse) -> bool {
        take_names(&*self.image, place.node, component, purse)
    }
}

/// The images of a slice, by their index.
#[derive(Drop)]
pub(crate) struct Several<'s, T> {
    pub(crate) images: &'s mut [T],
}

impl<'s, T: Viewed> Gathered for Several<'s, T> {
    ghost held = { λ s. record { images = map T.image s.images.now; loan = s.images.ghost_name } };
}

impl<'s, 'a, T: TreeImage<'a>> Images<'a> for Several<'s, T> {
    fn is_directory_in(&self, place: Location) -> bool {
        let images = &*self.images;
        is_directory_at(&images[place.image as usize], place.node)
    }

    fn is_link_in(&self, place: Location) -> bool {
        let images = &*self.images;
        is_link_at(&images[place.image as usize], place.node)
    }

    fn link_text_in(&self, place: Location) -> &'a [u8] {
        let images = &*self.images;
        link_text(&images[place.image as usize], place.node)
    }

    fn root_in(&self, image: u32) -> NodeId {
        let images = &*self.images;
        images[image as usize].root()
    }

    fn find_in(&mut self, place: Location, name: &[u8]) -> Option<NodeId> {
        self.images[place.image as usize].lookup(place.node, name)
    }

    fn take_names_in(&self, place: Location, component: &[u8], purse: &mut Purse) -> bool {
        let images = &*self.images;
        take_names(&images[place.image as usize], place.node, component, purse)
    }
}
