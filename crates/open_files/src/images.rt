//! One image or several, by their numbers.
ghost use Rattle.std.specs.Prelude.{◌≡◌, ◌<◌, length, map, slice_index_or};
ghost use Rattle.rom_tree.specs.Tree.{Node};
ghost use Rattle.path_walk.specs.Graft.{MountedNode};
ghost use Rattle.open_files.specs.Slots.{View, IsImage, HasPlace, image_view, graft_view};

use arrayvec::ArrayVec;
use path_walk::Mount;
use rom_tree::{TreeImage, Viewed};

/// A value that is served as images.
pub(crate) trait Served {
    // The places to which names lead.
    ghost Place: { Type 0 };
    // The places to which names lead, and the meaning of the code's numbers.
    ghost view: { Self → View Self.Place };
}

/// Images that are reached by their numbers.
pub(crate) trait Images<'a, T: TreeImage<'a>>: Served {
    /// Returns the image of a number.
    fn image(&self, image: u32) -> &T
        requires { HasPlace (Self.view self.now) image }
        ensures { IsImage (Self.view self.now) image (T.image result.now) };
}

/// One image, for any number.
#[derive(Drop)]
pub(crate) struct One<'s, T> {
    pub(crate) image: &'s T,
}

impl<'s, T: Viewed> Served for One<'s, T> {
    ghost Place = { Node };

    ghost view = { λ s. image_view (T.image s.image.now) };
}

impl<'s, 'a, T: TreeImage<'a>> Images<'a, T> for One<'s, T> {
    fn image(&self, _image: u32) -> &T {
        self.image
    }
}

/// The image of a number.
pub(crate) fn image_of<'s, T>(images: &'s [T], image: u32) -> &'s T
    requires { image < length images.now }
    ensures { result.now ≡ slice_index_or images.now image result.now }
{
    &images[image as usize]
}

/// Several images by their index, with their mounts.
#[derive(Drop)]
pub(crate) struct Several<'s, T> {
    pub(crate) images: &'s Vec<T>,
    pub(crate) mounts: &'s ArrayVec<Mount, 7>,
}

impl<'s, T> Several<'s, T> {
    /// The images and mounts that are lent.
    pub(crate) fn new(images: &'s Vec<T>, mounts: &'s ArrayVec<Mount, 7>) -> Self
        ensures images { result.images.now ≡ images.now }
        ensures mounts { result.mounts.now ≡ mounts.now }
    {
        Several { images, mounts }
    }
}

impl<'s, T: Viewed> Served for Several<'s, T> {
    ghost Place = { MountedNode };

    ghost view = { λ s. graft_view (map T.image s.images.now.items) s.mounts.now.items };
}

impl<'s, 'a, T: TreeImage<'a>> Images<'a, T> for Several<'s, T> {
    fn image(&self, image: u32) -> &T {
        image_of(self.images.as_slice(), image)
    }
}
