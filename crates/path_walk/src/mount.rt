//! Mounts of images in one another.
use rom_tree::NodeId;

/// A mounted image: the root of image number `image` covers the directory `dir` of image number
/// `on`.
#[derive(Clone, Copy, Default, PartialEq, Eq)]
pub struct Mount {
    pub image: u32,
    pub on: u32,
    pub dir: NodeId,
}

/// A node of one of several images, and the number of that image.
#[derive(Clone, Copy, Default, PartialEq, Eq)]
pub(crate) struct Location {
    pub(crate) image: u32,
    pub(crate) node: NodeId,
}
