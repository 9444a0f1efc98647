//! A walk through the names of a tree, and the frames of its stack.
use crate::types::{Cursor, NodeId};
use arrayvec::ArrayVec;

/// A directory that a walk has entered: the cursor of its next entry, and its name, which the root
/// does not have.
#[derive(Clone, Copy, Default)]
pub struct Frame<'a> {
    pub directory: NodeId,
    pub cursor: Cursor,
    pub name: Option<&'a [u8]>,
}

/// A walk through all names of a tree, in preorder from the root on. A directory's names come in
/// the order of its list. A walk allocates no memory. It needs an image with directories at most 64
/// deep.
#[derive(Drop)]
pub struct Walk<'a> {
    /// The directories on the way, the deepest last.
    pub(crate) stack: ArrayVec<Frame<'a>, 65>,
    /// Whether the root was returned.
    pub(crate) begun: bool,
    /// The name of the node that was returned last; none for the root.
    pub(crate) name: Option<&'a [u8]>,
    /// Whether that node is a directory, which is then the last on the way.
    pub(crate) entered: bool,
}
