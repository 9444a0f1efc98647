//! Which bytes of two images are the same, compared once for all names that share them.
ghost use Rattle.std.specs.Prelude.{◌≡◌, Some};
ghost use Rattle.std.specs.Str.{bytes_eq};
ghost use Rattle.rom_tree.specs.Tree.{Node};
ghost use Rattle.rom_tree.specs.Image.{image_node, HasNode, contents_of};
ghost use Rattle.image_check.specs.Any.{any_view};
ghost use Rattle.image_compare.specs.Same.{AreSame};

use crate::contents::have_same_bytes;
use image_check::{AnyImage, Parts};
use image_info::{Data, LEAST_KEPT, data_of};
use rom_tree::NodeId;
use std::alloc::Global;
use std::collections::BTreeMap;

/// What is kept of two images while they are compared: their numbers, and which bytes were found to
/// be the same or not, by where they are in both.
#[derive(Drop)]
pub(crate) struct Same {
    old_parts: Parts,
    new_parts: Parts,
    known: BTreeMap<(Data, Data), bool>,
}

impl Same {
    /// Returns that nothing was compared yet.
    pub(crate) fn new(alloc: Global, old: &AnyImage<'_>, new: &AnyImage<'_>) -> Same
        ensures { AreSame (any_view old.now) (any_view new.now) result }
    {
        Same {
            old_parts: old.parts(),
            new_parts: new.parts(),
            known: BTreeMap::new(alloc),
        }
    }

    /// Returns whether the files or links of two images have the same bytes. They are compared
    /// again only if memory was refused to keep the answer, or if the old file is small.
    pub(crate) fn have(
        &mut self,
        old: &AnyImage<'_>,
        new: &AnyImage<'_>,
        x: NodeId,
        y: NodeId,
    ) -> bool
        requires old { HasNode (any_view old.now) x.0 }
        requires new { HasNode (any_view new.now) y.0 }
        requires same { AreSame (any_view old.now) (any_view new.now) self.old }
        ensures is { (p q : Node) → image_node (any_view old.now) x.0 ≡ Some p
            → image_node (any_view new.now) y.0 ≡ Some q
            → result ≡ bytes_eq (contents_of (any_view old.now).bytes p)
            (contents_of (any_view new.now).bytes q) }
        ensures same { AreSame (any_view old.now) (any_view new.now) self.new }
    {
        let both = (
            data_of(old, self.old_parts, x),
            data_of(new, self.new_parts, y),
        );
        if let Some(is_same) = self.known.get(&both) {
            return *is_same;
        }
        let is_same = have_same_bytes(old, new, x, y);
        if both.0.size >= LEAST_KEPT {
            match self.known.insert(both, is_same) {
                Ok(_) => {}
                Err(_) => {}
            }
        }
        is_same
    }
}
