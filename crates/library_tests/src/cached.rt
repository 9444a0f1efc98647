//! A walk that looks names up by indices, and the number of names that a cache holds.
ghost use Rattle.std.specs.Prelude.{◌≤◌};
ghost use Rattle.rom_tree.specs.Tree.{IsShallow};

use crate::checked::sound;
use crate::images::SAME_NAMES;
use lookups::{Cached, Indexed};
use path_walk::{WalkError, walk};
use rom_tree::{NodeId, TreeImage};
use std::alloc::Global;

/// Where a path leads, by the indices of an image.
fn walked_by_indices(
    alloc: Global,
    path: &[u8],
    follow_last: bool,
) -> Option<Result<NodeId, WalkError>> {
    let image = sound(alloc, SAME_NAMES).ok()?;
    let mut image = Indexed::new(alloc, image);
    Some(walk(&mut image, path, follow_last))
}

#[test]
fn a_path_by_indices(rt: HostRuntime) {
    assert!(rt; walked_by_indices(rt.alloc(), b"/b/x", true) == Some(Ok(NodeId(124))));
}

/// The node to which a path leads in an image whose directories are at most 64 deep. The image
/// stays.
fn led<'a, T: TreeImage<'a>>(image: &mut T, path: &[u8]) -> Result<NodeId, WalkError>
    requires { IsShallow (T.image image.old).tree }
    ensures { IsShallow (T.image image.new).tree }
{
    walk(image, path, true)
}

/// The number of names in a cache for `names` of them, after five walks over four names and an
/// absent one, if each walk leads to the right node.
fn held_after_walks(alloc: Global, names: usize) -> Option<usize>
    requires some { 1 ≤ names }
    requires few { names ≤ 65536 }
{
    let mut image = Cached::new(alloc, sound(alloc, SAME_NAMES).ok()?, names).ok()?;
    let found = [
        led(&mut image, b"/a/x"),
        led(&mut image, b"/b/x"),
        led(&mut image, b"/a/x"),
        led(&mut image, b"/b/y"),
        led(&mut image, b"/b/y"),
    ];
    let absent = Err(WalkError::Enoent);
    let wanted = [
        Ok(NodeId(108)),
        Ok(NodeId(124)),
        Ok(NodeId(108)),
        absent,
        absent,
    ];
    (found == wanted).then_some(image.held())
}

#[test]
fn names_held_after_walks(rt: HostRuntime) {
    assert!(rt; held_after_walks(rt.alloc(), 1) == Some(1));
    assert!(rt; held_after_walks(rt.alloc(), 256) == Some(5));
}
