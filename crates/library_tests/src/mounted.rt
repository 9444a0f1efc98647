//! Where paths lead in several images, and whether images can be mounted.
ghost use Rattle.std.specs.Prelude.{◌≡◌, ◌≢◌, true, map, Some, IsTrue};
ghost use Rattle.rom_tree.specs.Tree.{Node, ino_of, is_directory};
ghost use Rattle.rom_tree.specs.Image.{image_node};
ghost use Rattle.image_check.specs.Any.{any_view};
ghost use Rattle.path_walk.specs.Graft.{are_apart, are_mounts, is_mount};

use crate::checked::sound;
use crate::images::{HELLO, LINK_AND_DEVICE, SAME_NAMES};
use image_check::AnyImage;
use path_walk::{Mount, WalkError, walk_mounts};
use rom_tree::{CheckError, NodeId, TreeImage, is_directory_at};
use std::alloc::Global;
use std::test::Fail;

/// Whether an image has this directory below its root.
fn is_below_root(image: &AnyImage<'_>, dir: NodeId) -> bool
    ensures { IsTrue result → (x : Node) × (image_node (any_view image.now) dir.0 ≡ Some x)
        × (is_directory x ≡ true) × (dir.0 ≢ ino_of (any_view image.now).tree) }
{
    if !image.is_node(dir) {
        return false;
    }
    if !is_directory_at(image, dir) {
        return false;
    }
    image.root().0 != dir.0
}

/// Whether this is a mount of one of the images.
fn is_one_mount(images: &[AnyImage<'_>], mount: Mount) -> bool
    ensures { IsTrue result → is_mount (map any_view images.now) mount ≡ true }
{
    let on = mount.on as usize;
    if mount.image == 0 || mount.image as usize >= images.len() || on >= images.len() {
        return false;
    }
    is_below_root(&images[on], mount.dir)
}

/// Whether no other mount has the same image or the same directory.
fn is_alone(mount: Mount, others: &[Mount]) -> bool
    ensures { IsTrue result → are_apart mount others.now ≡ true }
{
    match others {
        [] => true,
        [other, rest @ ..] => {
            if other.image == mount.image {
                return false;
            }
            if other.on == mount.on && other.dir.0 == mount.dir.0 {
                return false;
            }
            is_alone(mount, rest)
        }
    }
}

/// Whether these are mounts of the images.
fn can_mount(images: &[AnyImage<'_>], mounts: &[Mount]) -> bool
    ensures { IsTrue result → are_mounts (map any_view images.now) mounts.now ≡ true }
{
    match mounts {
        [] => true,
        [mount, rest @ ..] => {
            if !is_one_mount(images, *mount) {
                return false;
            }
            if !is_alone(*mount, rest) {
                return false;
            }
            can_mount(images, rest)
        }
    }
}

/// The number of the image and that of the node to which a path leads, in images of these bytes.
/// `None` if they cannot be mounted so.
fn walked(
    alloc: Global,
    bytes: [&[u8]; 3],
    mounts: &[Mount],
    path: &[u8],
) -> Result<Option<Result<(u32, u32), WalkError>>, CheckError> {
    let first = sound(alloc, bytes[0])?;
    let second = sound(alloc, bytes[1])?;
    let third = sound(alloc, bytes[2])?;
    let mut images = [first, second, third];
    if !can_mount(&images, mounts) {
        return Ok(None);
    }
    match walk_mounts(&mut images, mounts, path, true) {
        Ok((image, node)) => Ok(Some(Ok((image, node.0)))),
        Err(error) => Ok(Some(Err(error))),
    }
}

/// A mount that covers a directory of one image with another image.
fn mount(image: u32, on: u32, dir: u32) -> Mount {
    Mount {
        image,
        on,
        dir: NodeId(dir),
    }
}

#[test]
fn one_mount(rt: HostRuntime) -> Result<(), Fail> {
    // The second covers `/d` of the first; the third is not mounted.
    let images = [LINK_AND_DEVICE.as_slice(), HELLO, SAME_NAMES];
    for (path, want) in [
        (b"/d".as_slice(), Ok((1, 32))),
        (b"/d/a", Ok((1, 96))),
        (b"/d/..", Ok((0, 32))),
        (b"/d/l", Err(WalkError::Enoent)),
    ] {
        assert!(rt; walked(rt.alloc(), images, &[mount(1, 0, 96)], path)? == Some(want));
    }
    Ok(())
}
