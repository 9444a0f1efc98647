//! Tests of mounts, and of the directories that an image may cover.
ghost use Rattle.std.specs.Prelude.{◌≡◌, ◌==◌, ◌<◌, ℕ, List, true, false, length, drop, position};
ghost use Rattle.std.specs.Prelude.{MatchOption, MatchResult, Some, Ok, Err};
ghost use Rattle.rom_tree.specs.Tree.{Node, ino_of, is_directory};
ghost use Rattle.rom_tree.specs.Image.{image_node, HasNode};
ghost use Rattle.path_walk.specs.declared.mount.Mount.{Mount};
ghost use Rattle.path_walk.specs.Graft.{MountedNode};
ghost use Rattle.open_files.specs.Calls.{refuse};
ghost use Rattle.open_files.specs.Sessions.{is_mounted, has_mount, mount_over};

use crate::error::CallError;
use path_walk::Mount;
use rom_tree::{NodeId, TreeImage, is_directory_at};

/// Whether an image is mounted.
pub(crate) fn is_mounted_in(mounts: &[Mount], image: u32) -> bool
    ensures { result ≡ is_mounted image mounts.now }
{
    for mount in mounts {
        if mount.image == image {
            return true;
        }
    }
    false
}

/// Whether another image is mounted in an image.
pub(crate) fn has_mount_in(mounts: &[Mount], image: u32) -> bool
    ensures { result ≡ has_mount image mounts.now }
{
    for mount in mounts {
        if mount.on == image {
            return true;
        }
    }
    false
}

/// The index of the mount of an image.
pub(crate) fn mount_index(mounts: &[Mount], image: u32) -> Option<usize>
    ensures first { result ≡ position (λ u. u.image == image) mounts.now }
    ensures within { MatchOption result (Unit {0}) (λ i. i < length mounts.now) }
{
    mounts.iter().position(|mount| mount.image == image)
}

/// Refuses what no image may cover: a node that is no directory, and the root.
pub(crate) fn check_cover<'a, T: TreeImage<'a>>(image: &T, dir: NodeId) -> Result<(), CallError>
    requires { HasNode (T.image image.now) dir.0 }
    ensures { (x : Node) → image_node (T.image image.now) dir.0 ≡ Some x → MatchResult result
        (λ _. (is_directory x ≡ true) × ((ino_of x == ino_of (T.image image.now).tree) ≡ false))
        (λ e. (us : List Mount) (i : ℕ) (s : MountedNode)
        → mount_over us i s (is_directory x) (ino_of x == ino_of (T.image image.now).tree)
        ≡ refuse e us) }
{
    if !is_directory_at(image, dir) {
        return Err(CallError::Enotdir);
    }
    if image.root().0 == dir.0 {
        return Err(CallError::Ebusy);
    }
    Ok(())
}
