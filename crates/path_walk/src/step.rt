//! The step of a walk along one component of a path.
ghost use Rattle.std.specs.Prelude.{◌≡◌, ◌∷◌, [], ◌<◌, ◌≤◌, ◌*◌, true, List, length, ◌&&◌, not};
ghost use Rattle.std.specs.Prelude.{if◌then◌else◌, find};
ghost use Rattle.std.specs.Str.{bytes_eq};
ghost use Rattle.rom_tree.specs.Image.{Image};
ghost use Rattle.path_walk.specs.declared.mount.Mount.{Mount};
ghost use Rattle.path_walk.specs.Components.{begins_with_slash};
ghost use Rattle.path_walk.specs.Resolution.{Trail, step, to_root};
ghost use Rattle.path_walk.specs.Graft.{MountedNode, graft, covers, shown, are_mounts, AreShallow};
ghost use Rattle.path_walk.specs.Trails.{NamesAt, IsTrail, Leads};

use crate::error::WalkError;
use crate::images::Images;
use crate::mount::{Location, Mount};
use arrayvec::ArrayVec;
use rom_tree::{NodeId, is_dot, is_dot_dot};

pub(crate) const COMPONENT_MAX: usize = 255;

/// Whether a text begins with a slash.
pub(crate) fn is_absolute(text: &[u8]) -> bool
    ensures { result ≡ begins_with_slash text.now }
{
    match text {
        [] => false,
        [c, ..] => *c == b'/',
    }
}

/// The mount that covers a directory.
fn mounted_on(mounts: &[Mount], image: u32, dir: NodeId) -> Option<Mount>
    ensures { result ≡ find (covers image dir.0) mounts.now }
{
    for mount in mounts {
        if mount.on == image && mount.dir.0 == dir.0 {
            return Some(*mount);
        }
    }
    None
}

/// The place that is seen at a node: the root of the image that covers it, or the node itself.
fn shown_place<'a, G: Images<'a>>(
    images: &G,
    mounts: &[Mount],
    image: u32,
    node: NodeId,
) -> Location
    requires { are_mounts (G.held images.now).images mounts.now ≡ true }
    ensures { (s : MountedNode)
        → NamesAt (G.held images.now).images (record { image = image; node = node }) s
        → NamesAt (G.held images.now).images result
        (shown (G.held images.now).images mounts.now s) }
{
    match mounted_on(mounts, image, node) {
        None => Location { image, node },
        Some(mount) => Location {
            image: mount.image,
            node: images.root_in(mount.image),
        },
    }
}

/// Goes to the place to which one component leads, or returns a link that is to be followed.
/// `stays` is whether this is the last component and a link there is not followed. There is room
/// for `N` ancestors, and each image adds at most 64.
pub(crate) fn advance<'a, G: Images<'a>, const N: usize>(
    images: &mut G,
    mounts: &[Mount],
    current: &mut Location,
    ancestors: &mut ArrayVec<Location, N>,
    component: &[u8],
    stays: bool,
) -> Result<Option<Location>, WalkError>
    requires mounts { are_mounts (G.held images.old).images mounts.now ≡ true }
    requires places { 64 * length (G.held images.old).images < N }
    requires few { N ≤ 513 }
    requires shallow { AreShallow (G.held images.old).images }
    requires trail { (s : Trail MountedNode)
        × IsTrail (G.held images.old).images mounts.now current.old ancestors.old.items s }
    ensures leads { (s : Trail MountedNode)
        → IsTrail (G.held images.old).images mounts.now current.old ancestors.old.items s
        → Leads (G.held images.old).images mounts.now s
        (step (graft (G.held images.old).images mounts.now) s component.now stays)
        current.new ancestors.new.items result }
    ensures stays { G.held images.new ≡ G.held images.old }
{
    if !images.is_directory_in(*current) {
        return Err(WalkError::Enotdir);
    }
    if component.len() > COMPONENT_MAX {
        return Err(WalkError::Enametoolong);
    }
    if is_dot(component) {
        return Ok(None);
    }
    if is_dot_dot(component) {
        *current = ancestors.pop().unwrap_or(*current);
        return Ok(None);
    }
    let Some(node) = images.find_in(*current, component) else {
        return Err(WalkError::Enoent);
    };
    let found = shown_place(images, mounts, current.image, node);
    if images.is_link_in(found) && !stays {
        return Ok(Some(found));
    }
    ancestors.push(*current);
    *current = found;
    Ok(None)
}

/// Whether a link in this place stays.
pub(crate) fn last_stays(follow_last: bool, is_last: bool) -> bool
    ensures { result ≡ is_last && not follow_last }
{
    is_last && !follow_last
}

/// Goes to the root if a text begins with a slash.
pub(crate) fn start_from<const N: usize>(
    root: Location,
    current: &mut Location,
    ancestors: &mut ArrayVec<Location, N>,
    text: &[u8],
)
    ensures { (ms : List Image) (us : List Mount) (s : Trail MountedNode)
        → IsTrail ms us current.old ancestors.old.items s → AreShallow ms
        → NamesAt ms root (graft ms us).root
        → IsTrail ms us current.new ancestors.new.items
        (if begins_with_slash text.now then to_root s else s) }
{
    if is_absolute(text) {
        *current = root;
        ancestors.clear();
    }
}
