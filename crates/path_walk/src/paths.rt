//! The walk along a path.
ghost use Rattle.std.specs.Prelude.{Bool, ◌≡◌, ◌<◌, ◌≤◌, ◌*◌, true, MatchResult, IfOk, Ok, Err};
ghost use Rattle.std.specs.Prelude.{Some, length, map};
ghost use Rattle.rom_tree.specs.Tree.{Node, IsShallow};
ghost use Rattle.rom_tree.specs.Image.{image_node};
ghost use Rattle.path_walk.specs.Components.{components};
ghost use Rattle.path_walk.specs.Resolution.{Namespace, at_root, resolution, resolve};
ghost use Rattle.path_walk.specs.Resolution.{tree_namespace};
ghost use Rattle.path_walk.specs.Graft.{MountedNode, Names, graft, are_mounts, AreShallow};
ghost use Rattle.path_walk.specs.Graft.{IsUncovered};
ghost use Rattle.path_walk.specs.Trails.{IsFound, IsFoundWithin};
ghost use Rattle.path_walk.specs.Compared.{compared_by, names_compared};

use crate::budget::Purse;
use crate::component::take_component;
use crate::error::{WalkError, WithinError};
use crate::images::{Images, One, Several};
use crate::mount::{Location, Mount};
use crate::step::{advance, is_absolute, last_stays, start_from};
use arrayvec::ArrayVec;
use rom_tree::{NodeId, TreeImage};

const PATH_MAX: usize = 4095;

const LINKS_MAX: u32 = 40;

/// How many ancestors there is room for in one image: more than directories may be deep.
pub(crate) const PLACES: usize = 65;

/// The same in eight images.
const MOUNTED_PLACES: usize = 513;

/// Refuses a path as a whole: if it is too long, is empty, or does not begin with a slash.
fn check_path(path: &[u8]) -> Result<(), WalkError>
    ensures leads { (g : Namespace MountedNode) (follow : Bool) → MatchResult result
        (λ _. resolution g path.now follow ≡ resolve g follow 40 (at_root g) (components path.now))
        (λ e. resolution g path.now follow ≡ Err e) }
    ensures compared { (g : Namespace MountedNode) (follow : Bool) → MatchResult result
        (λ _. names_compared g path.now follow
        ≡ compared_by g follow 40 (at_root g) (components path.now))
        (λ e. names_compared g path.now follow ≡ 0) }
    ensures some { IfOk result (λ _. 0 < length path.now) }
{
    if path.len() > PATH_MAX {
        return Err(WalkError::Enametoolong);
    }
    if path.is_empty() {
        return Err(WalkError::Enoent);
    }
    if !is_absolute(path) {
        return Err(WalkError::Einval);
    }
    Ok(())
}

/// The place to which a path leads. The components that are still to come are those of `unread`:
/// the rests of the path and of the texts of the links on the way, the last one first. Before each
/// look-up its names are taken from the purse.
pub(crate) fn find_place<'a, G: Images<'a>, const N: usize>(
    images: &mut G,
    mounts: &[Mount],
    path: &[u8],
    follow_last: bool,
    purse: &mut Purse,
) -> Result<Location, WithinError>
    requires mounts { are_mounts (G.held images.old).images mounts.now ≡ true }
    requires some { 0 < length (G.held images.old).images }
    requires places { 64 * length (G.held images.old).images < N }
    requires few { N ≤ 513 }
    requires shallow { AreShallow (G.held images.old).images }
    ensures ends { IsFoundWithin (G.held images.old).images mounts.now path.now follow_last
        purse.old purse.new result }
    ensures stays { G.held images.new ≡ G.held images.old }
{
    check_path(path)?;
    let root = Location {
        image: 0,
        node: images.root_in(0),
    };
    let mut current = root;
    let mut ancestors: ArrayVec<Location, N> = ArrayVec::new();
    let mut unread: ArrayVec<&[u8], 41> = ArrayVec::new();
    let mut links = LINKS_MAX;
    unread.push(path);
    while let Some(component) = take_component(&mut unread) {
        if !images.take_names_in(current, component, purse) {
            return Err(WithinError::TooManyNames);
        }
        let stays = last_stays(follow_last, unread.is_empty());
        let link = advance(
            images,
            mounts,
            &mut current,
            &mut ancestors,
            component,
            stays,
        )?;
        if let Some(link) = link {
            if links == 0 {
                return Err(WithinError::Path(WalkError::Eloop));
            }
            links -= 1;
            let text = images.link_text_in(link);
            start_from(root, &mut current, &mut ancestors, text);
            unread.push(text);
        }
    }
    Ok(current)
}

/// The place to which a path leads, however many names are compared.
fn find_unlimited<'a, G: Images<'a>, const N: usize>(
    images: &mut G,
    mounts: &[Mount],
    path: &[u8],
    follow_last: bool,
) -> Result<Location, WalkError>
    requires mounts { are_mounts (G.held images.old).images mounts.now ≡ true }
    requires some { 0 < length (G.held images.old).images }
    requires places { 64 * length (G.held images.old).images < N }
    requires few { N ≤ 513 }
    requires shallow { AreShallow (G.held images.old).images }
    ensures leads { IsFound (G.held images.old).images mounts.now path.now follow_last result }
    ensures stays { G.held images.new ≡ G.held images.old }
{
    let mut purse = Purse::Unlimited;
    match find_place::<G, N>(images, mounts, path, follow_last, &mut purse) {
        Ok(place) => Ok(place),
        Err(WithinError::Path(error)) => Err(error),
        Err(WithinError::TooManyNames) => unreachable!(),
    }
}

/// Finds the node to which a path leads. `follow_last` is whether a symbolic link is followed if it
/// is the last component. The image does not change. Directories may be 64 deep.
///
/// The components of the path are looked up one after the other, from the root on: `.` stays, `..`
/// goes to the parent, which at the root is the root. A link's text takes the place of its name. It
/// leads on from the root if it begins with a slash, otherwise from the directory that has the link
/// (POSIX.1-2017, 4.13 "Pathname Resolution").
///
/// Each name needs one look-up in the list of its directory, and each link that is followed one
/// reading of its text. A path and 40 links have at most 41 times 2,048 names. No memory is
/// allocated.
///
/// # Errors
///
/// First those of the path as a whole, in this order: `Enametoolong` above 4095 bytes, `Enoent` if
/// it is empty, `Einval` if it does not begin with a slash. Then for each component in turn:
/// `Enotdir` if it follows something that is no directory, `Enametoolong` above 255 bytes, `Enoent`
/// if the directory has no entry of that name, `Eloop` if it is the 41st link that is to be
/// followed.
pub fn walk<'a, T: TreeImage<'a>>(
    image: &mut T,
    path: &[u8],
    follow_last: bool,
) -> Result<NodeId, WalkError>
    requires { IsShallow (T.image image.old).tree }
    ensures leads { MatchResult result
        (λ n. (x : Node)
        × (resolution (tree_namespace (T.image image.old).bytes (T.image image.old).tree)
        path.now follow_last ≡ Ok x)
        × (image_node (T.image image.old) n.0 ≡ Some x))
        (λ e. resolution (tree_namespace (T.image image.old).bytes (T.image image.old).tree)
        path.now follow_last ≡ Err e) }
    ensures stays { T.image image.new ≡ T.image image.old }
{
    let mut one = One { image };
    let place = find_unlimited::<One<'_, T>, PLACES>(&mut one, &[], path, follow_last)?;
    Ok(place.node)
}

/// Finds the node to which a path leads in the tree of several images: that of image 0, with the
/// root of each mounted image in place of the directory that it covers. Returns the number of the
/// node's image and the node, which is never a covered directory. The images do not change.
///
/// There are 1 to 8 images, in which directories may be 64 deep. Each mount covers a directory of
/// an image, except its root, by an image other than 0. No directory and no image occurs twice in
/// the mounts. A mount has no effect if no path leads through its directory. The path leads as in
/// `walk`. `..` at a mounted root goes to the parent of the covered directory. A link whose text
/// begins with a slash leads on from the root of image 0.
///
/// Each name needs one look-up in the list of its directory and one look at the mounts.
///
/// # Errors
///
/// Those of `walk`.
pub fn walk_mounts<'a, T: TreeImage<'a>>(
    images: &mut [T],
    mounts: &[Mount],
    path: &[u8],
    follow_last: bool,
) -> Result<(u32, NodeId), WalkError>
    requires some { 0 < length images.old }
    requires few { length images.old ≤ 8 }
    requires shallow { AreShallow (map T.image images.old) }
    requires mounts { are_mounts (map T.image images.old) mounts.now ≡ true }
    ensures leads { MatchResult result
        (λ p. (s : MountedNode)
        × (resolution (graft (map T.image images.old) mounts.now) path.now follow_last ≡ Ok s)
        × Names (map T.image images.old) p.0 p.1.0 s)
        (λ e. resolution (graft (map T.image images.old) mounts.now) path.now follow_last ≡ Err e) }
    ensures uncovered { IfOk result (λ p. IsUncovered mounts.now p.0 p.1.0) }
    ensures stays { map T.image images.new ≡ map T.image images.old }
{
    let mut all = Several { images };
    let place = find_unlimited::<Several<'_, T>, MOUNTED_PLACES>(
        &mut all,
        mounts,
        path,
        follow_last,
    )?;
    Ok((place.image, place.node))
}
