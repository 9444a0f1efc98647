//! The names of an image.
ghost use Rattle.std.specs.Prelude.{◌≡◌, ◌<◌, ◌≤◌, ℕ, [], ◌∷◌, ◌++◌, true, Some, length};
ghost use Rattle.std.specs.Prelude.{IfOk, IfErr, OnOk};
ghost use Rattle.rom_tree.specs.Tree.{Node, IsShallow};
ghost use Rattle.rom_tree.specs.Image.{image_node, HasNode};
ghost use Rattle.rom_tree.specs.Walks.{given_path};
ghost use Rattle.image_manifest.specs.declared.naming.Open.{Open};
ghost use Rattle.image_manifest.specs.declared.naming.Refused.TheVariants.{LongPath, OutOfMemory};
ghost use Rattle.image_manifest.specs.Firsts.{noted, noted_with, first_by};
ghost use Rattle.image_manifest.specs.Members.{AreMembers, has_long_path};
ghost use Rattle.image_manifest.specs.Open.{opened, parent_in, place_of_length};

use arrayvec::ArrayVec;
use rom_tree::{NodeId, TreeImage, Walk, is_directory_at};
use std::alloc::Global;
use std::collections::BTreeMap;
use thiserror::Error;

/// The most bytes that a path of a manifest may have.
pub const PATH_MAX: usize = 4095;

/// A name of an image, as its manifest has it. `path_of` returns its path.
#[derive(Clone, Copy)]
pub struct Member<'a> {
    /// The index of the member that is its directory. The root has none.
    pub parent: Option<usize>,
    /// Its last name, as it is in the image. The root has none.
    pub name: &'a [u8],
    /// The node to which the name leads.
    pub node: NodeId,
    /// The index of the first member of the same node, if this is a further one. A directory has
    /// none.
    pub first: Option<usize>,
}

/// The reason why the names of an image were not returned.
#[derive(Clone, Copy, Debug, PartialEq, Eq, Error)]
pub enum Refused {
    /// Memory was refused.
    #[error("out of memory")]
    OutOfMemory,
    /// A path has more than 4,095 bytes, which no manifest accepts.
    #[error("a path of more than 4095 bytes")]
    LongPath,
}

/// A name on the way to the name that the walk returned last: the index of its member, and the
/// length of its path in bytes, which is 0 for the root.
#[derive(Clone, Copy)]
pub(crate) struct Open {
    index: usize,
    len: usize,
}

/// Returns the length of the path of the name that a walk returned last.
fn path_len(walk: &Walk<'_>) -> Result<usize, Refused>
    ensures path { IfOk result (λ k. k ≡ length (given_path walk.now)) }
    ensures short { IfOk result (λ k. length (given_path walk.now) ≤ 4095) }
    ensures long { IfErr result (λ e. e ≡ LongPath → 4095 < length (given_path walk.now)) }
    ensures not_memory { IfErr result (λ e. e ≡ LongPath) }
{
    let mut path: ArrayVec<u8, PATH_MAX> = ArrayVec::new();
    match walk.append_path(&mut path) {
        Ok(()) => Ok(path.len()),
        Err(_) => Err(Refused::LongPath),
    }
}

/// Returns the number of names before the first one whose path has `len` bytes.
fn place_of_length(on_way: &[Open], len: usize) -> usize
    ensures place { result ≡ place_of_length len on_way.now }
    ensures within { result ≤ length on_way.now }
{
    let mut place = 0;
    while place < on_way.len() && on_way[place].len != len {
        place += 1;
    }
    place
}

/// Closes the names behind the first one whose path has `len` bytes, and returns that one's index,
/// if there is one.
fn close(on_way: &mut Vec<Open>, len: usize) -> Option<usize>
    ensures parent { result ≡ parent_in len on_way.old.items }
    ensures left { (new : Open) → opened len new on_way.old.items ≡ on_way.new.items ++ new ∷ [] }
{
    let place = place_of_length(on_way, len);
    if place >= on_way.len() {
        return None;
    }
    let parent = on_way[place].index;
    on_way.truncate(place + 1);
    Some(parent)
}

/// Notes the index of a name of a node, if none is noted.
fn note_first(firsts: &mut BTreeMap<u32, usize>, node: NodeId, index: usize) -> Result<(), Refused>
    ensures ok { OnOk result ((number : ℕ) → noted firsts.new number
        ≡ noted_with node.0 index (noted firsts.old number) number) }
    ensures err { IfErr result (λ e. e ≡ OutOfMemory) }
{
    if firsts.get(&node.0).is_none() {
        if firsts.insert(node.0, index).is_err() {
            return Err(Refused::OutOfMemory);
        }
    }
    Ok(())
}

/// Returns the index that is noted for a node; a directory has none.
fn first_noted<'a, T: TreeImage<'a>>(
    image: &T,
    firsts: &BTreeMap<u32, usize>,
    node: NodeId,
) -> Option<usize>
    requires { HasNode (T.image image.now) node.0 }
    ensures { (x : Node) → image_node (T.image image.now) node.0 ≡ Some x
        → result ≡ first_by x (noted firsts.now node.0) }
{
    if is_directory_at(image, node) {
        return None;
    }
    firsts.get(&node.0).copied()
}

/// Returns the names of an image in preorder, the root's first, each with the index of its
/// directory. Each name, except a directory's, also has the index of the first name of its node.
/// Directories may be 64 deep. It takes time in n log n for n names.
///
/// # Errors
///
/// `LongPath` only if a path has more than 4,095 bytes; then the image has no manifest.
/// `OutOfMemory` if memory was refused, also if there is such a path.
pub fn members<'a, T: TreeImage<'a>>(alloc: Global, image: &T) -> Result<Vec<Member<'a>>, Refused>
    requires { IsShallow (T.image image.now).tree }
    ensures known { IfOk result (λ v. AreMembers (T.image image.now) v.items) }
    ensures long { IfErr result (λ e. e ≡ LongPath
        → has_long_path (T.image image.now).tree ≡ true) }
{
    let mut firsts = BTreeMap::new(alloc);
    let mut found = Vec::new(alloc);
    let mut on_way = Vec::new(alloc);
    let mut walk = Walk::new();
    while let Some(node) = walk.next(image) {
        let (len, name) = (path_len(&walk)?, walk.name());
        let index = found.len();
        let new = Open {
            index,
            len: if on_way.is_empty() { 0 } else { len },
        };
        let parent = close(
            &mut on_way,
            len.saturating_sub(name.len()).saturating_sub(1),
        );
        let Ok(()) = on_way.push(new) else {
            return Err(Refused::OutOfMemory);
        };
        let first = first_noted(image, &firsts, node);
        note_first(&mut firsts, node, index)?;
        let Ok(()) = found.push(Member {
            parent,
            name,
            node,
            first,
        }) else {
            return Err(Refused::OutOfMemory);
        };
    }
    Ok(found)
}
