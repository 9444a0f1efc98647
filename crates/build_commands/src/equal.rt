//! Regular files with equal contents.
ghost use Rattle.std.specs.Prelude.{◌≡◌, IfOk, None, OnErr, OnOk, Some, cond, map};
ghost use Rattle.std.specs.Prelude.{slice_index_or};
ghost use Rattle.std.specs.BTreeMap.{get};
ghost use Rattle.std.specs.Option.{is_some};
ghost use Rattle.std.specs.Ordering.{eq_by_cmp};
ghost use Rattle.build_commands.specs.Equal.{at_index, compared, contents, first_of, firsts};
ghost use Rattle.build_commands.specs.Equal.{further, further_from, is_before, same_contents};
ghost use Rattle.build_commands.specs.Equal.{same_shape, shape_of, shapes, shared_all, with_digest};
ghost use Rattle.build_commands.specs.Equal.{zipped};
ghost use Rattle.build_commands.specs.Grouping.{first_in, group_at, group_of, grown, inode_of};
ghost use Rattle.build_commands.specs.Grouping.{with_inode};
ghost use Rattle.build_commands.specs.Overlay.{AreInOrder};

use crate::inventory::{FileKind, Inode, NamedFile};
use rom_fields::OutOfMemory;
use std::alloc::Global;
use std::collections::BTreeMap;

/// What files have to agree in to share contents: the number of bytes, and the attributes, since
/// Linux shows one of these for all files with the same contents.
#[derive(Clone, Copy, PartialEq, Eq, PartialOrd, Ord)]
pub struct Shape {
    pub len: u64,
    pub mode: u32,
    pub uid: u32,
    pub gid: u32,
}

/// The SHA-256 of the bytes of a file.
pub type Digest = [u8; 32];

/// The most bytes of a file in a cramfs image.
const MOST_BYTES: u64 = (1 << 24) - 1;

/// The shape of a file with this number of bytes, if it can share its contents.
fn shape_of(file: &NamedFile, len: u64) -> Option<Shape>
    ensures { result ≡ shape_of file.now len }
{
    let is_regular = matches!(file.kind, FileKind::Regular);
    if is_regular && len > 0 && len <= MOST_BYTES {
        Some(Shape {
            len,
            mode: file.mode,
            uid: file.uid,
            gid: file.gid,
        })
    } else {
        None
    }
}

/// The item at an index, or another one if there is none.
fn item_at<T: Copy>(items: &[T], index: usize, missing: T) -> T
    ensures { result ≡ slice_index_or items.now index missing }
{
    items.get(index).copied().unwrap_or(missing)
}

/// The shapes of files, by their indices.
fn shapes(
    alloc: Global,
    found: &[NamedFile],
    lens: &[u64],
) -> Result<Vec<Option<Shape>>, OutOfMemory>
    ensures { IfOk result (λ v. v.items ≡ shapes found.now lens.now) }
{
    let mut shapes = Vec::new(alloc);
    for index in 0..found.len() {
        shapes.push(shape_of(&found[index], item_at(lens, index, 0)))?;
    }
    Ok(shapes)
}

/// A shape with a digest, if both are there.
fn with_digest(shape: Option<Shape>, digest: Option<Digest>) -> Option<(Shape, Digest)>
    ensures { result ≡ with_digest shape digest }
{
    Some((shape?, digest?))
}

/// The shapes of files with their digests, by their indices.
fn contents(
    alloc: Global,
    shapes: &[Option<Shape>],
    digests: &[Option<Digest>],
) -> Result<Vec<Option<(Shape, Digest)>>, OutOfMemory>
    ensures { IfOk result (λ v. v.items ≡ contents shapes.now digests.now) }
{
    let mut contents = Vec::new(alloc);
    for index in 0..shapes.len() {
        contents.push(with_digest(shapes[index], item_at(digests, index, None)))?;
    }
    Ok(contents)
}

/// Files with equal keys: the index of the first one, and whether there are others.
#[derive(Clone, Copy)]
struct Group {
    first: usize,
    is_shared: bool,
}

/// A group with the file at an index.
fn grown(group: Option<Group>, index: usize) -> Group
    ensures { result ≡ grown group index }
{
    match group {
        None => Group {
            first: index,
            is_shared: false,
        },
        Some(group) => Group {
            first: group.first,
            is_shared: true,
        },
    }
}

/// Notes the file at an index.
fn note<K: Ord + Copy>(
    groups: &mut BTreeMap<K, Group>,
    key: K,
    index: usize,
) -> Result<(), OutOfMemory>
    ensures { OnOk result ((k : K) → get K.cmp groups.new k ≡ cond (eq_by_cmp K.cmp key k)
        (Some (grown (get K.cmp groups.old key) index)) (get K.cmp groups.old k)) }
{
    let group = groups.get(&key).copied();
    groups.insert(key, grown(group, index))?;
    Ok(())
}

/// The groups of the files that have keys.
fn groups_of<K: Ord + Copy>(
    alloc: Global,
    keys: &[Option<K>],
) -> Result<BTreeMap<K, Group>, OutOfMemory>
    ensures { IfOk result (λ m. (k : K)
        → get K.cmp m k ≡ group_of (eq_by_cmp K.cmp) keys.now k) }
{
    let mut groups = BTreeMap::new(alloc);
    for index in 0..keys.len() {
        if let Some(key) = keys[index] {
            note(&mut groups, key, index)?;
        }
    }
    Ok(groups)
}

/// The group of a file, if it has a key.
fn group_at<K: Ord + Copy>(groups: &BTreeMap<K, Group>, key: Option<K>) -> Option<Group>
    ensures { result ≡ group_at (get K.cmp groups.now) key }
{
    groups.get(&key?).copied()
}

/// The index of the first file of a group, if there are others.
fn first_in(group: Option<Group>) -> Option<usize>
    ensures { result ≡ first_in group }
{
    match group {
        Some(group) if group.is_shared => Some(group.first),
        _ => None,
    }
}

/// For each file, the index of the first of several files with its key.
fn firsts_of<K: Ord + Copy>(
    alloc: Global,
    keys: &[Option<K>],
) -> Result<Vec<Option<usize>>, OutOfMemory>
    ensures { IfOk result (λ v. v.items
        ≡ map (first_of (eq_by_cmp K.cmp) keys.now) keys.now) }
{
    let groups = groups_of(alloc, keys)?;
    let mut firsts = Vec::new(alloc);
    for key in keys {
        firsts.push(first_in(group_at(&groups, *key)))?;
    }
    Ok(firsts)
}

/// For each file, the index of the first of several files with its shape.
fn firsts_by_shape(
    alloc: Global,
    shapes: &[Option<Shape>],
) -> Result<Vec<Option<usize>>, OutOfMemory>
    ensures { IfOk result (λ v. v.items ≡ map (first_of same_shape shapes.now) shapes.now) }
{
    firsts_of(alloc, shapes)
}

/// For each file, the index of the first of several files with its shape and its digest.
fn firsts_by_contents(
    alloc: Global,
    contents: &[Option<(Shape, Digest)>],
) -> Result<Vec<Option<usize>>, OutOfMemory>
    ensures { IfOk result (λ v. v.items ≡ map (first_of same_contents contents.now) contents.now) }
{
    firsts_of(alloc, contents)
}

/// Whether each index is there.
fn are_there(alloc: Global, firsts: &[Option<usize>]) -> Result<Vec<bool>, OutOfMemory>
    ensures { IfOk result (λ v. v.items ≡ map is_some firsts.now) }
{
    let mut there = Vec::new(alloc);
    for first in firsts {
        there.push(first.is_some())?;
    }
    Ok(there)
}

/// Returns for each file whether its digest decides whether it shares contents: it can be in an
/// image, and another such file has its length, mode and owner. `lens` are the numbers of bytes of
/// the files, by their indices (0 for a file that is not regular).
///
/// # Errors
///
/// `OutOfMemory`.
pub fn to_compare(
    alloc: Global,
    found: &[NamedFile],
    lens: &[u64],
) -> Result<Vec<bool>, OutOfMemory>
    ensures { IfOk result (λ v. v.items ≡ compared found.now lens.now) }
{
    let shapes = shapes(alloc, found, lens)?;
    let firsts = firsts_by_shape(alloc, &shapes)?;
    are_there(alloc, &firsts)
}

/// For each file, the index of the first of several files with its shape and its digest.
fn firsts(
    alloc: Global,
    found: &[NamedFile],
    lens: &[u64],
    digests: &[Option<Digest>],
) -> Result<Vec<Option<usize>>, OutOfMemory>
    ensures { IfOk result (λ v. v.items ≡ firsts found.now lens.now digests.now) }
{
    let shapes = shapes(alloc, found, lens)?;
    let contents = contents(alloc, &shapes, digests)?;
    firsts_by_contents(alloc, &contents)
}

/// The inode of the file at an index, if there are both.
fn inode_at(found: &[NamedFile], index: Option<usize>) -> Option<Inode>
    ensures { result ≡ inode_of (at_index found.now index) }
{
    let file = found.get(index?)?;
    Some(file.inode)
}

/// The inodes of the files at indices.
fn inodes_of(
    alloc: Global,
    found: &[NamedFile],
    firsts: &[Option<usize>],
) -> Result<Vec<Option<Inode>>, OutOfMemory>
    ensures { IfOk result (λ v. v.items
        ≡ map (λ first. inode_of (at_index found.now first)) firsts.now) }
{
    let mut inodes = Vec::new(alloc);
    for first in firsts {
        inodes.push(inode_at(found, *first))?;
    }
    Ok(inodes)
}

/// Whether an index is there and before another one.
fn is_before(first: Option<usize>, index: usize) -> bool
    ensures { result ≡ is_before first index }
{
    match first {
        Some(first) => first < index,
        None => false,
    }
}

/// For each file, whether the first file is before it.
fn further(alloc: Global, firsts: &[Option<usize>]) -> Result<Vec<bool>, OutOfMemory>
    ensures { IfOk result (λ v. v.items ≡ further_from 0 firsts.now) }
{
    let mut further = Vec::new(alloc);
    for index in 0..firsts.len() {
        further.push(is_before(firsts[index], index))?;
    }
    Ok(further)
}

/// Makes a file a name of the one with an inode, if there is one.
fn join(file: &mut NamedFile, inode: Option<Inode>)
    ensures { file.new ≡ with_inode file.old inode }
{
    if let Some(inode) = inode {
        file.inode = inode;
        file.has_links = true;
    }
}

/// Makes each file a name of the one with the inode of its index, if there is one.
fn join_all(found: &mut [NamedFile], inodes: &[Option<Inode>])
    ensures { found.new ≡ zipped with_inode None found.old inodes.now }
{
    for index in 0..found.len() {
        join(&mut found[index], item_at(inodes, index, None));
    }
}

/// Makes each file whose shape and digest are those of an earlier one a further name of the first
/// such file. `digests` are those of the files, by their indices; a file without one is not
/// compared. Returns which files became further names. All else of each file stays.
///
/// # Errors
///
/// `OutOfMemory`. Then no file is changed.
pub fn share_equal(
    alloc: Global,
    found: &mut [NamedFile],
    lens: &[u64],
    digests: &[Option<Digest>],
) -> Result<Vec<bool>, OutOfMemory>
    ensures shared { OnOk result (found.new ≡ shared_all found.old lens.now digests.now) }
    ensures further { IfOk result (λ v. v.items ≡ further found.old lens.now digests.now) }
    ensures order { AreInOrder found.old → AreInOrder found.new }
    ensures unchanged { OnErr result (found.new ≡ found.old) }
{
    let firsts = firsts(alloc, found, lens, digests)?;
    let inodes = inodes_of(alloc, found, &firsts)?;
    let further = further(alloc, &firsts)?;
    join_all(found, &inodes);
    Ok(further)
}
