//! The names of an image, by path.
ghost use Rattle.std.specs.Prelude.{◌≡◌, ◌<◌, ◌≤◌, ◌++◌, ◌∷◌, [], ℕ, List, length, drop};
ghost use Rattle.std.specs.Prelude.{IfSome, IfOk, IfErr, OnOk};
ghost use Rattle.std.specs.Cmp.Lexicographic.{slice_cmp};
ghost use Rattle.std.specs.Ordering.{nat_cmp};
ghost use Rattle.rom_tree.specs.Frames.{IsFrame};
ghost use Rattle.rom_tree.specs.Image.{Image};
ghost use Rattle.rom_tree.specs.Names.{Name, names, path_below};
ghost use Rattle.rom_tree.specs.Tree.{IsShallow};
ghost use Rattle.image_check.specs.Any.{any_view};
ghost use Rattle.image_compare.specs.Directories.{AreWays, way_at};
ghost use Rattle.image_compare.specs.Rows.{AreKnown, Collects, HasLongPath, HasNames, HoldsSorted};
ghost use Rattle.image_compare.specs.Rows.{IsNext, MayCollect, MeetsLong, frame_of, row_path};
ghost use Rattle.image_compare.specs.declared.rows.NoRows.TheVariants.{OutOfMemory, LongPath};

use crate::directories::{Directory, PATH_MAX, append_path, len_at};
use crate::order::compare;
use crate::steps::Named;
use arrayvec::ArrayVec;
use image_check::AnyImage;
use rom_tree::{Cursor, NodeId, TreeImage, is_directory_at};
use std::alloc::Global;

/// A name of an image: the index of its directory, its last component, and the node to which it
/// leads. The root's name is without bytes, and in the root.
#[derive(Clone, Copy)]
pub(crate) struct Row<'a> {
    pub(crate) directory: usize,
    pub(crate) name: &'a [u8],
    pub(crate) node: NodeId,
}

/// The names of an image, and the directories in which they are.
#[derive(Drop)]
pub(crate) struct Rows<'a> {
    directories: Vec<Directory<'a>>,
    names: Vec<Row<'a>>,
}

/// Why the names of an image were not collected.
#[derive(Clone, Copy, PartialEq, Eq)]
pub(crate) enum NoRows {
    /// Memory was refused.
    OutOfMemory,
    /// A path has more than 16,384 bytes.
    LongPath,
}

/// Returns the length of the path of a name in a directory.
fn path_len(directories: &[Directory<'_>], directory: usize, name: &[u8]) -> Result<usize, NoRows>
    requires { (ws : List (List ℕ)) × AreWays directories.now ws }
    ensures size { IfOk result (λ k. (ws : List (List ℕ)) → AreWays directories.now ws
        → k ≡ length (path_below (way_at ws directory) name.now)) }
    ensures short { IfOk result (λ k. k ≤ 16384) }
    ensures long { IfErr result (λ e. (ws : List (List ℕ)) → AreWays directories.now ws
        → 16384 < length (path_below (way_at ws directory) name.now)) }
{
    let len = len_at(directories, directory) + 1 + name.len();
    if len > PATH_MAX {
        return Err(NoRows::LongPath);
    }
    Ok(len)
}

/// Adds a name.
fn add_name<'a>(found: &mut Rows<'a>, row: Row<'a>) -> Result<(), NoRows>
    ensures names { OnOk result (found.new.names.items ≡ found.old.names.items ++ row.entry ∷ []) }
    ensures directories { found.new.directories ≡ found.old.directories }
    ensures memory { IfErr result (λ e. e ≡ OutOfMemory) }
{
    match found.names.push(row) {
        Ok(()) => Ok(()),
        Err(_) => Err(NoRows::OutOfMemory),
    }
}

/// Adds a directory, and returns its index.
fn add_directory<'a>(found: &mut Rows<'a>, directory: Directory<'a>) -> Result<usize, NoRows>
    ensures directories { OnOk result
        (found.new.directories.items ≡ found.old.directories.items ++ directory.entry ∷ []) }
    ensures names { found.new.names ≡ found.old.names }
    ensures index { IfOk result (λ i. i ≡ length found.old.directories.items) }
    ensures memory { IfErr result (λ e. e ≡ OutOfMemory) }
{
    let index = found.directories.len();
    match found.directories.push(directory) {
        Ok(()) => Ok(index),
        Err(_) => Err(NoRows::OutOfMemory),
    }
}

/// Adds the names in a directory and below it. `above` is the number of directories above it.
fn collect<'a>(
    image: &AnyImage<'a>,
    found: &mut Rows<'a>,
    node: NodeId,
    directory: usize,
    above: u32,
) -> Result<(), NoRows>
    requires frame { IsFrame (any_view image.now) above (frame_of node 0) }
    requires known { MayCollect (any_view image.now) found.old directory }
    ensures ok { OnOk result (Collects (any_view image.now) found.old found.new node directory) }
    ensures long { IfErr result (λ e. e ≡ LongPath
        → MeetsLong (any_view image.now) found.old node directory) }
{
    let mut cursor = Cursor::START;
    while let Some(entry) = image.entry(node, cursor) {
        let (name, target) = (entry.name, entry.node);
        let len = path_len(found.directories.as_slice(), directory, name)?;
        let row = Row {
            directory,
            name,
            node: target,
        };
        add_name(found, row)?;
        if is_directory_at(image, target) {
            let parent = directory;
            let index = add_directory(found, Directory { parent, name, len })?;
            collect(image, found, target, index, above + 1)?;
        }
        cursor = entry.cursor;
    }
    Ok(())
}

/// Returns the names of an image in preorder, the root's first.
fn collected<'a>(alloc: Global, image: &AnyImage<'a>) -> Result<Rows<'a>, NoRows>
    requires { IsShallow (any_view image.now).tree }
    ensures ok { IfOk result (λ found. HasNames (any_view image.now) found
        (names (any_view image.now).tree)) }
    ensures long { IfErr result (λ e. e ≡ LongPath → HasLongPath (any_view image.now).tree) }
{
    let root = image.root();
    let mut found = Rows {
        directories: Vec::new(alloc),
        names: Vec::new(alloc),
    };
    let (len, name): (usize, &[u8]) = (0, &[]);
    add_directory(
        &mut found,
        Directory {
            parent: 0,
            name,
            len,
        },
    )?;
    add_name(
        &mut found,
        Row {
            directory: 0,
            name,
            node: root,
        },
    )?;
    if is_directory_at(image, root) {
        collect(image, &mut found, root, 0, 0)?;
    }
    Ok(found)
}

/// Returns the names of an image, sorted by path. A path is composed only to be compared.
///
/// # Errors
///
/// `OutOfMemory` if memory was refused, and `LongPath` if a path has more than 16,384 bytes.
pub(crate) fn rows_of<'a>(alloc: Global, image: &AnyImage<'a>) -> Result<Rows<'a>, NoRows>
    requires { IsShallow (any_view image.now).tree }
    ensures ok { IfOk result (λ found. HoldsSorted (any_view image.now) found) }
    ensures long { IfErr result (λ e. e ≡ LongPath → HasLongPath (any_view image.now).tree) }
{
    let Rows {
        directories,
        mut names,
    } = collected(alloc, image)?;
    let places = directories.as_slice();
    let sorted = names.sort_by(
        |x, y|
            requires { (ws : List (List ℕ)) × AreWays places.now ws }
            ensures { (ws : List (List ℕ)) → AreWays places.entry.now ws
                → result ≡ slice_cmp nat_cmp (row_path ws x.now) (row_path ws y.now) }
        { compare(places, x, y) },
    );
    match sorted {
        Ok(()) => Ok(Rows { directories, names }),
        Err(_) => Err(NoRows::OutOfMemory),
    }
}

/// Returns the name at an index, whose path the buffer then has.
pub(crate) fn name_at<'p>(
    rows: &Rows<'_>,
    at: usize,
    path: &'p mut ArrayVec<u8, PATH_MAX>,
) -> Option<Named<'p>>
    requires { (m : Image) × AreKnown m rows.now }
    ensures next { (m : Image) (ns : List Name) → HasNames m rows.now ns
        → IsNext m result (drop at ns) }
    ensures within { IfSome result (λ n. at < length rows.now.names.items) }
{
    let row = rows.names.get(at)?;
    path.clear();
    append_path(rows.directories.as_slice(), row.directory, row.name, path);
    Some(Named {
        path: path.as_slice(),
        node: row.node,
    })
}
