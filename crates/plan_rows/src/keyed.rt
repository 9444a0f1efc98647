//! Rows with the ways to them.
ghost use Rattle.std.specs.Prelude.{◌≡◌, OnOk, IfOk, ℕ, List};
ghost use Rattle.manifest_tree.specs.Names as names;
ghost use Rattle.manifest_tree.specs.Tree.{file_at, what_by};
ghost use Rattle.plan_rows.specs.Files.{IsOf};
ghost use Rattle.plan_rows.specs.Keyed.{behind, count, zeroed};
ghost use Rattle.plan_rows.specs.Keyed.{keyed, listed, put_file, put_keyed, row_at};
ghost use Rattle.plan_rows.specs.Rows.{inode_view, row_view, what_view};

use crate::files::PathTargets;
use crate::inodes::inode_at;
use crate::row::{Inode, Row, What};
use manifest::{Line, Manifest, Word};
use memchr::memrchr;
use rom_fields::OutOfMemory;
use std::alloc::Global;
use std::collections::BTreeMap;

/// Returns the way to what a path names: its bytes with zero bytes instead of slashes. So the order
/// of ways is that of rows.
fn key_of(alloc: Global, path: &[u8]) -> Result<Vec<u8>, OutOfMemory>
    ensures { IfOk result (λ v. v.items ≡ zeroed path.now) }
{
    let mut key = Vec::new(alloc);
    for byte in path {
        let b = if *byte == b'/' { 0 } else { *byte };
        key.push(b)?;
    }
    Ok(key)
}

/// Returns the number of names of a path.
fn depth_of(path: &[u8]) -> usize
    ensures { result ≡ count 47 path.now }
{
    let mut depth = 0;
    for byte in path {
        if *byte == b'/' {
            depth += 1;
        }
    }
    depth
}

/// Returns the last name of a path.
fn name_of<'a>(path: &'a [u8]) -> &'a [u8]
    ensures { result.now ≡ behind 47 path.now path.now }
{
    match memrchr(b'/', path) {
        None => path,
        Some(last) => &path[last + 1..],
    }
}

/// Returns what the path of a line with this word names.
fn what_of(word: Word) -> What
    ensures { (i : names.Inode) → what_view result i ≡ what_by word i }
{
    match word {
        Word::Dir => What::Directory,
        Word::Hard => What::Link,
        Word::File | Word::Slink | Word::Same => What::Leaf,
        Word::Block | Word::Character | Word::Fifo | Word::Socket => What::Leaf,
    }
}

/// Returns the row of a line whose path leads to this file.
fn row_of<'a>(line: &'a Line, inode: Inode<'a>) -> Row<'a>
    ensures { row_view result
        ≡ row_at line.now.path (what_by line.now.word (inode_view inode.entry)) }
{
    let path = line.path.as_bytes();
    Row {
        depth: depth_of(path),
        name: name_of(path),
        what: what_of(line.word),
        inode,
    }
}

/// Adds the row of a line, if its path leads to this file.
fn put_row<'a>(
    alloc: Global,
    rows: &mut BTreeMap<Vec<u8>, Row<'a>>,
    line: &'a Line,
    inode: Inode<'a>,
) -> Result<(), OutOfMemory>
    ensures { OnOk result (listed rows.new ≡ put_keyed (keyed (zeroed line.now.path)
        (row_at line.now.path (what_by line.now.word (inode_view inode.entry))))
        (listed rows.old)) }
{
    let key = key_of(alloc, line.path.as_bytes())?;
    rows.insert(key, row_of(line, inode))?;
    Ok(())
}

/// Adds the row of a line, unless it is the root's.
pub fn put_line<'a>(
    alloc: Global,
    rows: &mut BTreeMap<Vec<u8>, Row<'a>>,
    m: &'a Manifest,
    files: &PathTargets,
    line: &'a Line,
) -> Result<(), OutOfMemory>
    ensures { (sizes : List ℕ) → IsOf m.now.lines sizes files.now → OnOk result
        (listed rows.new ≡ put_file line.now (file_at m.now.lines sizes line.now.path)
        (listed rows.old)) }
{
    let path = line.path.as_bytes();
    // Only the root's path is shorter than two bytes.
    if path.len() < 2 {
        return Ok(());
    }
    if let Some(inode) = inode_at(m, files, path) {
        put_row(alloc, rows, line, inode)?;
    }
    Ok(())
}
