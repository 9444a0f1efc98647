//! The headers of a romfs image.
ghost use Rattle.std.specs.Prelude.{◌≡◌, ◌+◌, ◌<◌, ◌≤◌, ◌^◌, ◌++◌, IfOk, OnOk, length, map};
ghost use Rattle.plan_rows.specs.Rows.{bytes_view, inode_view, row_view};
ghost use Rattle.manifest_layout.specs.Views.{item_view, fill_view};
ghost use Rattle.romfs_layout.specs.Items.{item_of};
ghost use Rattle.romfs_layout.specs.Layout.{code_of, device_of, header_alone, mode_bit, number_of};
ghost use Rattle.romfs_plan.specs.Headers.{leaf_header, directory_headers, headers_by};
ghost use Rattle.romfs_plan.specs.Headers.{root_headers};
ghost use Rattle.romfs_plan.specs.Headers.{noted, IsNear, IsFineRow};

use crate::places::{Place, record_len};
use manifest::Name;
use manifest_layout::{Fill, Item};
use plan_rows::{Bytes, Inode, Row, What};
use rom_fields::OutOfMemory;
use rom_tree::Kind;
use std::alloc::Global;
use std::collections::BTreeMap;

/// The mode of an executable file.
const RUNNABLE: u32 = 0o755;

/// Returns the type of a header, in the low three bits of next.
fn number_of(kind: Kind) -> u32
    ensures number { result ≡ number_of kind }
    ensures few { result < 8 }
{
    match kind {
        Kind::Directory => 1,
        Kind::Regular => 2,
        Kind::Symlink => 3,
        Kind::Block => 4,
        Kind::Character => 5,
        Kind::Socket => 6,
        Kind::Fifo => 7,
    }
}

/// Returns the bit "executable", which only a directory or a regular file has.
fn mode_bit(kind: Kind, mode: u32) -> u32
    ensures bit { result ≡ mode_bit kind mode }
    ensures few { result ≤ 8 }
{
    match kind {
        Kind::Directory | Kind::Regular => { if mode == RUNNABLE { 8 } else { 0 } }
        Kind::Symlink | Kind::Block | Kind::Character => 0,
        Kind::Socket | Kind::Fifo => 0,
    }
}

/// Returns the low four bits of next.
#[tactic(auto, unfolding(romfs_layout::specs::Layout::code_of))]
fn code_of(inode: &Inode<'_>) -> u32
    ensures code { result ≡ code_of (inode_view inode.now) }
    ensures few { result < 16 }
{
    number_of(inode.kind) + mode_bit(inode.kind, inode.mode)
}

/// Returns the numbers of a device in a word.
#[tactic(auto, unfolding(romfs_layout::specs::Layout::device_of))]
fn device_of(inode: &Inode<'_>) -> u32
    requires { (inode.now.major < 65536) × (inode.now.minor < 65536) }
    ensures { result ≡ device_of (inode_view inode.now) }
{
    inode.major * 65536 + inode.minor
}

/// Returns a name of these bytes.
fn name_of(alloc: Global, bytes: &[u8]) -> Result<Name, OutOfMemory>
    ensures { IfOk result (λ name. name ≡ bytes.now) }
{
    let bytes = bytes.to_vec(alloc)?;
    Ok(Name::from(bytes))
}

/// Returns the bytes of a file.
fn fill_of(alloc: Global, bytes: &Bytes<'_>) -> Result<Fill, OutOfMemory>
    ensures { IfOk result (λ fill. fill_view fill ≡ bytes_view bytes.now) }
{
    match *bytes {
        Bytes::Nothing => Ok(Fill::Nothing),
        Bytes::Text(text) => Ok(Fill::Text(name_of(alloc, text)?)),
        Bytes::Source(source) => Ok(Fill::File(source)),
    }
}

/// Returns a header without data.
fn header_alone(place: u32, next: u32, spec: u32, name: Name) -> Item
    ensures { item_view result ≡ item_of (header_alone place next spec name) }
{
    Item {
        place,
        words: [next, spec, 0],
        name,
        table: 0,
        start: 0,
        len: 0,
        fill: Fill::Nothing,
    }
}

/// Returns the header of a file that is not a directory.
fn leaf_header(alloc: Global, row: &Row<'_>, place: Place) -> Result<Item, OutOfMemory>
    requires name { length row.now.name.now < 256 }
    requires size { row.now.inode.size ≤ 2 ^ 28 }
    requires device { (row.now.inode.major < 65536) × (row.now.inode.minor < 65536) }
    requires near { IsNear place }
    ensures { IfOk result (λ item. item_view item
        ≡ item_of (leaf_header row.now.name.now (inode_view row.now.inode) place)) }
{
    let inode = &row.inode;
    let at = place.at as u32;
    let len = inode.size as u32;
    let data = at + record_len(row.name);
    Ok(Item {
        place: at,
        words: [place.next as u32 + code_of(inode), device_of(inode), len],
        name: name_of(alloc, row.name)?,
        table: 0,
        start: if len == 0 { 0 } else { data },
        len,
        fill: fill_of(alloc, &inode.bytes)?,
    })
}

/// Appends the headers of a directory that is in the directory at `dir`: its own, `.` and `..`.
fn push_directory(
    alloc: Global,
    found: &mut Vec<Item>,
    row: &Row<'_>,
    place: Place,
    dir: u32,
) -> Result<(), OutOfMemory>
    requires name { length row.now.name.now < 256 }
    requires near { IsNear place }
    ensures { OnOk result (map item_view found.new.items ≡ map item_view found.old.items
        ++ map item_of (directory_headers dir row.now.name.now (inode_view row.now.inode) place)) }
{
    let at = place.at as u32;
    let list = at + record_len(row.name);
    let next = place.next as u32 + code_of(&row.inode);
    found.push(header_alone(at, next, list, name_of(alloc, row.name)?))?;
    found.push(header_alone(list, list + 32, at, name_of(alloc, b".".as_slice())?))?;
    let first = place.first as u32;
    found.push(header_alone(list + 32, first, dir, name_of(alloc, b"..".as_slice())?))?;
    Ok(())
}

/// Appends the headers of the root, which heads its own list, and `..`. The root's header is at
/// `at`, and that of its first child at `first`.
pub fn push_root(
    alloc: Global,
    found: &mut Vec<Item>,
    root: &Inode<'_>,
    at: u32,
    first: u32,
) -> Result<(), OutOfMemory>
    requires { at ≤ 2 ^ 28 }
    ensures { OnOk result (map item_view found.new.items ≡ map item_view found.old.items
        ++ map item_of (root_headers at first (inode_view root.now))) }
{
    let next = at + 32 + code_of(root);
    found.push(header_alone(at, next, at, name_of(alloc, b".".as_slice())?))?;
    found.push(header_alone(at + 32, first, at, name_of(alloc, b"..".as_slice())?))?;
    Ok(())
}

/// Returns the offset of the header of a line's file, or 0 if the map has none.
fn place_of(lines: &BTreeMap<u64, u32>, line: u64) -> u32
    ensures { result ≡ noted lines.now line }
{
    match lines.get(&line) {
        None => 0,
        Some(place) => *place,
    }
}

/// Appends the headers of a name in the directory at `dir`.
pub fn push_row(
    alloc: Global,
    found: &mut Vec<Item>,
    row: &Row<'_>,
    place: Place,
    dir: u32,
    lines: &BTreeMap<u64, u32>,
) -> Result<(), OutOfMemory>
    requires row { IsFineRow (row_view row.now) }
    requires near { IsNear place }
    ensures { OnOk result (map item_view found.new.items ≡ map item_view found.old.items
        ++ map item_of (headers_by (noted lines.now) dir row.now.name.now (row_view row.now).what
        place)) }
{
    match row.what {
        What::Leaf => found.push(leaf_header(alloc, row, place)?)?,
        What::Link => {
            let target = place_of(lines, row.inode.line);
            let name = name_of(alloc, row.name)?;
            found.push(header_alone(place.at as u32, place.next as u32, target, name))?;
        }
        What::Directory => push_directory(alloc, found, row, place, dir)?,
    }
    Ok(())
}
