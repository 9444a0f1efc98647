//! The length of a romfs image.
ghost use Rattle.std.specs.Prelude.{◌≡◌, ◌+◌, ◌*◌, ◌<◌, ◌≤◌, ◌^◌, if◌then◌else◌, Some, None, map};
ghost use Rattle.std.specs.Prelude.{length};
ghost use Rattle.std.specs.List.{AllByRecursion as Every};
ghost use Rattle.rom_fields.specs.Padding.{pad};
ghost use Rattle.manifest_tree.specs.Names.{Inode, Names};
ghost use Rattle.plan_rows.specs.Rows.{rows as rows_of, row_view};
ghost use Rattle.romfs_layout.specs.Layout.{full_size_of, root_at};
ghost use Rattle.romfs_plan.specs.Rows.{count_of, header_count, IsFitRow, too_large};

use crate::passes::rows_end;
use crate::places::{padded, record_len};
use plan_rows::{Row, What, deepest};
use romfs_format::disk;

/// The most headers of an image: 2^20, this project's limit of references.
const MOST_HEADERS: usize = 1 << 20;

/// The most names on the way to a file, this project's limit.
const MOST_NAMES: usize = 64;

/// The most bytes of an image.
const MOST_BYTES: u64 = disk::MOST_BYTES as u64;

/// Returns the number of headers of a row.
fn count_of(row: &Row<'_>) -> usize
    ensures count { result ≡ count_of (row_view row.now).what }
    ensures few { result ≤ 3 }
{
    match row.what {
        What::Leaf | What::Link => 1,
        What::Directory => 3,
    }
}

/// Returns the number of headers of rows.
fn header_count(rows: &[Row<'_>]) -> usize
    requires { length rows.now ≤ 2 ^ 20 }
    ensures count { result ≡ header_count (map row_view rows.now) }
    ensures few { result ≤ 3 * 2 ^ 20 }
{
    let mut count = 0;
    for row in rows {
        count += count_of(row);
    }
    count
}

/// Returns the offset of the root's header, behind the superblock with the volume's name.
pub fn root_at(volume: &[u8]) -> u64
    requires { length volume.now < 256 }
    ensures root { result ≡ root_at volume.now }
    ensures near { result < 300 }
{
    record_len(volume) as u64
}

/// Returns the length of the image of rows in bytes, or nothing if it is too large: it has more
/// than 2^28 bytes or 2^20 headers, or more than 64 names lead to a file.
pub fn image_len(volume: &[u8], rows: &[Row<'_>]) -> Option<usize>
    requires volume { length volume.now < 256 }
    requires fit { Every IsFitRow (map row_view rows.now) }
    ensures { (root : Inode) (n : Names) → map row_view rows.now ≡ rows_of 1 n → result
        ≡ (if too_large volume.now root n then None
        else Some (pad (full_size_of (root_at volume.now) n) 1024)) }
{
    if rows.len() > MOST_HEADERS {
        return None;
    }
    if header_count(rows) + 2 > MOST_HEADERS {
        return None;
    }
    if deepest(rows) > MOST_NAMES {
        return None;
    }
    let len = padded(padded(rows_end(rows, root_at(volume) + 64), 16), 1024);
    if len > MOST_BYTES {
        return None;
    }
    Some(len as usize)
}
