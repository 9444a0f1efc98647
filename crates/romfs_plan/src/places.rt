//! The offsets of the headers of rows.
ghost use Rattle.std.specs.Prelude.{◌≡◌, ◌+◌, ◌*◌, ◌<◌, ◌≤◌, ◌^◌, length};
ghost use Rattle.rom_fields.specs.Padding.{pad};
ghost use Rattle.plan_rows.specs.Rows.{row_view};
ghost use Rattle.romfs_layout.specs.Layout.{record_len};
ghost use Rattle.romfs_plan.specs.Passes.{row_place, row_end};
ghost use Rattle.romfs_plan.specs.Rows.{IsFitRow};

use plan_rows::{Row, What};
use std::cmp::max;

/// The offset of a header, of the next one in its list, and of the first in its own list; 0 if
/// there is none.
#[derive(Clone, Copy, PartialEq, Eq)]
pub struct Place {
    pub at: u64,
    pub next: u64,
    pub first: u64,
}

/// Returns the least multiple of k that is at least n.
pub fn padded(n: u64, k: u64) -> u64
    requires some { 0 < k }
    requires few { k < 2 ^ 32 }
    requires small { n < 2 ^ 60 }
    ensures padded { result ≡ pad n k }
    ensures after { n ≤ result }
    ensures near { result < n + k }
{
    (n + (k - 1)) / k * k
}

/// Returns the length of a header with this name in bytes.
pub fn record_len(name: &[u8]) -> u32
    requires { length name.now < 256 }
    ensures len { result ≡ record_len name.now }
    ensures short { result < 300 }
{
    16 + padded(name.len() as u64 + 1, 16) as u32
}

/// Returns the offset of a row's header, if what was placed before ends at `from`.
#[tactic(auto, unfolding(romfs_layout::specs::Layout::place_of, romfs_layout::specs::Layout::data_align))]
pub fn row_place(from: u64, row: &Row<'_>) -> u64
    requires row { IsFitRow (row_view row.now) }
    requires from { from < 2 ^ 56 }
    ensures place { result ≡ row_place from (row_view row.now) }
    ensures near { result < from + 2 ^ 33 }
{
    let start = padded(from, 16);
    match row.what {
        What::Leaf => {
            let inode = &row.inode;
            let len = record_len(row.name) as u64;
            let multiple = if inode.size == 0 {
                16
            } else {
                max(16, inode.align as u64)
            };
            padded(start + len, multiple) - len
        }
        What::Link | What::Directory => start,
    }
}

/// Returns the end of what a row places. A directory's list begins with two headers of 32 bytes.
pub fn row_end(from: u64, row: &Row<'_>) -> u64
    requires row { IsFitRow (row_view row.now) }
    requires from { from < 2 ^ 56 }
    ensures end { result ≡ row_end from (row_view row.now) }
    ensures near { result < from + 2 ^ 34 }
{
    let end = row_place(from, row) + record_len(row.name) as u64;
    match row.what {
        What::Leaf => end + row.inode.size,
        What::Link => end,
        What::Directory => end + 64,
    }
}
