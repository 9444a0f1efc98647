//! The size of all files of an image, explained before it is printed.
ghost use Rattle.std.specs.Prelude.{◌≤◌};
ghost use Rattle.rom_tree.specs.Tree.{IsShallow};
ghost use Rattle.image_check.specs.Any.{any_view};

use crate::words::Words;
use elf_format::needs_pages;
use image_check::AnyImage;
use rom_commands::Asked;
use rom_fields::Plain;
use rom_tree::{Kind, TreeImage, Walk, front_bytes, longest_run};
use std::io::{self, Write};

/// How many times larger than an image its files may be without an explanation.
const MANY_TIMES: u64 = 16;

/// The most bytes of a file in one block of an image.
const BLOCK: u64 = 4096;

/// The most bytes of a line of a map without its path: an address of 18 bytes, two numbers below
/// 2^32, three spaces and a line feed.
const LINE: u64 = 18 + 10 + 10 + 4;

/// A writer that only counts bytes.
#[derive(Drop)]
struct Counting {
    count: u64,
}

impl Write for Counting {
    fn write(&mut self, b: &[u8]) -> io::Result<usize> {
        self.count = self.count.saturating_add(b.len() as u64);
        Ok(b.len())
    }

    fn flush(&mut self) -> io::Result<()> {
        Ok(())
    }
}

/// The length of the path of the name that a walk returned last, escaped as in a map.
fn path_len(walk: &Walk<'_>) -> u64 {
    let mut out = Plain::new(Counting { count: 0 });
    walk.put_path(&mut out, &mut false);
    out.into_inner().count
}

/// The sums over the names of regular files.
#[derive(Clone, Copy, Default)]
struct Totals {
    /// The bytes of the files. They count once for each name.
    contents: u64,
    /// The most lines of the map: one for each block.
    lines: u64,
    /// The most bytes of the map.
    bytes: u64,
}

impl Totals {
    /// Adds a name of a file of this size, whose path has this length.
    fn add(&mut self, size: u64, path_len: u64) {
        let lines = size.div_ceil(BLOCK).max(1);
        let bytes = lines.saturating_mul(LINE.saturating_add(path_len));
        self.contents = self.contents.saturating_add(size);
        self.lines = self.lines.saturating_add(lines);
        self.bytes = self.bytes.saturating_add(bytes);
    }
}

/// The sums over all names of regular files of an image.
fn totals_of<'a, T: TreeImage<'a>>(image: &T) -> Totals
    requires depth { IsShallow (T.image image.now).tree }
{
    let mut totals = Totals::default();
    let mut walk = Walk::new();
    while let Some(node) = walk.next(image) {
        let stat = image.stat(node);
        if stat.kind == Kind::Regular {
            totals.add(u64::from(stat.size), path_len(&walk));
        }
    }
    totals
}

/// Returns the number of names of programs and libraries that begin at the front of a page of an
/// image.
pub fn programs_at_pages<'a, T: TreeImage<'a>>(image: &T) -> u64
    requires depth { IsShallow (T.image image.now).tree }
{
    let mut count = 0u64;
    let mut walk = Walk::new();
    while let Some(node) = walk.next(image) {
        let (place, len) = longest_run(image, node, 0, 1);
        if len > 0 && u64::from(place) % BLOCK == 0 && needs_pages(front_bytes(image, node)) {
            count = count.saturating_add(1);
        }
    }
    count
}

/// Returns whether this number of bytes is many times the length of an image.
pub fn is_many_times(bytes: u64, len: usize) -> bool {
    bytes / MANY_TIMES > len as u64
}

/// Adds how long the output for an image will be, if its files are many times larger than the
/// image. This can be so if cramfs files share blocks, or a romfs file has many names.
pub fn explain(words: &mut Words, name: &[u8], image: &AnyImage<'_>, asked: Asked)
    requires { IsShallow (any_view image.now).tree }
{
    if !words.are_asked() || !matches!(asked, Asked::Map(_) | Asked::Facts(_)) {
        return;
    }
    let alloc = words.alloc();
    let Totals {
        contents,
        lines,
        bytes: most,
    } = totals_of(image);
    let len = image.bytes().len();
    if !is_many_times(contents, len) {
        return;
    }
    let what = if matches!(asked, Asked::Map(_)) {
        format!(in alloc;
            "its files have {contents} bytes, and the image has {len}, so the map has up to {lines} lines and {most} bytes"
        )
    } else {
        format!(in alloc; "its files have {contents} bytes, and the image has {len}")
    };
    if let Ok(what) = what {
        words.add(name, &what);
    }
}
