//! The extents of the rows of an image, and the phase that looks for two that overlap.
ghost use Rattle.std.specs.Prelude.{◌≡◌, ◌+◌, ◌*◌, ◌%◌, ◌<◌, ◌≤◌, ◌^◌, ◌++◌, ℕ, max, length, OnOk};
ghost use Rattle.std.specs.Prelude.{IfOk, IsTrue, ◌↔◌, true, Option};
ghost use Rattle.std.specs.List.{All, AllByRecursion as Every};
ghost use Rattle.std.specs.List.Sorted.{IsNonDecreasingBy};
ghost use Rattle.rom_fields.specs.Extents.{OverlapsAt, IsLeastOf, added};
ghost use Rattle.cramfs_format.specs.Inode.{type_of, size_of, offset_of, has_data};
ghost use Rattle.cramfs_format.specs.Tree.{extents_of};
ghost use Rattle.cramfs_image.specs.declared.overlap.File.{File};
ghost use Rattle.cramfs_image.specs.Phases.{IsRecord};
ghost use Rattle.cramfs_image.specs.Files.{list_part, file_part, FileLies, whole_end, whole_blocks};
ghost use Rattle.cramfs_image.specs.Files.{file_added, AddsFiles};
ghost use Rattle.cramfs_image.specs.Extents.{AreTheSame};
ghost use Rattle.cramfs_image.specs.Merged.{expanded};
ghost use Rattle.cramfs_image.specs.SoFar.{blocks_so_far};
ghost use Rattle.cramfs_format.specs.Order.{word as word_of};
ghost use Rattle.cramfs_format.specs.Inode.{block_start};
ghost use Rattle.rom_fields.specs.declared.span.Extent.TheVariants.{Table, Data};

use crate::accessible::Accessible;
use crate::runs::least_conflict;
use crate::soundness::has_contents;
use cramfs_format::inode::{blocks_of, start_of};
use record_forest::Row;
use rom_fields::{Extent, OutOfMemory, Span};
use std::alloc::Global;

/// A file or a link: the offset of its block pointers, and its size.
#[derive(Clone, Copy, PartialEq, Eq)]
pub struct File {
    pub table: u32,
    pub size: u32,
}

/// Adds an extent at the end. One of length 0 is ignored.
fn add(extents: &mut Vec<Span>, kind: Extent, start: u32, len: u32) -> Result<(), OutOfMemory>
    ensures { OnOk result (extents.new.items ≡ extents.old.items ++ added kind start len) }
{
    if len > 0 {
        extents.push(Span { kind, start, len })?;
    }
    Ok(())
}

/// Adds block pointers.
fn add_table(extents: &mut Vec<Span>, table: u32, len: u32) -> Result<(), OutOfMemory>
    ensures { OnOk result (expanded extents.new.items ≡ expanded extents.old.items
        ++ added Table table len) }
{
    add(extents, Extent::Table, table, len)
}

/// Whole blocks, one after the other, that are not added yet.
#[derive(Clone, Copy, PartialEq, Eq)]
pub struct Run {
    pub start: u32,
    pub len: u32,
}

/// Whether a block that starts at `next` follows the run.
fn follows(run: Run, next: u32) -> bool
    ensures { IsTrue result ↔ (run.start + run.len ≡ next) }
{
    run.start <= next && next - run.start == run.len
}

/// Puts a whole block at the end of the run, if it follows it. Otherwise the run is added, and the
/// block begins another one, which is returned.
fn add_block(extents: &mut Vec<Span>, run: Run, next: u32) -> Result<Run, OutOfMemory>
    requires whole { run.len % 4096 ≡ 0 }
    requires small { run.len + 4096 < 2 ^ 32 }
    ensures whole { IfOk result (λ r. r.len % 4096 ≡ 0) }
    ensures small { IfOk result (λ r. r.len ≤ run.len + 4096) }
    ensures extents { IfOk result (λ r. blocks_so_far extents.new.items r
        ≡ blocks_so_far extents.old.items run ++ added Data next 4096) }
{
    if follows(run, next) {
        return Ok(Run {
            start: run.start,
            len: run.len + 4_096,
        });
    }
    add(extents, Extent::Data, run.start, run.len)?;
    Ok(Run {
        start: next,
        len: 4_096,
    })
}

/// Adds the whole blocks of some pointers from `at` on. Blocks of which each begins where the one
/// before it ends are one extent.
fn add_blocks(
    extents: &mut Vec<Span>,
    b: &Accessible<'_>,
    at: u32,
    count: u32,
) -> Result<(), OutOfMemory>
    requires small { at + 4 * count < 2 ^ 32 }
    requires few { count < 4096 }
    requires pointers { (i : ℕ) → i < count → at + 4 * i + 4 ≤ length b.now.bytes.now }
    ensures { OnOk result (expanded extents.new.items ≡ expanded extents.old.items
        ++ whole_blocks b.now.order b.now.bytes.now count at) }
{
    let mut run = Run { start: 0, len: 0 };
    'pointers: for i in 0..count {
        let pointer = b.word((at + 4 * i) as usize);
        run = add_block(extents, run, start_of(pointer))?;
    }
    add(extents, Extent::Data, run.start, run.len)
}

/// Adds the last block of a file, which is not whole, if there is one.
fn add_rest(
    extents: &mut Vec<Span>,
    b: &Accessible<'_>,
    at: u32,
    rest: u32,
) -> Result<(), OutOfMemory>
    requires rest { rest < 4096 }
    requires pointer { 0 < rest → at + 4 ≤ length b.now.bytes.now }
    ensures { OnOk result (expanded extents.new.items ≡ expanded extents.old.items
        ++ added Data (block_start (word_of b.now.order b.now.bytes.now at)) rest) }
{
    if rest == 0 {
        return Ok(());
    }
    add(extents, Extent::Data, start_of(b.word(at as usize)), rest)
}

/// Adds the block pointers and the blocks of a file, except the whole blocks of pointers before
/// `done`. Returns the offset up to which whole blocks are then added.
fn add_file(
    extents: &mut Vec<Span>,
    b: &Accessible<'_>,
    file: File,
    done: u32,
) -> Result<u32, OutOfMemory>
    requires lies { FileLies b.now.order b.now.bytes.now file }
    requires aligned { done % 4 ≡ 0 }
    requires low { done < 2 ^ 29 }
    ensures extents { OnOk result (expanded extents.new.items ≡ expanded extents.old.items
        ++ file_added b.now.order b.now.bytes.now file.table file.size done) }
    ensures done { IfOk result (λ d. d ≡ max done (whole_end file.table file.size)) }
{
    let end = file.table + 4 * (file.size / 4_096);
    let first = file.table.max(done);
    let rest = file.size % 4_096;
    add_table(extents, file.table, 4 * blocks_of(file.size))?;
    add_blocks(extents, b, first, end.saturating_sub(first) / 4)?;
    add_rest(extents, b, end, rest)?;
    Ok(done.max(end))
}

/// Adds the block pointers and the blocks of files, which are sorted by the offset of their
/// pointers. A whole block is added once for each pointer, even if several files have the pointer.
fn add_files(extents: &mut Vec<Span>, b: &Accessible<'_>, files: &[File]) -> Result<(), OutOfMemory>
    requires lie { All (FileLies b.now.order b.now.bytes.now) files.now }
    requires sorted { IsNonDecreasingBy (λ (f : File). f.table) files.now }
    ensures { OnOk result (AddsFiles b.now.order b.now.bytes.now files.now
        (expanded extents.old.items) (expanded extents.new.items)) }
{
    let mut done: u32 = 0;
    'files: for file in files {
        done = add_file(extents, b, *file, done)?;
    }
    Ok(())
}

/// The block pointers and the size of a file or a link.
fn file_at(b: &Accessible<'_>, at: usize) -> File
    requires record { IsRecord b.now.order b.now.bytes.now at }
    requires contents { has_data (type_of b.now.order b.now.bytes.now at) ≡ true }
    ensures value { result ≡ record {
      table = offset_of b.now.order b.now.bytes.now at;
      size = size_of b.now.order b.now.bytes.now at;
    } }
    ensures lies { FileLies b.now.order b.now.bytes.now result }
{
    File {
        table: b.offset_at(at),
        size: b.size_at(at),
    }
}

/// Adds the list of a directory, and notes a file or a link.
fn add_row(
    extents: &mut Vec<Span>,
    files: &mut Vec<File>,
    b: &Accessible<'_>,
    row: Row,
) -> Result<(), OutOfMemory>
    requires record { IsRecord b.now.order b.now.bytes.now row.offset }
    ensures extents { OnOk result (extents.new.items ≡ extents.old.items
        ++ list_part b.now.order b.now.bytes.now row) }
    ensures files { OnOk result (files.new.items ≡ files.old.items
        ++ file_part b.now.order b.now.bytes.now row) }
    ensures lie { Every (FileLies b.now.order b.now.bytes.now)
        (file_part b.now.order b.now.bytes.now row) }
{
    let at = row.offset as usize;
    if b.type_at(at) == 4 {
        add(extents, Extent::List, b.offset_at(at), b.size_at(at))?;
    }
    if has_contents(b, at) {
        files.push(file_at(b, at))?;
    }
    Ok(())
}

/// Returns the extents of the superblock and of the records of these rows: first the superblock,
/// then the lists in the order of the rows, then the block pointers and blocks of files by the
/// offset of their pointers (the order is not proved). Whole blocks of a file that follow each
/// other are one extent.
pub fn all_extents(
    alloc: Global,
    b: &Accessible<'_>,
    rows: &[Row],
) -> Result<Vec<Span>, OutOfMemory>
    requires records { All (λ x. IsRecord b.now.order b.now.bytes.now x.offset) rows.now }
    ensures same { IfOk result (λ v. AreTheSame (expanded v.items)
        (extents_of b.now.order b.now.bytes.now rows.now)) }
    ensures overlaps { IfOk result (λ v. (o : Option ℕ)
        → IsLeastOf (OverlapsAt (expanded v.items)) o
        → IsLeastOf (OverlapsAt (extents_of b.now.order b.now.bytes.now rows.now)) o) }
{
    let mut extents: Vec<Span> = Vec::new(alloc);
    let mut files: Vec<File> = Vec::new(alloc);
    add(&mut extents, Extent::Super, 0, 76)?;
    'rows: for row in rows {
        add_row(&mut extents, &mut files, b, *row)?;
    }
    files.sort_unstable_by_key(|x| x.table);
    add_files(&mut extents, b, &files)?;
    Ok(extents)
}

/// Returns the least offset at which two extents of the image overlap, or `None` if no two do.
pub fn least_overlap(
    alloc: Global,
    b: &Accessible<'_>,
    rows: &[Row],
) -> Result<Option<u32>, OutOfMemory>
    requires records { All (λ x. IsRecord b.now.order b.now.bytes.now x.offset) rows.now }
    ensures { IfOk result (IsLeastOf (OverlapsAt
        (extents_of b.now.order b.now.bytes.now rows.now))) }
{
    let mut extents = all_extents(alloc, b, rows)?;
    Ok(least_conflict(&mut extents))
}
