//! What is found of one file.
ghost use Rattle.std.specs.Prelude.{◌≡◌, ◌+◌, ◌<◌, ◌≤◌, ◌^◌, length, IfOk, IfSome, Some};
ghost use Rattle.rom_fields.specs.Words.{part_of};
ghost use Rattle.rom_tree.specs.Tree.{Node};
ghost use Rattle.rom_tree.specs.Image.{image_node, HasNode};
ghost use Rattle.image_check.specs.Any.{any_view};
ghost use Rattle.program_report.specs.Found.{flat_verdict, found_at, found_in, is_found};
ghost use Rattle.program_report.specs.Found.{is_program, is_romfs, judged, run_verdict};
ghost use Rattle.program_report.specs.Found.{IsSmall, page_count, placed, unless_moved};
ghost use Rattle.program_report.specs.Found.{verdict_at, verdict_in, written};
ghost use Rattle.program_report.specs.Lines.{is_shared};

use crate::question::Question;
use elf_format::{elf_kind, moves_text};
use image_check::AnyImage;
use program_pages::{NoProgram, ProgramPages, flat_pages, is_flat, program_pages};
use rom_fields::part;
use rom_tree::{NodeId, TreeImage, is_regular_at, longest_run};

/// Why a program is not executed in place.
#[derive(Clone, Copy, Debug, PartialEq, Eq)]
pub enum Reason {
    /// Its first byte is not at the front of a page.
    Unaligned,
    /// Its blocks are not in one run.
    Scattered,
    /// Linux does not load one of its segments, or the segment is not wholly in the file.
    Unloadable,
    /// Its table of program headers is none that Linux loads.
    Table,
    /// Linux with an MMU maps no page of romfs.
    Romfs,
    /// The dynamic linker writes into its text, so some of its pages are copied.
    TextRelocations,
    /// Each page of it can be written, or is written by the dynamic linker.
    Writable,
}

/// Whether a program is executed in place.
#[derive(Clone, Copy, Debug, PartialEq, Eq)]
pub enum Verdict {
    /// It is, or no page of it is loaded.
    InPlace(ProgramPages),
    /// Nothing of it is; or, if it has text relocations, not all that could be.
    Not {
        /// Why.
        reason: Reason,
        /// The number of pages that are copied; with text relocations, the most that are.
        pages: u64,
    },
}

/// A program or a library in an image.
#[derive(Clone, Copy, Debug, PartialEq, Eq)]
pub struct Found {
    /// The offset of its first byte.
    pub start: u32,
    /// The number of its bytes.
    pub size: u32,
    /// Whether it is executed in place.
    pub verdict: Verdict,
}

/// Returns whether a type of ELF files is that of programs and libraries.
fn is_program(kind: Option<u16>) -> bool
    ensures { result ≡ is_program kind }
{
    match kind {
        Some(kind) => kind == 2 || kind == 3,
        None => false,
    }
}

/// Returns whether a file of these bytes is an ELF program or library; or, without an MMU, a
/// program in the flat format.
fn is_found(question: &Question, b: &[u8]) -> bool
    ensures { result ≡ is_found question.now b.now }
{
    is_program(elf_kind(b)) || (question.no_mmu && is_flat(b))
}

/// Returns whether an image is one of romfs.
fn is_romfs(image: &AnyImage<'_>) -> bool
    ensures { result ≡ is_romfs image.now }
{
    match image {
        AnyImage::Romfs(_) => true,
        AnyImage::Cramfs(_) => false,
    }
}

/// Returns the verdict on a program of which each page is written.
fn written(pages: ProgramPages) -> Verdict
    requires { pages.in_place + pages.copied < 2 ^ 64 }
    ensures is { result ≡ written pages }
    ensures small { IsSmall result }
{
    let copied = pages.in_place + pages.copied;
    if copied == 0 {
        return Verdict::InPlace(pages);
    }
    Verdict::Not {
        reason: Reason::Writable,
        pages: copied,
    }
}

/// Returns the verdict on a program with these pages, from `start` on.
fn placed(is_romfs: bool, question: &Question, start: u32, pages: ProgramPages) -> Verdict
    requires { pages.in_place + pages.copied < 2 ^ 64 }
    ensures is { result ≡ placed is_romfs question.now start pages }
    ensures small { IsSmall result }
{
    if pages.fixed == 0 {
        return written(pages);
    }
    if question.no_mmu {
        return Verdict::InPlace(pages);
    }
    let copied = pages.in_place + pages.copied;
    if is_romfs {
        return Verdict::Not {
            reason: Reason::Romfs,
            pages: copied,
        };
    }
    if (question.base % 4_096 + u64::from(start) % 4_096) % 4_096 != 0 {
        return Verdict::Not {
            reason: Reason::Unaligned,
            pages: copied,
        };
    }
    Verdict::InPlace(pages)
}

/// Returns the verdict on a program, by how its pages were counted.
fn judged(
    is_romfs: bool,
    question: &Question,
    start: u32,
    pages: Result<ProgramPages, NoProgram>,
) -> Verdict
    requires { IfOk pages (λ p. p.in_place + p.copied < 2 ^ 64) }
    ensures is { result ≡ judged is_romfs question.now start pages }
    ensures small { IsSmall result }
{
    match pages {
        Ok(pages) => placed(is_romfs, question, start, pages),
        Err(NoProgram::Unloadable) => Verdict::Not {
            reason: Reason::Unloadable,
            pages: 0,
        },
        Err(NoProgram::NotElf | NoProgram::BadTable) => Verdict::Not {
            reason: Reason::Table,
            pages: 0,
        },
    }
}

/// Returns the verdict, if the dynamic linker writes into the text or does not.
fn unless_moved(moved: bool, verdict: Verdict) -> Verdict
    requires { IsSmall verdict }
    ensures { result ≡ unless_moved moved verdict }
{
    match verdict {
        Verdict::InPlace(pages) if moved && pages.fixed > 0 => Verdict::Not {
            reason: Reason::TextRelocations,
            pages: pages.in_place + pages.copied,
        },
        _ => verdict,
    }
}

/// Returns the number of pages of a file of so many bytes.
pub(crate) fn page_count(size: u32) -> u64
    ensures is { result ≡ page_count size }
    ensures few { result ≤ 2 ^ 20 }
{
    (u64::from(size) + 4_095) / 4_096
}

/// Returns the verdict on a program whose file has these bytes, if it begins at an address of the
/// flash, or `None` if they are no program. The machine has an MMU. Of what follows the file
/// nothing is known, so a last page that is not full counts as copied.
#[tactic(auto, unfolding(crate::specs::Found::verdict_at))]
pub fn verdict_at(is_romfs: bool, address: u64, b: &[u8]) -> Option<Verdict>
    requires { length b.now < 2 ^ 48 }
    ensures { result ≡ verdict_at is_romfs address b.now }
{
    if !is_program(elf_kind(b)) {
        return None;
    }
    let question = Question {
        base: address,
        no_mmu: false,
        advice: false,
    };
    let pages = program_pages(b, address, false, 0, b.len());
    let verdict = judged(is_romfs, &question, 0, pages);
    Some(unless_moved(moves_text(b), verdict))
}

/// Returns the `len` bytes from `start` on.
fn bytes_in<'a>(b: &'a [u8], start: usize, len: usize) -> &'a [u8]
    requires { start + len ≤ length b.now }
    ensures { result.now ≡ part_of b.now start len }
{
    match part(b, start, len) {
        Some(bytes) => bytes,
        None => unreachable!(),
    }
}

/// Returns the verdict on a program in the flat format, by its pages.
fn flat_verdict(pages: Option<ProgramPages>) -> Verdict
    ensures { result ≡ flat_verdict pages }
{
    match pages {
        Some(pages) => Verdict::InPlace(pages),
        None => Verdict::Not {
            reason: Reason::Unloadable,
            pages: 0,
        },
    }
}

/// Returns the verdict on a program of `size` bytes that are in one run from `start` on.
fn run_verdict(image: &AnyImage<'_>, question: &Question, start: u32, size: u32) -> Verdict
    requires { start + size ≤ length (any_view image.now).bytes }
    ensures { result ≡ run_verdict image.now question.now start size }
{
    let bytes = image.bytes();
    let file = bytes_in(bytes, start as usize, size as usize);
    if is_flat(file) {
        return flat_verdict(flat_pages(file));
    }
    let (base, no_mmu) = (question.base, question.no_mmu);
    let pages = program_pages(bytes, base, no_mmu, start as usize, size as usize);
    let verdict = judged(is_romfs(image), question, start, pages);
    unless_moved(moves_text(file), verdict)
}

/// Returns the verdict on a program of `size` bytes, of which the first `len` are from `start` on
/// and the next is elsewhere.
fn verdict_in(image: &AnyImage<'_>, question: &Question, start: u32, len: u64, size: u32) -> Verdict
    requires { start + len ≤ length (any_view image.now).bytes }
    ensures { result ≡ verdict_in image.now question.now start len size }
{
    if len != u64::from(size) {
        return Verdict::Not {
            reason: Reason::Scattered,
            pages: page_count(size),
        };
    }
    run_verdict(image, question, start, size)
}

/// Returns what is found of a file of `size` bytes, of which the first `len` are from `start` on
/// and the next is elsewhere, or `None` if it is no program.
fn found_at(
    image: &AnyImage<'_>,
    question: &Question,
    start: u32,
    len: u64,
    size: u32,
) -> Option<Found>
    requires { start + len ≤ length (any_view image.now).bytes }
    ensures is { result ≡ found_at image.now question.now start len size }
    ensures start { IfSome result (λ f. f.start ≡ start) }
{
    let front = bytes_in(image.bytes(), start as usize, len as usize);
    if !is_found(question, front) {
        return None;
    }
    Some(Found {
        start,
        size,
        verdict: verdict_in(image, question, start, len, size),
    })
}

/// Returns what is found of a node, or `None` if it is no program.
pub(crate) fn found_in(image: &AnyImage<'_>, question: &Question, n: NodeId) -> Option<Found>
    requires { HasNode (any_view image.now) n.0 }
    ensures is { (x : Node) → image_node (any_view image.now) n.0 ≡ Some x
        → result ≡ found_in image.now question.now x }
    ensures within { IfSome result (λ f. f.start < length (any_view image.now).bytes) }
{
    if !is_regular_at(image, n) {
        return None;
    }
    let size = image.stat(n).size;
    let (start, len) = longest_run(image, n, 0, u64::from(size));
    if len == 0 {
        return None;
    }
    found_at(image, question, start, len, size)
}

/// Returns whether a page of a program that is not written is not in place, though the program
/// is: the file's last page has other data as well.
pub(crate) fn is_shared(found: &Found) -> bool
    ensures { result ≡ is_shared found.now.verdict }
{
    match found.verdict {
        Verdict::InPlace(pages) => pages.in_place < pages.fixed,
        Verdict::Not { .. } => false,
    }
}
