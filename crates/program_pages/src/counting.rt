//! The pages of a program.
ghost use Rattle.std.specs.Prelude.{◌≡◌, ◌+◌, ◌≤◌, ◌<◌, ◌^◌, length, IfSome, IfOk};
ghost use Rattle.rom_fields.specs.Words.{part_of};
ghost use Rattle.elf_format.specs.Header.{IsHeader};
ghost use Rattle.program_pages.specs.Counted.{dynamic_among, flash_at, is_dynamic, is_linked};
ghost use Rattle.program_pages.specs.Counted.{is_zeroed, kept, pages_of, placed_in, plus};
ghost use Rattle.program_pages.specs.Counted.{segment_of};

use crate::mapping::{Mapping, pages_in_place};
use elf_format::{ElfError, Header, Loading, Program};
use rom_fields::part;

/// The pages of 4,096 bytes of a program by what Linux does with them.
#[derive(Clone, Copy, Debug, PartialEq, Eq)]
pub struct ProgramPages {
    /// The pages that are mapped to the flash.
    pub in_place: u64,
    /// The pages that are read into memory when they are used.
    pub copied: u64,
    /// The pages that are not written, among both of them.
    pub fixed: u64,
    /// The pages of zeros only, which are not in the file.
    pub zero: u64,
    /// The number of the file's bytes up to the end of the last segment.
    pub used: u64,
}

/// Why a file is no program that Linux executes.
#[derive(Clone, Copy, Debug, PartialEq, Eq)]
pub enum NoProgram {
    /// The file is no ELF file.
    NotElf,
    /// Its table of program headers is none that Linux loads.
    BadTable,
    /// Linux does not load one of its segments, or the segment is not wholly in the file.
    Unloadable,
}

impl ProgramPages {
    /// No pages.
    const NONE: ProgramPages = ProgramPages {
        in_place: 0,
        copied: 0,
        fixed: 0,
        zero: 0,
        used: 0,
    };

    /// Returns the sums of the pages of both, and the greater end.
    fn plus(&self, more: &ProgramPages) -> ProgramPages
        requires in_place { self.now.in_place + more.now.in_place < 2 ^ 64 }
        requires copied { self.now.copied + more.now.copied < 2 ^ 64 }
        requires fixed { self.now.fixed + more.now.fixed < 2 ^ 64 }
        requires zero { self.now.zero + more.now.zero < 2 ^ 64 }
        ensures { result ≡ plus self.now more.now }
    {
        ProgramPages {
            in_place: self.in_place + more.in_place,
            copied: self.copied + more.copied,
            fixed: self.fixed + more.fixed,
            zero: self.zero + more.zero,
            used: self.used.max(more.used),
        }
    }
}

/// Returns how many pages of a mapping are in place, of the file of `size` bytes from `start` on.
fn placed(
    flash: &[u8],
    address: u64,
    no_mmu: bool,
    start: usize,
    size: usize,
    mapping: &Mapping,
) -> u64
    requires start { start < 2 ^ 48 }
    requires size { size < 2 ^ 48 }
    requires count { mapping.now.count < 2 ^ 48 }
    ensures pages { result ≡ placed_in (flash_at flash.now address) no_mmu start size mapping.now }
    ensures few { result ≤ mapping.now.count }
{
    if no_mmu {
        return if mapping.writable { 0 } else { mapping.count };
    }
    pages_in_place(flash, address, start, size, mapping)
}

/// Returns whether a program header leads to what the dynamic linker reads.
fn is_dynamic(program: &Program) -> bool
    ensures { result ≡ is_dynamic program.now }
{
    program.kind == 2 && program.file_size > 0
}

/// Returns whether a file has such a program header.
fn has_dynamic(b: &[u8], header: &Header) -> bool
    requires { IsHeader b.now header.now }
    ensures { result ≡ dynamic_among b.now header.now header.now.count }
{
    for number in 0..header.count {
        let program = header.program(b, number);
        if is_dynamic(&program) {
            return true;
        }
    }
    false
}

/// Returns whether the dynamic linker loads a file with this header, and may write into its pages.
fn is_linked(no_mmu: bool, b: &[u8], header: &Header) -> bool
    requires { IsHeader b.now header.now }
    ensures { result ≡ is_linked no_mmu b.now header.now }
{
    !no_mmu && header.kind == 3 && has_dynamic(b, header)
}

/// Returns whether the dynamic linker writes zeros into the last page of a segment, behind the
/// bytes of the file.
fn is_zeroed(linked: bool, program: &Program) -> bool
    ensures { result ≡ is_zeroed linked program.now }
{
    linked
        && program.file_size < program.memory_size
        && (program.address % 4_096 + program.file_size % 4_096) % 4_096 != 0
}

/// Returns how many of the first `placed` of `count` pages stay in place, if the last one of them
/// all is written or not.
fn kept(zeroed: bool, count: u64, placed: u64) -> u64
    ensures is { result ≡ kept zeroed count placed }
    ensures few { result ≤ placed }
{
    if zeroed {
        placed.min(count.saturating_sub(1))
    } else {
        placed
    }
}

/// Returns the pages of a program header of the file of `size` bytes from `start` on, or `None` if
/// Linux does not load it. The dynamic linker loads the file, or does not.
fn segment(
    flash: &[u8],
    address: u64,
    no_mmu: bool,
    start: usize,
    size: usize,
    linked: bool,
    program: &Program,
) -> Option<ProgramPages>
    requires start { start < 2 ^ 48 }
    requires size { size < 2 ^ 48 }
    ensures is { result
        ≡ segment_of (flash_at flash.now address) no_mmu start size linked program.now }
    ensures in_place { IfSome result (λ s. s.in_place ≤ 2 ^ 40) }
    ensures copied { IfSome result (λ s. s.copied ≤ 2 ^ 40) }
    ensures fixed { IfSome result (λ s. s.fixed ≤ 2 ^ 40) }
    ensures zero { IfSome result (λ s. s.zero ≤ 2 ^ 53) }
    ensures used { IfSome result (λ s. s.used ≤ size) }
{
    let zero = program.zero_pages();
    match program.loading(size as u64) {
        Loading::Nothing => Some(ProgramPages {
            in_place: 0,
            copied: 0,
            fixed: 0,
            zero,
            used: 0,
        }),
        Loading::Refused => None,
        Loading::Pages {
            first,
            count,
            writable,
        } => {
            let mapping = Mapping {
                first,
                count,
                writable,
            };
            let zeroed = is_zeroed(linked, program);
            let placed = placed(flash, address, no_mmu, start, size, &mapping);
            let in_place = kept(zeroed, count, placed);
            Some(ProgramPages {
                in_place,
                copied: count - in_place,
                fixed: if writable {
                    0
                } else {
                    kept(zeroed, count, count)
                },
                zero,
                used: program.offset + program.file_size,
            })
        }
    }
}

/// Returns the `size` bytes from `start` on.
fn file_in<'a>(flash: &'a [u8], start: usize, size: usize) -> &'a [u8]
    requires { start + size ≤ length flash.now }
    ensures { result.now ≡ part_of flash.now start size }
{
    match part(flash, start, size) {
        Some(b) => b,
        None => unreachable!(),
    }
}

/// Counts the pages of the program whose file has `size` bytes from `start` on. `flash` are the
/// bytes of the flash from the image on, and `address` is where they begin. Without an MMU all
/// pages that cannot be written are in place. With one, the dynamic linker may write zeros into the
/// last page of a segment of a library that cannot be written: this page is copied.
///
/// # Errors
///
/// `NotElf` if the file is no ELF file. `BadTable` and `Unloadable` if it is, but Linux does not
/// load it.
pub fn program_pages(
    flash: &[u8],
    address: u64,
    no_mmu: bool,
    start: usize,
    size: usize,
) -> Result<ProgramPages, NoProgram>
    requires within { start + size ≤ length flash.now }
    requires start { start < 2 ^ 48 }
    requires size { size < 2 ^ 48 }
    ensures is { result ≡ pages_of (flash_at flash.now address) no_mmu start size }
    ensures small { IfOk result (λ p. p.in_place + p.copied ≤ 2 ^ 48) }
    ensures within { IfOk result (λ p. p.used ≤ size) }
{
    let b = file_in(flash, start, size);
    let header = match Header::read(b) {
        Ok(header) => header,
        Err(ElfError::NotElf) => return Err(NoProgram::NotElf),
        Err(ElfError::Table) => return Err(NoProgram::BadTable),
    };
    let linked = is_linked(no_mmu, b, &header);
    let mut pages = ProgramPages::NONE;
    for index in 0..header.count {
        let program = header.program(b, index);
        let Some(more) = segment(flash, address, no_mmu, start, size, linked, &program) else {
            return Err(NoProgram::Unloadable);
        };
        pages = pages.plus(&more);
    }
    Ok(pages)
}
