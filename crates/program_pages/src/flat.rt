//! The pages of a program in the flat format of kernels without an MMU.
ghost use Rattle.std.specs.Prelude.{◌≡◌, ◌+◌, ◌≤◌, ◌<◌, ◌^◌, length, IfSome};
ghost use Rattle.rom_fields.specs.Words.{word_be};
ghost use Rattle.program_pages.specs.Flat.{flat_of, is_flat, is_in_ram, is_laid, pages_in};

use crate::counting::ProgramPages;
use rom_fields::be32;

/// The most bytes of a part of a program, and one more.
const MOST: u32 = 1 << 28;

/// Returns whether a file begins with the header of the flat format.
pub fn is_flat(b: &[u8]) -> bool
    ensures { result ≡ is_flat b.now }
{
    b.len() >= 64 && b[0] == b'b' && b[1] == b'F' && b[2] == b'L' && b[3] == b'T'
}

/// Returns the big-endian word at an offset.
fn word(b: &[u8], at: usize) -> u32
    requires { at + 4 ≤ length b.now }
    ensures { result ≡ word_be b.now at }
{
    match be32(b, at) {
        Some(word) => word,
        None => unreachable!(),
    }
}

/// Returns whether Linux loads a file of so many bytes whose text, data and zeros end there.
fn is_laid(size: usize, text: u32, init: u32, bss: u32) -> bool
    ensures { result ≡ is_laid size text init bss }
{
    if text < 64 || size < text as usize || init < text || bss < init {
        return false;
    }
    text < MOST && init - text < MOST && bss - init < MOST
}

/// Returns the number of pages of so many bytes.
fn pages_in(n: u32) -> u64
    ensures is { result ≡ pages_in n }
    ensures few { result ≤ 2 ^ 20 }
{
    (u64::from(n) + 4_095) / 4_096
}

/// Returns whether these flags say that the whole program is read into memory.
fn is_in_ram(flags: u32) -> bool
    ensures { result ≡ is_in_ram flags }
{
    flags % 2 == 1 || flags / 4 % 2 == 1
}

/// Counts the pages of a program in the flat format, or returns `None` if Linux does not load it.
/// `b` is its file. Its text is in place, unless its flags say that it is read into memory.
#[tactic(auto, unfolding(crate::specs::Flat::flat_of))]
pub fn flat_pages(b: &[u8]) -> Option<ProgramPages>
    requires { 64 ≤ length b.now }
    ensures is { result ≡ flat_of b.now }
    ensures small { IfSome result (λ p. p.in_place + p.copied ≤ 2 ^ 48) }
{
    let (text, init, bss) = (word(b, 12), word(b, 16), word(b, 20));
    if word(b, 4) != 4 || !is_laid(b.len(), text, init, bss) {
        return None;
    }
    let zero = pages_in(bss - text).saturating_sub(pages_in(init - text));
    let used = b.len() as u64;
    if is_in_ram(word(b, 36)) {
        return Some(ProgramPages {
            in_place: 0,
            copied: pages_in(init),
            fixed: 0,
            zero,
            used,
        });
    }
    Some(ProgramPages {
        in_place: pages_in(text),
        copied: pages_in(init - text),
        fixed: pages_in(text),
        zero,
        used,
    })
}
