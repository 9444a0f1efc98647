//! The pages of a mapping that Linux maps to the flash.
ghost use Rattle.std.specs.Prelude.{◌≡◌, ◌+◌, ◌-◌, ◌≤◌, ◌<◌, ◌^◌, ℕ, List, length, drop};
ghost use Rattle.program_pages.specs.InPlace.{pages_in_place};
ghost use Rattle.program_pages.specs.Physmem.{Flash, begins_with_zeros, shares_page};

use rom_fields::part;

/// Pages of a file that are to be mapped.
#[derive(Clone, Copy, Debug, PartialEq, Eq)]
pub struct Mapping {
    /// The first page.
    pub first: u64,
    /// The number of pages.
    pub count: u64,
    /// Whether they can be written.
    pub writable: bool,
}

/// Returns whether all bytes are zeros.
#[tactic(auto, using(crate::proofs::Zeros::zeros_on, crate::proofs::Zeros::zeros_off))]
fn are_zeros(b: &[u8]) -> bool
    ensures { result ≡ begins_with_zeros (length b.now) b.now }
{
    for x in b {
        if *x != 0 {
            return false;
        }
    }
    true
}

/// Returns whether the `n` bytes from `at` on are there, and are zeros.
#[tactic(auto, using(crate::proofs::Zeros::zeros_part, crate::proofs::Zeros::zeros_past))]
fn has_zeros(b: &[u8], at: usize, n: usize) -> bool
    ensures { result ≡ begins_with_zeros n (drop at b.now) }
{
    match part(b, at, n) {
        Some(front) => are_zeros(front),
        None => n == 0,
    }
}

/// Returns whether the last page of a file of `size` bytes, which ends at `end`, has other bytes
/// than zeros behind the file.
pub(crate) fn shares_page(b: &[u8], end: usize, size: usize) -> bool
    ensures { result ≡ shares_page b.now end size }
{
    let partial = size % 4_096;
    partial != 0 && !has_zeros(b, end, 4_096 - partial)
}

/// Returns how many pages of the mapping Linux maps to the flash, of a file of `size` bytes from
/// `start` on. `b` are the bytes of the flash, and `address` is where they begin.
pub(crate) fn pages_in_place(
    b: &[u8],
    address: u64,
    start: usize,
    size: usize,
    mapping: &Mapping,
) -> u64
    requires start { start < 2 ^ 60 }
    requires size { size < 2 ^ 60 }
    requires count { mapping.now.count < 2 ^ 60 }
    ensures pages { (f : Flash) → f.bytes ≡ b.now → f.address ≡ address
        → result ≡ pages_in_place f start size mapping.now }
    ensures few { result ≤ mapping.now.count }
{
    let blocks = (size as u64 + 4_095) / 4_096;
    if mapping.writable || mapping.first >= blocks {
        return 0;
    }
    if (address % 4_096 + start as u64 % 4_096) % 4_096 != 0 {
        return 0;
    }
    let left = blocks - mapping.first;
    let pages = mapping.count.min(left);
    if mapping.first + pages == blocks && shares_page(b, start + size, size) {
        return pages.saturating_sub(1);
    }
    pages
}
