//! Programs and libraries that Linux can execute in place.
ghost use Rattle.std.specs.Prelude.{◌≡◌};
ghost use Rattle.elf_format.specs.InPlace.{is_flat, needs_pages};

use crate::mapped::has_fixed;

/// The most bytes at the front of a file that are read to see whether it is such a program.
pub const HEAD_LEN: u64 = 1 << 24;

/// Whether the bytes begin as a file in the flat format of kernels without an MMU.
fn is_flat(b: &[u8]) -> bool
    ensures { result ≡ is_flat b.now }
{
    b.len() >= 4 && b[0] == b'b' && b[1] == b'F' && b[2] == b'L' && b[3] == b'T'
}

/// Returns whether a file of these bytes needs pages of its own to be executed in place: it is an
/// ELF program or library with a segment that cannot be written, or a program in the flat format.
/// The bytes may be a front of the file with all program headers.
pub fn needs_pages(b: &[u8]) -> bool
    ensures { result ≡ needs_pages b.now }
{
    is_flat(b) || has_fixed(b)
}
