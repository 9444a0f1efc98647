//! The fields of a file header, read from the accessible bytes of an image (Linux
//! Documentation/filesystems/romfs.rst).
ghost use Rattle.std.specs.Prelude.{◌≡◌, ◌+◌, ◌≤◌, ◌<◌, ◌^◌, length, drop};
ghost use Rattle.rom_fields.specs.Words.{word_be};
ghost use Rattle.romfs_format.specs.Record.{before_zero, end_of, first_of, name_of, next_of};
ghost use Rattle.romfs_format.specs.Record.{size_of, spec_offset_of, type_of};
ghost use Rattle.romfs_format.specs.Made.{start_of};

use byteorder::{BigEndian, ByteOrder};
use memchr::memchr;

/// Reads the big-endian word at `at`.
#[tactic(auto, unfolding(rom_fields::specs::Words::word_be))]
pub fn word(b: &[u8], at: usize) -> u32
    requires { at + 4 ≤ length b.now }
    ensures { result ≡ word_be b.now at }
{
    BigEndian::read_u32(&b[at..])
}

/// Reads the type of the header at `at`, 0 to 7.
#[tactic(auto, unfolding(crate::specs::Record::type_of))]
pub fn type_at(b: &[u8], at: usize) -> u32
    requires { at + 16 ≤ length b.now }
    ensures { result ≡ type_of b.now at }
{
    word(b, at) % 8
}

/// Reads the offset of the next header in the list of the header at `at`, or 0 at the list's end.
#[tactic(auto, unfolding(crate::specs::Record::next_of))]
pub fn next_at(b: &[u8], at: usize) -> u32
    requires { at + 16 ≤ length b.now }
    ensures { result ≡ next_of b.now at }
{
    word(b, at) / 16 * 16
}

/// Reads the offset in the spec of the header at `at`.
#[tactic(auto, unfolding(crate::specs::Record::spec_offset_of))]
pub fn spec_at(b: &[u8], at: usize) -> u32
    requires { at + 16 ≤ length b.now }
    ensures { result ≡ spec_offset_of b.now at }
{
    word(b, at + 4) / 16 * 16
}

/// Reads the size in the header at `at`, in bytes.
#[tactic(auto, unfolding(crate::specs::Record::size_of))]
pub fn size_at(b: &[u8], at: usize) -> u32
    requires { at + 16 ≤ length b.now }
    ensures { result ≡ size_of b.now at }
{
    word(b, at + 8)
}

/// Reads the offset of the first header in the list of the header at `at`, or 0 if that is no
/// directory.
#[tactic(auto, unfolding(crate::specs::Record::first_of))]
pub fn first_at(b: &[u8], at: usize) -> u32
    requires { at + 16 ≤ length b.now }
    ensures { result ≡ first_of b.now at }
{
    if type_at(b, at) == 1 {
        spec_at(b, at)
    } else {
        0
    }
}

/// Reads the offset at which the list of the root begins, without the root itself.
#[tactic(auto, unfolding(crate::specs::Made::start_of, crate::specs::Refers::heads_itself))]
pub fn start_at(b: &[u8], root: u32) -> u32
    requires { root + 16 ≤ length b.now }
    ensures { result ≡ start_of b.now root }
{
    let first = first_at(b, root as usize);
    if first == root {
        next_at(b, root as usize)
    } else {
        first
    }
}

/// Counts the bytes from `at` on before the first zero. There must be one.
fn len_to_zero(b: &[u8], at: usize) -> usize
    requires { at + length (before_zero (drop at b.now)) < length b.now }
    ensures { result ≡ length (before_zero (drop at b.now)) }
{
    let Some(len) = memchr(0, &b[at..]) else {
        unreachable!();
    };
    len
}

/// Reads the offset at which the header at `at` ends with its padded name, and its data begin.
#[tactic(auto, unfolding(crate::specs::Record::name_of, crate::specs::Record::end_of))]
pub fn end_at(b: &[u8], at: u32) -> u32
    requires small { length b.now < 2 ^ 32 }
    requires name { at + 16 + length (name_of b.now at) < length b.now }
    requires within { end_of b.now at ≤ length b.now }
    ensures { result ≡ end_of b.now at }
{
    let len = len_to_zero(b, at as usize + 16);
    at + 16 + (len as u32 + 1 + 15) / 16 * 16
}
