//! The superblock of an image: the accessible bytes, and the offset of the root.
ghost use Rattle.std.specs.Prelude.{◌≡◌, ◌≤◌, ◌<◌, ◌+◌, ◌^◌, length, IfOk, IfErr, IsTrue, ◌↔◌};
ghost use Rattle.std.specs.Prelude.{take, min, drop, SomeIff, IfSome, option_copied};
ghost use Rattle.rom_fields.specs.Words.{words_sum};
ghost use Rattle.romfs_format.specs.Record.{type_of, before_zero};
ghost use Rattle.romfs_format.specs.Tree.{root_of, IsSuperblock};
ghost use Rattle.romfs_format.specs.Superblock.{accessible, HasSize, HasSum, HasRoot};
ghost use Rattle.romfs_format.specs.Superblock.{HasImageFault};

use crate::accessible::Accessible;
use memchr::memchr;
use rom_fields::{Fault, fault, word_sum};
use romfs_format::superblock::{begins, stated_size};

/// The accessible bytes, if the image can have its stated size.
fn accessible_bytes<'a>(bytes: &'a [u8]) -> Option<&'a [u8]>
    requires { 32 ≤ length bytes.now }
    ensures part { SomeIff (option_copied result) (HasSize bytes.now) (accessible bytes.now) }
    ensures small { IfSome result (λ b. length b.now < 2 ^ 32) }
{
    let size = stated_size(bytes) as usize;
    if size < 32 || bytes.len() < size {
        return None;
    }
    Some(&bytes[..size])
}

/// Whether the words of the first 512 bytes sum to 0.
fn has_sum(b: &[u8]) -> bool
    ensures { IsTrue result ↔ HasSum b.now }
{
    word_sum(&b[..b.len().min(512)]) == 0
}

/// The number of bytes from `at` on before the first zero, if there is a zero.
fn zero_after(b: &[u8], at: usize) -> Option<usize>
    requires { at ≤ length b.now }
    ensures { SomeIff result (at + length (before_zero (drop at b.now)) < length b.now)
        (length (before_zero (drop at b.now))) }
{
    let found = memchr(0, &b[at..]);
    found
}

/// The root's offset, if a zero ends the volume name and a header is behind it.
fn root_offset(b: &[u8]) -> Option<u32>
    requires long { 32 ≤ length b.now }
    requires small { length b.now < 2 ^ 32 }
    ensures { SomeIff result (HasRoot b.now) (root_of b.now) }
{
    let Some(len) = zero_after(b, 16) else {
        return None;
    };
    let root = 16 + (len + 1 + 15) / 16 * 16;
    if b.len() < root + 32 {
        return None;
    }
    Some(root as u32)
}

// The faults of an image as a whole, each at the offset of the word that it is about.
const SHORT: Fault = Fault {
    number: fault::SHORT,
    at: 0,
};

const NO_MAGIC: Fault = Fault {
    number: fault::MAGIC,
    at: 0,
};

const BAD_SIZE: Fault = Fault {
    number: fault::SIZE,
    at: 8,
};

const BAD_SUM: Fault = Fault {
    number: fault::SUM,
    at: 12,
};

const NO_ROOT: Fault = Fault {
    number: fault::ROOT,
    at: 16,
};

/// Returns the accessible bytes with the offset of the root, or the first fault of the image as a
/// whole: 2 Short, 3 Magic, 4 Size, 5 Sum, 9 Root.
pub fn read_superblock<'a>(bytes: &'a [u8]) -> Result<Accessible<'a>, Fault>
    ensures ok { IfOk result (λ b. IsSuperblock bytes.now b.bytes.now b.root) }
    ensures fault { IfErr result (HasImageFault bytes.now) }
{
    if bytes.len() < 32 {
        return Err(SHORT);
    }
    if !begins(bytes) {
        return Err(NO_MAGIC);
    }
    let Some(part) = accessible_bytes(bytes) else {
        return Err(BAD_SIZE);
    };
    if !has_sum(part) {
        return Err(BAD_SUM);
    }
    let Some(root) = root_offset(part) else {
        return Err(NO_ROOT);
    };
    let b = Accessible { bytes: part, root };
    if b.type_at(root as usize) != 1 {
        return Err(Fault {
            number: fault::ROOT,
            at: root,
        });
    }
    Ok(b)
}
