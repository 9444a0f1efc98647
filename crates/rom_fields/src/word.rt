//! Words of 32 bits in a slice of bytes, and parts of a slice.
ghost use Rattle.std.specs.Prelude.{◌≡◌, ◌+◌, ◌-◌, ◌*◌, ◌/◌, ◌^◌, ◌<◌, ◌≤◌, ℕ, length, SomeIff};
ghost use Rattle.std.specs.Prelude.{IsTrue, ◌↔◌, option_copied};
ghost use Rattle.std.specs.Bool.{OnTrue, OnFalse};
ghost use Rattle.rom_fields.specs.Words.{word_be, with_word_be, word_le, with_word_le, words_sum};
ghost use Rattle.rom_fields.specs.Words.{part_of};

use byteorder::{BigEndian, ByteOrder, LittleEndian};

/// Returns the big-endian word at offset `at`, or `None` if its four bytes are not all in `b`.
#[tactic(auto, unfolding(crate::specs::Words::word_be))]
pub fn be32(b: &[u8], at: usize) -> Option<u32>
    ensures { SomeIff result (at + 4 ≤ length b.now) (word_be b.now at) }
{
    let rest = b.get(at..)?;
    if rest.len() < 4 {
        return None;
    }
    Some(BigEndian::read_u32(rest))
}

/// Sets the big-endian word at offset `at`. Returns false, and changes nothing, if its four bytes
/// are not all in `b`.
pub fn put_be32(b: &mut [u8], at: usize, v: u32) -> bool
    ensures fits { IsTrue result ↔ (at + 4 ≤ length b.old) }
    ensures put { OnTrue result (b.new ≡ with_word_be b.old at v) }
    ensures same { OnFalse result (b.new ≡ b.old) }
{
    if b.len() < 4 || b.len() - 4 < at {
        return false;
    }
    BigEndian::write_u32(&mut b[at..], v);
    true
}

/// Returns the little-endian word at offset `at`, or `None` if its four bytes are not all in `b`.
#[tactic(auto, unfolding(crate::specs::Words::word_le))]
pub fn le32(b: &[u8], at: usize) -> Option<u32>
    ensures { SomeIff result (at + 4 ≤ length b.now) (word_le b.now at) }
{
    let rest = b.get(at..)?;
    if rest.len() < 4 {
        return None;
    }
    Some(LittleEndian::read_u32(rest))
}

/// Sets the little-endian word at offset `at`. Returns false, and changes nothing, if its four
/// bytes are not all in `b`.
pub fn put_le32(b: &mut [u8], at: usize, v: u32) -> bool
    ensures fits { IsTrue result ↔ (at + 4 ≤ length b.old) }
    ensures put { OnTrue result (b.new ≡ with_word_le b.old at v) }
    ensures same { OnFalse result (b.new ≡ b.old) }
{
    if b.len() < 4 || at > b.len() - 4 {
        return false;
    }
    LittleEndian::write_u32(&mut b[at..], v);
    true
}

/// Returns the sum modulo 2^32 of the big-endian words from the front. A rest of fewer than four
/// bytes is not counted.
pub fn word_sum(b: &[u8]) -> u32
    ensures { result ≡ words_sum b.now }
{
    let mut sum: u32 = 0;
    let mut rest = b;
    while rest.len() >= 4 {
        sum = sum.wrapping_add(BigEndian::read_u32(rest));
        rest = &rest[4..];
    }
    sum
}

/// Returns the least multiple of `k` that is at least `n`.
pub fn pad(n: u64, k: u64) -> u64
    requires low { 1 ≤ k }
    requires high { k ≤ 65536 }
    requires small { n < 2 ^ 60 }
    ensures value { result ≡ (n + (k - 1)) / k * k }
    ensures multiple { (m : ℕ) × (result ≡ m * k) }
    ensures reaches { n ≤ result }
    ensures near { result < n + k }
    ensures least { (m : ℕ) → n ≤ m * k → result ≤ m * k }
{
    (n + (k - 1)) / k * k
}

/// Returns the `len` bytes from offset `at` on, or `None` if they are not all in `b`.
pub fn part<'a>(b: &'a [u8], at: usize, len: usize) -> Option<&'a [u8]>
    ensures { SomeIff (option_copied result) (at + len ≤ length b.now) (part_of b.now at len) }
{
    if b.len() < at || b.len() - at < len {
        None
    } else {
        Some(&b[at..at + len])
    }
}
