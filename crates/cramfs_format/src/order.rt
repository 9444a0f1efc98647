//! The byte order of an image.
ghost use Rattle.std.specs.Prelude.{◌≡◌, ◌+◌, ◌-◌, ◌≤◌, ◌<◌, ◌*◌, ◌^◌, length};
ghost use Rattle.cramfs_format.specs.Order.{word as word_of, with_word, first_field, field_after};
ghost use Rattle.cramfs_format.specs.Order.{packed};

use byteorder::{BigEndian, ByteOrder, LittleEndian};
use rom_fields::{put_be32, put_le32};

/// The byte order of a cramfs image, which is that of the machine that it is made for. It
/// determines how four bytes make a word, and at which end of a word its first field is.
#[derive(Clone, Copy, PartialEq, Eq)]
pub enum Order {
    /// The first byte of a word and the first field of a word are its lowest bits.
    Little,
    /// The first byte of a word and the first field of a word are its highest bits.
    Big,
}

impl Order {
    /// Reads the word at offset `at`.
    #[tactic(auto, unfolding(crate::specs::Order::word, rom_fields::specs::Words::word_le, rom_fields::specs::Words::word_be))]
    pub fn word(self, b: &[u8], at: usize) -> u32
        requires { at + 4 ≤ length b.now }
        ensures { result ≡ word_of self b.now at }
    {
        match self {
            Order::Little => LittleEndian::read_u32(&b[at..]),
            Order::Big => BigEndian::read_u32(&b[at..]),
        }
    }

    /// Writes a word over the four bytes from `at` on.
    #[tactic(auto, unfolding(crate::specs::Order::with_word))]
    pub fn put_word(self, b: &mut [u8], at: usize, word: u32)
        requires { at + 4 ≤ length b.old }
        ensures { b.new ≡ with_word self b.old at word }
    {
        match self {
            Order::Little => {
                let _ = put_le32(b, at, word);
            }
            Order::Big => {
                let _ = put_be32(b, at, word);
            }
        }
    }

    /// Returns the word whose first field, of `bits` bits, is `first`, and whose other field is
    /// `rest`. The result has 64 bits; if both fields fit, it is below 2^32.
    pub fn packed(self, bits: u32, first: u64, rest: u64) -> u64
        requires some { 0 < bits }
        requires few { bits < 32 }
        requires first { first < 2 ^ 60 }
        requires rest { rest < 2 ^ 60 }
        requires big { first * 2 ^ (32 - bits) < 2 ^ 60 }
        requires little { rest * 2 ^ bits < 2 ^ 60 }
        ensures { result ≡ packed self bits first rest }
    {
        match self {
            Order::Little => first + rest * (1 << bits),
            Order::Big => first * (1 << (32 - bits)) + rest,
        }
    }

    /// Returns the first field of a word, of `bits` bits.
    pub fn first_field(self, bits: u32, word: u32) -> u32
        requires some { 0 < bits }
        requires few { bits < 32 }
        ensures field { result ≡ first_field self bits word }
        ensures small { result < 2 ^ bits }
    {
        match self {
            Order::Little => word % (1 << bits),
            Order::Big => word >> (32 - bits),
        }
    }

    /// Returns the field after a first field of `bits` bits.
    pub fn field_after(self, bits: u32, word: u32) -> u32
        requires some { 0 < bits }
        requires few { bits < 32 }
        ensures field { result ≡ field_after self bits word }
        ensures small { result < 2 ^ (32 - bits) }
    {
        match self {
            Order::Little => word >> bits,
            Order::Big => word % (1 << (32 - bits)),
        }
    }
}
