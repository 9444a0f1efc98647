//! The classes and byte orders of ELF files, and the numbers in them.
ghost use Rattle.std.specs.Prelude.{◌≡◌, ◌+◌, ◌≤◌, ◌<◌, ◌^◌, length};
ghost use Rattle.elf_format.specs.Header.{header_size, number, program_size, width};

use byteorder::{BigEndian, ByteOrder, LittleEndian};

/// Whether addresses have 32 or 64 bits.
#[derive(Clone, Copy, Debug, PartialEq, Eq)]
pub enum Class {
    /// Addresses and offsets of 32 bits.
    Bits32,
    /// Addresses and offsets of 64 bits.
    Bits64,
}

/// The byte order of all numbers in a file.
#[derive(Clone, Copy, Debug, PartialEq, Eq)]
pub enum Order {
    /// The lowest byte first.
    Little,
    /// The highest byte first.
    Big,
}

impl Order {
    /// Reads a number of 2 bytes.
    #[tactic(auto, unfolding(crate::specs::Header::number))]
    pub fn half(self, b: &[u8], at: usize) -> u16
        requires { at + 2 ≤ length b.now }
        ensures { result ≡ number self 2 b.now at }
    {
        match self {
            Order::Little => LittleEndian::read_u16(&b[at..]),
            Order::Big => BigEndian::read_u16(&b[at..]),
        }
    }

    /// Reads a number of 4 bytes.
    #[tactic(auto, unfolding(crate::specs::Header::number))]
    pub fn word(self, b: &[u8], at: usize) -> u32
        requires { at + 4 ≤ length b.now }
        ensures { result ≡ number self 4 b.now at }
    {
        match self {
            Order::Little => LittleEndian::read_u32(&b[at..]),
            Order::Big => BigEndian::read_u32(&b[at..]),
        }
    }

    /// Reads a number of 8 bytes.
    #[tactic(auto, unfolding(crate::specs::Header::number))]
    pub fn long(self, b: &[u8], at: usize) -> u64
        requires { at + 8 ≤ length b.now }
        ensures { result ≡ number self 8 b.now at }
    {
        match self {
            Order::Little => LittleEndian::read_u64(&b[at..]),
            Order::Big => BigEndian::read_u64(&b[at..]),
        }
    }
}

impl Class {
    /// Returns the size of a header.
    pub fn header_size(self) -> usize
        ensures { result ≡ header_size self }
    {
        match self {
            Class::Bits32 => 52,
            Class::Bits64 => 64,
        }
    }

    /// Returns the size of a program header.
    pub fn program_size(self) -> usize
        ensures { result ≡ program_size self }
    {
        match self {
            Class::Bits32 => 32,
            Class::Bits64 => 56,
        }
    }

    /// Returns the size of an address.
    pub fn address_size(self) -> usize
        ensures { result ≡ width self }
    {
        match self {
            Class::Bits32 => 4,
            Class::Bits64 => 8,
        }
    }

    /// Reads an address, an offset or a size.
    pub fn address(self, order: Order, b: &[u8], at: usize) -> u64
        requires { at + width self ≤ length b.now }
        ensures { result ≡ number order (width self) b.now at }
    {
        match self {
            Class::Bits32 => order.word(b, at) as u64,
            Class::Bits64 => order.long(b, at),
        }
    }
}
