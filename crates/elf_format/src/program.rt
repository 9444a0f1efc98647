//! A program header of an ELF file.
ghost use Rattle.std.specs.Prelude.{◌≡◌, ◌+◌, ◌≤◌, length};
ghost use Rattle.elf_format.specs.Header.{program_in, program_size};

use crate::numbers::{Class, Order};

/// A program header.
#[derive(Clone, Copy, Debug, PartialEq, Eq)]
pub struct Program {
    /// The type: 1 a segment that is loaded, 2 dynamic linking, 3 the name of an interpreter.
    pub kind: u32,
    /// Whether the segment is executable (1), writable (2) and readable (4).
    pub flags: u32,
    /// The offset of its first byte in the file.
    pub offset: u64,
    /// Its address in memory.
    pub address: u64,
    /// The number of its bytes in the file.
    pub file_size: u64,
    /// The number of its bytes in memory.
    pub memory_size: u64,
    /// Its alignment.
    pub align: u64,
}

impl Program {
    /// Reads the program header at an offset.
    #[tactic(auto, unfolding(crate::specs::Header::program_in))]
    pub fn read(class: Class, order: Order, b: &[u8], at: usize) -> Program
        requires { at + program_size class ≤ length b.now }
        ensures { result ≡ program_in class order b.now at }
    {
        match class {
            Class::Bits32 => Program {
                kind: order.word(b, at),
                flags: order.word(b, at + 24),
                offset: class.address(order, b, at + 4),
                address: class.address(order, b, at + 8),
                file_size: class.address(order, b, at + 16),
                memory_size: class.address(order, b, at + 20),
                align: class.address(order, b, at + 28),
            },
            Class::Bits64 => Program {
                kind: order.word(b, at),
                flags: order.word(b, at + 4),
                offset: class.address(order, b, at + 8),
                address: class.address(order, b, at + 16),
                file_size: class.address(order, b, at + 32),
                memory_size: class.address(order, b, at + 40),
                align: class.address(order, b, at + 48),
            },
        }
    }
}
