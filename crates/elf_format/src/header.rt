//! The header of an ELF file.
ghost use Rattle.std.specs.Prelude.{◌≡◌, ◌<◌, ◌≤◌, length, slice_index, take};
ghost use Rattle.std.specs.Prelude.{IfOk, IfSome, IfNone, IsTrue, ◌↔◌};
ghost use Rattle.elf_format.specs.Header.{BeginsElf, HasPrograms, IsHeader, Reads, class_number};
ghost use Rattle.elf_format.specs.Header.{class_named, header_of, header_size, is_magic, kind_in};
ghost use Rattle.elf_format.specs.Header.{magic, named_in, order_named, order_number, program_at};
ghost use Rattle.elf_format.specs.declared.numbers.Class.{Class};
ghost use Rattle.elf_format.specs.declared.numbers.Order.{Order};

use crate::error::ElfError;
use crate::numbers::{Class, Order};
use crate::program::Program;

/// The header of an ELF file, as far as it leads to the program headers.
#[derive(Clone, Copy, Debug, PartialEq, Eq)]
pub struct Header {
    /// Whether addresses have 32 or 64 bits.
    pub class: Class,
    /// The byte order.
    pub order: Order,
    /// The type: 1 an object, 2 a program at a fixed address, 3 a program or library at any.
    pub kind: u16,
    /// The offset of the first program header.
    pub table: u64,
    /// The number of program headers.
    pub count: u16,
}

/// Returns the class that a byte names.
fn class_named(number: u8) -> Option<Class>
    ensures some { IfSome result (λ c. number ≡ class_number c) }
    ensures none { IfNone result ((c : Class) → number ≡ class_number c → ⊥) }
    ensures is { result ≡ class_named number }
{
    match number {
        1 => Some(Class::Bits32),
        2 => Some(Class::Bits64),
        _ => None,
    }
}

/// Returns the byte order that a byte names.
fn order_named(number: u8) -> Option<Order>
    ensures some { IfSome result (λ o. number ≡ order_number o) }
    ensures none { IfNone result ((o : Order) → number ≡ order_number o → ⊥) }
    ensures is { result ≡ order_named number }
{
    match number {
        1 => Some(Order::Little),
        2 => Some(Order::Big),
        _ => None,
    }
}

/// Returns whether the bytes begin with the magic of ELF.
fn begins(b: &[u8]) -> bool
    requires { 4 ≤ length b.now }
    ensures begins { IsTrue result ↔ (take 4 b.now ≡ magic) }
    ensures is { result ≡ is_magic b.now }
{
    b[0] == 0x7f && b[1] == b'E' && b[2] == b'L' && b[3] == b'F'
}

/// Returns the class and the byte order of the header with which the bytes begin.
#[tactic(auto, unfolding(crate::specs::Header::named_in))]
fn named(b: &[u8]) -> Option<(Class, Order)>
    ensures some { IfSome result (λ named. BeginsElf b.now named.0 named.1) }
    ensures none { IfNone result ((c : Class) (o : Order) → BeginsElf b.now c o → ⊥) }
    ensures is { result ≡ named_in b.now }
{
    if b.len() < 52 || !begins(b) {
        return None;
    }
    let class = class_named(b[4])?;
    let order = order_named(b[5])?;
    if b.len() < class.header_size() {
        return None;
    }
    Some((class, order))
}

/// Returns the type of an ELF file: 1 an object, 2 a program at a fixed address, 3 a program or
/// library at any. Returns `None` if the bytes do not begin with the header of one.
#[tactic(auto, unfolding(crate::specs::Header::type_of))]
pub fn elf_kind(b: &[u8]) -> Option<u16>
    ensures { result ≡ kind_in b.now }
{
    let (_, order) = named(b)?;
    Some(order.half(b, 16))
}

impl Header {
    /// Reads the header of a file.
    ///
    /// # Errors
    ///
    /// `NotElf` if the file does not begin with one. `Table` if its table of program headers is
    /// empty, larger than a page, of entries of another size, or not in the file.
    #[tactic(auto, unfolding(crate::specs::Header::type_of, crate::specs::Header::table_of, crate::specs::Header::count_of, crate::specs::Header::entry_size_of, crate::specs::Header::header_of))]
    pub fn read(b: &[u8]) -> Result<Header, ElfError>
        ensures reads { Reads b.now result }
        ensures is { result ≡ header_of b.now }
        ensures few { IfOk result (λ h. h.count ≤ 128) }
    {
        let Some((class, order)) = named(b) else {
            return Err(ElfError::NotElf);
        };
        let header = match class {
            Class::Bits32 => Header {
                class,
                order,
                kind: order.half(b, 16),
                table: order.word(b, 28) as u64,
                count: order.half(b, 44),
            },
            Class::Bits64 => Header {
                class,
                order,
                kind: order.half(b, 16),
                table: order.long(b, 32),
                count: order.half(b, 56),
            },
        };
        let entry = match class {
            Class::Bits32 => order.half(b, 42),
            Class::Bits64 => order.half(b, 54),
        };
        let size = header.count as usize * class.program_size();
        if entry as usize != class.program_size() || size == 0 || size > 4_096 {
            return Err(ElfError::Table);
        }
        if b.len() < size {
            return Err(ElfError::Table);
        }
        let last = (b.len() - size) as u64;
        if last < header.table {
            return Err(ElfError::Table);
        }
        Ok(header)
    }

    /// Reads the program header of an index.
    pub fn program(&self, b: &[u8], index: u16) -> Program
        requires header { IsHeader b.now self.now }
        requires within { index < self.now.count }
        ensures { result ≡ program_at b.now self.now index }
    {
        let place = self.table as usize + index as usize * self.class.program_size();
        Program::read(self.class, self.order, b, place)
    }
}
