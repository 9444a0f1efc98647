//! What the dynamic linker writes into the text.
ghost use Rattle.std.specs.Prelude.{◌≡◌, ◌+◌, ◌*◌, ◌≤◌, ◌<◌, ◌^◌, length};
ghost use Rattle.elf_format.specs.Dynamic.{file_moves_text, has_text_tag, is_text_tag, moves_text};
ghost use Rattle.elf_format.specs.Header.{width};

use crate::header::Header;
use crate::numbers::{Class, Order};
use crate::program::Program;

/// Returns whether an entry of this tag and value says that the text has relocations.
fn is_text_tag(tag: u64, value: u64) -> bool
    ensures { result ≡ is_text_tag tag value }
{
    tag == 22 || (tag == 30 && value / 4 % 2 == 1)
}

/// Returns whether one of `count` entries from `at` on does, before the end of the table.
#[tactic(auto, using(crate::proofs::Entries::entry_within, crate::proofs::Entries::entries_on))]
fn has_text_tag(class: Class, order: Order, b: &[u8], count: usize, at: usize) -> bool
    requires { at + count * (2 * width class) ≤ length b.now }
    ensures { result ≡ has_text_tag class order b.now count at }
{
    let size = class.address_size();
    let mut left = count;
    let mut at = at;
    while left > 0 {
        let tag = class.address(order, b, at);
        if tag == 0 {
            return false;
        }
        if is_text_tag(tag, class.address(order, b, at + size)) {
            return true;
        }
        at += 2 * size;
        left -= 1;
    }
    false
}

impl Program {
    /// Returns whether it is a segment for dynamic linking that says that the text has relocations.
    /// `b` is the file.
    #[tactic(auto, unfolding(crate::specs::Dynamic::moves_text))]
    pub fn moves_text(&self, class: Class, order: Order, b: &[u8]) -> bool
        ensures { result ≡ moves_text class order b.now self.now }
    {
        let len = b.len() as u64;
        if self.kind != 2 || len <= self.offset {
            return false;
        }
        let there = self.file_size.min(len - self.offset);
        let entry = 2 * class.address_size() as u64;
        has_text_tag(
            class,
            order,
            b,
            (there / entry) as usize,
            self.offset as usize,
        )
    }
}

/// Returns whether an ELF file says that its text has relocations: then the dynamic linker writes
/// into the pages of the text.
#[tactic(auto, unfolding(crate::specs::Dynamic::file_moves_text))]
pub fn moves_text(b: &[u8]) -> bool
    ensures { result ≡ file_moves_text b.now }
{
    let Ok(header) = Header::read(b) else {
        return false;
    };
    for index in 0..header.count {
        let program = header.program(b, index);
        if program.moves_text(header.class, header.order, b) {
            return true;
        }
    }
    false
}
