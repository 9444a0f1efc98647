//! The libraries that a program needs.
ghost use Rattle.std.specs.Prelude.{◌≡◌, ◌+◌, ◌<◌, ◌≤◌, None, drop, length};
ghost use Rattle.std.specs.Prelude.{option_map, slice_index_or};
ghost use Rattle.elf_format.specs.Needs.{library, needs_of, text};

use crate::header::Header;
use crate::table::Table;
use crate::texts::text;
use std::marker::Model;

/// The type of the segment for dynamic linking.
const DYNAMIC: u32 = 2;

/// The tag of the address of the string table.
const STRINGS: u64 = 5;

/// The tag of the name of a library.
const NEEDED: u64 = 1;

/// What the dynamic segment of an ELF file says that the program or library needs: the names of
/// libraries, and the directories in which they are looked for. Contracts see the texts.
#[derive(Drop)]
pub struct Needs<'a> {
    b: &'a [u8],
    table: Table,
    strings: usize,
}

impl<'a> Model for Needs<'a> {
    ghost use Rattle.std.specs.Prelude.{◌≤◌, length};
    ghost use Rattle.elf_format.specs.Needs.{Needed, needs_in};
    ghost use Rattle.elf_format.specs.Table.{IsTable, table_rows};

    ghost Value = { Needed };

    ghost view = { λ n. needs_in n.b.now n.strings (table_rows n.b.now n.table) };

    ghost invariant = { λ n. IsTable n.b.now n.table × (n.strings ≤ length n.b.now) };
}

/// Returns the text at an offset in a string table, if it is in the file and ends there.
fn text_in(b: &[u8], strings: usize, offset: u64) -> Option<&[u8]>
    requires { strings ≤ length b.now }
    ensures { option_map (λ t. t.now) result ≡ text (drop (strings + offset) b.now) }
{
    if (b.len() - strings) as u64 <= offset {
        return None;
    }
    text(&b[strings + offset as usize..])
}

/// Returns the library that an entry of this tag and value names.
fn library(b: &[u8], strings: usize, tag: u64, value: u64) -> Option<&[u8]>
    requires { strings ≤ length b.now }
    ensures { option_map (λ t. t.now) result ≡ library b.now strings (tag, value) }
{
    if tag == NEEDED {
        return text_in(b, strings, value);
    }
    None
}

impl<'a> Needs<'a> {
    /// Reads what an ELF file needs. Returns `None` if the file is none, or has no dynamic segment
    /// or no string table.
    #[tactic(auto, unfolding(crate::specs::Needs::needs_of))]
    pub fn read(b: &'a [u8]) -> Option<Needs<'a>>
        ensures { result ≡ needs_of b.now }
    {
        let Ok(header) = Header::read(b) else {
            return None;
        };
        let segment = header.segment(b, DYNAMIC)?;
        let table = Table::read(&header, b, &segment);
        let address = table.value_of(b, STRINGS)?;
        let strings = header.place_of(b, address)?;
        Some(Needs { b, table, strings })
    }

    /// Returns the number of entries of the dynamic segment, each of which may name a library.
    pub fn entries(&self) -> usize
        ensures { result ≡ length self.now.needed }
    {
        self.table.count()
    }

    /// Returns the library that the entry of an index names, in the order in which they are loaded.
    /// Returns `None` if it is another entry, or its text is not in the file.
    pub fn needed(&self, index: usize) -> Option<&'a [u8]>
        requires { index < length self.now.needed }
        ensures { option_map (λ t. t.now) result ≡ slice_index_or self.now.needed index None }
    {
        let (tag, value) = self.table.entry(self.b, index);
        library(self.b, self.strings, tag, value)
    }

    /// Returns the directories in which the libraries are looked for, with a colon between two.
    /// Returns `None` if the file says none, or their text is not in the file.
    pub fn run_path(&self) -> Option<&'a [u8]>
        ensures { option_map (λ t. t.now) result ≡ self.now.run_path }
    {
        let offset = self.table.run_path(self.b)?;
        text_in(self.b, self.strings, offset)
    }
}
