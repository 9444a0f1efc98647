//! The entries of a segment for dynamic linking.
ghost use Rattle.std.specs.Prelude.{◌≡◌, ◌<◌, ◌≤◌, length, take_while};
ghost use Rattle.elf_format.specs.Needs.{entries, entry_at, is_entry, run_path_of, value_of};
ghost use Rattle.elf_format.specs.Table.{IsTable, table_rows};

use crate::header::Header;
use crate::numbers::{Class, Order};
use crate::program::Program;

/// The tag of the directories of libraries.
const RUN_PATH: u64 = 29;

/// The older tag of them.
const OLD_RUN_PATH: u64 = 15;

/// Where entries are, each of a tag and a value.
#[derive(Clone, Copy, Debug, PartialEq, Eq)]
pub(crate) struct Table {
    class: Class,
    order: Order,
    at: usize,
    count: usize,
}

impl Table {
    /// Returns the entries of a segment, up to one of tag 0.
    pub(crate) fn read(header: &Header, b: &[u8], segment: &Program) -> Table
        requires { segment.now.offset ≤ length b.now }
        ensures is { table_rows b.now result ≡ entries b.now header.now segment.now }
        ensures within { IsTable b.now result }
    {
        let there = segment.file_size.min(b.len() as u64 - segment.offset);
        let size = 2 * header.class.address_size() as u64;
        let whole = Table {
            class: header.class,
            order: header.order,
            at: segment.offset as usize,
            count: (there / size) as usize,
        };
        whole.cut(b)
    }

    /// Returns the entries before the first of tag 0.
    fn cut(&self, b: &[u8]) -> Table
        requires { IsTable b.now self.now }
        ensures is { table_rows b.now result ≡ take_while is_entry (table_rows b.now self.now) }
        ensures within { IsTable b.now result }
    {
        for index in 0..self.count {
            let (tag, _) = self.entry(b, index);
            if tag == 0 {
                return Table {
                    class: self.class,
                    order: self.order,
                    at: self.at,
                    count: index,
                };
            }
        }
        *self
    }

    /// Returns the number of entries.
    pub(crate) fn count(&self) -> usize
        ensures { result ≡ self.now.count }
    {
        self.count
    }

    /// Returns the tag and the value of an entry.
    pub(crate) fn entry(&self, b: &[u8], index: usize) -> (u64, u64)
        requires within { IsTable b.now self.now }
        requires before { index < self.now.count }
        ensures { result ≡ entry_at self.now.class self.now.order b.now self.now.at index }
    {
        let size = self.class.address_size();
        let place = self.at + index * (2 * size);
        let tag = self.class.address(self.order, b, place);
        (tag, self.class.address(self.order, b, place + size))
    }

    /// Returns the value of the first entry of a tag.
    pub(crate) fn value_of(&self, b: &[u8], tag: u64) -> Option<u64>
        requires { IsTable b.now self.now }
        ensures { result ≡ value_of tag (table_rows b.now self.now) }
    {
        for index in 0..self.count {
            let (found, value) = self.entry(b, index);
            if found == tag {
                return Some(value);
            }
        }
        None
    }

    /// Returns the value of the entry for the directories of libraries.
    pub(crate) fn run_path(&self, b: &[u8]) -> Option<u64>
        requires { IsTable b.now self.now }
        ensures { result ≡ run_path_of (table_rows b.now self.now) }
    {
        let Some(value) = self.value_of(b, RUN_PATH) else {
            return self.value_of(b, OLD_RUN_PATH);
        };
        Some(value)
    }
}
