//! The pages of a file that Linux maps for a program header.
ghost use Rattle.std.specs.Prelude.{◌≡◌, ◌+◌, ◌^◌, ◌<◌, ◌≤◌};
ghost use Rattle.elf_format.specs.Loading.{IsInFile, loaded, pages_to, zero_pages};

use crate::program::Program;

/// What Linux maps for a program header.
#[derive(Clone, Copy, Debug, PartialEq, Eq)]
pub enum Loading {
    /// Nothing of the file: it is no segment that is loaded, or one without bytes in the file.
    Nothing,
    /// The program does not load, or has bytes behind the end of the file.
    Refused,
    /// Pages of the file.
    Pages {
        /// The first page.
        first: u64,
        /// The number of pages.
        count: u64,
        /// Whether they can be written: then they are copied.
        writable: bool,
    },
}

/// Returns the number of pages that `n` bytes take from an address on, if there are any.
fn pages_to(address: u64, n: u64) -> u64
    ensures is { result ≡ pages_to address n }
    ensures few { result ≤ 2 ^ 52 + 2 }
{
    n / 4_096 + (address % 4_096 + n % 4_096 + 4_095) / 4_096
}

impl Program {
    /// Returns the number of pages of a segment behind those with bytes of the file. They are of
    /// zeros only.
    pub fn zero_pages(&self) -> u64
        ensures is { result ≡ zero_pages self.now }
        ensures few { result ≤ 2 ^ 52 + 2 }
    {
        if self.kind != 1 {
            return 0;
        }
        pages_to(self.address, self.memory_size).saturating_sub(pages_to(
            self.address,
            self.file_size,
        ))
    }

    /// Returns what Linux maps for the program header, from a file of this many bytes.
    pub fn loading(&self, file: u64) -> Loading
        requires { file < 2 ^ 60 }
        ensures loads { result ≡ loaded file self.now }
        ensures inside { IsInFile file result }
    {
        if self.kind != 1 || self.file_size == 0 {
            return Loading::Nothing;
        }
        if self.offset % 4_096 != self.address % 4_096 || self.memory_size < self.file_size {
            return Loading::Refused;
        }
        if file < self.offset || file - self.offset < self.file_size {
            return Loading::Refused;
        }
        Loading::Pages {
            first: self.offset / 4_096,
            count: (self.address % 4_096 + self.file_size + 4_095) / 4_096,
            writable: self.flags / 2 % 2 == 1,
        }
    }
}
