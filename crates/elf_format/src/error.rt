//! Why bytes have no program headers.

/// Why no program headers were read.
#[derive(Clone, Copy, Debug, PartialEq, Eq)]
pub enum ElfError {
    /// The bytes do not begin with the header of an ELF file.
    NotElf,
    /// The table of program headers is empty, too large, of another entry size or not in the file.
    Table,
}
