//! The fields of a line that is printed.

use crate::Word;

/// The fields of a line. Those that its word lacks are 0 or empty, and are not printed.
#[derive(Clone, Copy)]
pub struct Entry<'a> {
    pub word: Word,
    /// The path, from the root on.
    pub path: &'a [u8],
    /// The lowest twelve bits of a POSIX mode.
    pub mode: u32,
    pub uid: u32,
    pub gid: u32,
    /// The alignment of a file's contents: their offset is to be a multiple of it.
    pub align: u32,
    /// The numbers of a device.
    pub major: u32,
    pub minor: u32,
    /// The source of `File`, the target of `Slink`, the earlier path of `Hard` and `Same`.
    pub text: &'a [u8],
}
