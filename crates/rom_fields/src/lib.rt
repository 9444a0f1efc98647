//! What the crates that read, build and serve images share: words and their sums; readers and
//! writers that count their failures; texts that are written whole or as a prefix; the first
//! overlap of extents; a canvas of bytes, on which parts are put at their offsets; and the faults
//! of an image by number, the same in all formats, with `CheckError`, the answer of a check.
//!
//! `specs/Words.antt` defines words (romfs stores big-endian ones: Linux
//! Documentation/filesystems/romfs.rst), `specs/Parts.antt` parts that are laid one after the
//! other, with zeros between them, and `specs/Sums.antt` the words that bring the sums of romfs to
//! 0. With a `Rewrite` (`specs/Rewritten.antt`), a superblock with a checksum of all that follows
//! it is written first and once more at the end.
//!
//! Proved:
//!
//! - `be32`, `le32`: a word is read in either byte order.
//! - `put_be32`, `put_le32`: writing a word changes only its four bytes, and nothing if they are
//!   not all within the slice.
//! - `word_sum`, `pad`, `part`: the sum of a slice's words; the least multiple that is not below a
//!   number; a part of a slice.
//! - `write_whole`, `put`, `put_decimal`, `put_long_decimal`, `put_octal`, `put_escaped`: a text, a
//!   decimal or octal number, and an escaped name are written whole, exactly as defined; if the
//!   writer fails, a prefix is written.
//! - `Extents::first_overlap`: the least offset at which two extents overlap, or none.
//! - `Contents::{add, len, get}`: the contents of sources by index.
//! - `Canvas::{new, take}`: parts of a buffer are lent for writing, from front to back (*windows*).
//!   One is lent exactly if the range is within the buffer and after the previous window; the
//!   window has exactly the bytes of its range.
//! - `laws::{parts_stand, parts_are_all}`: if parts are laid one after another, each can be read at
//!   its offset, all other bytes are zero, and no other bytes of this length have these properties.
//! - `laws::sums_are_zero`: the words that are chosen to bring sums to 0 do so.
//! - `Rewrite`, `Memory` as `Rewrite`: bytes that a writer took are replaced at the same place, and
//!   no others. At an error a prefix of the new bytes is there. `Memory` does so.
//! - `fault::name`: the name of each fault (`specs/Faults.antt`).
//! - `CheckError` as `From<Fault>`, `From<OutOfMemory>`: a fault, and refused memory, become the
//!   answer of a check.
#![tactic(auto)]

mod bytes;
mod canvas;
mod check_error;
mod contents;
mod extents;
pub mod fault;
mod faulty;
pub mod laws;
mod memory;
mod memory_writer;
mod rewrite;
mod sink;
mod span;
mod text;
mod word;

pub use bytes::{ByteRead, ByteWrite, Failed, Plain};
pub use canvas::Canvas;
pub use check_error::CheckError;
pub use contents::Contents;
pub use extents::Extents;
pub use fault::Fault;
pub use faulty::Faulty;
pub use memory::OutOfMemory;
pub use memory_writer::Memory;
pub use rewrite::Rewrite;
pub use sink::{put, write_whole};
pub use span::{Extent, Span, least_overlap, overlap};
pub use text::{put_decimal, put_escaped, put_long_decimal, put_octal};
pub use word::{be32, le32, pad, part, put_be32, put_le32, word_sum};
