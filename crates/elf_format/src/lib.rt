//! The program headers of an ELF file, and the pages of the file that Linux maps for them.
//!
//! Fields are those of the System V gABI (`specs/Header.antt`), pages those of Linux's loader as
//! restated in `specs/Loading.antt`. Relocations of a file's text are in `specs/Dynamic.antt`, and
//! what a program needs before it can start in `specs/Needs.antt`.
//!
//! Proved:
//!
//! - `Header::{read, program}`, `Program::read`, `elf_kind`: the header and the program headers of
//!   an ELF file, of 32 and 64 bits and in either byte order, or that there are none; whatever the
//!   bytes are, nothing outside them is read.
//! - `Order::{half, word, long}`, `Class::{header_size, program_size, address_size, address}`: the
//!   numbers of a file; the sizes of headers and addresses.
//! - `Program::{loading, zero_pages}`: the pages that Linux maps for a program header, and the
//!   pages of zeros behind them.
//! - `moves_text`, `Program::moves_text`: whether the text has relocations.
//! - `needs_pages`: whether a file needs pages of its own: it has a segment that cannot be written,
//!   or has the flat format.
//! - `interpreter`: the path of the interpreter that a script or an ELF file names, if it names
//!   one.
//! - `Needs::{read, entries, needed, run_path}`: the libraries that the dynamic segment of an ELF
//!   file names, and the directories in which they are looked for; or that the file is no ELF file
//!   with such a segment and a string table.
#![tactic(auto)]

mod dynamic;
mod error;
mod header;
mod in_place;
mod loading;
mod mapped;
mod needs;
mod numbers;
mod program;
mod program_interpreter;
mod script;
mod segments;
mod table;
mod texts;

pub use dynamic::moves_text;
pub use error::ElfError;
pub use header::{Header, elf_kind};
pub use in_place::{HEAD_LEN, needs_pages};
pub use loading::Loading;
pub use needs::Needs;
pub use numbers::{Class, Order};
pub use program::Program;
pub use program_interpreter::interpreter;
