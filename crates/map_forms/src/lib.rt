//! Other forms of the map of an image: a header for C and C++ and a script for GNU ld, with the
//! address and the length of each chosen regular file, and in a header its path; and a picture in
//! SVG, its extents as rows of addresses. What is drawn is only tested.
//!
//! `specs/Names.antt` defines the identifier of a path, the names of macros and the string of a
//! text, `specs/Forms.antt` what the two forms have around names and values, and `specs/Xml.antt`
//! how texts are escaped.
//!
//! Proved:
//!
//! - `write_header`, `write_script`: a header has for each name of a chosen regular file, in the
//!   order of the list, the macros of length, path and address, and a script for GNU ld the symbols
//!   of length and address; the address is lacking exactly if the bytes are not one run. If a write
//!   fails, a path is too long or a choice is refused memory, a prefix is written.
//! - `is_prefix`: whether a text can begin the names: a letter, followed by letters, digits and
//!   underscores.
//! - `laws::names_are_unique`: all macros (guard, base, size of the image; address, length and path
//!   of each file) have different names, if paths consist of numbers below 256. Other names have no
//!   macros.
//! - `laws::values_are_places`: the length is the number of bytes; the address is the base plus the
//!   first offset, modulo 2^64.
//! - `laws::is_text`: each byte of a text is escaped as the definition says, and the escaped text
//!   has neither `<` nor a quote nor a control character.
#![tactic(auto)]

mod bars;
mod choice;
mod error;
mod form;
pub mod laws;
mod macros;
mod names;
mod numbers;
mod page;
mod scale;
mod title;
mod writing;
mod xml;

pub use choice::{AllFiles, Choice};
pub use error::HeaderError;
pub use form::Form;
pub use names::is_prefix;
pub use page::{PictureError, write_picture};
pub use writing::{write_header, write_script};
