//! The extents of an image in order of offset: which record has which bytes.
//!
//! `specs/Listed.antt` says in which order the records of an image are listed, and which paths they
//! have. `specs/Lines.antt` says what the lines of extents are: one line for each name of an
//! extent, and one for each range between extents. The extents of files that share block pointers
//! (`specs/Tables.antt`) are kept once, so that memory grows with the image's bytes.
//!
//! Proved:
//!
//! - `extents`: the records are collected in the order of a list, each with its name and directory;
//!   the extents are exactly those of these records and the superblock, sorted by offset and then
//!   as the records. In cramfs, the first record with some block pointers has their extents, and
//!   the records that have the bytes of an extent are exactly those with its block pointers; all
//!   consecutive blocks of a file are joined, or none.
//! - `laws::owners_share`: extents with a common byte have the same range, so lines of different
//!   ranges have no byte in common.
//! - `write_extents`: the text of the collected extents has exactly a line for each record that has
//!   the bytes of one, with the path of the record, and one for each range of bytes between and
//!   after them; if a write fails, a prefix is written.
//! - `laws::lines_share_out`: the lines of a checked image share out the bytes of its file: the
//!   first begins at the first byte, each other one where the one before it ends or has the same
//!   bytes, the last ends at the end. The address is the base plus the first offset, modulo 2^64.
//! - `laws::extents_are_parts`: the superblock belongs to the root; a header, a list and block
//!   pointers are those of the extent's record, at the offset and with the length that the format
//!   gives them; data belong to a record that has contents.
//! - `laws::data_are_of_files`: the path of an extent of data is that of a name, and its bytes are
//!   those of this file or link, from the extent's `offset` on.
//! - `laws::extents_are_complete`, `laws::map_has_all`: no byte of a file of a checked image is
//!   left out (`specs/Complete.antt`): each byte of each file and each link of its tree is in an
//!   extent of data, as this byte of the contents, and a record that has the bytes of the extent
//!   has a path of the file (in cramfs each path; in romfs one, as hard links have no bytes of
//!   their own). All lines have one for each extent, with each record that has its bytes.
//! - `write_which`, `laws::which_has_all`, `laws::which_finds`: for an address, take the last
//!   extent that begins at or before its byte. If the extent has this byte, the lines of all
//!   extents that begin where it begins are written. In a checked image these are all extents that
//!   have the byte: there is a line for each of them, with each record that has the bytes of the
//!   extent, and no other line. Otherwise the line of the range between the extents is written.
//!   `err ERANGE` is written exactly if the image's file has no byte at the address; the result
//!   says whether this is so. If a write fails, a prefix is written.
#![tactic(auto)]

mod collecting;
mod cramfs_records;
mod extent;
pub mod laws;
mod lines;
mod order;
mod path;
mod romfs_records;
mod search;
mod tables;
mod which;

pub use collecting::extents;
pub use extent::{Extent, Extents, Kind, Record};
pub use lines::write_extents;
pub use path::put_path;
pub use which::write_which;
