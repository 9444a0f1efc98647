//! Proved tests through several libraries, of what no contract and no case of `tests/cases` says,
//! and short callers of the libraries (`examples`).
//!
//! The tests are of words and windows of a buffer; streams that fail in the middle; sources that
//! change or fail, and how far they are read; a file that is replaced; a directory in memory that
//! is filled and then finished; open files, and lent bytes that outlive them; mounts; how many
//! names a cache holds; and the texts of errors. Small images are laid out byte by byte, by the
//! descriptions of the formats (Linux Documentation/filesystems/romfs.rst and cramfs.rst). No crate
//! depends on this one.
//!
//! `Sample` is a small image in memory that implements `TreeImage` with proof: each call answers as
//! the tree of `specs/Sample.antt` does. It has a node of each kind, nested directories, a node
//! with two names, and names and a link's text that need escapes.
#![tactic(auto)]

mod cached;
mod checked;
mod composed;
mod dumps;
mod elf;
mod errors;
mod examples;
mod extracted;
mod failing;
mod files;
mod images;
mod kept;
mod late;
mod layers;
mod limits;
mod linked;
mod lister;
mod lists;
mod made;
mod mounted;
mod opener;
mod replaced;
mod sample;
mod sample_image;
mod spoiled;
mod streams;
mod words;

pub use sample_image::Sample;
