//! What an image is and where its bytes are. `Numbers` is the description of a checked image: 48
//! bytes, from which the library for C opens the same bytes without a check.
//!
//! `specs/Info.antt` has the text of `info`, `specs/Map.antt` that of `map`, `specs/Gaps.antt` the
//! bytes in no extent, `specs/Data.antt` where a node's bytes are, and `specs/Description.antt` a
//! description.
//!
//! Proved:
//!
//! - `write_info`, `map`, `cat`: `info` has exactly one line for each fact, `map` one for each run
//!   of each regular file in the order of the list, and `cat` writes exactly a file's bytes. If a
//!   write fails, a prefix is written; if memory is refused, `info` writes nothing. (`map` and
//!   `cat` allocate none.)
//! - `volume`: the volume name.
//! - `laws::runs_are_the_file`: the runs of a file, joined, are its offsets in order; in the file
//!   each begins where the one before it ends, in the image no two successive runs adjoin, and no
//!   other list of runs is so.
//! - `laws::runs_are_its_bytes`: the image's bytes in a run are the file's.
//! - `data_of`: where the bytes of a node are, by two numbers: where they or their block pointers
//!   begin, and how many they are. Nodes with equal ones share their bytes.
//! - `count_gaps`, `laws::of_the_tree`: the number of accessible bytes that are in none of the
//!   image's extents, each byte counted once; these are the extents of its tree.
//! - `Numbers::of`: the numbers of a checked image: format, accessible bytes, root, references,
//!   depth.
//! - `write_numbers`, `write_number_array`: its description, as 48 bytes or as an array of C, or a
//!   prefix of it if a write failed.
//!
//! A caller of `map`, proved: library_tests/src/examples/mapped.rt. `cat` requires the number of a
//! node of the image, which `path_walk::walk` returns.
#![tactic(auto)]

mod by_format;
mod contents;
mod counting;
mod data;
mod digits;
mod info;
pub mod laws;
mod line;
mod map_line;
mod mapping;
mod number_words;
mod number_writing;
mod numbers;
mod runs;
mod spans;
mod superblock;
mod tally;

pub use by_format::{count_gaps, volume};
pub use contents::cat;
pub use data::{Data, LEAST_KEPT, data_of};
pub use digits::put_eight_digits;
pub use info::{InfoError, write_info};
pub use mapping::map;
pub use number_writing::{write_number_array, write_numbers};
pub use numbers::Numbers;
