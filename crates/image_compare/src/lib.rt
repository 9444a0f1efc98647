//! Compares images: the differences of two, the digests of an image's files, and the first byte in
//! which two slices differ. Contents are compared and hashed in the image, without a copy; what was
//! found of larger files is kept for other names that share their bytes, as long as memory is
//! there.
//!
//! `specs/Diff.antt` defines the lines of two sorted lists of names, and `specs/Digests.antt` the
//! digests: for each name of a regular file, in the list's order, the line that `sha256sum` has for
//! that file in a directory into which the image was extracted.
//!
//! Proved:
//!
//! - `write_diff`: the output has exactly the lines that are defined for the names of both images,
//!   sorted by the bytes of the paths; the result says whether there is one. If a write fails, a
//!   prefix is written; if memory is refused or a path is too long, nothing.
//! - `no_line_if_alike`: the output is empty exactly if the names are alike: the same paths, kinds,
//!   attributes and contents and, if offsets are compared, the same first offsets.
//! - `laws::lines_are_due`: if no two names of an image have one path, the lines are, for each path
//!   of either image, in the order of the bytes of the paths: `-` exactly if only the old image has
//!   the path, `+` exactly if only the new one has it, both if the kinds differ; otherwise `m`
//!   exactly if the mode, the owner, the group or the numbers of a device differ, `c` exactly if
//!   the bytes differ, and `@` exactly if offsets are compared and the first bytes are at different
//!   offsets.
//! - `write_digests`: the digests have exactly a line for each name of a regular
//!   file, in the order of the list, with the SHA-256 of its bytes, read run by run. If a write
//!   fails or a path is too long, a prefix is written.
//! - `write_image_digest`: the digest of an image has the SHA-256 of its bytes, or a prefix is
//!   written if a write fails.
//! - `compare`, `write_verdict`: the bytes of a reader begin with the image, or the
//!   first byte that is not the image's is reported.
//! - `find_holder`: the first file, in the order of the list, that has this byte, or that none has
//!   it.
#![tactic(auto)]

mod comparing;
mod contents;
mod difference;
mod digests;
mod directories;
mod dump;
mod hashing;
mod holder;
mod known;
pub mod laws;
mod line;
mod lines;
mod name;
mod order;
mod rows;
mod same;
mod steps;

pub use difference::{DiffError, write_diff};
pub use digests::{DigestError, write_digests};
pub use dump::{Dump, compare, compare_from, write_verdict};
pub use holder::find_holder;
pub use line::write_image_digest;
