//! The tree of an image, and what the crates that read it share. Code over any `TreeImage` gets
//! from each call the answer of one tree, which an implementation defines as a function of the
//! value (`sample_image` is the smallest). `Walk` returns the names of the tree in preorder, and
//! `list` writes them. Nothing here allocates memory.
//!
//! `specs/Tree.antt` defines a tree: a node has its attributes and a body, and a directory's body
//! is a list of names with nodes. `specs/Image.antt` defines an image.
//!
//! Proved:
//!
//! - `list`: the preorder text of the tree, a line for each name, is written exactly, or a prefix
//!   of it; it fails only if a write failed.
//! - `Walk::{new, next, name, put_path, append_path}`: a walk returns the names of the tree in
//!   preorder, each with its node, its path and its last name.
//! - `laws::names_are_listed`: a list has a line for each of these names.
//! - `longest_run`, `front_bytes`: the offset of a byte of a file, and how many of the file's bytes
//!   are consecutive from there on; the consecutive bytes at its front.
//! - `link_text`, `bytes_from`: a link's text, and the bytes from an offset on.
//! - `is_directory_at`, `is_link_at`, `is_regular_at`, `is_dot`, `is_dot_dot`, `is_dots`: tests of
//!   a node's kind, and of the names `.` and `..`.
//!
//! A caller of `list`, proved: library_tests/src/examples/checked.rt. `list` and `Walk` require a
//! tree of at most 65 levels, which `image_check::check` guarantees. A layer over another image,
//! such as those of `lookups`, has the tree of that image.
#![tactic(auto)]

mod dots;
mod frame;
mod image;
pub mod laws;
mod line;
mod listing;
mod path;
mod runs;
mod types;
mod walk;

pub use dots::{is_dot, is_dot_dot, is_dots};
pub use frame::Walk;
pub use image::{
    TreeImage, Viewed, bytes_from, is_directory_at, is_link_at, is_regular_at, link_text,
};
pub use line::put_stat;
pub use listing::list;
pub use rom_fields::CheckError;
pub use runs::{front_bytes, lesser, longest_run};
pub use types::{Cursor, Entry, Kind, Limits, ListError, NoRoom, NodeId, Piece, Report, Run, Stat};
