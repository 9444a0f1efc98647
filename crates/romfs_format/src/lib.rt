//! The romfs format: the meaning of its bytes (Linux Documentation/filesystems/romfs.rst), the
//! readers of their fields (`header`, `superblock`), and the format's numbers (`disk`).
//!
//! The definitions are a record and its fields (`specs/Record.antt`), the superblock
//! (`specs/Superblock.antt`), the references (`specs/Refers.antt`), the faults of an image
//! (`specs/Faults.antt`), and the tree of files that its bytes hold (`specs/Tree.antt`).
//!
//! Proved:
//!
//! - `laws::one_tree`: an image has at most one tree, whatever the limits are.
//! - `laws::made_of_bytes`: the tree is a function of the bytes.
//! - `header::{type_at, next_at, spec_at, size_at, first_at, start_at, end_at}`,
//!   `superblock::{begins, stated_size, stored_sum, volume}`: each field of a header and of the
//!   superblock is read as the definitions say.
#![tactic(auto)]

pub mod disk;
pub mod header;
pub mod laws;
pub mod superblock;
