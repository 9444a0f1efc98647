//! The names of a manifest as rows, each with the file that it names; and the least misfit of the
//! lines, as `manifest_layout` defines it.
//!
//! `specs/Rows.antt` has the rows of a tree, and `specs/Fits.antt` says when one fits a format.
//! `specs/Entries.antt` has the order of the ways to names: one more path in a tree is one more
//! entry in the row. The rows of lines are put in order by these ways (`specs/Keyed.antt`), whose
//! order as bytes is that of a tree. `specs/Files.antt` has the line and the contents to which each
//! path leads. The path of a `hard` line leads to the line to which its text leads. The contents of
//! a `file` line are those of its source. The contents of a `hard` or `same` line are those of the
//! `file` line to which the texts lead.
//!
//! Proved:
//!
//! - `PathTargets::contents`, `PathTargets::line`: the contents and the line to which a path leads.
//! - `least_of_lines`: the least misfit of the lines and the volume, or that there is none.
//! - `misfits`: the misfits of all lines, for each line the least.
//! - `rows`, `root`, `deepest`, `laws`: sorted by ways, the lines are the names of the tree, each
//!   directory before its entries, and the rows are exactly these. If no line has a misfit, each
//!   row fits the format.
#![tactic(auto)]

mod depth;
mod files;
mod inodes;
mod keyed;
pub mod laws;
mod least;
mod lines;
pub mod misfit;
mod order;
mod row;

pub use depth::deepest;
pub use files::{PathTargets, SourceUse};
pub use inodes::{inode_of, root};
pub use least::{least_of_lines, misfits};
pub use lines::romfs_mode;
pub use manifest_layout::Format;
pub use misfit::Misfit;
pub use order::rows;
pub use row::{Bytes, Inode, Row, What};
