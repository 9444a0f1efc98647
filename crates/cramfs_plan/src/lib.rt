//! The plan of a cramfs image, in either byte order, from rows: the names of a manifest in
//! preorder. One pass goes over the rows backwards and computes the lengths of lists, another goes
//! forwards and computes offsets; neither needs recursion. Items and sections are sorted by their
//! offsets. `cramfs_layout` defines the layout.
//!
//! Proved:
//!
//! - `lay_out`, `sections`: the length, the inodes with their offsets, and the sections of a cramfs
//!   image, in either byte order, are those of the layout; or the image is too large as a whole.
#![tactic(auto)]

mod items;
mod kept;
mod laying;
mod lens;
mod section_list;
mod walk;
mod wide_inode;
mod words;

pub use laying::lay_out;
pub use section_list::sections;
