//! The plan of a romfs image, from rows: the names of a manifest in preorder. Two passes over the
//! rows, forwards and backwards (`specs/Passes.antt`), compute the offsets; they need no recursion.
//! `romfs_layout` defines the layout.
//!
//! Proved:
//!
//! - `image_len`: the length of a romfs image, or that it is too large, exactly if it is.
//! - `items`, `sections`: its headers with their offsets and words, and its sections, as in the
//!   layout.
//! - `laws::rows_are_placed`: the two passes compute exactly its offsets.
#![tactic(auto)]

mod headers;
mod item_list;
pub mod laws;
mod passes;
mod places;
mod section_list;
mod size;

pub use item_list::items;
pub use section_list::sections;
pub use size::image_len;
