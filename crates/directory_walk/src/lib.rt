//! A walk through all that is below a directory. A `Lister` of the caller lists each directory.
//!
//! Proved, for every implementation of `Lister`:
//!
//! - `walk`: the entries are exactly those below the directory in the tree that the lister reports,
//!   each once, in the order of the bytes of their paths, with what it reported. Exactly the first
//!   directory and the found ones that are to be entered are entered, each once. An error other
//!   than refused memory is one that the lister returned, with the path of its directory, which is
//!   one that is to be entered.
//! - `laws::directory_first`: the path of a directory is less than the path of each entry of it, so
//!   a directory comes before its entries.
#![tactic(auto)]

pub mod laws;
mod lister;
mod sorting;
mod taking;
mod walking;

pub use lister::{Directory, Entry, Listed, Lister};
pub use walking::{Refusal, WalkError, Walked, walk};
