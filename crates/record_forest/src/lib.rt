//! The traversal of the records of an image, for any format. The records refer to one another: a
//! directory to the first record of its list, and a record to the next one of its list
//! (`specs/References.antt`).
//!
//! Proved:
//!
//! - `traverse`: the records, in preorder, of the finite forest (`specs/Forest.antt`) that the
//!   references from the superblock on describe, or the least fault (`specs/Faults.antt`): too many
//!   references, a fault of a record, or a record with two references.
//! - `laws::exact`: there is no fault exactly if the records are those of a finite forest.
//! - `CheckError` as `From<TraversalError>`: as the answer of a check, a fault keeps its number and
//!   offset.
//! - `repeats`: among the names of each list, exactly those that repeat an earlier one are marked.
#![tactic(auto)]

mod answer;
mod known;
pub mod laws;
mod least;
mod listed;
mod records;
mod reference;
mod traversal;

pub use known::{Range, VerifiedRanges};
pub use least::{lesser_fault, lesser_of_both};
pub use listed::{ListedName, repeats};
pub use records::Records;
pub use reference::{Edge, Edges, Reference, Row};
pub use traversal::{TraversalError, traverse};
