//! The node to which a path leads, or the error of the path: in one image, or in several that are
//! mounted in one another. No call allocates memory.
//!
//! `specs/Resolution.antt` defines where a path leads, after POSIX.1-2017, 4.13 "Pathname
//! Resolution", `specs/Graft.antt` defines mounts, and `specs/Compared.antt` the names that a
//! look-up compares.
//!
//! Proved, for each `rom_tree::TreeImage` and for up to eight of them:
//!
//! - `walk`, `walk_mounts`: a path leads to exactly the node, or has exactly the error, that
//!   pathname resolution defines, with symbolic links, in one image and in up to eight that are
//!   mounted in one another. It leads to no directory that a mount covers, and the images stay as
//!   they are.
//! - `walk_within`: a walk in one image with a budget is refused for the budget exactly if it
//!   compares more names than that; otherwise it ends as without one, and their number is
//!   subtracted.
//! - `WalkError::number`, `WalkError::name`: each error has its number and its name.
//!
//! Callers, proved: library_tests/src/examples/walked.rt, and library_tests/src/mounted.rt, which
//! tests mounts before a call. `walk` borrows the image by `&mut`, because an image may remember
//! look-ups (`lookups`).
#![tactic(auto)]

mod budget;
mod component;
mod error;
mod images;
mod mount;
mod paths;
mod step;
mod within;

pub use error::{WalkError, WithinError};
pub use mount::Mount;
pub use paths::{walk, walk_mounts};
pub use rom_tree::NodeId;
pub use within::walk_within;
