//! The check of a cramfs image, whose blocks must not be compressed; and `Cramfs`, the checked
//! image as a `TreeImage`, which copies no contents.
//!
//! `cramfs_format` defines trees and faults (Linux Documentation/filesystems/cramfs.rst).
//!
//! Proved:
//!
//! - `Cramfs::check`: an image is accepted only if its bytes hold a tree and have no fault, in the
//!   byte order of their magic. A fault is reported only if they hold no tree in either order; it
//!   is the least fault of the set, by phases.
//! - `report`, `big`: the report, and the byte order.
//! - `Cramfs::extents`: the extents of a checked image are those of its tree: each is in the list
//!   at least once, and the list has no others.
//! - `laws::exact`: the fault set is empty exactly if the bytes hold a tree, in either byte order.
//! - `Cramfs` as `rom_tree::TreeImage`: every call on an accepted image answers from that tree; a
//!   run reaches to the end of its block.
#![tactic(auto)]

mod accessible;
mod again;
mod check;
mod depth;
mod fields;
mod image;
pub mod laws;
mod names;
mod overlap;
mod phases;
mod runs;
mod soundness;
mod superblock;

pub use crc::{crc32, crc32_more};
pub use image::{Cramfs, Parts};
