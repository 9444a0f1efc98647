//! The check of a romfs image; and `Romfs`, the checked image as a `TreeImage`, which copies no
//! contents.
//!
//! `romfs_format` defines trees and faults (Linux Documentation/filesystems/romfs.rst).
//!
//! Proved:
//!
//! - `Romfs::check`: an image is accepted only if its bytes hold a tree within the limits and have
//!   no fault of the format's fault set. A fault is reported only if they hold no such tree; it is
//!   the least of the set, by phases. Refused memory is reported only if the phase of the image as
//!   a whole finds no fault.
//! - `report`: the count of references and the tree's depth.
//! - `laws::exact`: the fault set is empty exactly if the bytes hold a tree; its definition
//!   mentions offsets, references and extents, but no tree.
//! - `Romfs` as `rom_tree::TreeImage`: every call on an accepted image answers from that tree; a
//!   run reaches to the end of the file.
//! - `Romfs::extents`: the extents of an accepted image are those that the check tested for
//!   overlaps: those of the superblock and of the tree's records. The extents of a directory's
//!   record come before those of the records in its list.
#![tactic(auto)]

mod accessible;
mod again;
mod check;
mod depth;
mod fields;
mod image;
pub mod laws;
mod names;
mod overlap;
mod phases;
mod rows;
mod soundness;
mod superblock;

pub use image::{Parts, Romfs};
