//! The things that Linux's readers misread in a valid image.
//!
//! `specs/Readers.antt` restates these readers for the cases in which they do not keep to the
//! format, and `specs/Misreads.antt` has the lines: one if the volume's name is too long, and for
//! each name of the tree, in the list's order, a line for each thing that is misread in it.
//!
//! Proved:
//!
//! - `misreads`: the output has exactly a line for each thing that Linux's reader, as `Readers`
//!   restates it, answers otherwise than the tree, and the result says whether there is one. If a
//!   write fails, a prefix is written; if memory is refused, nothing.
//! - `romfs_misreads`, `cramfs_misreads`, `known_of`, `is_root_missed`: what Linux misreads in a
//!   name of each format, in an image or in a plan, by its last component, the attributes of its
//!   file, and what Linux reads in their place. There are no other rules.
//! - `laws::last_block`: a cramfs file ends with a whole block exactly if Linux fills some page of
//!   it with another number of bytes.
//! - `laws::{long_names, long_volume, long_records}`: in romfs, a name that Linux finds is cut in
//!   the list exactly if it has 128 bytes, and is not found exactly if it has more; Linux looks for
//!   the root, or for the data of a record, elsewhere exactly if the volume name, or the name of
//!   the record, has more than 143.
//! - `laws::{romfs_devices, cramfs_devices}`: device numbers differ for majors from 4,096 on in
//!   romfs, and from 256 on in cramfs.
//! - `laws::romfs_device_numbers`: the record of a device of romfs has the numbers that the tree
//!   has.
//! - `laws::cramfs_device_numbers`: of a device of cramfs, Linux reads the lower eight bits of each
//!   of the two numbers that the tree has.
#![tactic(auto)]

mod by_format;
mod differences;
mod files;
mod inodes;
mod judged;
mod known;
pub mod laws;
mod names;
mod nodes;
mod printing;
mod readers;
mod seen;

pub use differences::is_root_missed;
pub use judged::{CramfsMisreads, RomfsMisreads, cramfs_misreads, romfs_misreads};
pub use printing::misreads;
pub use readers::{device_number, old_device, romfs_root};
pub use seen::{Known, Place, Seen, known_of};
