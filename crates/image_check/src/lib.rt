//! The check of an image, by the format that its first bytes show; and `AnyImage`, an image of
//! either format as a `TreeImage`.
//!
//! Proved:
//!
//! - `check`: bytes are checked as an image of the format with which they begin; cramfs in either
//!   byte order. They are accepted only if they hold a tree of that format and have none of its
//!   faults. A fault is reported only if they hold a tree of neither format; it is the least. Bytes
//!   of no format have fault 2 or 3.
//! - `laws::one_tree`, `laws::exact`: bytes have at most one tree, of whichever format, and have no
//!   fault exactly if they hold one.
//! - `AnyImage` as `rom_tree::TreeImage`: every call on an accepted image answers from that tree.
//! - `AnyImage::{parts, again}`: a few numbers describe an accepted image, also its report and its
//!   format; the same bytes and these numbers make an image with the same tree.
//! - `AnyImage::{format, size}`: format and size are those that the first bytes and the superblock
//!   state.
//! - `laws::no_further`: the first n bytes of a file, n being at least the number of `reach_of`,
//!   have the same tree, least fault, format, byte order and report as the whole file.
//! - `laws::refused`: if the sum of the first 512 bytes of a romfs image of the stated size is
//!   wrong (`is_sum_refused`), that is the least fault, whatever follows.
//!
//! A caller, proved: library_tests/src/examples/checked.rt. `Limits::usual()` allows 1,048,576
//! references and 64 names on a path. The image borrows the bytes, and only the check takes memory.
//! Match `AnyImage::Romfs` or `AnyImage::Cramfs` only for calls that a single format has.
#![tactic(auto)]

mod any;
mod checking;
pub mod laws;

pub use any::{AnyImage, Parts};
pub use checking::check;
pub use formats::{HEAD, SUMMED, is_sum_refused, reach_of};
pub use rom_tree::{CheckError, Limits, Report, TreeImage};
