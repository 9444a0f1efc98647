//! The formats of images: their names, their first bytes, and what they can hold.
//!
//! `specs/Format.antt` has the formats in the words of all definitions, `specs/Begins.antt` the
//! first bytes, `specs/Capacity.antt` what a format can hold, and `specs/Reach.antt` the lengths.
//!
//! Proved:
//!
//! - `Format::in_bytes`: the format with which the bytes begin, or none, only if they begin with
//!   none.
//! - `Format::{name, named, order, of_order}`: the word of each format, the format of each word,
//!   its byte order.
//! - `Format::capacity`: what images of a format can hold: owners, groups, devices, files, names,
//!   modes, hard links.
//! - `reach_of`: the first 76 bytes of a file determine how many bytes at its front a check reads.
//! - `is_sum_refused`: whether the first 512 bytes of a file begin a romfs image, it has the size
//!   that they state, and their sum is wrong.
#![tactic(auto)]

mod capacity;
mod format;
mod reach;

pub use capacity::Capacity;
pub use format::Format;
pub use reach::{HEAD, SUMMED, is_sum_refused, reach_of};
