//! Files that are opened by their names, as the sources of an image. `FileSources` keeps one of
//! them open at a time. It reads through an `Opener`, which is the system, or a place in memory
//! (`specs/Told.antt`).
//!
//! Proved, for every `Opener`:
//!
//! - `FileSources`, `in_memory`: the answers are exactly what its reads returned, in order and with
//!   the same bytes, of the file that was opened by the source's name, at the requested offset; a
//!   failed read answers nothing, and no error says that a signal cut a read short. If the opener
//!   knows what its files hold, the sources have these contents; in memory the same as
//!   `image_stream::Slices`.
//! - `laws::streamed_is_told`: the contents of an image that was streamed from files are what the
//!   opener's reads returned last, each of the file of the source's name.
//! - `FileSources::into_parts`: at the end the opener is returned with its log, and with the reason
//!   of the last failed read exactly if one failed.
#![tactic(auto)]

pub mod laws;
mod memory;
mod opener;
mod reading;
mod sources;

pub use memory::{InMemory, in_memory};
pub use opener::Opener;
pub use sources::FileSources;
