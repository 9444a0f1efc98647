//! Faster look-ups of names: two wrappers over any `TreeImage`. `Cached` remembers look-ups, also
//! those that found nothing. `Indexed` sorts the names of a directory when one of them is first
//! looked up; the time of a later look-up grows as the logarithm of the list's length.
//!
//! `specs/Remembers.antt` defines the answers that are kept, and `specs/Indices.antt` the index of
//! a list and the answer of a list's front.
//!
//! Proved:
//!
//! - `Cached` as `rom_tree::TreeImage`, `Indexed` as `rom_tree::TreeImage`: with a cache of
//!   look-ups, and with indices of its lists, an image answers every call as without them, whatever
//!   is kept, and after memory was refused for a name or an index.
//! - `Cached::new`: a new cache holds no name and has its image; if memory is refused for the
//!   cache, the image is returned.
//! - `Cached::{new, held, lookup}`: a cache holds at most 65,536 names and, if only
//!   `Cached::lookup` itself was called and not through generic code, at most as many as its maker
//!   asked for.
//!
//! Callers, proved: library_tests/src/examples/cached.rt (`Cached`) and library_tests/src/cached.rt
//! (`Indexed`). For lists of many names, put `Cached` around `Indexed`, as
//! rom_commands/src/serving.rt does. `Indexed` takes 24 bytes for each name of a list of more than
//! 16 names; if memory is refused, the image itself looks the name up.
#![tactic(auto)]

mod cache;
mod front;
mod index;
mod names;
mod rows;
mod search;
mod short;

pub use cache::{Cached, NoCache};
pub use index::Indexed;
