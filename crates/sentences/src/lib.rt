//! The texts that the program prints for people: a sentence for each fault, misfit, refused call,
//! ending, and reason of a line of `xip` and of `linux`, and the values that were read there.
//!
//! The values, which `seen` adds, are only tested.
//!
//! Proved:
//!
//! - `fault_sentence`, `manifest_sentence`, `misfit_sentence`, `call_sentence`, `line_sentence`,
//!   `reason_sentence`, `ending_sentence`, `program_sentence`, `misread_sentence`: the sentence of
//!   each fault, fault of a manifest, misfit, refused call, refused line, refused file, ending,
//!   reason of `xip` and number of `linux` (`specs/`).
#![tactic(auto)]

mod attribute;
pub mod changed;
mod endings;
mod faults;
mod fields;
pub mod image;
pub mod manifest_line;
mod manifests;
mod misreads;
mod noted;
mod path_rule;
pub mod plan_line;
mod programs;
pub mod reasons;
mod refusals;
mod replies;
mod text_seen;
mod unfit;
pub mod words;

pub use endings::ending_sentence;
pub use faults::fault_sentence;
pub use manifests::manifest_sentence;
pub use misreads::misread_sentence;
pub use noted::Noted;
pub use programs::program_sentence;
pub use refusals::reason_sentence;
pub use replies::{call_sentence, line_sentence};
pub use text_seen::TextSeen;
pub use unfit::misfit_sentence;
