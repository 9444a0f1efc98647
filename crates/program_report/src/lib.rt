//! Which programs of an image Linux executes in place: a line for each program or library of the
//! list, and the totals. Which interpreters and libraries they need that are not in the image.
//!
//! `specs/Lines.antt` has the lines. What is found of a program is `specs/Found.antt`; its pages
//! are those of `program_pages`, of which a law there says that Linux maps them. What is missing
//! is `specs/Needs.antt`.
//!
//! Proved:
//!
//! - `write_programs`: the output has exactly the lines of `xip`, and the totals; if a write fails,
//!   a prefix is written.
//! - `verdict_at`, `Reason::word`: whether a program is not, or not wholly, in place; the verdict
//!   on a program at an address; the word of a reason.
//! - `write_needs`, `FileNeeds::{of, count, missing}`: the output has exactly a line for each
//!   interpreter and library that a program of the image needs and that is not in the image; if a
//!   write fails, a prefix is written.
//! - `Effort::{of, take}`: what `write_needs` looks at costs no more than as many bytes as an image
//!   has, and 2^20 more; it stops at the first file that would cost more.
//! - `laws::planned_is_found`: with an MMU, what is found of a file in one run of an image is what
//!   `verdict_at` says of its bytes alone, except whether its last page is in place.
#![tactic(auto)]

mod effort;
mod finding;
mod findings;
pub mod laws;
mod lines;
mod missing;
mod needs;
mod object;
mod question;
mod report;
mod tally;

pub use effort::Effort;
pub use finding::{Found, Reason, Verdict, verdict_at};
pub use needs::{FileNeeds, write_needs};
pub use question::Question;
pub use report::write_programs;
pub use tally::Tally;
