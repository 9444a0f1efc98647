//! A tree of files that is extracted into an empty directory: first the directories, then the
//! files, then the links; the rights of the directories are set last.
//!
//! `specs/Safe.antt` says when a call is safe, `specs/Extracted.antt` what was made, and
//! `specs/Choices.antt` what is made if only some members are chosen.
//!
//! Proved, for every implementation of `Directory`:
//!
//! - `extract`: take members with plain paths (names after one slash each, no `..`) that differ and
//!   lead through no link. Each call is safe when it is made, even if a call is refused: its path
//!   has no `..` and leads through no link that was made or asked for, and nothing was made there
//!   before; so nothing outside the directory is changed. Each call makes a member or sets its
//!   rights. At `Ok` each member was made: a directory, a file finished with its contents, a link
//!   with its text, a further name of its file or, only if the directory refused that, a file of
//!   its own with the same contents; and got its rights, a file's after its contents, those of
//!   directories after all was made, a link only its owner.
//! - `laws::refused_runs`: runs that break these promises: a file through a link, by `..`, or in
//!   place of a link; a left out or a foreign member; a file made after the rights of a directory;
//!   other rights than the member's.
//! - `Account`: it has exactly the calls and answers that were noted.
//! - `Directory::unwritten`: if not all was written to a file, the error is the file's own reason,
//!   if it has one.
//! - `choose`: what is made if only some members are chosen: nothing of the others; the first
//!   chosen name of a file is the file, and each other one a further name of it.
//! - `laws::can_be_chosen`: if the members can be extracted, so can these.
#![tactic(auto)]

mod account;
mod choosing;
mod directory;
mod extracting;
pub mod laws;
mod tree;

pub use account::{Account, Answered, Asked};
pub use choosing::choose;
pub use directory::Directory;
pub use extracting::{Stopped, extract};
pub use tree::{Kind, Owner, Rights, Tree};
