//! A file that is replaced by a new one, whole or not at all. `replace` makes a part (a new file
//! beside the old one), fills it, synchronizes and closes it, gives it the name of the old one, and
//! synchronizes the directory. `begin`, `finish`, `keep` and `abandon` are its steps.
//! `specs/Crashes.antt` says what a crash may leave.
//!
//! Proved, for every implementation of `Directory`:
//!
//! - `replace`, `finish`, `keep`, `begin`, `abandon`: at each moment the name leads to what it led
//!   to before, or to the whole new file; after a crash to the whole new file, or to what a crash
//!   before could have left. No other name is touched, except names of parts. At `Ok` it leads to
//!   the new file, also after a later crash, unless the directory cannot be synchronized
//!   (`Unknown`). At an error it leads to what it did, unless only that synchronization was
//!   refused. No new part is left, unless its removal was refused.
//! - `replace`, `finish`, `keep`, `begin`: an error has a cause: a refused call, names that are all
//!   taken, or a failure that the source reports in its own terms.
//! - `laws::refused_runs`: runs that break these promises: renaming the part before it is
//!   synchronized and closed, or although that failed; writing into the file itself, or removing it
//!   first; not synchronizing the directory; leaving the part after an error.
//! - `Account`: it has exactly the calls and answers that were noted in it.
#![tactic(auto)]

mod account;
mod beginning;
mod directory;
mod fill;
mod keeping;
pub mod laws;
mod names;
mod replacing;

pub use account::{Account, Answer, Answered, Asked};
pub use beginning::{Begun, Unbegun, abandon, begin};
pub use directory::{CreateError, Directory, Durability, LeftError};
pub use fill::{Bytes, Fill};
pub use keeping::keep;
pub use names::Names;
pub use replacing::{Stopped, Unfinished, finish, replace};
