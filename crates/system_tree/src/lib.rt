//! The tree that an image is extracted to, as the system has it.
//!
//! By the account of calls that `system.rt` keeps, each call is safe and makes a member of the
//! image, and all members were made if no call was refused (`tree_extract::extract`).
//!
//! Proved:
//!
//! - `Members::place`, `Members::named_in`: the path of a member is that of a directory, and then
//!   that of the member in the image.
//!
//! Trusted by reading: each method of `Directory` in `system.rt` makes the call of the system that
//! its name says, at the path that `place` returns and with the rights that are noted, and notes
//! what the system returned; `Top::enter` makes the directory that is filled the current one, which
//! was empty. Functions that only return what the system said have no clause.
#![tactic(auto)]

mod making;
mod members;
mod system;

pub use making::{Syncing, Top};
pub use members::Members;
pub use system::System;
