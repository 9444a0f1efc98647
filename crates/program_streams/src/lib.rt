//! Layers in front of a program's streams. `Held` holds back a line until it is flushed. `Again`
//! and `Ahead` repeat calls that a signal interrupted. `Remembering` keeps the first error.
//! `read_until` reads on after failures.
//!
//! Proved, for a stream whose bytes are known (`specs/Streams.antt`):
//!
//! - `Held` as `Write`: what was written to it is, also after an error, the contents of the writer
//!   behind it followed by the held line; after a successful flush nothing is held.
//! - `Again` as `Write`, `Ahead` as `Read`, `Remembering` as `Write`: a layer that repeats calls
//!   (`Again`, `Ahead`) or remembers the first error (`Remembering`, whose caller gets the kind of
//!   the error) reads and writes exactly the bytes of the stream behind it. No error of `Held`,
//!   `Again` and `Ahead` says that a signal cut a call short.
//! - `read_until`: reading up to a length returns the reader's bytes up to this length, or fewer if
//!   the reader ends before. At an error, the first of these bytes were read, and the next read
//!   continues after them.
#![tactic(auto)]

mod again;
mod ahead;
mod held;
mod loading;
mod position;
mod remembering;
mod signals;

pub use again::Again;
pub use ahead::Ahead;
pub use held::Held;
pub use loading::read_until;
pub use position::ReadAt;
pub use remembering::Remembering;
