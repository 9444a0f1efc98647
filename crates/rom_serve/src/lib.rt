//! A server of lines over read-only file system images: one, or several with eight sessions.
//!
//! `specs/Machines.antt` defines the replies. No memory is taken, except by look-ups in an image
//! that remembers them, such as a `Cached` one.
//!
//! Proved:
//!
//! - `serve`, `serve_bounded`, `serve_space`: over one image, and over up to eight with sessions,
//!   the replies are the answers of the calls on open files, beginning with nothing open and
//!   nothing mounted, for every ending; each is written whole before the next byte is read, no
//!   failed write or flush is ignored, and as many flushes succeed as replies are written. At most
//!   2^40 bytes are read; with `serve_bounded`, the caller's bound.
//! - `laws::{views, mounts_leave_tables}`: a session's replies depend only on its own lines and on
//!   the mounts; what is open stays open at a mount.
//! - `laws::{unnamed_lines, untouched_image}`: a line that names no session changes nothing. If an
//!   image other than image 0 is mounted by no line, any other image may replace it, and all
//!   replies stay the same.
//!
//! A caller of `serve`, proved: library_tests/src/examples/served.rt. `Plain` makes a `ByteRead` of
//! each `Read`, and a `ByteWrite` of each `Write`. After `quit` the rest of the input is unread. An
//! image with a cache or with indices (`lookups`) is served in the same way.
#![tactic(auto)]

mod calls;
mod commands;
pub mod laws;
mod one;
mod one_session;
mod replies;
mod serving;
mod several;
mod several_sessions;

pub use lookups::{Cached, NoCache};
pub use rom_fields::{ByteRead, ByteWrite, Plain};
pub use serve_lines::ServeError;
pub use serving::{serve, serve_bounded, serve_space};
