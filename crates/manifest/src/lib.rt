//! The manifest is a text that describes, line by line, what an image holds.
//!
//! `specs/Grammar.antt` is its grammar, a function from the bytes of a text to its lines or its
//! first fault; docs/MANIFEST.md explains it by an example. `specs/Faults.antt` and
//! `specs/Alone.antt` define what is found of all bad lines, and of a line by itself.
//!
//! Proved:
//!
//! - `parse`, `lines`, `volume`, `volume_line`, `sources`: on all bytes, if memory is not refused,
//!   a text is read as exactly the lines that the grammar defines, with the volume and the sources
//!   in order. If it has a fault, it is refused with its first faulty line and the least number of
//!   that line.
//! - `name`: each fault has its name.
//! - `put_line`, `write_line`, `write_manifest`: any lines are written whole or as a prefix.
//! - `laws::reads_back`: if the grammar accepts each of some lines after the lines before it, their
//!   text is read as exactly these lines.
//! - `bad_lines`, `laws::first_is_parsed`: all bad lines of a text are found, each with its least
//!   fault after the lines before it, if a bad line counts as one that makes its path; the first is
//!   the one for which the text is refused.
//! - `read_line`, `own_fault`, `laws::alone_is_behind`: a line by itself is read with its meaning,
//!   or has the fault that it has after any lines that make its directory and what it names, and
//!   not its path.
//!
//! A caller of `parse` and of `layout_plan`, proved: library_tests/src/examples/planned.rt.
//! `sources` returns the names of the files that the image will hold; pass their sizes and contents
//! in this order.
#![tactic(auto)]

mod alone;
mod entry;
pub mod error;
mod faults;
mod fields;
pub mod laws;
mod line;
mod names;
mod numbers;
mod path;
mod printing;
mod reader;
mod reading;
mod seeded;
mod text;

pub use alone::{own_fault, read_line};
pub use entry::Entry;
pub use error::{ManifestError, name};
pub use faults::{BadLine, bad_lines};
pub use line::{Line, Word};
pub use names::Name;
pub use printing::{put_line, put_lines, put_volume, write_line, write_manifest};
pub use reading::{Manifest, parse};
pub use seeded::{Seeded, seeded_by};
pub use text::{decimal, octal};
