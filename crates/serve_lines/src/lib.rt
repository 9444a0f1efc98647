//! Serving lines from a reader to a writer, over any machine of lines; the command of a line, and
//! the text of a reply.
//!
//! `specs/Served.antt` has the machine of lines, `specs/Commands.antt` the commands, and
//! `specs/Texts.antt` the replies; `specs/Views.antt` defines what one of several sessions sees. No
//! command or reply takes memory; contents are sent as hexadecimal digits through a fixed buffer.
//!
//! Proved:
//!
//! - `serve_lines`: for any machine of lines, its replies are written, each of them whole before
//!   the next byte is read, and as many flushes succeed as there are replies; no failed write or
//!   flush is ignored. Exactly the *used* input is read: up to and including the line that ends the
//!   serving, or all of it; if the serving breaks off, all that was read until then, in which no
//!   earlier line had ended it. It ends with a failed read or write only if one failed, and with
//!   too many reads only after as many as are allowed; each ending says what was written by then.
//!   At most as many bytes are read as reads are allowed.
//! - `laws::lines_again`: lines of an input that are joined and cut again are the same lines.
//! - `read_line`, `put_reply`: the command of a line (its word, its numbers and its path), or its
//!   fault, in the order of the tests; the text of each reply.
#![tactic(auto)]

mod bad;
mod buffered;
mod command;
mod error;
mod field;
mod hex_digits;
pub mod laws;
mod machine;
mod one_byte;
mod path_text;
mod reply;
mod serve;
mod word;

pub use bad::Bad;
pub use command::{Command, read_line};
pub use error::ServeError;
pub use machine::LineMachine;
pub use path_text::PathText;
pub use reply::{Reply, put_reply};
pub use serve::serve_lines;
pub use word::{FdCall, PathCall};
