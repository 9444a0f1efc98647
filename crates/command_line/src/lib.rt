//! The words of a command line. How clap distinguishes values from options is its own rule, and is
//! tested, as are the texts of help.
//!
//! Proved:
//!
//! - `read`, and `asked` in it: the example image is asked for exactly if there are no words, or
//!   only `--explain`. If other words are accepted, they ask for their subcommand with its
//!   arguments, each the value that clap's walk returns, and for images of at most the bytes of
//!   `--max-size`.
//! - `read`, and `align_named`, `address_named`, `size_named`, `owner_named`, `align_rule_named`,
//!   `device_named` in it: a format, an alignment, a number of bytes, an owner, a pattern's
//!   alignment, an address (hexadecimal digits) and a device (five words) are the values of their
//!   words.
//! - `read`, and `command` in it: clap receives exactly the subcommands, words and options of
//!   `table.rt`, among them `--explain` and a version.
//! - `is_explain`: the word that asks for explanations.
#![tactic(auto)]

mod asking;
mod building;
mod commands;
mod error;
mod help;
mod numbers;
mod request;
mod table;
mod values;
mod words;

pub use commands::VERSION;
pub use error::{WordsError, Wrong};
pub use help::shown;
pub use numbers::size_named;
pub use request::{
    AlignRule, Build, Cat, DeviceWords, Diff, Digest, Extract, InPlace, Limited, Map, MapForm,
    Numbers, Owner, Pack, Padding, Question, Request, Scan, ScanAll, Verify, Which,
};
pub use words::{is_explain, read};
