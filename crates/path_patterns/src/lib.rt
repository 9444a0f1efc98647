//! Patterns of paths, as in GNU tar's `--exclude` with `--anchored`.
//!
//! `specs/Patterns.antt` defines patterns, and `specs/Reading.antt` how their texts are read. The
//! time is at most the path's length times the pattern's.
//!
//! Proved:
//!
//! - `pieces_of`: the pieces of a pattern's text, or why it is not a pattern.
//! - `matches`, `matches_bytes`, `any_matches`: whether these pieces match a whole path, also as
//!   bytes of UTF-8, or those of one of several patterns a path without its first slash.
//! - `laws::literal_patterns`: a text without `*`, `?`, `[` and backslashes matches only its own
//!   text.
//! - `laws::stars`: a pattern with a star in front matches a path exactly if the rest matches some
//!   end of it: a star matches any characters, also slashes.
//! - `laws::{one_character, sets, question_marks_and_backslashes, several_patterns}`: a set in
//!   front matches one character: one between the ends of a range, or if it is negated, any other.
//!   `?` matches each path of one character, and a backslash and a character this character.
//!   Several patterns match if one of them does.
#![tactic(auto)]

mod bytes;
pub mod laws;
mod matching;
mod pattern;
mod reading;
mod several;

pub use bytes::{characters, matches_bytes};
pub use matching::matches;
pub use pattern::{Piece, Range, Set};
pub use reading::{PatternError, pieces_of};
pub use several::any_matches;
