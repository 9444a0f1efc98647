//! The parts of a pattern.

/// The characters from the first to the last, including both.
#[derive(Clone, Copy, Debug, PartialEq, Eq)]
pub struct Range {
    pub first: char,
    pub last: char,
}

/// The characters of some ranges; if negated, all other characters.
#[derive(Debug, Drop)]
pub struct Set {
    pub is_negated: bool,
    pub ranges: Vec<Range>,
}

/// A part of a pattern.
#[derive(Debug, Drop)]
pub enum Piece {
    /// Any number of characters.
    Star,
    /// One character of the set.
    One(Set),
}
