//! What became of a companion.

/// What became of what is written beside an image.
#[derive(Clone, Copy, Debug, PartialEq, Eq)]
pub enum Fate {
    /// It was neither kept nor given up.
    Open,
    /// It was kept.
    Kept,
    /// It was to be kept, and this failed.
    Lost,
    /// It was given up.
    GivenUp,
}
