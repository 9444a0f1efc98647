//! Misfits by their numbers. The numbers are this project's own.

/// An owner, a mode or a number of a device that the format cannot store.
pub const ATTRIBUTE: u32 = 1;

/// A file, a list or an image that is too large.
pub const TOO_LARGE: u32 = 2;

/// A name that is too long for the format.
pub const NAME_TOO_LONG: u32 = 3;

/// A further name of a file, which the format does not have.
pub const HARD_LINK: u32 = 4;

/// A misfit by its number, at the line of this number. Line 0 is the whole.
#[derive(Clone, Copy, PartialEq, Eq)]
pub struct Misfit {
    pub line: u64,
    pub number: u32,
}
