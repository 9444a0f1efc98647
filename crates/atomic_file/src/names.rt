//! The names that a replacement uses.

/// The names that a replacement uses, as the numbers by which the directory knows them: that of the
/// file, and those that its part may have, from `first` up to `end`, which is none of them.
#[derive(Clone, Copy)]
pub struct Names {
    pub out: u32,
    pub first: u32,
    pub end: u32,
}
