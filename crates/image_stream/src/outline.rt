//! Segments without their bytes.
/// The offset of a segment, its length, and the file whose contents it has, if any.
#[derive(Clone, Copy, PartialEq, Eq)]
pub struct Outline {
    pub place: u32,
    pub len: u32,
    pub source: Option<usize>,
}
