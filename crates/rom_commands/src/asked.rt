//! What is asked of an image.
use program_report::Question;

/// What is written of a valid image.
#[derive(Clone, Copy, PartialEq, Eq)]
pub enum Asked {
    /// A line with its format, references and depth.
    Report,
    /// The list of its tree.
    List,
    /// Where each of its files is, if its first byte has this address.
    Map(u64),
    /// What Linux misreads in it.
    Misreads,
    /// What its programs need that it does not have.
    Needs,
    /// Which of its programs Linux executes in place.
    Programs(Question),
    /// Its facts, if its file has this number of bytes.
    Facts(u64),
    /// Its facts, and whether it fits into a number of bytes.
    Fit {
        /// The number of bytes of its file.
        file: u64,
        /// The most bytes that it may have.
        limit: u64,
    },
}
