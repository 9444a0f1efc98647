//! The reason why a map was not written.
use thiserror::Error;

/// The reason why not all of a map was written.
#[derive(Clone, Copy, Debug, PartialEq, Eq, Error)]
pub enum HeaderError {
    /// A path has more than 16,640 bytes.
    #[error("a path is too long")]
    LongPath,
    /// A write failed.
    #[error("write fault")]
    WriteFault,
    /// The choice of files was refused memory.
    #[error("out of memory")]
    OutOfMemory,
}
