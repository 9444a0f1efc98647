//! The reasons why serving ends before its input.
use thiserror::Error;

/// The reason why serving ended before its input did.
#[derive(Clone, Copy, Debug, PartialEq, Eq, Error)]
pub enum ServeError {
    /// A read failed.
    #[error("read fault")]
    ReadFault,
    /// A write or a flush failed, or a write accepted none of some bytes.
    #[error("write fault")]
    WriteFault,
    /// The allowed number of bytes was read, and the input had not ended.
    #[error("too many reads")]
    TooManyReads,
}
