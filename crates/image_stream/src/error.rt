//! The reasons why the writing of an image ended early.
use thiserror::Error;

/// The contents of a file have another size than was planned. It is the first such file.
#[derive(Debug, Clone, Copy, PartialEq, Eq, Error)]
#[error("file {file} has another size")]
pub struct SizeDiffers {
    pub file: usize,
}

/// The reason why a stream ended early.
#[derive(Debug, Clone, Copy, PartialEq, Eq, Error)]
pub enum StreamError {
    /// The contents of a file have another size than was planned. If the contents of the sources
    /// are known, it is the first such file, and nothing was written.
    #[error("file {file} has another size")]
    SizeDiffers { file: usize },
    /// A read of a file failed.
    #[error("a read of file {file} failed")]
    SourceFault { file: usize },
    /// The writer failed, or accepted no byte.
    #[error("a write failed")]
    WriteFault,
    /// The contents changed between two reads. The checksum that was written is not that of the
    /// image that was written.
    #[error("contents changed")]
    Changed,
}
