//! Why something with a file was not done.
use crate::reason::Refusal;
use directory_walk::WalkError;
use std::alloc::{AllocError, AllocFailed, Global};

/// Why something with a file was not done.
#[derive(Drop)]
pub enum FileError {
    /// Memory was refused.
    OutOfMemory,
    /// The file of this name was refused.
    Refused(String, Refusal),
}

impl<T: Drop> From<AllocFailed<T>> for FileError {
    fn from(_: AllocFailed<T>) -> FileError {
        FileError::OutOfMemory
    }
}

impl From<AllocError> for FileError {
    fn from(_: AllocError) -> FileError {
        FileError::OutOfMemory
    }
}

impl From<WalkError<FileError>> for FileError {
    fn from(e: WalkError<FileError>) -> FileError {
        match e {
            WalkError::Refused(refusal) => refusal.error,
            WalkError::OutOfMemory => FileError::OutOfMemory,
        }
    }
}

/// Returns that the file of this name was refused.
pub fn refused<E: Into<Refusal> + Drop>(alloc: Global, name: &str, why: E) -> FileError {
    match String::from_str(alloc, name) {
        Ok(name) => FileError::Refused(name, why.into()),
        Err(_) => FileError::OutOfMemory,
    }
}

/// Returns what was done with the file of this name, or that it was refused.
pub fn named<T, E: Into<Refusal> + Drop>(
    alloc: Global,
    name: &str,
    done: Result<T, E>,
) -> Result<T, FileError> {
    match done {
        Ok(done) => Ok(done),
        Err(e) => Err(refused(alloc, name, e)),
    }
}
