//! Directories of the system, and their states.
ghost use Rattle.system_files.specs.Names.{IsBase};

use crate::reason::{Reason, Refusal};
use crate::stamp::Stamp;
use directory_walk::Directory;
use std::fs::{self, Metadata};
use std::io;

/// Returns a directory without the slashes at its end. A name in it is put after this.
pub fn base(directory: &str) -> &str
    ensures { IsBase directory.now result.now }
{
    directory.trim_end_matches('/')
}

/// Returns whether the error is that a name or a text is no UTF-8.
pub fn is_foreign(e: &io::Error) -> bool {
    e.kind() == io::ErrorKind::InvalidFilename && e.raw_os_error().is_none()
}

/// Returns the attributes of the directory of this name.
///
/// # Errors
///
/// The operating system's error; `NotADirectory` for another file.
pub fn directory_at(rt: &HostRuntime, name: &str) -> Result<Metadata, Refusal> {
    let metadata = fs::metadata(rt, name)?;
    if !metadata.is_dir() {
        return Err(Reason::NotADirectory.into());
    }
    Ok(metadata)
}

/// Whether a directory is `top`, the one that is scanned.
fn is_top(directory: &Directory<Stamp>, top: &str) -> bool {
    directory.path.len() == base(top).len()
}

/// Returns the name by which a directory is opened. For the scanned directory, this is the name
/// that was given.
pub fn opened_name<'a>(directory: &'a Directory<Stamp>, top: &'a str) -> &'a str {
    if is_top(directory, top) {
        top
    } else {
        &directory.path
    }
}

/// Returns the state of a directory now. No link to it is followed, except for the scanned
/// directory.
///
/// # Errors
///
/// The operating system's error.
pub fn state_of(rt: &HostRuntime, directory: &Directory<Stamp>, top: &str) -> io::Result<Stamp> {
    let name = opened_name(directory, top);
    let metadata = if is_top(directory, top) {
        fs::metadata(rt, name)?
    } else {
        fs::symlink_metadata(rt, name)?
    };
    Ok(Stamp::of(&metadata))
}
