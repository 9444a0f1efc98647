//! What the system says of names.
use crate::stamp::Identity;
use std::fs::{self, File, Metadata, OpenFile};
use std::{env, io};

/// Returns the attributes of the file of this name. No link is followed.
///
/// # Errors
///
/// The operating system's error.
pub fn unlinked(rt: &HostRuntime, name: &str) -> io::Result<Metadata> {
    fs::symlink_metadata(rt, name)
}

/// Returns the attributes of the file behind this name, if it has any.
pub fn attributes(rt: &HostRuntime, name: &str) -> Option<Metadata> {
    fs::metadata(rt, name).ok()
}

/// Returns which file is behind this name, if one is.
pub fn identity_of(rt: &HostRuntime, name: &str) -> Option<Identity> {
    attributes(rt, name).map(|found| Identity::of(&found))
}

/// Returns the text of the symbolic link of this name.
///
/// # Errors
///
/// The operating system's error.
pub fn link_text(rt: &HostRuntime, name: &str) -> io::Result<String> {
    Ok(fs::read_link(rt, name)?.into_string())
}

/// Opens a file for reading.
///
/// # Errors
///
/// The operating system's error.
pub fn open(rt: &HostRuntime, name: &str) -> io::Result<File> {
    File::open(rt, name)
}

/// Returns the path of the current directory.
///
/// # Errors
///
/// The operating system's error.
pub fn current_directory(rt: &HostRuntime) -> io::Result<String> {
    Ok(env::current_dir(rt)?.into_string())
}
