//! Files and directories that a scan reads, which must not change meanwhile.
use crate::directories::{opened_name, state_of};
use crate::file_error::{FileError, named, refused};
use crate::reason::Reason;
use crate::stamp::{Stamp, has_changed};
use directory_walk::Directory;
use std::fs;

/// A file whose bytes decide what the manifest of a scan says: a list of devices, or a file that is
/// compared with others.
#[derive(Drop)]
pub struct Watched {
    pub name: String,
    /// The state in which it was read.
    pub state: Stamp,
    /// Whether the manifest names it as a source.
    pub is_source: bool,
}

/// Checks that these files are as they were read.
///
/// # Errors
///
/// `Refused` for the first one that changed; `OutOfMemory`.
pub fn files_stayed(rt: &HostRuntime, watched: &[Watched]) -> Result<(), FileError> {
    for file in watched {
        if named(
            rt.alloc(),
            &file.name,
            has_changed(rt, &file.name, &file.state),
        )? {
            return Err(refused(rt.alloc(), &file.name, Reason::ScanChanged));
        }
    }
    Ok(())
}

/// Checks that the file of this name, of whatever kind, is in this state. No link is followed.
///
/// # Errors
///
/// `Refused`, `OutOfMemory`.
pub fn name_stayed(rt: &HostRuntime, name: &str, state: &Stamp) -> Result<(), FileError> {
    let now = named(rt.alloc(), name, fs::symlink_metadata(rt, name))?;
    if Stamp::of(&now) == *state {
        Ok(())
    } else {
        Err(refused(rt.alloc(), name, Reason::ScanChanged))
    }
}

/// Refuses a directory that changed since it was found.
fn directory_stayed(
    rt: &HostRuntime,
    top: &str,
    directory: &Directory<Stamp>,
) -> Result<(), FileError> {
    let name = opened_name(directory, top);
    let state = named(rt.alloc(), name, state_of(rt, directory, top))?;
    if state == directory.state {
        Ok(())
    } else {
        Err(refused(rt.alloc(), name, Reason::ScanChanged))
    }
}

/// Checks that the directories below `top` are as they were found. Otherwise the names that were
/// found did not all exist at one time.
///
/// # Errors
///
/// `Refused` for the first one that changed; `OutOfMemory`.
pub fn directories_stayed(
    rt: &HostRuntime,
    top: &str,
    directories: &[Directory<Stamp>],
) -> Result<(), FileError> {
    for directory in directories {
        directory_stayed(rt, top, directory)?;
    }
    Ok(())
}
