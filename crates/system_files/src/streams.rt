//! Keeps closed standard streams closed.
use std::fs::{File, OpenFile};
use std::io;
use std::os::fd::AsRawFd;

/// The greatest number of a standard stream.
const STANDARD_ERROR: i32 = 2;

/// Directories of which the first one that may be opened is opened for a closed stream.
const DIRECTORIES: [&str; 4] = ["/", ".", "/proc", "/dev"];

/// Opens a directory, if the system permits one. It can be neither read nor written as a stream, so
/// a closed stream still fails.
fn any_directory(rt: &HostRuntime) -> Option<File> {
    for name in DIRECTORIES {
        if let Ok(directory) = File::open(rt, name) {
            return Some(directory);
        }
    }
    None
}

/// Reserves the descriptors of standard streams that are closed. Otherwise files that are opened
/// later would get them, and would be read or written instead. Hold the result until the program
/// ends. If the system permits no directory, nothing is reserved.
///
/// # Errors
///
/// `OutOfMemory`.
pub fn hold_closed(rt: &HostRuntime) -> io::Result<Vec<File>> {
    let mut held = Vec::new(rt.alloc());
    for _ in 0..=STANDARD_ERROR {
        let Some(file) = any_directory(rt) else {
            break;
        };
        if file.as_raw_fd() > STANDARD_ERROR {
            break;
        }
        held.push(file)?;
    }
    Ok(held)
}
