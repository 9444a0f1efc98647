//! Closes descriptors and reports errors of that. Some file systems report only then that they lost
//! what was written.
use std::os::fd::AsFd;
use std::{fs, io};
use std_io::io::last_error;

/// A name below a file that is no directory.
const IN_A_FILE: &str = "/dev/null/x";

/// Sets the number of the last error to that of a name below a file, which no close has a reason to
/// return, and returns it.
fn marked(rt: &HostRuntime) -> Option<i32> {
    let _ = fs::metadata(rt, IN_A_FILE);
    last_error().raw_os_error()
}

/// Closes what is open. Whether the system refused it is seen in the number of the last error,
/// since std drops the result.
///
/// # Errors
///
/// The operating system's error.
pub fn close<F: Drop>(rt: &HostRuntime, open: F) -> io::Result<()> {
    let mark = marked(rt);
    drop(open);
    let e = last_error();
    if e.raw_os_error() == mark {
        Ok(())
    } else {
        Err(e)
    }
}

/// Checks that standard output keeps what was written to it. It closes a further descriptor of it,
/// for then its file system reports what it lost; standard output stays open. For a pipe or a
/// terminal this has no effect.
///
/// # Errors
///
/// The operating system's error.
pub fn settle_output(rt: &HostRuntime) -> io::Result<()> {
    let further = rt.stdout().as_fd().try_clone_to_owned()?;
    close(rt, further)
}
