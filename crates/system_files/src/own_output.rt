//! The program's own standard output and standard error.
use crate::stamp::Identity;
use std::fs::{self, Metadata};
use std::os::unix::fs::{FileTypeExt, MetadataExt};

/// The name by which the system opens standard output.
const OUTPUT: &str = "/proc/self/fd/1";

/// The name by which the system opens standard error.
const ERROR: &str = "/proc/self/fd/2";

/// The device number of `/dev/null`, 1 and 3, as Linux packs it.
const NULL_DEVICE: u64 = 0x103;

/// Which file the system opens by a name, if it says it.
fn identity_at(rt: &HostRuntime, name: &str) -> Option<Identity> {
    match fs::metadata(rt, name) {
        Ok(found) => Some(Identity::of(&found)),
        Err(_) => None,
    }
}

/// Returns which file standard output is, if the system says it.
pub fn identity(rt: &HostRuntime) -> Option<Identity> {
    identity_at(rt, OUTPUT)
}

/// Returns which file standard error is, if the system says it.
pub fn error_identity(rt: &HostRuntime) -> Option<Identity> {
    identity_at(rt, ERROR)
}

/// Whether a file keeps nothing of what is written to it.
fn is_null(found: &Metadata) -> bool {
    found.file_type().is_char_device() && found.rdev() == NULL_DEVICE
}

/// Returns whether a file is standard output and keeps what is written to it.
pub fn is_own(rt: &HostRuntime, found: &Metadata) -> bool {
    !is_null(found) && identity(rt) == Some(Identity::of(found))
}

/// Returns whether a file is standard error and keeps what is written to it.
pub fn is_own_error(rt: &HostRuntime, found: &Metadata) -> bool {
    !is_null(found) && error_identity(rt) == Some(Identity::of(found))
}
