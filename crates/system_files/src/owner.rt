//! The owner and the permissions that a new file takes over from the one that it replaces.
use std::fs::{File, Metadata};
use std::io;
use std::os::unix::fs::{MetadataExt, PermissionsExt, fchown};

/// The permissions that lend no rights of the owner or the group.
const LENDING_NOTHING: u32 = 0o777;

/// The permissions that lend rights of the owner or the group.
const LENDING: u32 = 0o6000;

/// The bits of a mode that let the group and others write. If a directory has an access control
/// list, the group's bit is that of its mask.
pub const WRITABLE_BY_OTHERS: u32 = 0o022;

/// The bit of a directory's mode that lets only owners rename and remove what is in it.
pub const STICKY: u32 = 0o1000;

/// Returns whether the mode of a file lends rights of its owner or its group.
pub fn lends_rights(found: &Metadata) -> bool {
    found.mode() & LENDING != 0
}

/// Returns a mode in which the group and others have only the rights that both of them have.
fn without_group(mode: u32) -> u32 {
    let both = (mode >> 3) & mode & 0o7;
    (mode & 0o700) | (both << 3) | both
}

/// Gives a new file the owner and the group of another one, as far as the system permits, and
/// returns the mode for it: if the owner was refused, without the bits that lend rights; if the
/// group was refused, without the rights of the group that others do not have.
fn take_owner(file: &File, found: &Metadata) -> u32 {
    let (uid, gid) = (found.uid(), found.gid());
    if fchown(file, Some(uid), Some(gid)).is_ok() {
        found.mode()
    } else if fchown(file, None, Some(gid)).is_ok() {
        found.mode() & LENDING_NOTHING
    } else {
        without_group(found.mode())
    }
}

/// Gives a new file the owner, the group and the permissions of another one, and further bits of a
/// mode.
///
/// # Errors
///
/// The operating system's error.
pub fn take_after(file: &File, found: &Metadata, more: u32) -> io::Result<()> {
    let mut permissions = found.permissions();
    permissions.set_mode(take_owner(file, found) | more);
    file.set_permissions(permissions)
}
