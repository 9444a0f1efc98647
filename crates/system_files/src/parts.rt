//! Parts of builds: their names, their mark and their lock. A build marks its part and locks it. So
//! a file with the name and the mark of a part and without a lock was left by an interrupted build.
ghost use Rattle.std.specs.Prelude.{◌≡◌, ◌++◌, IfOk, string_bytes, decimal, codes};
ghost use Rattle.system_files.specs.Names.{IsPartOf, part_name};

use crate::names::name_in_directory;
use crate::stamp::Identity;
use std::alloc::{AllocError, Global};
use std::fs::{File, Metadata, OpenFile, TryLockError};
use std::os::unix::fs::MetadataExt;
use std::{fs, io};

/// The mark of a part: the sticky bit of its mode. For regular files it has no other use in Linux.
pub const MARK: u32 = 0o1000;

/// What is between the name of a file and the number of its part.
const BEFORE_NUMBER: &[u8] = b".romtool-";

/// The name of a part in its directory.
fn part_name(alloc: Global, name: &str, number: u32) -> Result<String, AllocError>
    ensures { IfOk result (λ s. string_bytes s ≡ part_name name.now (decimal number)) }
{
    format!(in alloc; ".{name}.romtool-{number}.part")
}

/// The path of a file in a directory.
fn in_directory(alloc: Global, directory: &str, name: &str) -> Result<String, AllocError>
    ensures { IfOk result (λ s. string_bytes s ≡ directory.now ++ codes "/" ++ name.now) }
{
    format!(in alloc; "{directory}/{name}")
}

/// Returns the path of the part of this number of a file: `.NAME.romtool-NUMBER.part`, beside it.
///
/// # Errors
///
/// `AllocError` if memory was refused.
pub fn part_path(alloc: Global, whole: &str, number: u32) -> Result<String, AllocError>
    ensures { IfOk result (λ s. IsPartOf whole.now (decimal number) (string_bytes s)) }
{
    match whole.rsplit_once('/') {
        Some((directory, name)) => {
            let name = part_name(alloc, name, number)?;
            in_directory(alloc, directory, &name)
        }
        None => part_name(alloc, whole, number),
    }
}

/// What is behind a text, if the bytes begin with it.
fn behind<'a>(bytes: &'a [u8], text: &[u8]) -> &'a [u8] {
    bytes.strip_prefix(text).unwrap_or(&[])
}

/// Returns whether a path ends with a name that a part of the file of another path may have.
pub fn is_part_name(part: &str, whole: &str) -> bool {
    let name = behind(name_in_directory(part).as_bytes(), b".");
    match behind(
        behind(name, name_in_directory(whole).as_bytes()),
        BEFORE_NUMBER,
    ) {
        [number @ .., b'.', b'p', b'a', b'r', b't'] => {
            matches!(number.len(), 1 | 2) && number.iter().all(|byte| byte.is_ascii_digit())
        }
        _ => false,
    }
}

/// Whether a part is this build's.
#[derive(Drop)]
pub enum Lock {
    /// It is, and this descriptor has its lock.
    Held(File),
    /// It is, but its file system has no locks, or refuses this one.
    Refused,
    /// Another build has removed it as one that was left.
    Lost,
}

/// The file of this name, if it is the one of this identity.
fn opened(rt: &HostRuntime, name: &str, identity: Identity) -> io::Result<Option<File>> {
    let file = File::open(rt, name)?;
    if Identity::of(&file.metadata()?) == identity {
        Ok(Some(file))
    } else {
        Ok(None)
    }
}

/// Whether a name leads to the file of this identity.
fn leads_to(rt: &HostRuntime, name: &str, identity: Identity) -> io::Result<bool> {
    match fs::symlink_metadata(rt, name) {
        Ok(found) => Ok(Identity::of(&found) == identity),
        Err(e) if e.kind() == io::ErrorKind::NotFound => Ok(false),
        Err(e) => Err(e),
    }
}

/// Locks a part that was made, through a descriptor of its own.
pub fn lock_part(rt: &HostRuntime, name: &str, made: &File) -> Lock {
    let Ok(found) = made.metadata() else {
        return Lock::Refused;
    };
    let identity = Identity::of(&found);
    let file = match opened(rt, name, identity) {
        Ok(Some(file)) => file,
        Ok(None) => return Lock::Lost,
        Err(e) if e.kind() == io::ErrorKind::NotFound => return Lock::Lost,
        Err(_) => return Lock::Refused,
    };
    match file.try_lock() {
        Ok(()) => match leads_to(rt, name, identity) {
            Ok(true) => Lock::Held(file),
            Ok(false) => Lock::Lost,
            Err(_) => Lock::Refused,
        },
        Err(TryLockError::WouldBlock) => Lock::Lost,
        Err(TryLockError::Error(_)) => Lock::Refused,
    }
}

/// Returns whether a file with the name of a part and these attributes is one: it is regular, has
/// the mark, and has no further names.
pub fn is_marked(found: &Metadata) -> bool {
    found.is_file() && found.mode() & MARK != 0 && found.nlink() == 1
}

/// Removes a part if no build has its lock, and returns whether it did. A file that is not marked
/// as a part, or that is one of the inputs, stays.
pub fn remove_left(rt: &HostRuntime, name: &str, inputs: &[Identity]) -> bool {
    let Ok(found) = fs::symlink_metadata(rt, name) else {
        return false;
    };
    if !is_marked(&found) {
        return false;
    }
    let identity = Identity::of(&found);
    if inputs.contains(&identity) {
        return false;
    }
    match opened(rt, name, identity) {
        Ok(Some(file)) => {
            file.try_lock().is_ok()
                && leads_to(rt, name, identity).unwrap_or(false)
                && fs::remove_file(rt, name).is_ok()
        }
        _ => false,
    }
}
