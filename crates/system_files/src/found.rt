//! Files that a scan found, which are read.
use crate::reason::{Reason, Refusal};
use crate::stamp::{Identity, Stamp, open_unchanged};
use program_streams::read_until;
use sha2::{Digest, Sha256};
use std::fs::{self, File, Metadata, OpenFile};
use std::io::Read;

/// The first bytes of an ELF file.
const MAGIC: &[u8] = b"\x7fELF";

/// How a script begins that names its interpreter.
const SCRIPT: &[u8] = b"#!";

/// The number of bytes of a file that are read at once.
const PART: usize = 16_384;

/// The SHA-256 of a file, and the state that it had from the first byte to the last.
pub type Digested = ([u8; 32], Stamp);

/// Opens the regular file of this name that was found, and returns its state, if the name still
/// leads to it: opening a FIFO would wait for a writer.
fn open_found(rt: &HostRuntime, name: &str, found: Identity) -> Result<(File, Stamp), Refusal> {
    let is_found = |now: &Metadata| now.is_file() && Identity::of(now) == found;
    if is_found(&fs::symlink_metadata(rt, name)?) {
        let file = File::open(rt, name)?;
        let now = file.metadata()?;
        if is_found(&now) {
            return Ok((file, Stamp::of(&now)));
        }
    }
    Err(Reason::Replaced.into())
}

/// Reads the first bytes of a file of this length up to a number, or all of the file if it is
/// shorter.
fn read_front(file: &mut File, bytes: &mut Vec<u8>, most: u64, length: u64) -> Result<(), Refusal> {
    read_until(file, bytes, most, length)?;
    if (bytes.len() as u64) < most.min(length) {
        return Err(Reason::SourceUnread.into());
    }
    Ok(())
}

/// Returns at most so many first bytes of a regular file that was found. Of a file that is no ELF
/// file, these are only the bytes that show this.
///
/// # Errors
///
/// The operating system's error; `Replaced` if another file has the name; `SourceUnread` if there
/// are fewer bytes than the system reports.
pub fn elf_front(
    rt: &HostRuntime,
    name: &str,
    found: Identity,
    most: u64,
) -> Result<Vec<u8>, Refusal> {
    let (mut file, state) = open_found(rt, name, found)?;
    let mut bytes = Vec::new(rt.alloc());
    read_front(&mut file, &mut bytes, MAGIC.len() as u64, state.len)?;
    if bytes.as_slice() == MAGIC {
        read_front(&mut file, &mut bytes, most, state.len)?;
    }
    Ok(bytes)
}

/// Returns the bytes of a source in this state, if it is an ELF file or a script that names an
/// interpreter, up to this number.
///
/// # Errors
///
/// The operating system's error; `SourceChanged`; `SourceUnread` if there are fewer bytes than the
/// system reported.
pub fn program_in(
    rt: &HostRuntime,
    name: &str,
    state: &Stamp,
    most: u64,
) -> Result<Option<Vec<u8>>, Refusal> {
    let Some(mut file) = open_unchanged(rt, name, state)? else {
        return Err(Reason::SourceChanged.into());
    };
    let mut bytes = Vec::new(rt.alloc());
    let front = MAGIC.len() as u64;
    read_until(&mut file, &mut bytes, front, front)?;
    let is_program = bytes.as_slice() == MAGIC || bytes.starts_with(SCRIPT);
    if !is_program && bytes.len() as u64 == front.min(state.len) {
        return Ok(None);
    }
    read_until(&mut file, &mut bytes, most, state.len)?;
    if (bytes.len() as u64) < state.len {
        return Err(Reason::SourceUnread.into());
    }
    Ok(Some(bytes))
}

/// Returns the digest of a regular file that was found, and its state; or none if it did not have
/// this number of bytes, or was not in one state.
///
/// # Errors
///
/// The operating system's error; `Replaced` if another file has the name.
pub fn digest_of(
    rt: &HostRuntime,
    name: &str,
    found: Identity,
    len: u64,
) -> Result<Option<Digested>, Refusal> {
    let (mut file, was) = open_found(rt, name, found)?;
    let (mut hasher, mut read) = (Sha256::new(), 0u64);
    let mut part = [0u8; PART];
    for _ in 0..u64::MAX {
        let count = file.read(&mut part)?;
        if count == 0 {
            break;
        }
        hasher.update(part.get(..count).unwrap_or(&[]));
        read = read.saturating_add(count as u64);
    }
    let is_still = read == len && Stamp::of(&file.metadata()?) == was;
    Ok(if is_still {
        Some((hasher.finalize(), was))
    } else {
        None
    })
}
