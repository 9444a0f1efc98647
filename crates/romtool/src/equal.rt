//! Reads regular files that may have equal bytes. Which of them are compared, and what becomes of
//! them, is proved in `build_commands::{equal, composing}`.
use crate::stop::{Stop, named, refused};
use build_commands::equal::Digest;
use build_commands::inventory::{FileKind, NamedFile};
use std::alloc::{AllocError, Global};
use std::collections::BTreeMap;
use system_files::{Digested, Identity, Reason, Watched, digest_of, unlinked};

/// What was read of each file with several links, by its device and number.
type Read = BTreeMap<(u64, u64), Digested>;

/// The number of bytes of a file, or 0 if it is not regular.
fn len_of(rt: &HostRuntime, file: &NamedFile) -> Result<u64, Stop> {
    if !matches!(file.kind, FileKind::Regular) {
        return Ok(0);
    }
    let now = unlinked(rt, &file.place);
    Ok(named(rt.alloc(), &file.place, now)?.len())
}

/// Returns the number of bytes of each file, or 0 if it is not regular.
///
/// # Errors
///
/// `Refused` for a file that cannot be looked at; `Memory`.
pub fn sizes_of(rt: &HostRuntime, found: &[NamedFile]) -> Result<Vec<u64>, Stop> {
    let mut sizes = Vec::new(rt.alloc());
    for file in found {
        sizes.push(len_of(rt, file)?)?;
    }
    Ok(sizes)
}

/// What is read of a file, which is read once if it has several links. It must not change
/// meanwhile.
fn digested(
    rt: &HostRuntime,
    file: &NamedFile,
    len: u64,
    by_inode: &mut Read,
) -> Result<Digested, Stop> {
    let key = (file.inode.device, file.inode.number);
    if file.has_links
        && let Some(read) = by_inode.get(&key)
    {
        return Ok(*read);
    }
    let found = Identity::at(file.inode.device, file.inode.number);
    let read = digest_of(rt, &file.place, found, len);
    let Some(read) = named(rt.alloc(), &file.place, read)? else {
        return Err(refused(rt.alloc(), &file.place, Reason::ScanChanged));
    };
    if file.has_links {
        by_inode.insert(key, read)?;
    }
    Ok(read)
}

/// Returns what is read of each file that is compared.
///
/// # Errors
///
/// `Refused` for a file that cannot be read, or that changes meanwhile; `Memory`.
pub fn all_digested(
    rt: &HostRuntime,
    found: &[NamedFile],
    sizes: &[u64],
    compared: &[bool],
) -> Result<Vec<Option<Digested>>, Stop> {
    let alloc = rt.alloc();
    let (mut by_inode, mut all) = (BTreeMap::new(alloc), Vec::new(alloc));
    for (index, file) in found.iter().enumerate() {
        let read = match (sizes.get(index), compared.get(index)) {
            (Some(len), Some(true)) => Some(digested(rt, file, *len, &mut by_inode)?),
            _ => None,
        };
        all.push(read)?;
    }
    Ok(all)
}

/// Returns the digests of the files that were read.
pub fn digests_of(
    alloc: Global,
    read: &[Option<Digested>],
) -> Result<Vec<Option<Digest>>, AllocError> {
    let mut digests = Vec::new(alloc);
    for file in read {
        digests.push(file.map(|(digest, _)| digest))?;
    }
    Ok(digests)
}

/// Returns the files that were read, in the states in which they were read. Those that became
/// further names are no sources.
pub fn watched_of(
    alloc: Global,
    found: &[NamedFile],
    read: &[Option<Digested>],
    further: &[bool],
) -> Result<Vec<Watched>, AllocError> {
    let mut watched = Vec::new(alloc);
    for (index, file) in found.iter().enumerate() {
        if let Some(Some((_, state))) = read.get(index) {
            watched.push(Watched {
                name: String::from_str(alloc, &file.place)?,
                state: *state,
                is_source: further.get(index) == Some(&false),
            })?;
        }
    }
    Ok(watched)
}
