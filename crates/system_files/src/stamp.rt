//! States of files. A changed file has another state.
use crate::reason::{Reason, Refusal};
use std::fs::{self, File, Metadata, OpenFile};
use std::os::unix::fs::MetadataExt;
use std::time::{Clock, Duration};
use std::{io, thread};

/// The most milliseconds by which a file system's clock is late: two of the longest ticks of Linux.
const LAG: u64 = 20;

/// How many milliseconds a file has to be at rest before one look at its state suffices.
const RECENT: u64 = 1_000;

/// How many milliseconds later a second look shows a program that writes a file all the time.
const LATER: u64 = 30;

/// A file, independent of its names.
#[derive(Clone, Copy, PartialEq, Eq)]
pub struct Identity {
    device: u64,
    inode: u64,
}

impl Identity {
    /// Returns the identity of the file with this number on a device.
    pub fn at(device: u64, inode: u64) -> Identity {
        Identity { device, inode }
    }

    /// Returns the identity of the file with these attributes.
    pub fn of(found: &Metadata) -> Identity {
        Identity {
            device: found.dev(),
            inode: found.ino(),
        }
    }
}

/// A time in seconds and nanoseconds since 1970.
#[derive(Clone, Copy, PartialEq, Eq)]
struct Time {
    seconds: i64,
    nanoseconds: i64,
}

/// A state of a file: which file it is, the number of its bytes, and the times at which its bytes
/// and its attributes were last changed.
#[derive(Clone, Copy, PartialEq, Eq)]
pub struct Stamp {
    identity: Identity,
    /// The number of its bytes.
    pub len: u64,
    modified: Time,
    changed: Time,
}

impl Stamp {
    /// Returns the state of the file with these attributes.
    pub fn of(found: &Metadata) -> Stamp {
        Stamp {
            identity: Identity::of(found),
            len: found.len(),
            modified: Time {
                seconds: found.mtime(),
                nanoseconds: found.mtime_nsec(),
            },
            changed: Time {
                seconds: found.ctime(),
                nanoseconds: found.ctime_nsec(),
            },
        }
    }

    /// Returns which file it is.
    pub fn identity(&self) -> Identity {
        self.identity
    }

    /// The time of its last change, since 1970.
    fn changed(&self) -> Option<Duration> {
        let seconds = u64::try_from(self.changed.seconds).ok()?;
        let nanoseconds = u64::try_from(self.changed.nanoseconds).unwrap_or(0);
        Some(Duration::from_secs(seconds).saturating_add(Duration::from_nanos(nanoseconds)))
    }

    /// Whether the file was changed within the last second before `now`, a time since 1970, or
    /// later.
    fn is_recent(&self, now: Duration) -> bool {
        match self.changed() {
            Some(changed) => changed.saturating_add(Duration::from_millis(RECENT)) >= now,
            None => false,
        }
    }

    /// How long to wait from `now`, a time since 1970, until no later change can have the time of
    /// the last one. None if `now` differs from that time by more than a clock can be late.
    fn rest(&self, now: Duration) -> Option<Duration> {
        let changed = self.changed()?;
        let lag = Duration::from_millis(LAG);
        let end = changed.saturating_add(lag);
        if end < now || now.saturating_add(lag) < changed {
            return None;
        }
        Some(
            end.saturating_sub(now)
                .saturating_add(Duration::from_millis(1)),
        )
    }
}

/// Returns the state of a regular file that can be read.
///
/// # Errors
///
/// The operating system's error; `NotRegular`.
pub fn stamp_of(rt: &HostRuntime, name: &str) -> Result<Stamp, Refusal> {
    Ok(open_stamped(rt, name)?.1)
}

/// Opens a regular file for reading, and returns its state.
fn open_stamped(rt: &HostRuntime, name: &str) -> Result<(File, Stamp), Refusal> {
    // another kind is not opened, since opening a FIFO waits for its writer
    if !fs::metadata(rt, name)?.is_file() {
        return Err(Reason::NotRegular.into());
    }
    let file = File::open(rt, name)?;
    let found = file.metadata()?;
    if !found.is_file() {
        return Err(Reason::NotRegular.into());
    }
    Ok((file, Stamp::of(&found)))
}

/// Opens a file for reading, if it still has this state.
///
/// # Errors
///
/// The operating system's error.
pub fn open_unchanged(rt: &HostRuntime, name: &str, stamp: &Stamp) -> io::Result<Option<File>> {
    if has_changed(rt, name, stamp)? {
        return Ok(None);
    }
    let file = File::open(rt, name)?;
    let now = Stamp::of(&file.metadata()?);
    Ok(if now == *stamp { Some(file) } else { None })
}

/// Returns whether a file has another state now.
///
/// # Errors
///
/// The operating system's error.
pub fn has_changed(rt: &HostRuntime, name: &str, stamp: &Stamp) -> io::Result<bool> {
    Ok(Stamp::of(&fs::metadata(rt, name)?) != *stamp)
}

/// Waits until each later change of these files also changes their states: if one was changed a
/// moment ago, until the file system's clock has advanced. Returns whether it waited.
pub fn let_rest(rt: &HostRuntime, stamps: &[Stamp]) -> bool {
    let Ok(now) = rt.since_1970() else {
        return false;
    };
    let rests = stamps.iter().filter_map(|stamp| stamp.rest(now));
    match rests.max() {
        Some(longest) => {
            thread::sleep(rt, longest);
            true
        }
        None => false,
    }
}

/// Waits for some milliseconds if one of these files was changed within the last second, and
/// returns whether it waited. The system sets the times of a file before the bytes of a write, and
/// may hold up that write in between. So the state that was seen may be older than bytes that were
/// read; a program that writes all the time has changed it once more after the wait.
pub fn wait_for_late(rt: &HostRuntime, stamps: &[Stamp]) -> bool {
    let Ok(now) = rt.since_1970() else {
        return false;
    };
    let is_due = stamps.iter().any(|stamp| stamp.is_recent(now));
    if is_due {
        thread::sleep(rt, Duration::from_millis(LATER));
    }
    is_due
}
