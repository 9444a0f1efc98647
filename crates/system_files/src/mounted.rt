//! Block devices that the system uses.
use crate::device::device_of;
use crate::reason::Reason;
use std::fs::{self, Metadata};
use std::io;
use std::os::unix::fs::{FileTypeExt, MetadataExt};

/// The file in which Linux lists what is mounted, a line for each.
const MOUNTS: &str = "/proc/self/mountinfo";

/// The file in which Linux lists swap space, a line for each.
const SWAPS: &str = "/proc/swaps";

/// The number of spaces before the device in a line of the list of mounts.
const FIELDS_BEFORE: usize = 2;

/// The most devices that are looked at: a disk, its partitions, and what is made of these.
const MOST_DEVICES: usize = 1_024;

/// The numbers of a block device as Linux writes them.
fn numbers_of(rt: &HostRuntime, found: &Metadata) -> io::Result<String> {
    let device = device_of(found.rdev());
    Ok(format!(in rt.alloc(); "{}:{}", device.major, device.minor)?)
}

/// Adds the numbers of the devices that Linux lists in this directory.
fn add_listed(rt: &HostRuntime, directory: &str, all: &mut Vec<String>) -> io::Result<()> {
    for entry in fs::read_dir(rt, directory)? {
        let Ok(entry) = entry else {
            continue;
        };
        let file = format!(in rt.alloc(); "{directory}/{}/dev", entry.file_name())?;
        if let Ok(text) = fs::read_to_string(rt, &file)
            && !all
                .iter()
                .any(|numbers| numbers.as_str() == text.trim_end())
        {
            all.push(String::from_str(rt.alloc(), text.trim_end())?)?;
        }
    }
    Ok(())
}

/// The numbers of a block device, of its partitions, and of the devices that are made of these, as
/// far as Linux lists them.
fn all_numbers(rt: &HostRuntime, found: &Metadata) -> io::Result<Vec<String>> {
    let mut all = Vec::new(rt.alloc());
    all.push(numbers_of(rt, found)?)?;
    for at in 0..MOST_DEVICES {
        let Some(numbers) = all.get(at) else {
            break;
        };
        let directory = format!(in rt.alloc(); "/sys/dev/block/{numbers}")?;
        let holders = format!(in rt.alloc(); "{directory}/holders")?;
        let _ = add_listed(rt, &directory, &mut all);
        let _ = add_listed(rt, &holders, &mut all);
    }
    Ok(all)
}

/// Whether a name is that of a block device with one of these numbers.
fn is_one_of(rt: &HostRuntime, name: &str, all: &[String]) -> bool {
    match fs::metadata(rt, name) {
        Ok(found) if found.file_type().is_block_device() => match numbers_of(rt, &found) {
            Ok(numbers) => all.contains(&numbers),
            Err(_) => false,
        },
        _ => false,
    }
}

/// Whether a line of the list of mounts is that of one of these devices. Some file systems have a
/// number of their own there, and the device's name at the end.
fn is_mount_of(rt: &HostRuntime, line: &str, all: &[String]) -> bool {
    let own = line.split(' ').nth(FIELDS_BEFORE).unwrap_or("");
    if all.iter().any(|numbers| numbers.as_str() == own) {
        return true;
    }
    let source = line
        .split_once(" - ")
        .and_then(|(_, rest)| rest.split(' ').nth(1));
    source.is_some_and(|source| source.starts_with('/') && is_one_of(rt, source, all))
}

/// Returns why a file that is a block device must not be written: it, a partition of it, or a
/// device that is made of these has a file system that is mounted, or swap space, by what Linux
/// lists. If that cannot be read, nothing is known.
pub fn use_of(rt: &HostRuntime, found: &Metadata) -> Option<Reason> {
    if !found.file_type().is_block_device() {
        return None;
    }
    let all = all_numbers(rt, found).ok()?;
    if let Ok(mounts) = fs::read_to_string(rt, MOUNTS)
        && mounts.lines().any(|line| is_mount_of(rt, line, &all))
    {
        return Some(Reason::Mounted);
    }
    let swaps = fs::read_to_string(rt, SWAPS).ok()?;
    let mut names = swaps.lines().filter_map(|line| line.split(' ').next());
    names
        .any(|name| is_one_of(rt, name, &all))
        .then_some(Reason::Swapped)
}
