//! The field of a manifest that does not fit a format, its value, and the valid values.
use crate::attribute;
use crate::words::shown;
use formats::Format;
use manifest::{Line, Manifest, Word};
use plan_rows::misfit::{ATTRIBUTE, NAME_TOO_LONG, TOO_LARGE};
use std::alloc::{AllocError, Global};

/// The most bytes of an image.
const IMAGE_MOST: u64 = 1 << 28;

/// The most names on a path.
const DEEPEST: usize = 64;

/// The most references.
const REFERENCES_MOST: usize = 1 << 20;

/// The line of this number.
fn line_of(manifest: &Manifest, number: u64) -> Option<&Line> {
    manifest.lines().iter().find(|line| line.number == number)
}

/// Returns the line of the source of this number, from 0 on.
pub fn line_of_source(manifest: &Manifest, source: usize) -> Option<u64> {
    let mut count = 0usize;
    for line in manifest.lines() {
        if matches!(line.word, Word::File) {
            if count == source {
                return Some(line.number);
            }
            count = count.saturating_add(1);
        }
    }
    None
}

/// The number of bytes of the source of a `file` line.
fn size_of(manifest: &Manifest, sizes: &[u64], number: u64) -> u64 {
    let mut count = 0usize;
    for line in manifest.lines() {
        if line.number == number {
            return sizes.get(count).copied().unwrap_or(0);
        }
        if matches!(line.word, Word::File) {
            count = count.saturating_add(1);
        }
    }
    0
}

/// The number of names on a path.
fn names_on(path: &[u8]) -> usize {
    path.iter().filter(|byte| **byte == b'/').count()
}

/// The last name of a path.
fn last_name(path: &[u8]) -> &[u8] {
    match path.iter().rposition(|byte| *byte == b'/') {
        Some(last) => path.get(last.saturating_add(1)..).unwrap_or(path),
        None => path,
    }
}

/// What is too large in the whole.
fn whole(alloc: Global, manifest: &Manifest, sizes: &[u64]) -> Result<String, AllocError> {
    let deep = manifest
        .lines()
        .iter()
        .find(|line| names_on(line.path.as_bytes()) > DEEPEST);
    if let Some(line) = deep {
        let names = names_on(line.path.as_bytes());
        let number = line.number;
        return format!(in alloc; "{names} names on the path of line {number}, at most {DEEPEST}");
    }
    let mut bytes = 0u64;
    for size in sizes {
        bytes = bytes.saturating_add(*size);
    }
    let lines = manifest.lines().len();
    if bytes <= IMAGE_MOST && lines >= REFERENCES_MOST / 2 {
        return format!(in alloc;
            "{lines} lines, an image has at most {REFERENCES_MOST} references"
        );
    }
    format!(in alloc; "{bytes} bytes of sources, an image has at most {IMAGE_MOST} in all")
}

/// The size of a file that is too large, and the most that is valid.
fn size(
    alloc: Global,
    format: Format,
    manifest: &Manifest,
    sizes: &[u64],
    line: &Line,
) -> Result<String, AllocError> {
    let most = format.capacity().file;
    let size = size_of(manifest, sizes, line.number);
    let source = shown(alloc, line.text.as_bytes())?;
    format!(in alloc; "{source} has {size} bytes, at most {most}")
}

/// Returns what does not fit the format in the line of this number, with the misfit of this number.
/// Line 0 is the whole.
///
/// # Errors
///
/// `OutOfMemory`.
pub fn seen(
    alloc: Global,
    format: Format,
    manifest: &Manifest,
    sizes: &[u64],
    misfit: (u64, u32),
) -> Result<String, AllocError> {
    let (number, kind) = misfit;
    if number == 0 {
        return whole(alloc, manifest, sizes);
    }
    let Some(line) = line_of(manifest, number) else {
        let len = manifest.volume().len();
        let most = format.capacity().volume.unwrap_or(len);
        return format!(in alloc; "the volume's name has {len} bytes, at most {most}");
    };
    match kind {
        ATTRIBUTE => attribute::seen(alloc, format, line),
        TOO_LARGE => size(alloc, format, manifest, sizes, line),
        NAME_TOO_LONG => {
            let len = last_name(line.path.as_bytes()).len();
            let most = format.capacity().name.unwrap_or(len);
            format!(in alloc; "the name has {len} bytes, at most {most}")
        }
        _ => shown(alloc, line.path.as_bytes()),
    }
}
