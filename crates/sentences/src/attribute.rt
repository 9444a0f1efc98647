//! The attribute of a line that a format cannot hold.
use formats::Format;
use manifest::Line;
use plan_rows::romfs_mode;
use std::alloc::{AllocError, Global};

/// Returns the part of the sentence about a mode that romfs cannot store: the mode, the one or two
/// modes that romfs has for what the line makes, and the option of `scan`.
///
/// # Errors
///
/// `OutOfMemory`.
fn mode_seen(alloc: Global, line: &Line, fitted: &str) -> Result<String, AllocError> {
    let (mode, plain) = (line.mode, romfs_mode(line.word, false));
    let executable = romfs_mode(line.word, true);
    if executable == plain {
        return format!(in alloc; "mode {mode:04o}, romfs has {plain:04o}{fitted}");
    }
    format!(in alloc; "mode {mode:04o}, romfs has {plain:04o} or {executable:04o}{fitted}")
}

/// Returns the first attribute of a line that the format cannot hold: its value, the valid values,
/// and the option of `scan` with which the manifest of a directory fits.
///
/// # Errors
///
/// `OutOfMemory`.
pub fn seen(alloc: Global, format: Format, line: &Line) -> Result<String, AllocError> {
    let most = format.capacity();
    let fitted = match format.order() {
        None => " (scan --all --for romfs makes it fit)",
        Some(_) => " (scan --all --for cramfs makes it fit)",
    };
    for (name, value, most, fitted) in [
        ("owner", line.uid, most.owner, fitted),
        ("group", line.gid, most.group, fitted),
        ("major number", line.major, most.device, ""),
        ("minor number", line.minor, most.device, ""),
    ] {
        if value > most {
            return format!(in alloc; "{name} {value}, at most {most}{fitted}");
        }
    }
    if !most.has_modes {
        return mode_seen(alloc, line, fitted);
    }
    Ok(String::new(alloc))
}
