//! Scans directories, and builds the image of what was found.
use crate::reporter::Reporter;
use crate::stop::{Stop, failed};
use crate::{building, scan_all};
use command_line::Pack;
use rom_commands::Status;
use sentences::reasons::{OUT_IS_LAST, OWN_INPUT};
use system_files::{are_one_file, attributes, identity_of};

/// Refuses an image or a rule in the file of the manifest, which is written before them.
fn check_written(rt: &HostRuntime, asked: &Pack<'_>) -> Result<(), Stop> {
    let Some(manifest) = asked.scan.output else {
        return Ok(());
    };
    for name in [Some(asked.build.out), asked.build.depfile] {
        if let Some(name) = name
            && are_one_file(rt, manifest, name)
        {
            return Err(failed(rt.alloc(), name, OWN_INPUT));
        }
    }
    Ok(())
}

/// Whether one of these directories has a name.
fn is_named(directories: &[&str], name: &str) -> bool {
    directories.iter().any(|directory| *directory == name)
}

/// Whether a name leads to a directory.
fn is_directory(rt: &HostRuntime, name: &str) -> bool {
    match attributes(rt, name) {
        Some(found) => found.is_dir(),
        None => false,
    }
}

/// Adds to a stop because of one of these directories that the last word is a directory, if it is.
fn with_last(rt: &HostRuntime, directories: &[&str], out: &str, stop: Stop) -> Stop {
    match stop {
        Stop::Refused(name, why) => {
            if is_named(directories, &name) && is_directory(rt, out) {
                Stop::of_file(rt.alloc(), name.as_bytes(), why).and(out, OUT_IS_LAST)
            } else {
                Stop::Refused(name, why)
            }
        }
        other => other,
    }
}

/// Packs directories: builds the image of a manifest that is in no file, or is kept in one.
///
/// # Errors
///
/// Those of a scan and of a build; `Failed` for a file that would be written twice.
#[inline(never)]
pub fn run(reporter: &Reporter<'_>, asked: &Pack<'_>) -> Result<Status, Stop> {
    let (scan, build) = (&asked.scan, asked.build);
    check_written(reporter.rt, asked)?;
    let written = [scan.output, Some(build.out), build.depfile];
    let scanned = match scan_all::scanned_text(reporter, scan, &written) {
        Ok(scanned) => scanned,
        Err(stop) => return Err(with_last(reporter.rt, &scan.directories, build.out, stop)),
    };
    let kept = match scan.output {
        Some(name) => identity_of(reporter.rt, name),
        None => None,
    };
    building::build_scanned(reporter, build, &scanned, kept)
}
