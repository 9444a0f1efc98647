//! Prints the manifest of a directory.
use crate::directories;
use crate::output::output;
use crate::reporter::Reporter;
use crate::stop::Stop;
use build_commands::{PrintError, Unscanned, scan_directory};
use command_line::Scan;
use rom_commands::Status;
use std::alloc::{AllocError, Global};
use std::fs::{FileType, Metadata};
use std::os::unix::fs::{FileTypeExt, MetadataExt};
use system_files::lister::{Survey, SystemLister, opened};
use system_files::{FileError, Reason, Refusal, refused};

/// The bits of a mode by which someone may execute a file.
const EXECUTABLE: u32 = 0o111;

/// The numbers of files of other kinds, which were ignored, and of regular files that lose the
/// permission to be executed.
#[derive(Clone, Copy, Default)]
struct PassedOver {
    programs: u64,
    links: u64,
    devices: u64,
    others: u64,
}

impl PassedOver {
    /// Counts a file of this kind.
    fn add(&mut self, kind: FileType) {
        let count = if kind.is_symlink() {
            &mut self.links
        } else if kind.is_block_device() || kind.is_char_device() {
            &mut self.devices
        } else {
            &mut self.others
        };
        *count = count.saturating_add(1);
    }

    /// Explains what was ignored, if something was.
    fn explain(&self, reporter: &Reporter<'_>, directory: &str) {
        if reporter.is_explained() {
            let _ = self.try_explain(reporter, directory);
        }
    }

    fn try_explain(&self, reporter: &Reporter<'_>, directory: &str) -> Result<(), AllocError> {
        let alloc = reporter.rt.alloc();
        let mut kinds = String::new(alloc);
        for (count, one, several) in [
            (self.links, "link", "links"),
            (self.devices, "device", "devices"),
            (self.others, "pipe or socket", "pipes and sockets"),
        ] {
            if count > 0 {
                let kind = if count == 1 { one } else { several };
                let comma = if kinds.is_empty() { "" } else { ", " };
                kinds.push_str(&format!(in alloc; "{comma}{count} {kind}")?)?;
            }
        }
        let more = "scan --all keeps them, with all modes and owners";
        if !kinds.is_empty() {
            let what = format!(in alloc; "skipped {kinds}: {more}")?;
            reporter.explain(directory.as_bytes(), &what);
        }
        if self.programs > 0 {
            let what = format!(in alloc;
                "files that can be executed and get the mode 0644: {}; {more}",
                self.programs
            )?;
            reporter.explain(directory.as_bytes(), &what);
        }
        Ok(())
    }
}

/// The survey counts the files that it skips, and tells of each other one whether it is a
/// directory.
impl Survey for PassedOver {
    type Known = bool;

    fn excludes(&self, _alloc: Global, _path: &str) -> Result<bool, AllocError> {
        Ok(false)
    }

    fn report(
        &mut self,
        _rt: &HostRuntime,
        _place: &str,
        metadata: &Metadata,
    ) -> Result<Option<bool>, Refusal> {
        if metadata.is_file() && metadata.mode() & EXECUTABLE != 0 {
            self.programs = self.programs.saturating_add(1);
        }
        if metadata.is_dir() || metadata.is_file() {
            return Ok(Some(metadata.is_dir()));
        }
        self.add(metadata.file_type());
        Ok(None)
    }

    fn note(&mut self, alloc: Global, name: &str, why: Reason) -> Result<(), FileError> {
        Err(refused(alloc, name, why))
    }
}

/// Prints a manifest of the regular files and the directories below a directory. A name that is no
/// UTF-8 is refused for its directory.
fn print_below(rt: &HostRuntime, scan: Scan<'_>, passed: &mut PassedOver) -> Result<(), Stop> {
    let (alloc, top) = (rt.alloc(), scan.directory);
    let (attributes, directory) = opened(rt, top)?;
    let mut out = output(rt)?;
    let mut lister = SystemLister {
        rt,
        top,
        device: scan.one_file_system.then_some(attributes.dev()),
        survey: passed,
    };
    let recheck = &mut directories::Again {
        rt,
        top,
        stayed: None,
    };
    match scan_directory(alloc, &mut lister, directory, recheck, &mut out) {
        Ok(()) => Ok(()),
        Err(Unscanned::NotWalked(e)) => Err(FileError::from(e).into()),
        Err(Unscanned::Changed(e)) => Err(e.into()),
        Err(Unscanned::NotPrinted(PrintError::OutOfMemory)) => Err(Stop::Memory),
        Err(Unscanned::NotPrinted(PrintError::Failed)) => Err(Stop::unwritten()),
    }
}

/// Prints a manifest of the regular files and the directories below a directory. Nothing is printed
/// if one of the directories cannot be listed.
///
/// # Errors
///
/// `Refused` for a file that cannot be read, and for a directory that changed, or has a name that
/// is no UTF-8; `Memory`, `Unwritten`.
pub fn run(reporter: &Reporter<'_>, scan: Scan<'_>) -> Result<Status, Stop> {
    let mut passed = PassedOver::default();
    print_below(reporter.rt, scan, &mut passed)?;
    passed.explain(reporter, scan.directory);
    Ok(Status::Done)
}
