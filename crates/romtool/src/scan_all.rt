//! The manifest of directories as they are.
use crate::depfile;
use crate::devices::refuse;
use crate::inventory::all_below;
use crate::output::output;
use crate::patterns::Patterns;
use crate::readings::ScanReadings;
use crate::reporter::Reporter;
use crate::stop::{Stop, changed, failed, refused, unopened, usage};
use crate::unfit::Unfit;
use crate::watched::States;
use crate::words::Words;
use crate::written::files_written;
use build_commands::Rule;
use build_commands::composing::{self, ComposeError, DeviceText, compose};
use build_commands::inventory::{FileKind, NamedFile, lines, put_found};
use build_commands::laying::LayError;
use build_commands::overlay::is_directory;
use command_line::ScanAll;
use manifest::Entry;
use rom_commands::Status;
use rom_fields::{Failed, Plain};
use sentences::reasons::{
    KINDS_DIFFER, LONG_NAME, MANIFEST_NOT_TAKEN, OWN_FILE, OWN_STREAM, PART_REPLACED,
};
use std::alloc::{AllocError, Global};
use system_files::{
    Identity, KeepError, Outputs, Reason, Target, Watched, current_directory, identity_of,
    is_unfaked, reading,
};

/// The place of a refused device that was given by itself.
const DEVICE: &str = "--device";

/// The most bytes of a volume's name.
const MOST_VOLUME: usize = 255;

/// Refuses directories whose owners and devices would be wrong, since fakeroot or pseudo is asked
/// for and is not in this program.
fn check_faked(rt: &HostRuntime, directories: &[&str]) -> Result<(), Stop> {
    if is_unfaked(rt) {
        let first = directories.first().copied().unwrap_or("");
        return Err(refused(rt.alloc(), first, Reason::Faked));
    }
    Ok(())
}

/// Reports why a list or a table in the file of this name, which has this text, is refused.
fn unlaid(reporter: &Reporter<'_>, name: &str, text: &[u8], why: LayError) -> Stop {
    match why {
        LayError::OutOfMemory => Stop::Memory,
        LayError::Bad(bad) => refuse(reporter, name, text, bad).into(),
        LayError::Kinds(file) => failed(reporter.rt.alloc(), &file.place, KINDS_DIFFER),
    }
}

/// The name of a text of devices.
fn name_of<'a>(scan: &ScanAll<'a>, which: DeviceText) -> &'a str {
    match which {
        DeviceText::Table => scan.device_table.unwrap_or(""),
        DeviceText::List => scan.devices.unwrap_or(""),
        DeviceText::Given => DEVICE,
    }
}

/// Why the files of a manifest cannot be put together.
fn uncomposed(reporter: &Reporter<'_>, scan: &ScanAll<'_>, why: ComposeError<Stop>) -> Stop {
    match why {
        ComposeError::OutOfMemory => Stop::Memory,
        ComposeError::Kinds(file) => failed(reporter.rt.alloc(), &file.place, KINDS_DIFFER),
        ComposeError::Unlaid(which, text, why) => {
            unlaid(reporter, name_of(scan, which), &text, why)
        }
        ComposeError::Unread(stop) => stop,
    }
}

/// The owner that all files get, if one is given.
fn owner_of(scan: &ScanAll<'_>) -> Option<composing::Owner> {
    scan.owner.map(|owner| composing::Owner {
        uid: owner.uid,
        gid: owner.gid,
    })
}

/// What a scan found.
#[derive(Drop)]
struct Found {
    /// All files of the manifest, in the order of its lines.
    files: Vec<NamedFile>,
    /// The names of all directories, those that others were laid over included.
    directories: Vec<String>,
    /// The files that were read.
    watched: Vec<Watched>,
    states: States,
}

/// Returns what a scan finds. Files of these names are written. The names of ELF files and scripts
/// are noted if that is asked for.
fn all_found(
    reporter: &Reporter<'_>,
    scan: &ScanAll<'_>,
    names: &[Option<&str>],
    notes_programs: bool,
) -> Result<Found, Stop> {
    let (rt, alloc) = (reporter.rt, reporter.rt.alloc());
    let patterns = Patterns::of(alloc, scan)?;
    let written = files_written(rt, names)?;
    let found = all_below(rt, scan, &patterns, &written)?;
    for part in &found.parts {
        reporter.explain(part.place.as_bytes(), &part.why);
    }
    for file in &written {
        file.check(rt, &found.files, &patterns)?;
    }
    let directories = directories_of(rt, &found.files)?;
    let mut readings = ScanReadings {
        rt,
        scan,
        patterns: &patterns,
        states: States::of(alloc, &found.files, &found.states, notes_programs)?,
        watched: Vec::new(alloc),
        digested: Vec::new(alloc),
    };
    let files = match compose(alloc, found.files, owner_of(scan), &mut readings) {
        Ok(files) => files,
        Err(why) => return Err(uncomposed(reporter, scan, why)),
    };
    let ScanReadings {
        states,
        watched,
        ..
    } = readings;
    Ok(Found {
        files,
        directories,
        watched,
        states,
    })
}

/// Which files a manifest is made of: those that were found or read, and the files of devices.
fn inputs_of(
    rt: &HostRuntime,
    scan: &ScanAll<'_>,
    found: &Found,
) -> Result<Vec<Identity>, AllocError> {
    let mut all = Vec::new(rt.alloc());
    for name in [scan.devices, scan.device_table] {
        if let Some(name) = name
            && let Some(there) = identity_of(rt, name)
        {
            all.push(there)?;
        }
    }
    for file in &found.watched {
        all.push(file.state.identity())?;
    }
    for file in &found.files {
        all.push(Identity::at(file.inode.device, file.inode.number))?;
    }
    Ok(all)
}

/// Opens the target for the manifest. It is neither a file that the manifest is made of, nor a file
/// that is standard output or standard error.
fn target_of(
    rt: &HostRuntime,
    name: &str,
    scan: &ScanAll<'_>,
    found: &Found,
) -> Result<Target, Stop> {
    let read = inputs_of(rt, scan, found)?;
    let outputs = Outputs {
        read: &read,
        other: None,
        shares_streams: true,
    };
    match outputs.open(rt, name) {
        Ok(target) => Ok(target),
        Err(why) => Err(unopened(rt.alloc(), name, why, [OWN_FILE, OWN_STREAM])),
    }
}

/// Writes a manifest to its target.
fn write_to(
    rt: &HostRuntime,
    target: &mut Target,
    name: &str,
    volume: &[u8],
    lines: &[Entry<'_>],
) -> Result<(), Stop> {
    let Some(mut writer) = target.take_writer() else {
        return Err(failed(rt.alloc(), name, MANIFEST_NOT_TAKEN));
    };
    if put_found(&mut writer, volume, lines).is_ok() {
        target.put_back(writer);
        return Ok(());
    }
    match writer.error() {
        Some(e) => Err(refused(rt.alloc(), name, e)),
        None => Err(failed(rt.alloc(), name, MANIFEST_NOT_TAKEN)),
    }
}

/// Writes a manifest into a file, which then has all of it, or stays as it was.
fn write_file(
    rt: &HostRuntime,
    name: &str,
    volume: &[u8],
    lines: &[Entry<'_>],
    mut target: Target,
) -> Result<(), Stop> {
    if let Err(stop) = write_to(rt, &mut target, name, volume, lines) {
        target.abandon(rt);
        return Err(stop);
    }
    keep_target(rt, name, target)
}

/// Prints a manifest on standard output.
fn print(rt: &HostRuntime, volume: &[u8], lines: &[Entry<'_>]) -> Result<(), Stop> {
    match put_found(&mut output(rt)?, volume, lines) {
        Ok(()) => Ok(()),
        Err(Failed) => Err(Stop::unwritten()),
    }
}

/// The volume's name.
fn volume_of<'a>(alloc: Global, scan: &ScanAll<'a>) -> Result<&'a [u8], Stop> {
    let volume = scan.volume.unwrap_or("");
    if volume.len() > MOST_VOLUME {
        return Err(usage(alloc, volume, LONG_NAME));
    }
    Ok(volume.as_bytes())
}

/// The lines of the files that were found, and what they do not keep. A strict scan refuses that,
/// in these words and more.
fn lines_of<'f>(
    scan: &ScanAll<'_>,
    found: &'f [NamedFile],
    words: Words,
) -> Result<(Vec<Entry<'f>>, Unfit), Stop> {
    let alloc = words.alloc();
    let lines = lines(alloc, scan.format, found)?;
    let unfit = Unfit::of(alloc, &lines, found)?;
    if scan.strict && !unfit.is_none() {
        return Err(unfit.refusal(scan, words));
    }
    Ok((lines, unfit))
}

/// Whether a regular file has exactly the bytes of a manifest with these lines. If it cannot be
/// read, it is written anew.
fn has_text(rt: &HostRuntime, name: &str, volume: &[u8], lines: &[Entry<'_>]) -> bool {
    let mut text = Plain::new(Vec::new(rt.alloc()));
    if put_found(&mut text, volume, lines).is_err() {
        return false;
    }
    let text = text.into_inner();
    match reading::beginning(rt, name, text.len() as u64 + 1) {
        Ok(found) => found == text,
        Err(_) => false,
    }
}

/// The names of the regular files that were found, and of the files of devices.
fn names_of(
    rt: &HostRuntime,
    scan: &ScanAll<'_>,
    found: &[NamedFile],
) -> Result<Vec<String>, AllocError> {
    let mut names = Vec::new(rt.alloc());
    for file in found {
        if matches!(file.kind, FileKind::Regular) && !file.place.is_empty() {
            names.push(String::from_str(rt.alloc(), &file.place)?)?;
        }
    }
    for name in [scan.devices, scan.device_table] {
        if let Some(name) = name {
            names.push(String::from_str(rt.alloc(), name)?)?;
        }
    }
    Ok(names)
}

/// Opens the file of a rule and writes it there, if one is asked for. It gets its name after the
/// manifest has got its own.
fn rule_of(
    rt: &HostRuntime,
    scan: &ScanAll<'_>,
    out: &str,
    found: &Found,
    image: &Target,
) -> Result<Option<Target>, Stop> {
    let Some(name) = scan.depfile else {
        return Ok(None);
    };
    let names = names_of(rt, scan, &found.files)?;
    let mut sources = Vec::new(rt.alloc());
    for name in &names {
        sources.push(name.as_str())?;
    }
    let rule = Rule {
        out,
        manifest: None,
        sources: &sources,
        directories: &found.directories,
    };
    depfile::check(rt, name, rule)?;
    let target = target_of(rt, name, scan, found)?;
    Ok(Some(depfile::written(rt, name, rule, target, image)?))
}

/// Gives a target that was written its name.
fn keep_target(rt: &HostRuntime, name: &str, target: Target) -> Result<(), Stop> {
    match target.keep(rt) {
        Ok(()) => Ok(()),
        Err(KeepError::Refused(e)) => Err(refused(rt.alloc(), name, e)),
        Err(KeepError::Changed) => Err(changed(rt.alloc(), name, PART_REPLACED)),
    }
}

/// Writes a manifest into a file. A file that has it already stays untouched, so that make builds
/// nothing again.
fn put_manifest(
    rt: &HostRuntime,
    name: &str,
    volume: &[u8],
    lines: &[Entry<'_>],
    target: Target,
) -> Result<(), Stop> {
    if has_text(rt, name, volume, lines) {
        target.abandon(rt);
        return Ok(());
    }
    write_file(rt, name, volume, lines, target)
}

/// Writes the manifest into the file that is asked for, if one is, and then the rule.
fn keep(
    rt: &HostRuntime,
    scan: &ScanAll<'_>,
    volume: &[u8],
    found: &Found,
    lines: &[Entry<'_>],
) -> Result<(), Stop> {
    let Some(name) = scan.output else {
        return Ok(());
    };
    let target = target_of(rt, name, scan, found)?;
    let rule = match rule_of(rt, scan, name, found, &target) {
        Ok(rule) => rule,
        Err(stop) => {
            target.abandon(rt);
            return Err(stop);
        }
    };
    if let Err(stop) = put_manifest(rt, name, volume, lines, target) {
        if let Some(rule) = rule {
            rule.abandon(rt);
        }
        return Err(stop);
    }
    match (rule, scan.depfile) {
        (Some(rule), Some(name)) => keep_target(rt, name, rule),
        _ => Ok(()),
    }
}

/// Prints a manifest of directories as they are, or writes it into a file. Explains what it does
/// not keep. Nothing is written if a file cannot be read.
///
/// # Errors
///
/// Any stop; `Told` for what a strict scan refuses.
#[inline(never)]
pub fn run(reporter: &Reporter<'_>, scan: &ScanAll<'_>) -> Result<Status, Stop> {
    let rt = reporter.rt;
    check_faked(rt, &scan.directories)?;
    let volume = volume_of(rt.alloc(), scan)?;
    let found = all_found(reporter, scan, &[scan.output, scan.depfile], false)?;
    let (lines, unfit) = lines_of(scan, &found.files, reporter.words())?;
    match scan.output {
        Some(_) => keep(rt, scan, volume, &found, &lines)?,
        None => print(rt, volume, &lines)?,
    }
    let mut words = reporter.words();
    unfit.explain(&mut words, scan);
    reporter.tell(&words);
    Ok(Status::Done)
}

/// The text of the manifest of directories, all directories that were found, the files that were
/// read, and the states in which regular files were found.
#[derive(Drop)]
pub struct ScannedText {
    pub text: Vec<u8>,
    pub directories: Vec<String>,
    pub watched: Vec<Watched>,
    pub states: States,
}

/// A directory's name as make reads it. A dot by itself is no name for make, so it is spelled as
/// the path of the current directory.
fn spelled(rt: &HostRuntime, name: &str) -> Result<String, AllocError> {
    match current_directory(rt) {
        Ok(whole) if name == "." => Ok(whole),
        _ => String::from_str(rt.alloc(), name),
    }
}

/// The names of the directories among the files that were found.
fn directories_of(rt: &HostRuntime, found: &[NamedFile]) -> Result<Vec<String>, AllocError> {
    let mut directories = Vec::new(rt.alloc());
    for file in found {
        if is_directory(file) && !file.place.is_empty() {
            directories.push(spelled(rt, &file.place)?)?;
        }
    }
    Ok(directories)
}

/// The text of the manifest of what was found, which is written into a file as well if one is asked
/// for, and what it does not keep. A strict scan refuses that in these words and more.
fn text_of(
    rt: &HostRuntime,
    scan: &ScanAll<'_>,
    volume: &[u8],
    found: &Found,
    words: Words,
) -> Result<(Vec<u8>, Unfit), Stop> {
    let (lines, unfit) = lines_of(scan, &found.files, words)?;
    let mut text = Plain::new(Vec::new(rt.alloc()));
    if put_found(&mut text, volume, &lines).is_err() {
        return Err(Stop::Memory);
    }
    keep(rt, scan, volume, found, &lines)?;
    Ok((text.into_inner(), unfit))
}

/// Returns the text of the manifest of directories, and writes it into a file as well if one is
/// asked for. Files of these names are written later. Explains what the manifest does not keep.
///
/// # Errors
///
/// Those of `run`.
pub fn scanned_text(
    reporter: &Reporter<'_>,
    scan: &ScanAll<'_>,
    names: &[Option<&str>],
) -> Result<ScannedText, Stop> {
    let rt = reporter.rt;
    check_faked(rt, &scan.directories)?;
    let volume = volume_of(rt.alloc(), scan)?;
    let found = all_found(reporter, scan, names, reporter.is_explained())?;
    let (text, unfit) = text_of(rt, scan, volume, &found, reporter.words())?;
    let mut words = reporter.words();
    unfit.explain(&mut words, scan);
    reporter.tell(&words);
    let Found {
        files: _,
        directories,
        watched,
        states,
    } = found;
    Ok(ScannedText {
        text,
        directories,
        watched,
        states,
    })
}
