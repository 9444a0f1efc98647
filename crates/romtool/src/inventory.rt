//! Scans directories as they are, with all that is below them.
use crate::patterns::Patterns;
use crate::stop::{Noted, Stop, named};
use crate::written::Written;
use build_commands::inventory::{Device, FileKind, Inode, NamedFile};
use command_line::ScanAll;
use directory_walk::{Directory, Entry};
use sentences::reason_sentence;
use sentences::reasons::{NO_PART, PART_LEFT_OUT};
use std::alloc::{AllocError, Global};
use std::fs::Metadata;
use std::os::unix::fs::{FileTypeExt, MetadataExt};
use system_files::lister::{self, Survey};
use system_files::{
    DeviceNumbers, FileError, Reason, Refusal, Stamp, base, device_of, directories_stayed,
    is_marked, is_part_of, let_rest, link_text, name_stayed, unlinked,
};

/// The bits of a mode without the kind of a file.
const MODE_BITS: u32 = 0o7777;

/// The alignment of a file for which no other one is chosen.
const USUAL_ALIGN: u32 = 4;

/// The numbers of a device with these attributes.
fn numbers_of(metadata: &Metadata) -> Device {
    let DeviceNumbers { major, minor } = device_of(metadata.rdev());
    Device { major, minor }
}

/// The kind of the file with this name and these attributes.
fn kind_of(rt: &HostRuntime, place: &str, metadata: &Metadata) -> Result<FileKind, Refusal> {
    let kind = metadata.file_type();
    Ok(if kind.is_dir() {
        FileKind::Directory
    } else if kind.is_file() {
        FileKind::Regular
    } else if kind.is_symlink() {
        FileKind::Symlink(link_text(rt, place)?)
    } else if kind.is_block_device() {
        FileKind::Block(numbers_of(metadata))
    } else if kind.is_char_device() && metadata.rdev() == 0 {
        return Err(Reason::Whiteout.into());
    } else if kind.is_char_device() {
        FileKind::Character(numbers_of(metadata))
    } else if kind.is_fifo() {
        FileKind::Fifo
    } else if kind.is_socket() {
        FileKind::Socket
    } else {
        return Err(Reason::NoKind.into());
    })
}

/// A file as the system reports it.
#[derive(Drop)]
struct Reported {
    kind: FileKind,
    mode: u32,
    uid: u32,
    gid: u32,
    inode: Inode,
    has_links: bool,
    /// The state that the file has to keep. Directories that are entered are compared otherwise.
    state: Stamp,
}

impl Reported {
    /// The file with this name and these attributes.
    fn of(rt: &HostRuntime, place: &str, metadata: &Metadata) -> Result<Reported, Refusal> {
        Ok(Reported {
            kind: kind_of(rt, place, metadata)?,
            mode: metadata.mode() & MODE_BITS,
            uid: metadata.uid(),
            gid: metadata.gid(),
            inode: Inode {
                device: metadata.dev(),
                number: metadata.ino(),
            },
            has_links: metadata.nlink() > 1,
            state: Stamp::of(metadata),
        })
    }

    /// The same with its name, in which this number of bytes are in front of the path.
    fn named(self, place: String, front: usize) -> NamedFile {
        NamedFile {
            place,
            front,
            kind: self.kind,
            mode: self.mode,
            uid: self.uid,
            gid: self.gid,
            align: USUAL_ALIGN,
            inode: self.inode,
            has_links: self.has_links,
        }
    }
}

/// A survey of files of all kinds that are not excluded and are no parts of the files that are
/// written.
#[derive(Drop)]
struct Whole<'a> {
    patterns: &'a Patterns,
    written: &'a [Written<'a>],
    /// Names in directories and texts of links that are no UTF-8.
    foreign: Vec<Noted>,
    /// Files with names of parts.
    parts: Vec<Noted>,
}

impl Whole<'_> {
    /// Refuses all names and texts that are no UTF-8, in the order of the bytes of names. Otherwise
    /// returns the files with names of parts.
    fn all_texts(self) -> Result<Vec<Noted>, Stop> {
        let Whole {
            mut foreign,
            parts,
            ..
        } = self;
        foreign.sort_by(|a: &Noted, b: &Noted| a.place.cmp(&b.place))?;
        if foreign.is_empty() {
            Ok(parts)
        } else {
            Err(Stop::FailedEach(foreign))
        }
    }

    /// Whether a file with these attributes is a part of a file that is written. Notes it if it has
    /// the name of one.
    fn is_part(
        &mut self,
        rt: &HostRuntime,
        place: &str,
        found: &Metadata,
    ) -> Result<bool, AllocError> {
        if !self
            .written
            .iter()
            .any(|file| is_part_of(rt, place, &file.whole))
        {
            return Ok(false);
        }
        let is_marked = is_marked(found);
        let why = if is_marked { PART_LEFT_OUT } else { NO_PART };
        let place = String::from_str(rt.alloc(), place)?;
        self.parts.push(Noted { place, why })?;
        Ok(is_marked)
    }
}

impl Survey for Whole<'_> {
    type Known = Reported;

    fn excludes(&self, alloc: Global, path: &str) -> Result<bool, AllocError> {
        self.patterns.exclude(alloc, path)
    }

    fn report(
        &mut self,
        rt: &HostRuntime,
        place: &str,
        metadata: &Metadata,
    ) -> Result<Option<Reported>, Refusal> {
        if self.is_part(rt, place, metadata)? {
            return Ok(None);
        }
        if let_rest(rt, &[Stamp::of(metadata)]) {
            let rested = unlinked(rt, place)?;
            return Ok(Some(Reported::of(rt, place, &rested)?));
        }
        Ok(Some(Reported::of(rt, place, metadata)?))
    }

    fn note(&mut self, alloc: Global, name: &str, why: Reason) -> Result<(), FileError> {
        let (place, why) = (String::from_str(alloc, name)?, reason_sentence(why));
        self.foreign.push(Noted { place, why })?;
        Ok(())
    }
}

/// A directory that was scanned, and the directories below it that were entered.
#[derive(Drop)]
struct Scanned<'a> {
    top: &'a str,
    entered: Vec<Directory<Stamp>>,
}

/// The files that were found, with the state of each, and which of them have names of parts of the
/// files that are written, or were left out for that.
#[derive(Drop)]
pub struct Found {
    pub files: Vec<NamedFile>,
    pub states: Vec<Stamp>,
    pub parts: Vec<Noted>,
}

impl Found {
    /// Adds a file with its name, in which this number of bytes are in front of the path.
    fn add(&mut self, reported: Reported, place: String, front: usize) -> Result<(), AllocError> {
        self.states.push(reported.state)?;
        self.files.push(reported.named(place, front))?;
        Ok(())
    }

    /// Refuses the first file, except directories, that changed since it was found. If none did,
    /// all files had what was found of them at one time.
    fn check_unchanged(&self, rt: &HostRuntime) -> Result<(), FileError> {
        for (file, state) in self.files.iter().zip(&self.states) {
            if matches!(file.kind, FileKind::Directory) {
                continue;
            }
            name_stayed(rt, &file.place, state)?;
        }
        Ok(())
    }
}

/// Adds a directory with these attributes, and the files below it, to those that were found.
fn add_all(
    rt: &HostRuntime,
    found: &mut Found,
    top: &str,
    metadata: &Metadata,
    entries: Vec<Entry<Reported>>,
) -> Result<(), Refusal> {
    let place = String::from_str(rt.alloc(), base(top))?;
    let front = place.len();
    found.add(Reported::of(rt, base(top), metadata)?, place, front)?;
    for entry in entries {
        found.add(entry.known, entry.path, front)?;
    }
    Ok(())
}

/// Returns the directories of a scan and all files below them, except excluded ones and parts of
/// the files that are written. The files of each directory are together.
///
/// # Errors
///
/// `FailedEach` for names that are no UTF-8; `Refused` for a file that changed during the scan, or
/// cannot be read; `Memory`.
pub fn all_below(
    rt: &HostRuntime,
    scan: &ScanAll<'_>,
    patterns: &Patterns,
    written: &[Written<'_>],
) -> Result<Found, Stop> {
    let alloc = rt.alloc();
    let mut entered = Vec::new(alloc);
    let mut found = Found {
        files: Vec::new(alloc),
        states: Vec::new(alloc),
        parts: Vec::new(alloc),
    };
    let mut whole = Whole {
        patterns,
        written,
        foreign: Vec::new(alloc),
        parts: Vec::new(alloc),
    };
    for top in &scan.directories {
        let (metadata, walked) = lister::all_below(rt, top, scan.one_file_system, &mut whole)?;
        let added = add_all(rt, &mut found, top, &metadata, walked.entries);
        named(alloc, top, added)?;
        entered.push(walked.directories)?;
    }
    found.parts = whole.all_texts()?;
    stayed(rt, &scan.directories, &entered)?;
    found.check_unchanged(rt)?;
    Ok(found)
}

/// Checks that the directories that were entered below each scanned one are as they were found.
fn stayed(
    rt: &HostRuntime,
    tops: &[&str],
    entered: &[Vec<Directory<Stamp>>],
) -> Result<(), FileError> {
    for (top, directories) in tops.iter().zip(entered) {
        directories_stayed(rt, top, directories)?;
    }
    Ok(())
}
