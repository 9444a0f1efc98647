//! The file system as what opens the sources of an image.
use crate::progress::Progress;
use crate::reason::{Reason, Refusal};
use crate::stamp::{Identity, Stamp, has_changed, open_unchanged, stamp_of};
use file_sources::Opener;
use std::fs::File;
use std::os::unix::fs::FileExt;
use std::{fs, io};

/// A file that is open, and its name.
#[derive(Drop)]
pub struct OpenedSource<'a> {
    name: &'a str,
    file: File,
}

/// The files of the system. A file that changed is not opened again. What is read is shown as
/// progress.
#[derive(Drop)]
pub struct Disk<'a> {
    rt: &'a HostRuntime,
    progress: Progress<'a>,
}

impl<'a> Disk<'a> {
    /// Returns the files of the system, and the progress of reading them.
    pub fn new(rt: &'a HostRuntime, progress: Progress<'a>) -> Disk<'a> {
        Disk { rt, progress }
    }

    /// Returns why a source was not read, for the error that `open` or `read_at` returned.
    pub fn refusal(e: io::Error) -> Refusal {
        if e.raw_os_error().is_none() && e.kind() == io::ErrorKind::InvalidData {
            Refusal::Reason(Reason::SourceChanged)
        } else {
            Refusal::System(e)
        }
    }
}

/// What the system's files hold is known by no proof. So these two functions are trusted: that
/// `open` opens the file of the name, and that `read_at` hands on what the system read.
impl<'a> Opener for Disk<'a> {
    ghost use Rattle.std.specs.Prelude.{None, ⊤};

    type Name = &'a str;

    type State = Stamp;

    type File = OpenedSource<'a>;

    ghost spelled = { λ n. n.now };

    ghost name_of = { λ f. f.name.now };

    ghost contents = { λ _. None };

    ghost IsLog = { λ _ _. ⊤ };

    fn open(&mut self, name: &&'a str, stamp: &Stamp) -> io::Result<OpenedSource<'a>> {
        let name: &'a str = *name;
        match open_unchanged(self.rt, name, stamp)? {
            Some(file) => Ok(OpenedSource { name, file }),
            // it changed, as `refusal` says
            None => Err(io::Error::from(io::ErrorKind::InvalidData)),
        }
    }

    fn read_at(&mut self, open: &OpenedSource<'a>, at: u64, buf: &mut [u8]) -> io::Result<usize> {
        let n = open.file.read_at(buf, at)?;
        self.progress.add(n);
        Ok(n)
    }

    /// Shows no more progress.
    fn end(&mut self) {
        self.progress.end();
    }
}

/// Returns the state of a source, which is refused if its own name is that of a symbolic link.
///
/// # Errors
///
/// The operating system's error; `SourceLink`; `NotRegular`; `Replaced`.
pub fn stamp_unlinked(rt: &HostRuntime, name: &str) -> Result<Stamp, Refusal> {
    let metadata = fs::symlink_metadata(rt, name)?;
    if metadata.is_symlink() {
        return Err(Reason::SourceLink.into());
    }
    let stamp = stamp_of(rt, name)?;
    if stamp.identity() != Identity::of(&metadata) {
        return Err(Reason::Replaced.into());
    }
    Ok(stamp)
}

/// Returns the first of the files of these names, by its number, that does not exist any more or
/// has another state now.
pub fn first_changed(rt: &HostRuntime, names: &[&str], stamps: &[Stamp]) -> Option<usize> {
    let mut pairs = names.iter().zip(stamps);
    pairs.position(|(name, stamp)| has_changed(rt, name, stamp).unwrap_or(true))
}
