//! The directories of the system, as a scan lists them.
ghost use Rattle.std.specs.Prelude.{None, ⊤};

use crate::directories::{base, directory_at, is_foreign, opened_name};
use crate::file_error::{FileError, named};
use crate::reason::{Reason, Refusal};
use crate::stamp::{Stamp, let_rest};
use directory_walk::{Directory, Listed, Lister, Walked, walk};
use std::alloc::{AllocError, Global};
use std::fs::{self, DirEntry, Metadata};
use std::os::unix::fs::MetadataExt;

/// What a scan asks of each file.
pub trait Survey {
    /// What is told of a file.
    type Known: Drop;

    /// Returns whether the file of this path below the scanned directory is not examined.
    fn excludes(&self, alloc: Global, path: &str) -> Result<bool, AllocError>;

    /// Returns what is told of the file with this name and these attributes, unless it is skipped.
    fn report(
        &mut self,
        rt: &HostRuntime,
        place: &str,
        known: &Metadata,
    ) -> Result<Option<Self::Known>, Refusal>;

    /// Notes that a name, or a name in the directory of this name, is no UTF-8, or refuses it.
    fn note(&mut self, alloc: Global, name: &str, why: Reason) -> Result<(), FileError>;
}

/// Lists the directory `top` of the system and those below it.
#[derive(Drop)]
pub struct SystemLister<'a, S> {
    pub rt: &'a HostRuntime,
    pub top: &'a str,
    /// The device whose directories are entered, if not all are.
    pub device: Option<u64>,
    pub survey: &'a mut S,
}

impl<'a, S: Survey> SystemLister<'a, S> {
    /// The file of this name, as it is listed, unless it is skipped.
    fn examined(
        &mut self,
        path: String,
        entry: &DirEntry,
    ) -> Result<Option<Listed<S::Known, Stamp>>, Refusal> {
        let attributes = entry.metadata()?;
        let Some(known) = self.survey.report(self.rt, &path, &attributes)? else {
            return Ok(None);
        };
        let is_near = self.device.is_none_or(|device| device == attributes.dev());
        let state = if attributes.is_dir() && is_near {
            Some(Stamp::of(&attributes))
        } else {
            None
        };
        Ok(Some(Listed { path, known, state }))
    }

    /// Adds an entry with this name.
    fn add(
        &mut self,
        listed: &mut Vec<Listed<S::Known, Stamp>>,
        path: String,
        entry: &DirEntry,
    ) -> Result<(), FileError> {
        let alloc = self.rt.alloc();
        let below = path.get(base(self.top).len()..).unwrap_or("");
        if self.survey.excludes(alloc, below.trim_start_matches('/'))? {
            return Ok(());
        }
        let name = entry.path().as_str();
        match self.examined(path, entry) {
            Err(Refusal::System(e)) if is_foreign(&e) => {
                self.survey.note(alloc, name, Reason::ForeignLink)
            }
            examined => {
                if let Some(one) = named(alloc, name, examined)? {
                    listed.push(one)?;
                }
                Ok(())
            }
        }
    }
}

impl<'a, S: Survey> Lister for SystemLister<'a, S> {
    type Known = S::Known;

    type State = Stamp;

    type Error = FileError;

    // Files and directories may change, so no tree is told.
    ghost tree = { λ _. None };

    ghost refuses = { λ _ _ _. ⊤ };

    fn list(
        &mut self,
        directory: &Directory<Stamp>,
    ) -> Result<Vec<Listed<S::Known, Stamp>>, FileError> {
        let (rt, alloc) = (self.rt, self.rt.alloc());
        let_rest(rt, &[directory.state]);
        let name = opened_name(directory, self.top);
        let entries = named(alloc, name, fs::read_dir(rt, name))?;
        let mut listed = Vec::new(alloc);
        let mut has_foreign = false;
        for entry in entries {
            match entry {
                Err(e) if is_foreign(&e) => {
                    if !has_foreign {
                        self.survey.note(alloc, name, Reason::ForeignName)?;
                    }
                    has_foreign = true;
                }
                entry => {
                    let entry = named(alloc, name, entry)?;
                    let path = format!(in alloc; "{}/{}", &directory.path, entry.file_name())?;
                    self.add(&mut listed, path, &entry)?;
                }
            }
        }
        Ok(listed)
    }
}

/// Returns the directory `top` as a scan begins with it, and its attributes.
///
/// # Errors
///
/// `Refused`, `OutOfMemory`.
pub fn opened(rt: &HostRuntime, top: &str) -> Result<(Metadata, Directory<Stamp>), FileError> {
    let attributes = named(rt.alloc(), top, directory_at(rt, top))?;
    let path = String::from_str(rt.alloc(), base(top))?;
    let state = Stamp::of(&attributes);
    Ok((attributes, Directory { path, state }))
}

/// Returns the attributes of the directory `top`, and all that is below it.
///
/// # Errors
///
/// Those of the survey; `Refused` for what cannot be read; `OutOfMemory`.
pub fn all_below<S: Survey>(
    rt: &HostRuntime,
    top: &str,
    one_file_system: bool,
    survey: &mut S,
) -> Result<(Metadata, Walked<S::Known, Stamp>), FileError> {
    let (attributes, directory) = opened(rt, top)?;
    let mut lister = SystemLister {
        rt,
        top,
        device: one_file_system.then_some(attributes.dev()),
        survey,
    };
    let walked = walk(rt.alloc(), &mut lister, directory)?;
    Ok((attributes, walked))
}
