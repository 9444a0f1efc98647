//! The files that a scan writes, in directories that it may scan.
use crate::patterns::Patterns;
use crate::stop::{Stop, failed};
use build_commands::inventory::{FileKind, NamedFile};
use sentences::reasons::SCANNED;
use std::alloc::AllocError;
use std::str;
use system_files::{Identity, directory_of, identity_of, name_in_directory, way_to};

/// A file that is written: its name, and the name behind all links.
#[derive(Drop)]
pub struct Written<'a> {
    pub name: &'a str,
    pub whole: String,
}

/// Returns the files of these names that are written. A name whose links cannot be followed stays:
/// it is refused when the file is opened.
///
/// # Errors
///
/// `AllocError`.
pub fn files_written<'a>(
    rt: &HostRuntime,
    names: &[Option<&'a str>],
) -> Result<Vec<Written<'a>>, AllocError> {
    let mut all = Vec::new(rt.alloc());
    for name in names {
        let Some(name) = *name else {
            continue;
        };
        let whole = match way_to(rt, name) {
            Ok(whole) => whole,
            Err(_) => String::from_str(rt.alloc(), name)?,
        };
        all.push(Written { name, whole })?;
    }
    Ok(all)
}

impl Written<'_> {
    /// Whether the next scan would find it in a directory that was found.
    fn is_found_in(
        &self,
        rt: &HostRuntime,
        directory: &NamedFile,
        patterns: &Patterns,
    ) -> Result<bool, AllocError> {
        let path = str::from_utf8(directory.path()).unwrap_or("");
        let path = format!(in rt.alloc(); "{path}/{}", name_in_directory(&self.whole))?;
        Ok(!patterns.exclude(rt.alloc(), path.trim_start_matches('/'))?)
    }

    /// Refuses to write it into a directory that is scanned, unless it is excluded: the next scan
    /// would find it.
    ///
    /// # Errors
    ///
    /// `Failed`, `Memory`.
    pub fn check(
        &self,
        rt: &HostRuntime,
        found: &[NamedFile],
        patterns: &Patterns,
    ) -> Result<(), Stop> {
        let Some(there) = identity_of(rt, directory_of(&self.whole)) else {
            return Ok(());
        };
        let is_there = |file: &NamedFile| {
            let inode = &file.inode;
            matches!(file.kind, FileKind::Directory)
                && Identity::at(inode.device, inode.number) == there
        };
        match found.iter().find(|file| is_there(file)) {
            Some(directory) if self.is_found_in(rt, directory, patterns)? => {
                Err(failed(rt.alloc(), self.name, SCANNED))
            }
            _ => Ok(()),
        }
    }
}
