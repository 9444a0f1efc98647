//! Where the sources of an image are named.
ghost use Rattle.std.specs.Prelude.{◌≡◌, Ok};
ghost use Rattle.manifest.specs.Grammar.{manifest_of};

use crate::scan_all::ScannedText;
use crate::watched::States;
use manifest::Manifest;
use sentences::plan_line::line_of_source;
use system_files::Watched;

/// A manifest, and the name of its file.
#[derive(Clone, Copy)]
pub struct Origin<'a> {
    pub name: &'a str,
    /// The manifest's text.
    pub text: &'a [u8],
    pub manifest: &'a Manifest,
    /// The names of the sources, if they differ from those in the manifest.
    pub joined: Option<&'a [Vec<u8>]>,
    /// Whether a source is refused if its own name is that of a symbolic link.
    pub no_follow: bool,
    /// What was scanned, if the manifest is of a scan.
    pub scanned: Option<&'a ScannedText>,
    ghost says: { manifest_of text.now ≡ Ok manifest.now },
}

impl<'a> Origin<'a> {
    /// Returns the directories in which the sources were found by a scan.
    pub fn directories(&self) -> &'a [String] {
        match self.scanned {
            Some(scanned) => &scanned.directories,
            None => &[],
        }
    }

    /// Returns the files besides that decided what the manifest says.
    pub fn watched(&self) -> &'a [Watched] {
        match self.scanned {
            Some(scanned) => &scanned.watched,
            None => &[],
        }
    }

    /// Returns the states in which a scan found the sources.
    pub fn states(&self) -> Option<&'a States> {
        match self.scanned {
            Some(scanned) => Some(&scanned.states),
            None => None,
        }
    }

    /// Returns the number of sources.
    pub fn count(&self) -> usize {
        self.manifest.sources().len()
    }

    /// Returns the name of the source of this number, from 0 on.
    pub fn source(&self, number: usize) -> &'a [u8] {
        match self.joined {
            Some(joined) => match joined.get(number) {
                Some(name) => name,
                None => &[],
            },
            None => match self.manifest.sources().get(number) {
                Some(source) => source.as_bytes(),
                None => &[],
            },
        }
    }

    /// Returns the line that names it.
    pub fn line(&self, number: usize) -> u64 {
        line_of_source(self.manifest, number).unwrap_or(0)
    }
}
