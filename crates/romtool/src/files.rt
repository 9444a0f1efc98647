//! The files that an image is made of, and what is reported if they change or cannot be read.
ghost use Rattle.std.specs.Prelude.{◌≡◌, map, option_map};
ghost use Rattle.build_commands.specs.Sources.{opened_as};
ghost use Rattle.manifest.specs.Lines.{sources_of};

use crate::asked::Asked;
use crate::origin::Origin;
use crate::stop::{Line, Stop, changed, failed};
use crate::unchanged::Late;
use crate::words::Words;
use image_build::StreamError;
use rom_commands::Ending;
use sentences::reason_sentence;
use sentences::reasons::{NOT_TAKEN, SUM_DIFFERS};
use std::alloc::{AllocError, Global};
use std::io;
use system_files::reading::{self, TextFile};
use system_files::{Disk, Reason, Refusal, Stamp, Watched, first_changed, has_changed};

/// The word for a manifest on standard input.
pub const INPUT: &str = "-";

/// The files that have to keep their states while an image is written: its sources, those that a
/// scan read besides, and those among its sources that a scan read.
#[derive(Clone, Copy)]
pub struct Kept<'a> {
    pub names: &'a [&'a str],
    pub states: &'a [Stamp],
    /// How many of the names a rule has: each once.
    pub in_rule: usize,
}

/// Returns the names of the files that have to keep their states: sources of these names, and files
/// that were read.
pub fn kept_names(
    alloc: Global,
    names: &[&str],
    watched: &[Watched],
) -> Result<Vec<String>, AllocError> {
    let mut all = Vec::new(alloc);
    for name in names {
        all.push(String::from_str(alloc, name)?)?;
    }
    for file in watched.iter().filter(|file| !file.is_source) {
        all.push(String::from_str(alloc, &file.name)?)?;
    }
    for file in watched.iter().filter(|file| file.is_source) {
        all.push(String::from_str(alloc, &file.name)?)?;
    }
    Ok(all)
}

/// Returns their states, in the same order.
pub fn kept_states(
    alloc: Global,
    stamps: &[Stamp],
    watched: &[Watched],
) -> Result<Vec<Stamp>, AllocError> {
    let mut all = Vec::new(alloc);
    all.extend_from_slice(stamps)?;
    for file in watched.iter().filter(|file| !file.is_source) {
        all.push(file.state)?;
    }
    for file in watched.iter().filter(|file| file.is_source) {
        all.push(file.state)?;
    }
    Ok(all)
}

/// What is asked for, and the sources of the image: their names, and the states that they and the
/// manifest have to keep. The names are those of the manifest's sources in its order, each as it is
/// opened.
#[derive(Clone, Copy)]
pub struct Files<'a> {
    pub asked: Asked<'a>,
    pub origin: Origin<'a>,
    pub manifest: TextFile,
    pub names: &'a [&'a str],
    pub stamps: &'a [Stamp],
    pub kept: Kept<'a>,
    ghost named: { map (λ n. n.now) names.now ≡ opened_as
        (option_map (λ d. d.now) asked.wanted.sources) (sources_of origin.manifest.now.lines) },
}

impl<'a> Files<'a> {
    /// Returns the name by which the manifest is looked at again, and the state that it has to
    /// keep.
    pub fn manifest_state(&self) -> (&'a str, Option<Stamp>) {
        let name: &'a str = self.origin.name;
        let name = if name == INPUT { reading::INPUT } else { name };
        (name, self.manifest.stamp)
    }
}

impl Files<'_> {
    /// Stops since a source changed.
    fn source_changed(&self, alloc: Global, file: usize) -> Stop {
        let mut words = Words::new(alloc, true);
        words.add_source(self.origin, file, &reason_sentence(Reason::SourceChanged));
        Stop::Told(Line::Of(Ending::Changed), words)
    }

    /// Returns why a build stops since something changed while the image was written.
    pub fn late(&self, alloc: Global, late: Late) -> Stop {
        let name = match late {
            Late::Manifest => self.origin.name,
            Late::Source(file) if file < self.names.len() => {
                return self.source_changed(alloc, file);
            }
            Late::Source(file) => self.kept.names.get(file).copied().unwrap_or(""),
        };
        changed(alloc, name, reason_sentence(Reason::SourceChanged))
    }

    /// Returns why a build stops since a source could not be read as it was: it changed, or was
    /// refused, or has another length than the system reported.
    pub fn fault(&self, rt: &HostRuntime, file: usize, why: Option<Refusal>) -> Stop {
        let alloc = rt.alloc();
        let mut words = Words::new(alloc, true);
        let (Some(name), Some(stamp)) = (self.names.get(file), self.stamps.get(file)) else {
            return Stop::Told(Line::Of(Ending::Changed), words);
        };
        let why = match has_changed(rt, name, stamp) {
            Ok(true) => return self.source_changed(alloc, file),
            Ok(false) => why.unwrap_or(Refusal::Reason(Reason::SourceUnread)),
            Err(e) => Refusal::System(e),
        };
        words.add_refused_source(self.origin, file, why);
        match name.as_bytes().to_vec(alloc) {
            Ok(name) => Stop::Told(Line::File(name), words),
            Err(_) => Stop::Memory,
        }
    }

    /// Returns why a build stops since not all of an image was written: OUT or a source failed, for
    /// the system's reason.
    pub fn unwritten(
        &self,
        rt: &HostRuntime,
        e: StreamError,
        reasons: (Option<io::Error>, Option<io::Error>),
        out: &str,
    ) -> Stop {
        let (of_source, of_out) = reasons;
        match e {
            StreamError::SizeDiffers { file } => self.fault(rt, file, None),
            StreamError::SourceFault { file } => self.fault(rt, file, of_source.map(Disk::refusal)),
            StreamError::WriteFault => not_taken(rt.alloc(), of_out, out),
            StreamError::Changed => match first_changed(rt, self.names, self.stamps) {
                Some(file) => self.source_changed(rt.alloc(), file),
                None => changed(rt.alloc(), out, SUM_DIFFERS),
            },
        }
    }
}

/// Returns why a build stops since OUT did not accept everything, for the system's reason if it
/// gave one.
pub fn not_taken(alloc: Global, reason: Option<io::Error>, out: &str) -> Stop {
    match reason {
        Some(e) => Stop::of_file(alloc, out.as_bytes(), e.into()),
        None => failed(alloc, out, NOT_TAKEN),
    }
}
