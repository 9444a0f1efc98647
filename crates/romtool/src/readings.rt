//! What a scan reads while the files that it found are put together.
use crate::aligning::{AlignRules, alignments};
use crate::devices::text_of_file;
use crate::equal;
use crate::patterns::Patterns;
use crate::stop::Stop;
use crate::watched::States;
use build_commands::composing::{DeviceText, Readings};
use build_commands::devices::list_for;
use build_commands::equal::Digest;
use build_commands::inventory::NamedFile;
use command_line::ScanAll;
use system_files::{Digested, Watched, files_stayed};

/// The readings of one scan.
#[derive(Drop)]
pub struct ScanReadings<'a> {
    pub rt: &'a HostRuntime,
    pub scan: &'a ScanAll<'a>,
    pub patterns: &'a Patterns,
    pub states: States,
    /// The files that were read.
    pub watched: Vec<Watched>,
    /// What was read of each file that is compared.
    pub digested: Vec<Option<Digested>>,
}

impl ScanReadings<'_> {
    /// The text in the file of this name, if there is a name.
    fn text_in(&mut self, name: Option<&str>) -> Result<Option<Vec<u8>>, Stop> {
        match name {
            Some(name) => Ok(Some(text_of_file(self.rt, name, &mut self.watched)?)),
            None => Ok(None),
        }
    }
}

impl Readings for ScanReadings<'_> {
    ghost use Rattle.std.specs.Prelude.{⊤};

    type Error = Stop;

    // Files answer nothing that a proof knows.
    ghost IsLog = { λ _ _. ⊤ };

    fn alignments(&mut self, files: &[NamedFile]) -> Result<Vec<u32>, Stop> {
        let rules = AlignRules {
            patterns: self.patterns,
            align: self.scan.align,
        };
        alignments(self.rt, rules, files, &mut self.states)
    }

    fn text(&mut self, which: DeviceText) -> Result<Option<Vec<u8>>, Stop> {
        match which {
            DeviceText::Table => self.text_in(self.scan.device_table),
            DeviceText::List => self.text_in(self.scan.devices),
            DeviceText::Given => {
                if self.scan.added.is_empty() {
                    return Ok(None);
                }
                Ok(Some(list_for(self.rt.alloc(), &self.scan.added)?))
            }
        }
    }

    fn sizes(&mut self, files: &[NamedFile]) -> Result<Option<Vec<u64>>, Stop> {
        if !self.scan.dedupe {
            return Ok(None);
        }
        Ok(Some(equal::sizes_of(self.rt, files)?))
    }

    fn digests(
        &mut self,
        files: &[NamedFile],
        sizes: &[u64],
        compared: &[bool],
    ) -> Result<Vec<Option<Digest>>, Stop> {
        self.digested = equal::all_digested(self.rt, files, sizes, compared)?;
        Ok(equal::digests_of(self.rt.alloc(), &self.digested)?)
    }

    fn joined(&mut self, files: &[NamedFile], further: &[bool]) -> Result<(), Stop> {
        let read = equal::watched_of(self.rt.alloc(), files, &self.digested, further)?;
        files_stayed(self.rt, &read)?;
        for file in read {
            self.watched.push(file)?;
        }
        Ok(())
    }
}
