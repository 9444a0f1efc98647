//! The attributes of the scanned files that a format does not keep.
use crate::stop::{Line, Stop};
use crate::words::Words;
use build_commands::changes::{ChangeCounts, changes_of, count_changes};
use build_commands::inventory::NamedFile;
use command_line::ScanAll;
use manifest::Entry;
use sentences::changed::{Attribute, Changed, Paths, Scan, counted};
use std::alloc::{AllocError, Global};

/// How many owners, groups and modes are changed, their first paths, and the files that become
/// readable by all.
#[derive(Drop)]
pub struct Unfit {
    counts: ChangeCounts,
    owners: Changed,
    groups: Changed,
    modes: Changed,
    opened: Paths,
}

impl Unfit {
    /// Notes the changes of a file.
    fn add(&mut self, alloc: Global, line: &Entry<'_>, file: &NamedFile) -> Result<(), AllocError> {
        let (changes, path) = (changes_of(line, file), file.path());
        if changes.owner {
            self.owners.add(alloc, path, file.uid, line.uid)?;
        }
        if changes.group {
            self.groups.add(alloc, path, file.gid, line.gid)?;
        }
        if changes.mode {
            self.modes.add(alloc, path, file.mode, line.mode)?;
        }
        if changes.is_opened {
            self.opened.add(alloc, path)?;
        }
        Ok(())
    }

    /// Returns what changes in the lines of the scanned files, which are in the same order.
    pub fn of(
        alloc: Global,
        lines: &[Entry<'_>],
        found: &[NamedFile],
    ) -> Result<Unfit, AllocError> {
        let mut unfit = Unfit {
            counts: count_changes(lines, found),
            owners: Changed::new(alloc, Attribute::Owner),
            groups: Changed::new(alloc, Attribute::Group),
            modes: Changed::new(alloc, Attribute::Mode),
            opened: Paths::new(alloc),
        };
        for (line, file) in lines.iter().zip(found) {
            unfit.add(alloc, line, file)?;
        }
        Ok(unfit)
    }

    /// Returns whether nothing is changed.
    pub fn is_none(&self) -> bool {
        self.counts.are_zero()
    }

    /// Adds what is changed to words, if something is.
    pub fn explain(&self, words: &mut Words, scan: &ScanAll<'_>) {
        if words.are_asked() && !self.is_none() {
            let _ = self.try_explain(words, scan);
        }
    }

    /// Adds what is changed, or would be changed if that is refused.
    fn try_explain(&self, words: &mut Words, scan: &ScanAll<'_>) -> Result<(), AllocError> {
        let (Some(format), Some(place)) = (scan.format, scan.directories.first()) else {
            return Ok(());
        };
        let asked = Scan {
            format,
            is_refused: scan.strict,
            has_owner: scan.owner.is_some(),
        };
        for changed in [&self.owners, &self.groups, &self.modes] {
            if let Some(what) = changed.said(words.alloc(), asked)? {
                words.add(place.as_bytes(), &what);
            }
        }
        self.explain_opened(words, place, format.name())
    }

    /// Adds which files become readable by all, if any do.
    fn explain_opened(
        &self,
        words: &mut Words,
        place: &str,
        format: &str,
    ) -> Result<(), AllocError> {
        let alloc = words.alloc();
        if self.opened.count() > 0 {
            let count = counted(alloc, self.opened.count(), "name")?;
            let paths = self.opened.shown(alloc)?;
            let what = format!(in alloc; "{count} newly readable by all in {format}: {paths}")?;
            words.add(place.as_bytes(), &what);
        }
        Ok(())
    }

    /// Returns the refusal of what is changed, with these words and those of the changes.
    pub fn refusal(&self, scan: &ScanAll<'_>, mut words: Words) -> Stop {
        self.explain(&mut words, scan);
        Stop::Told(Line::Unfit(self.counts), words)
    }
}
