//! The states in which a scan found files.
use build_commands::inventory::{FileKind, NamedFile};
use std::alloc::{AllocError, Global};
use system_files::Stamp;

/// The name of a regular file, the state in which a scan found it, and whether it is an ELF file or
/// a script, if that is noted.
#[derive(Drop)]
struct FoundState {
    name: String,
    state: Stamp,
    is_program: bool,
}

/// The states in which a scan found regular files, in the order of their names.
#[derive(Drop)]
pub struct States {
    all: Vec<FoundState>,
    /// Whether it is noted which of them are programs.
    notes_programs: bool,
}

impl States {
    /// Returns the states of the regular files among those that were found.
    pub fn of(
        alloc: Global,
        files: &[NamedFile],
        states: &[Stamp],
        notes_programs: bool,
    ) -> Result<States, AllocError> {
        let mut all: Vec<FoundState> = Vec::new(alloc);
        for (file, state) in files.iter().zip(states) {
            if matches!(file.kind, FileKind::Regular) {
                all.push(FoundState {
                    name: String::from_str(alloc, &file.place)?,
                    state: *state,
                    is_program: false,
                })?;
            }
        }
        all.sort_by(|a, b| a.name.as_str().cmp(b.name.as_str()))?;
        Ok(States {
            all,
            notes_programs,
        })
    }

    /// The number of the file of this name.
    fn number_of(&self, name: &str) -> Option<usize> {
        let all = self.all.as_slice();
        all.binary_search_by(|file| file.name.as_str().cmp(name))
            .ok()
    }

    /// Returns the state in which the file of this name was found, if it was.
    pub fn get(&self, name: &str) -> Option<Stamp> {
        self.all.get(self.number_of(name)?).map(|file| file.state)
    }

    /// Returns whether programs are noted.
    pub fn notes_programs(&self) -> bool {
        self.notes_programs
    }

    /// Notes that the file of this name is an ELF file or a script.
    pub fn note_program(&mut self, name: &str) {
        if let Some(number) = self.number_of(name)
            && let Some(file) = self.all.get_mut(number)
        {
            file.is_program = true;
        }
    }

    /// Returns whether the file of this name may be a program: it was noted, or none were.
    pub fn may_be_program(&self, name: &str) -> bool {
        let file = self.number_of(name).and_then(|number| self.all.get(number));
        !self.notes_programs || file.is_some_and(|file| file.is_program)
    }
}
