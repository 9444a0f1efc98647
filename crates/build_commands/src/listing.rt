//! What lists say beside the files that were found, and why a line of a list is refused.
ghost use Rattle.std.specs.Prelude.{◌≡◌, ◌∷◌, [], ◌++◌, Ok, OnOk, string_bytes};
ghost use Rattle.std.specs.List.{All};
ghost use Rattle.std.specs.Str.{is_utf8};
ghost use Rattle.build_commands.specs.DeviceTable.{entry_of, table, with_entry};
ghost use Rattle.build_commands.specs.Lists.{Gives, IsNew, by_grammar, said, text_in, with_file};
ghost use Rattle.build_commands.specs.Lists.{with_setting, line_of, setting_of, nothing_said};

use crate::inventory::NamedFile;
use crate::rights::Change;
use manifest::ManifestError;
use manifest::error::{BAD_NUMBER, BAD_PATH};
use rom_fields::OutOfMemory;
use std::alloc::{AllocError, AllocFailed, Global};
use std::str;

/// The device number of files that were not found. No file system has it.
pub const NOWHERE: u64 = u64::MAX;

/// The most files that all lines make.
pub const MOST_FILES: usize = 1 << 20;

/// Why a line of a list is refused.
#[derive(Clone, Copy, Debug, PartialEq, Eq)]
pub enum Why {
    /// It has this fault in the grammar of manifests.
    Grammar,
    /// Its first word is none of the list's.
    Word,
    /// A `mode` line has other fields than its own.
    Mode,
    /// A path or the text of a link is not UTF-8.
    Text,
    /// All lines make more files than are permitted.
    Many,
    /// A row of a table has other words than its own.
    Row,
    /// A number of a row is none.
    Number,
    /// The type of a row is none.
    Type,
    /// A row makes more devices than are permitted.
    Count,
    /// A path has more names than are permitted.
    Deep,
    /// No file has this path, or one of another kind.
    File,
    /// No file has the path whose attributes it sets.
    Missing,
    /// Its path is that of another line, or of a found file of another kind.
    Exists,
    /// Nothing makes the directory that its path is in.
    Parent,
}

/// A line of a list that is refused: by its number, from 1 on, with the number of a fault of
/// manifests.
#[derive(Clone, Copy, Debug, PartialEq, Eq)]
pub struct BadLine {
    pub line: u64,
    pub number: u32,
    pub why: Why,
}

/// The reason why a list was refused.
#[derive(Clone, Copy, Debug, PartialEq, Eq)]
pub enum ListError {
    OutOfMemory,
    Bad(BadLine),
}

impl<T: Drop> From<AllocFailed<T>> for ListError {
    ghost use Rattle.build_commands.specs.declared.listing.ListError.{ListError};

    ghost from_gives = { λ _ answer. answer ≡ ListError.OutOfMemory };

    fn from(_: AllocFailed<T>) -> ListError {
        ListError::OutOfMemory
    }
}

impl From<AllocError> for ListError {
    ghost use Rattle.build_commands.specs.declared.listing.ListError.{ListError};

    ghost from_gives = { λ _ answer. answer ≡ ListError.OutOfMemory };

    fn from(_: AllocError) -> ListError {
        ListError::OutOfMemory
    }
}

impl From<OutOfMemory> for ListError {
    ghost use Rattle.build_commands.specs.declared.listing.ListError.{ListError};

    ghost from_gives = { λ _ answer. answer ≡ ListError.OutOfMemory };

    fn from(_: OutOfMemory) -> ListError {
        ListError::OutOfMemory
    }
}

/// What lists add to the found files, and which attributes they set.
#[derive(Drop)]
pub struct Listing {
    pub files: Vec<NamedFile>,
    pub changes: Vec<Change>,
}

impl Listing {
    /// Returns an empty list.
    pub fn new(alloc: Global) -> Listing
        ensures { said result ≡ nothing_said }
    {
        Listing {
            files: Vec::new(alloc),
            changes: Vec::new(alloc),
        }
    }

    /// Adds a file, unless all lines would make more than are permitted.
    pub fn add_file(&mut self, file: NamedFile) -> Result<(), ListError>
        ensures said { Gives (λ _. said self.new) result
            (with_file (said self.old) (line_of file)) }
        ensures table { Gives (λ _. table self.new) result
            (with_entry (table self.old) (entry_of file)) }
        ensures files { OnOk result (self.new.files.items ≡ self.old.files.items ++ file ∷ []) }
        ensures new { All IsNew self.old.files.items → IsNew file → All IsNew self.new.files.items }
    {
        if self.files.len() >= MOST_FILES {
            return Err(refused(file.inode.number, BAD_NUMBER, Why::Many));
        }
        self.files.push(file)?;
        Ok(())
    }

    /// Adds a change of attributes.
    pub fn add_change(&mut self, change: Change) -> Result<(), ListError>
        ensures said { Gives (λ _. said self.new) result
            (Ok (with_setting (said self.old) (setting_of change))) }
        ensures files { self.new.files ≡ self.old.files }
    {
        self.changes.push(change)?;
        Ok(())
    }
}

/// Returns that a line is refused.
pub fn refused(line: u64, number: u32, why: Why) -> ListError
    ensures { result ≡ ListError.Bad (record { line = line; number = number; why = why }) }
{
    ListError::Bad(BadLine { line, number, why })
}

/// Returns the same for the fault of a manifest's line, for this reason.
pub fn of_grammar(e: ManifestError, why: Why) -> ListError
    ensures { result ≡ by_grammar why e }
{
    match e {
        ManifestError::OutOfMemory => ListError::OutOfMemory,
        ManifestError::Bad { line, number } => refused(line, number, why),
    }
}

/// Whether bytes are UTF-8.
pub fn is_text(bytes: &[u8]) -> bool
    ensures { result ≡ is_utf8 bytes.now }
{
    match str::from_utf8(bytes) {
        Ok(_) => true,
        Err(_) => false,
    }
}

/// Returns a text of a line, which has to be UTF-8.
pub fn text_in(alloc: Global, line: u64, bytes: &[u8]) -> Result<String, ListError>
    ensures { Gives string_bytes result (text_in line bytes.now) }
{
    match str::from_utf8(bytes) {
        Ok(text) => Ok(String::from_str(alloc, text)?),
        Err(_) => Err(refused(line, BAD_PATH, Why::Text)),
    }
}
