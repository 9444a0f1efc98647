//! The differences of a line from the file that was found.
ghost use Rattle.std.specs.Prelude.{◌≡◌, ◌+◌, ◌<◌, ◌^◌, ◌==◌, ◌&&◌};
ghost use Rattle.build_commands.specs.Changed.{all_may_read, has_attributes, has_readers};
ghost use Rattle.build_commands.specs.Changed.{count_by, has_other_group, has_other_mode};
ghost use Rattle.build_commands.specs.Changed.{has_other_owner, is_changed, is_opened, one_if};
ghost use Rattle.manifest.specs.Entries.{line_of};

use crate::inventory::NamedFile;
use manifest::{Entry, Word};

/// The attributes of a line that differ from those of the file that was found.
#[derive(Clone, Copy, Debug, PartialEq, Eq)]
pub struct Changes {
    pub owner: bool,
    pub group: bool,
    pub mode: bool,
    /// Whether all may read what the line makes, but not all may read the file.
    pub is_opened: bool,
}

/// Whether a line of this word has attributes.
fn has_attributes(word: Word) -> bool
    ensures { result ≡ has_attributes word }
{
    !matches!(word, Word::Hard)
}

/// Whether users read what a line of this word makes as its mode permits.
fn has_readers(word: Word) -> bool
    ensures { result ≡ has_readers word }
{
    matches!(word, Word::Dir | Word::File | Word::Same)
}

/// Whether the owner, the group and others may read a file of this mode.
fn all_may_read(mode: u32) -> bool
    ensures { result ≡ all_may_read mode }
{
    mode / 256 % 2 == 1 && mode / 32 % 2 == 1 && mode / 4 % 2 == 1
}

/// Whether a number of a line of this word differs.
fn is_changed(word: Word, old: u32, new: u32) -> bool
    ensures { result ≡ is_changed word old new }
{
    has_attributes(word) && old != new
}

/// Whether all may read what the line makes, but not all may read the file.
fn is_opened(line: &Entry<'_>, file: &NamedFile) -> bool
    ensures { result ≡ is_opened (line_of line.now) file.now }
{
    has_readers(line.word) && all_may_read(line.mode) && !all_may_read(file.mode)
}

/// Returns the differences of the line of a file from the file.
pub fn changes_of(line: &Entry<'_>, file: &NamedFile) -> Changes
    ensures owner { result.owner
        ≡ is_changed (line_of line.now).word file.now.uid (line_of line.now).uid }
    ensures group { result.group
        ≡ is_changed (line_of line.now).word file.now.gid (line_of line.now).gid }
    ensures mode { result.mode
        ≡ is_changed (line_of line.now).word file.now.mode (line_of line.now).mode }
    ensures opened { result.is_opened ≡ is_opened (line_of line.now) file.now }
{
    Changes {
        owner: is_changed(line.word, file.uid, line.uid),
        group: is_changed(line.word, file.gid, line.gid),
        mode: is_changed(line.word, file.mode, line.mode),
        is_opened: is_opened(line, file),
    }
}

/// How many lines have another owner, group or mode than the file that was found.
#[derive(Clone, Copy, Debug, PartialEq, Eq)]
pub struct ChangeCounts {
    pub owners: u64,
    pub groups: u64,
    pub modes: u64,
}

impl ChangeCounts {
    /// Returns whether no line differs.
    pub fn are_zero(self) -> bool
        ensures { result ≡ (self.owners == 0 && (self.groups == 0 && self.modes == 0)) }
    {
        self.owners == 0 && self.groups == 0 && self.modes == 0
    }
}

/// 1 if something holds, otherwise 0.
fn one_if(holds: bool) -> u64
    ensures { result ≡ one_if holds }
{
    if holds { 1 } else { 0 }
}

/// Adds the changes of a line.
fn with_changes(counts: ChangeCounts, changes: Changes) -> ChangeCounts
    requires owners { counts.owners + 1 < 2 ^ 64 }
    requires groups { counts.groups + 1 < 2 ^ 64 }
    requires modes { counts.modes + 1 < 2 ^ 64 }
    ensures owners { result.owners ≡ counts.owners + one_if changes.owner }
    ensures groups { result.groups ≡ counts.groups + one_if changes.group }
    ensures modes { result.modes ≡ counts.modes + one_if changes.mode }
{
    ChangeCounts {
        owners: counts.owners + one_if(changes.owner),
        groups: counts.groups + one_if(changes.group),
        modes: counts.modes + one_if(changes.mode),
    }
}

/// Returns how many lines have another owner, group or mode than the file of the same number.
pub fn count_changes(lines: &[Entry<'_>], found: &[NamedFile]) -> ChangeCounts
    ensures owners { result.owners ≡ count_by has_other_owner lines.now found.now }
    ensures groups { result.groups ≡ count_by has_other_group lines.now found.now }
    ensures modes { result.modes ≡ count_by has_other_mode lines.now found.now }
{
    let mut counts = ChangeCounts {
        owners: 0,
        groups: 0,
        modes: 0,
    };
    let count = lines.len().min(found.len());
    let mut i = 0;
    while i < count {
        counts = with_changes(counts, changes_of(&lines[i], &found[i]));
        i += 1;
    }
    counts
}
