//! The nearest attributes that a format can hold.
ghost use Rattle.std.specs.Prelude.{◌≡◌};
ghost use Rattle.build_commands.specs.Nearest.{is_runnable, mode_within, nearest_in};
ghost use Rattle.build_commands.specs.Nearest.{romfs_mode, within};
ghost use Rattle.manifest.specs.Entries.{line_of};

use formats::{Capacity, Format};
use manifest::{Entry, Word};

/// Returns whether the owner, the group or others may execute a file of this mode.
pub fn is_executable(mode: u32) -> bool
    ensures { result ≡ is_runnable mode }
{
    mode / 64 % 2 == 1 || mode / 8 % 2 == 1 || mode % 2 == 1
}

/// Returns the mode that romfs has for a file of a line's kind. Of the mode of a directory or a
/// regular file, it keeps whether the owner, the group or others may execute it; otherwise it keeps
/// nothing. A `hard` line has no mode of its own, and stays.
fn mode_in_romfs(word: Word, mode: u32) -> u32
    ensures { result ≡ romfs_mode word mode }
{
    match word {
        Word::Hard => mode,
        _ => plan_rows::romfs_mode(word, is_executable(mode)),
    }
}

/// Returns the mode of a line, as far as the format has modes.
fn mode_within(most: &Capacity, word: Word, mode: u32) -> u32
    ensures { result ≡ mode_within most.now word mode }
{
    if most.has_modes {
        mode
    } else {
        mode_in_romfs(word, mode)
    }
}

/// Returns the line with the nearest mode, owner and group within what a format can hold.
fn within<'a>(most: &Capacity, line: Entry<'a>) -> Entry<'a>
    ensures { line_of result ≡ within most.now (line_of line.entry) }
{
    Entry {
        mode: mode_within(most, line.word, line.mode),
        uid: line.uid.min(most.owner),
        gid: line.gid.min(most.group),
        ..line
    }
}

/// Returns the line with the nearest mode, owner and group that the format can hold. A `hard` line
/// has none, and stays. Numbers of devices stay, also if the format cannot hold them.
pub fn nearest(format: Format, line: Entry<'_>) -> Entry<'_>
    ensures { line_of result ≡ nearest_in format (line_of line.entry) }
{
    within(&format.capacity(), line)
}
