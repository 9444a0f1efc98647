//! The misfits of one line in a format.
ghost use Rattle.std.specs.Prelude.{◌≡◌, ◌==◌, nat_lt, false, true, length, List, ℕ, MatchOption};
ghost use Rattle.std.specs.Option.{is_some};
ghost use Rattle.manifest.specs.Lines as lines;
ghost use Rattle.manifest.specs.Lines.{ManifestLines};
ghost use Rattle.manifest.specs.declared.line.Line as decl;
ghost use Rattle.manifest.specs.Paths.{names_of};
ghost use Rattle.manifest_layout.specs.Tests as tests;
ghost use Rattle.manifest_layout.specs.Misfit.{name_len};
ghost use Rattle.plan_rows.specs.Files.{IsOf, contents_at};
ghost use Rattle.formats.specs.Format.{format_of};
ghost use Rattle.plan_rows.specs.Misfits.{exceeds, has_other_mode, kind_by, without_bytes};
ghost use Rattle.plan_rows.specs.Misfits.{size_by};
ghost use Rattle.romfs_format.specs.Tree.{mode_named};
ghost use Rattle.romfs_layout.specs.Layout.{number_of};

use crate::PathTargets;
use crate::misfit::{ATTRIBUTE, HARD_LINK, NAME_TOO_LONG, TOO_LARGE};
use formats::{Capacity, Format};
use manifest::{Line, Word};
use memchr::memrchr;

/// Returns the mode that romfs gives to the file that a line with this word makes. Of a mode, romfs
/// stores only whether a directory or a regular file is executable. (Linux
/// `Documentation/filesystems/romfs.rst`; the modes are this project's own.)
pub fn romfs_mode(word: Word, is_executable: bool) -> u32
    ensures { result ≡ mode_named (number_of (kind_by word)) is_executable }
{
    match word {
        Word::Dir | Word::File | Word::Hard | Word::Same => {
            if is_executable { 0o755 } else { 0o644 }
        }
        Word::Slink => 0o777,
        Word::Block | Word::Character => 0o600,
        Word::Fifo | Word::Socket => 0o644,
    }
}

/// Returns whether a file has another mode than the format would store.
fn has_other_mode(most: &Capacity, line: &Line) -> bool
    ensures { result ≡ has_other_mode most.now (without_bytes line.now) }
{
    !most.has_modes && romfs_mode(line.word, line.mode == 0o755) != line.mode
}

/// Returns whether an attribute of a line is above what a format can hold, or its mode is another.
fn exceeds(most: &Capacity, line: &Line) -> bool
    ensures { result ≡ exceeds most.now (without_bytes line.now) }
{
    line.uid > most.owner
        || line.gid > most.group
        || has_other_mode(most, line)
        || line.major > most.device
        || line.minor > most.device
}

/// Returns whether the format cannot store an attribute of a line.
fn has_bad_attribute(format: Format, line: &Line) -> bool
    ensures { result ≡ tests.bad_attribute (format_of format) (without_bytes line.now) }
{
    exceeds(&format.capacity(), line)
}

/// Returns whether a file of so many bytes is too large.
fn is_large(format: Format, size: u64) -> bool
    ensures { result ≡ tests.is_large (format_of format) size }
{
    size > format.capacity().file
}

/// Returns whether there is a limit, and so many bytes are more.
fn is_above(most: Option<usize>, len: usize) -> bool
    ensures { MatchOption most (result ≡ false) (λ m. result ≡ nat_lt m len) }
{
    match most {
        None => false,
        Some(most) => len > most,
    }
}

/// Returns whether a name of so many bytes is too long.
fn is_long(format: Format, len: usize) -> bool
    ensures { result ≡ tests.is_long (format_of format) len }
{
    is_above(format.capacity().name, len)
}

/// Returns whether a volume's name of so many bytes is too long.
pub fn is_long_volume(format: Format, len: usize) -> bool
    ensures { result ≡ tests.is_long_volume (format_of format) len }
{
    is_above(format.capacity().volume, len)
}

/// Returns whether the format has no further names of a file.
fn has_no_links(format: Format) -> bool
    ensures { result ≡ tests.has_no_links (format_of format) }
{
    !format.capacity().has_hard_links
}

/// Returns the length of the last name of a path in bytes.
fn name_len(path: &[u8]) -> usize
    requires { is_some (names_of path.now) ≡ true }
    ensures { result ≡ name_len (names_of path.now) }
{
    match memrchr(b'/', path) {
        None => path.len(),
        Some(last) => path.len() - last - 1,
    }
}

/// Returns the size of a line's file in bytes.
fn size_of(files: &PathTargets, line: &Line) -> u64
    ensures { (lines : List decl.Line) (sizes : List ℕ) → IsOf lines sizes files.now
        → result ≡ size_by line.now.word line.now (contents_at lines sizes line.now.path) }
{
    match line.word {
        Word::Slink => line.text.as_bytes().len() as u64,
        Word::File | Word::Same => match files.contents(line.path.as_bytes()) {
            None => 0,
            Some(contents) => contents.size,
        },
        Word::Dir | Word::Block | Word::Character => 0,
        Word::Fifo | Word::Socket | Word::Hard => 0,
    }
}

/// Returns whether a line is a `hard` line.
fn is_hard(line: &Line) -> bool
    ensures { result ≡ lines.is_hard line.now.word }
{
    matches!(line.word, Word::Hard)
}

/// Returns the least number of those that apply. A `hard` line has no attributes of its own.
#[tactic(auto, using(crate::proofs::Numbers::number_is))]
fn least_number(
    hard: bool,
    bad_attribute: bool,
    large: bool,
    long: bool,
    no_links: bool,
) -> Option<u32>
    ensures { result ≡ tests.number_by hard bad_attribute large long no_links }
{
    if !hard && bad_attribute {
        return Some(ATTRIBUTE);
    }
    if large {
        return Some(TOO_LARGE);
    }
    if long {
        return Some(NAME_TOO_LONG);
    }
    if hard && no_links {
        return Some(HARD_LINK);
    }
    None
}

/// Returns the least number of the misfits of a line, if it has one.
pub fn number_of_line(format: Format, files: &PathTargets, line: &Line) -> Option<u32>
    requires { is_some (names_of line.now.path) ≡ true }
    ensures { (m : ManifestLines) (sizes : List ℕ) → IsOf m.lines sizes files.now
        → result ≡ tests.number_of_line (format_of format) m sizes line.now }
{
    let bad_attribute = has_bad_attribute(format, line);
    let large = is_large(format, size_of(files, line));
    let long = is_long(format, name_len(line.path.as_bytes()));
    least_number(
        is_hard(line),
        bad_attribute,
        large,
        long,
        has_no_links(format),
    )
}
