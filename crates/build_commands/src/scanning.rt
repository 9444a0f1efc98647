//! The manifest that a scan of a directory prints.
ghost use Rattle.std.specs.Prelude.{◌≡◌, OnOk, map};
ghost use Rattle.build_commands.specs.Scanned.{directory_line, entry_line, file_line, plain_of};
ghost use Rattle.build_commands.specs.Scanned.{scan_text};
ghost use Rattle.build_commands.specs.Seen.{entry_of};
ghost use Rattle.manifest.specs.Entries.{line_of};
ghost use Rattle.rom_fields.specs.Failures.{Counts, one_more};
ghost use Rattle.rom_fields.specs.Written.{Puts, WritesText, sink};

use manifest::{Entry, Word, put_line};
use rom_fields::{ByteWrite, Failed};

/// What a scan finds: a directory or a regular file, and the name by which it was found.
#[derive(PartialEq, Eq, PartialOrd, Ord, Drop)]
pub struct Found {
    pub place: String,
    pub is_directory: bool,
}

/// A line with this path and mode, and with no other values.
fn plain_entry(path: &[u8], mode: u32) -> Entry<'_>
    ensures { line_of result ≡ plain_of path.now mode }
{
    Entry {
        word: Word::Dir,
        path,
        mode,
        uid: 0,
        gid: 0,
        align: 0,
        major: 0,
        minor: 0,
        text: b"",
    }
}

/// Puts the line of a directory, `dir PATH 0755 0 0`, with the path escaped.
fn put_directory<W: ByteWrite>(w: &mut W, failed: &mut bool, path: &[u8])
    ensures { Puts (sink (W.output w.old) failed.old) (sink (W.output w.new) failed.new)
        (directory_line path.now) }
{
    put_line(w, failed, &plain_entry(path, 0o755));
}

/// Puts the line of a file and its source, `file PATH 0644 0 0 4 SOURCE`, with both escaped.
fn put_file<W: ByteWrite>(w: &mut W, failed: &mut bool, path: &[u8], source: &[u8])
    ensures { Puts (sink (W.output w.old) failed.old) (sink (W.output w.new) failed.new)
        (file_line path.now source.now) }
{
    let file = Entry {
        word: Word::File,
        align: 4,
        text: source,
        ..plain_entry(path, 0o644)
    };
    put_line(w, failed, &file);
}

/// Puts the line of a file or directory that was found. Its path is its name without the first
/// `front` bytes.
fn put_found<W: ByteWrite>(w: &mut W, failed: &mut bool, front: usize, found: &Found)
    ensures { Puts (sink (W.output w.old) failed.old) (sink (W.output w.new) failed.new)
        (entry_line (entry_of front found.now)) }
{
    let place = found.place.as_bytes();
    let path = &place[front.min(place.len())..];
    if found.is_directory {
        put_directory(w, failed, path);
    } else {
        put_file(w, failed, path, place);
    }
}

/// Puts the lines of all files and directories that were found.
fn put_all<W: ByteWrite>(w: &mut W, failed: &mut bool, front: usize, found: &[Found])
    ensures { Puts (sink (W.output w.old) failed.old) (sink (W.output w.new) failed.new)
        (scan_text (map (entry_of front) found.now)) }
{
    for one in found {
        put_found(w, failed, front, one);
    }
}

/// Writes the lines of all files and directories that were found.
fn write_all<W: ByteWrite>(w: &mut W, front: usize, found: &[Found]) -> Result<(), Failed>
    ensures text { WritesText (W.output w.old).contents (W.output w.new).contents result
        (scan_text (map (entry_of front) found.now)) }
    ensures count { Counts (W.output w.old).failures (W.output w.new).failures result }
    ensures unflushed { (W.output w.new).flushes ≡ (W.output w.old).flushes }
{
    let mut failed = false;
    put_all(w, &mut failed, front, found);
    if failed { Err(Failed) } else { Ok(()) }
}

/// Writes the line of a manifest for each directory and each file that was found, and flushes them.
/// The path of each is its name without the first `front` bytes, which are the name of the scanned
/// directory.
///
/// # Errors
///
/// `Failed` if a write or the flush failed. Then a prefix of the lines was written.
pub fn put_scan<W: ByteWrite>(w: &mut W, front: usize, found: &[Found]) -> Result<(), Failed>
    ensures text { WritesText (W.output w.old).contents (W.output w.new).contents result
        (scan_text (map (entry_of front) found.now)) }
    ensures count { Counts (W.output w.old).failures (W.output w.new).failures result }
    ensures flushed { OnOk result ((W.output w.new).flushes ≡ one_more (W.output w.old).flushes) }
{
    write_all(w, front, found)?;
    w.flush()
}
