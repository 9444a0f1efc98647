//! The manifest of a directory as it is: each file below it, of whatever kind.
ghost use Rattle.std.specs.Prelude.{◌≡◌, ℕ, IfOk, OnOk, map, option_map, string_bytes};
ghost use Rattle.build_commands.specs.Inventory.{aligned, fitted, found_line, further_line};
ghost use Rattle.build_commands.specs.Inventory.{hard_line, has_hard_links, line_by, lines_found};
ghost use Rattle.build_commands.specs.Inventory.{name_line, path_behind, plain_line, same_line};
ghost use Rattle.build_commands.specs.Noted.{noted, noted_link, noted_with};
ghost use Rattle.manifest.specs.Printed.{manifest_text};
ghost use Rattle.manifest.specs.Entries.{line_of};
ghost use Rattle.rom_fields.specs.Failures.{Counts, one_more};
ghost use Rattle.rom_fields.specs.Written.{Puts, WritesText, sink};

use crate::nearest::nearest;
use formats::Format;
use manifest::{Entry, Word, put_lines, put_volume};
use rom_fields::{ByteWrite, Failed, OutOfMemory};
use std::alloc::Global;
use std::collections::BTreeMap;

/// The kind of a file, with the values that only this kind has.
#[derive(Drop)]
pub enum FileKind {
    Directory,
    Regular,
    /// A symbolic link with this text.
    Symlink(String),
    /// A block device with these numbers.
    Block(Device),
    /// A character device with these numbers.
    Character(Device),
    Fifo,
    Socket,
}

/// The numbers of a device.
#[derive(Clone, Copy)]
pub struct Device {
    pub major: u32,
    pub minor: u32,
}

/// What identifies a file: its device, and its number on that device.
#[derive(Clone, Copy)]
pub struct Inode {
    pub device: u64,
    pub number: u64,
}

/// A name of a file, `place`, with what the system reports of the file.
#[derive(Drop)]
pub struct NamedFile {
    pub place: String,
    /// The number of bytes of the name that are in front of the path.
    pub front: usize,
    pub kind: FileKind,
    /// The last twelve bits of a POSIX mode.
    pub mode: u32,
    pub uid: u32,
    pub gid: u32,
    /// The alignment of a regular file.
    pub align: u32,
    pub inode: Inode,
    /// Whether the file has several links. If not, no other name leads to it: some file systems use
    /// the number of one file for another one, too.
    pub has_links: bool,
}

impl NamedFile {
    /// Returns the path of the file in an image.
    pub fn path(&self) -> &[u8]
        ensures { result.now ≡ path_behind self.now.front (string_bytes self.now.place) }
    {
        path_of(self.front, &self.place)
    }
}

/// The alignment of other regular files, in bytes.
const USUAL_ALIGN: u32 = 4;

/// The path of a file that was found by a name: the name without the first `front` bytes, or the
/// root if nothing is left.
fn path_of(front: usize, place: &str) -> &[u8]
    ensures { result.now ≡ path_behind front place.now }
{
    let place = place.as_bytes();
    let path = &place[front.min(place.len())..];
    if path.is_empty() {
        return b"/";
    }
    path
}

/// Returns the alignment of a regular file, in bytes: the one that was asked for if it is a program
/// that is executed in place, and otherwise the usual one.
pub fn align_of(is_program: bool, align: u32) -> u32
    ensures { result ≡ aligned align is_program }
{
    if is_program { align } else { USUAL_ALIGN }
}

/// The line of a directory with the path, the mode and the owner of a file.
fn plain_line<'a>(file: &'a NamedFile) -> Entry<'a>
    ensures { line_of result ≡ plain_line file.now }
{
    Entry {
        word: Word::Dir,
        path: file.path(),
        mode: file.mode,
        uid: file.uid,
        gid: file.gid,
        align: 0,
        major: 0,
        minor: 0,
        text: b"",
    }
}

/// The line of a file by its kind, if that of a directory with its attributes would be `plain`.
fn line_by<'a>(file: &'a NamedFile, plain: Entry<'a>) -> Entry<'a>
    ensures { line_of result ≡ line_by file.entry.now.kind file.entry.now (line_of plain.entry) }
{
    match &file.kind {
        FileKind::Directory => plain,
        FileKind::Regular => Entry {
            word: Word::File,
            align: file.align,
            text: file.place.as_bytes(),
            ..plain
        },
        FileKind::Symlink(target) => Entry {
            word: Word::Slink,
            text: target.as_bytes(),
            ..plain
        },
        FileKind::Block(device) => Entry {
            word: Word::Block,
            major: device.major,
            minor: device.minor,
            ..plain
        },
        FileKind::Character(device) => Entry {
            word: Word::Character,
            major: device.major,
            minor: device.minor,
            ..plain
        },
        FileKind::Fifo => Entry {
            word: Word::Fifo,
            ..plain
        },
        FileKind::Socket => Entry {
            word: Word::Socket,
            ..plain
        },
    }
}

/// The line of a file as the system reports it.
fn found_line<'a>(file: &'a NamedFile) -> Entry<'a>
    ensures { line_of result ≡ found_line file.now }
{
    line_by(file, plain_line(file))
}

/// Whether a manifest of this format has `hard` lines.
fn has_hard_links(format: Option<Format>) -> bool
    ensures { result ≡ has_hard_links format }
{
    match format {
        None => true,
        Some(format) => format.capacity().has_hard_links,
    }
}

/// The line of one more name of the file at the path `old`, if the line of the first would be
/// `own`. The line of a directory stays.
fn hard_line<'a>(own: Entry<'a>, old: &'a [u8]) -> Entry<'a>
    ensures { line_of result ≡ hard_line own.entry.word (line_of own.entry) old.entry.now }
{
    match own.word {
        Word::Dir => own,
        _ => Entry {
            word: Word::Hard,
            path: own.path,
            mode: 0,
            uid: 0,
            gid: 0,
            align: 0,
            major: 0,
            minor: 0,
            text: old,
        },
    }
}

/// The line of a regular file with the contents of the one at the path `old`, if its line with
/// contents of its own would be `own`. The line of another kind of file stays.
fn same_line<'a>(own: Entry<'a>, old: &'a [u8]) -> Entry<'a>
    ensures { line_of result ≡ same_line own.entry.word (line_of own.entry) old.entry.now }
{
    match own.word {
        Word::File => Entry {
            word: Word::Same,
            align: 0,
            text: old,
            ..own
        },
        _ => own,
    }
}

/// The line of a further name of the file at the path `old`, if the line of the first would be
/// `own`.
fn further_line<'a>(format: Option<Format>, own: Entry<'a>, old: &'a [u8]) -> Entry<'a>
    ensures { line_of result ≡ further_line format (line_of own.entry) old.entry.now }
{
    if has_hard_links(format) {
        hard_line(own, old)
    } else {
        same_line(own, old)
    }
}

/// The line with attributes that the format can hold, if a format was chosen.
fn fitted<'a>(format: Option<Format>, line: Entry<'a>) -> Entry<'a>
    ensures { line_of result ≡ fitted format (line_of line.entry) }
{
    match format {
        None => line,
        Some(format) => nearest(format, line),
    }
}

/// The line of a name. `first` is the first of the earlier names of the same file.
fn name_line<'a>(
    format: Option<Format>,
    first: Option<&'a NamedFile>,
    file: &'a NamedFile,
) -> Entry<'a>
    ensures { line_of result
        ≡ name_line format (option_map (λ g. g.now) first.entry) file.entry.now }
{
    let own = found_line(file);
    let line = match first {
        None => own,
        Some(first) => further_line(format, own, first.path()),
    };
    fitted(format, line)
}

/// Notes a file that has several links, if none of the same inode is noted.
fn note_first<'a>(
    firsts: &mut BTreeMap<(u64, u64), &'a NamedFile>,
    file: &'a NamedFile,
) -> Result<(), OutOfMemory>
    ensures { OnOk result ((device number : ℕ) → noted firsts.new device number
        ≡ noted_with file.entry.now (noted firsts.old device number) device number) }
{
    let key = (file.inode.device, file.inode.number);
    if file.has_links && firsts.get(&key).is_none() {
        firsts.insert(key, file)?;
    }
    Ok(())
}

/// The first file that was noted of the inode of a file, if this file has several links.
fn first_noted<'a>(
    firsts: &BTreeMap<(u64, u64), &'a NamedFile>,
    file: &NamedFile,
) -> Option<&'a NamedFile>
    ensures { option_map (λ g. g.now) result ≡ noted_link firsts.now file.now }
{
    if !file.has_links {
        return None;
    }
    firsts.get(&(file.inode.device, file.inode.number)).copied()
}

/// Returns a line for each file that was found, in their order. If a file with several links was
/// found by several names, those after the first are further names of it. If a format is chosen,
/// each line has attributes that it can hold. The time is n log n.
///
/// # Errors
///
/// `OutOfMemory`.
pub fn lines<'a>(
    alloc: Global,
    format: Option<Format>,
    found: &'a [NamedFile],
) -> Result<Vec<Entry<'a>>, OutOfMemory>
    ensures { IfOk result (λ v. map line_of v.items ≡ lines_found format found.entry.now) }
{
    let mut firsts = BTreeMap::new(alloc);
    let mut made = Vec::new(alloc);
    for file in found {
        let first = first_noted(&firsts, file);
        made.push(name_line(format, first, file))?;
        note_first(&mut firsts, file)?;
    }
    Ok(made)
}

/// Puts the line of the volume, if it has a name, and the others.
fn put_all<W: ByteWrite>(w: &mut W, failed: &mut bool, volume: &[u8], lines: &[Entry<'_>])
    ensures { Puts (sink (W.output w.old) failed.old) (sink (W.output w.new) failed.new)
        (manifest_text volume.now (map line_of lines.now)) }
{
    put_volume(w, failed, volume);
    put_lines(w, failed, lines);
}

/// Writes the line of the volume, if it has a name, and the others.
fn write_lines<W: ByteWrite>(w: &mut W, volume: &[u8], lines: &[Entry<'_>]) -> Result<(), Failed>
    ensures text { WritesText (W.output w.old).contents (W.output w.new).contents result
        (manifest_text volume.now (map line_of lines.now)) }
    ensures count { Counts (W.output w.old).failures (W.output w.new).failures result }
    ensures unflushed { (W.output w.new).flushes ≡ (W.output w.old).flushes }
{
    let mut failed = false;
    put_all(w, &mut failed, volume, lines);
    if failed { Err(Failed) } else { Ok(()) }
}

/// Writes a manifest, after the name of the volume if that is not empty, and flushes it.
///
/// # Errors
///
/// `Failed` if a write or the flush failed. Then a prefix of the manifest was written.
pub fn put_found<W: ByteWrite>(w: &mut W, volume: &[u8], lines: &[Entry<'_>]) -> Result<(), Failed>
    ensures text { WritesText (W.output w.old).contents (W.output w.new).contents result
        (manifest_text volume.now (map line_of lines.now)) }
    ensures count { Counts (W.output w.old).failures (W.output w.new).failures result }
    ensures flushed { OnOk result ((W.output w.new).flushes ≡ one_more (W.output w.old).flushes) }
{
    write_lines(w, volume, lines)?;
    w.flush()
}
