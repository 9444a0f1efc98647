//! The printing of a manifest's lines into a sink or to a writer.
ghost use Rattle.std.specs.Prelude.{◌≡◌, ◌++◌, ◌∷◌, [], codes, map};
ghost use Rattle.std.specs.List.{join_with_byte};
ghost use Rattle.manifest.specs.Printed.{attributes, device_texts, line_text, lines_text};
ghost use Rattle.manifest.specs.Printed.{manifest_text, volume_line};
ghost use Rattle.manifest.specs.Entries.{line_of};
ghost use Rattle.rom_fields.specs.Failures.{Counts};
ghost use Rattle.rom_fields.specs.Texts.{escaped};
ghost use Rattle.rom_fields.specs.Written.{Puts, WritesText, sink};

use crate::Word;
use crate::entry::Entry;
use rom_fields::{ByteWrite, Failed, put, put_decimal, put_escaped, put_octal};

/// Puts `PATH MODE UID GID`.
fn put_attributes<W: ByteWrite>(w: &mut W, failed: &mut bool, e: &Entry)
    ensures { Puts (sink (W.output w.old) failed.old) (sink (W.output w.new) failed.new)
        (join_with_byte 32 (attributes (line_of e.now))) }
{
    put_escaped(w, failed, e.path);
    put(w, failed, b" ");
    put_octal(w, failed, e.mode);
    put(w, failed, b" ");
    put_decimal(w, failed, e.uid);
    put(w, failed, b" ");
    put_decimal(w, failed, e.gid);
}

/// Puts a word and `PATH MODE UID GID`, with a space between them.
fn put_owned<W: ByteWrite>(w: &mut W, failed: &mut bool, word: &[u8], e: &Entry)
    ensures { Puts (sink (W.output w.old) failed.old) (sink (W.output w.new) failed.new)
        (join_with_byte 32 (word.now ∷ attributes (line_of e.now))) }
{
    put(w, failed, word);
    put(w, failed, b" ");
    put_attributes(w, failed, e);
}

/// Puts a space and a text, escaped.
fn put_text<W: ByteWrite>(w: &mut W, failed: &mut bool, text: &[u8])
    ensures { Puts (sink (W.output w.old) failed.old) (sink (W.output w.new) failed.new)
        (codes " " ++ escaped text.now) }
{
    put(w, failed, b" ");
    put_escaped(w, failed, text);
}

/// Puts `nod PATH MODE UID GID`, the letter of the kind of a device, and its numbers.
fn put_device<W: ByteWrite>(w: &mut W, failed: &mut bool, letter: &[u8], e: &Entry)
    ensures { Puts (sink (W.output w.old) failed.old) (sink (W.output w.new) failed.new)
        (join_with_byte 32 (device_texts letter.now (line_of e.now))) }
{
    put_owned(w, failed, b"nod", e);
    put(w, failed, b" ");
    put(w, failed, letter);
    put(w, failed, b" ");
    put_decimal(w, failed, e.major);
    put(w, failed, b" ");
    put_decimal(w, failed, e.minor);
}

/// Puts the text of a line, without its line feed.
fn put_fields<W: ByteWrite>(w: &mut W, failed: &mut bool, e: &Entry)
    ensures { Puts (sink (W.output w.old) failed.old) (sink (W.output w.new) failed.new)
        (line_text (line_of e.now)) }
{
    match e.word {
        Word::Dir => put_owned(w, failed, b"dir", e),
        Word::File => {
            put_owned(w, failed, b"file", e);
            put(w, failed, b" ");
            put_decimal(w, failed, e.align);
            put_text(w, failed, e.text);
        }
        Word::Slink => {
            put_owned(w, failed, b"slink", e);
            put_text(w, failed, e.text);
        }
        Word::Block => put_device(w, failed, b"b", e),
        Word::Character => put_device(w, failed, b"c", e),
        Word::Fifo => put_owned(w, failed, b"pipe", e),
        Word::Socket => put_owned(w, failed, b"sock", e),
        Word::Hard => {
            put(w, failed, b"hard ");
            put_escaped(w, failed, e.path);
            put_text(w, failed, e.text);
        }
        Word::Same => {
            put_owned(w, failed, b"same", e);
            put_text(w, failed, e.text);
        }
    }
}

/// Puts a line with its line feed.
pub fn put_line<W: ByteWrite>(w: &mut W, failed: &mut bool, e: &Entry)
    ensures { Puts (sink (W.output w.old) failed.old) (sink (W.output w.new) failed.new)
        (line_text (line_of e.now) ++ codes "\n") }
{
    put_fields(w, failed, e);
    put(w, failed, b"\n");
}

/// Puts lines, each with its line feed.
pub fn put_lines<W: ByteWrite>(w: &mut W, failed: &mut bool, entries: &[Entry])
    ensures { Puts (sink (W.output w.old) failed.old) (sink (W.output w.new) failed.new)
        (lines_text (map line_of entries.now)) }
{
    for e in entries {
        put_line(w, failed, e);
    }
}

/// Puts the line that names the volume, if it has a name.
pub fn put_volume<W: ByteWrite>(w: &mut W, failed: &mut bool, name: &[u8])
    ensures { Puts (sink (W.output w.old) failed.old) (sink (W.output w.new) failed.new)
        (volume_line name.now) }
{
    if let [_, ..] = name {
        put(w, failed, b"volume ");
        put_escaped(w, failed, name);
        put(w, failed, b"\n");
    }
}

/// Puts a manifest: the volume's line, if it has a name, and the other lines.
fn put_manifest<W: ByteWrite>(w: &mut W, failed: &mut bool, volume: &[u8], entries: &[Entry])
    ensures { Puts (sink (W.output w.old) failed.old) (sink (W.output w.new) failed.new)
        (manifest_text volume.now (map line_of entries.now)) }
{
    put_volume(w, failed, volume);
    put_lines(w, failed, entries);
}

/// Writes a line with its line feed.
///
/// # Errors
///
/// `Failed` if a write failed. Then a prefix of the line was written.
pub fn write_line<W: ByteWrite>(w: &mut W, e: &Entry) -> Result<(), Failed>
    ensures text { WritesText (W.output w.old).contents (W.output w.new).contents result
        (line_text (line_of e.now) ++ codes "\n") }
    ensures count { Counts (W.output w.old).failures (W.output w.new).failures result }
{
    let mut failed = false;
    put_line(w, &mut failed, e);
    if failed { Err(Failed) } else { Ok(()) }
}

/// Writes a manifest: the volume's line, if it has a name, and the other lines. It does not flush.
///
/// # Errors
///
/// `Failed` if a write failed. Then a prefix of the text was written.
pub fn write_manifest<W: ByteWrite>(
    w: &mut W,
    volume: &[u8],
    entries: &[Entry],
) -> Result<(), Failed>
    ensures text { WritesText (W.output w.old).contents (W.output w.new).contents result
        (manifest_text volume.now (map line_of entries.now)) }
    ensures count { Counts (W.output w.old).failures (W.output w.new).failures result }
{
    let mut failed = false;
    put_manifest(w, &mut failed, volume, entries);
    if failed { Err(Failed) } else { Ok(()) }
}
