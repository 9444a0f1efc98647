//! A list of devices, directories and links that are added to the found files, and of attributes
//! that are set. `specs/Devices.antt` says what its lines are.
ghost use Rattle.std.specs.Prelude.{◌≡◌, ◌∷◌, ◌<◌, IfErr, IfOk, IfSome, string_bytes, length, ◌++◌};
ghost use Rattle.std.specs.Prelude.{drop, codes};
ghost use Rattle.std.specs.List.{All};
ghost use Rattle.manifest.specs.Texts.{pieces, pieces_after};
ghost use Rattle.manifest.specs.Grammar.{is_skipped};
ghost use Rattle.build_commands.specs.Devices as devices;
ghost use Rattle.build_commands.specs.Devices.{IsListed, IsRefusal, front_of, made, makes_file};
ghost use Rattle.build_commands.specs.Devices.{nod_line, nod_lines, word_of};
ghost use Rattle.build_commands.specs.Overlay.{AreInOrder};
ghost use Rattle.build_commands.specs.Lists.{Gives, IsNew, line_of, said, setting_of};

use crate::fits::first_unfit;
use crate::inventory::{Device, FileKind, Inode, NamedFile};
use crate::listing::{ListError, Listing, NOWHERE, Why, of_grammar, refused, text_in};
use crate::overlay::sort;
use crate::rights::{Attributes, Change};
use manifest::error::BAD_WORD;
use manifest::{Line, Word, read_line};
use memchr::memchr;
use rom_fields::OutOfMemory;
use std::alloc::Global;

/// The alignment of a file without bytes.
const NO_ALIGN: u32 = 4;

/// The word of a line that sets the attributes of a file.
const MODE: &[u8] = b"mode";

/// Returns the part before the first byte `at`, and the part behind that byte, if the text has it.
pub(crate) fn cut(text: &[u8], at: u8) -> (&[u8], Option<&[u8]>)
    ensures whole { pieces at text.now ≡ result.0.now ∷ pieces_after at result.1 }
    ensures shorter { IfSome result.1 (λ rest. length rest.now < length text.now) }
{
    match memchr(at, text) {
        None => (text, None),
        Some(i) => (&text[..i], Some(&text[i + 1..])),
    }
}

/// Returns the first field of a line.
fn word_of<'a>(line: &'a [u8]) -> &'a [u8]
    ensures { result.now ≡ word_of line.now }
{
    let (word, _) = cut(line, b' ');
    word
}

/// Whether a line with this first field makes a file.
fn makes_file(word: &[u8]) -> bool
    ensures { result ≡ makes_file word.now }
{
    word == b"dir".as_slice()
        || word == b"slink".as_slice()
        || word == b"nod".as_slice()
        || word == b"pipe".as_slice()
        || word == b"sock".as_slice()
}

/// Whether a line is empty or a comment.
fn is_skipped(line: &[u8]) -> bool
    ensures { result ≡ is_skipped line.now }
{
    match line {
        [] => true,
        [first, ..] => *first == b'#',
    }
}

/// The file of a line, which has this path and is of this kind.
fn new_file(line: &Line, path: String, kind: FileKind) -> NamedFile
    ensures kind { result.kind ≡ kind }
    ensures place { result.place ≡ path }
    ensures front { result.front ≡ front_of (string_bytes path) }
    ensures mode { result.mode ≡ line.now.mode }
    ensures owner { (result.uid ≡ line.now.uid) × (result.gid ≡ line.now.gid) }
    ensures number { result.inode.number ≡ line.now.number }
    ensures new { IsNew result }
{
    let front = if path.as_str() == "/" { 1 } else { 0 };
    NamedFile {
        kind,
        place: path,
        front,
        mode: line.mode,
        uid: line.uid,
        gid: line.gid,
        align: NO_ALIGN,
        inode: Inode {
            device: NOWHERE,
            number: line.number,
        },
        has_links: false,
    }
}

/// Returns the file that a line of a manifest makes, in the form of a found file, which no other
/// name leads to. Its inode has the number of the line.
///
/// # Errors
///
/// `Bad` if its path or text is not UTF-8, or it makes no file without contents; `OutOfMemory`.
pub fn file_of(alloc: Global, line: &Line) -> Result<NamedFile, ListError>
    ensures made { Gives line_of result (made line.now) }
    ensures new { IfOk result IsNew }
{
    let path = text_in(alloc, line.number, line.path.as_bytes())?;
    let text = text_in(alloc, line.number, line.text.as_bytes())?;
    let (major, minor) = (line.major, line.minor);
    let kind = match line.word {
        Word::Dir => FileKind::Directory,
        Word::Slink => FileKind::Symlink(text),
        Word::Block => FileKind::Block(Device { major, minor }),
        Word::Character => FileKind::Character(Device { major, minor }),
        Word::Fifo => FileKind::Fifo,
        Word::Socket => FileKind::Socket,
        Word::File | Word::Hard | Word::Same => {
            return Err(refused(line.number, BAD_WORD, Why::Word));
        }
    };
    Ok(new_file(line, path, kind))
}

/// The file that a line of this text makes.
fn file_in(alloc: Global, number: u64, text: &[u8]) -> Result<NamedFile, ListError>
    ensures made { Gives line_of result (devices.file_in number text.now) }
    ensures new { IfOk result IsNew }
{
    match read_line(alloc, number, text) {
        Ok(line) => file_of(alloc, &line),
        Err(e) => Err(of_grammar(e, Why::Grammar)),
    }
}

/// The change of attributes for which a line has the fields of `dir`.
fn change_of(alloc: Global, line: &Line) -> Result<Change, ListError>
    ensures { Gives setting_of result (devices.setting_of line.now) }
{
    Ok(Change {
        line: line.number,
        path: text_in(alloc, line.number, line.path.as_bytes())?,
        attributes: Attributes {
            mode: Some(line.mode),
            uid: line.uid,
            gid: line.gid,
        },
    })
}

/// The line of `dir` with the fields of a line of `mode`.
fn with_dir(alloc: Global, text: &[u8]) -> Result<Vec<u8>, OutOfMemory>
    ensures { IfOk result (λ v. v.items ≡ codes "dir" ++ drop 4 text.now) }
{
    let mut line = Vec::new(alloc);
    line.extend_from_slice(b"dir")?;
    line.extend_from_slice(text.get(MODE.len()..).unwrap_or(&[]))?;
    Ok(line)
}

/// The attributes that a line of `mode` sets.
fn change_in(alloc: Global, number: u64, text: &[u8]) -> Result<Change, ListError>
    ensures { Gives setting_of result (devices.setting_in number text.now) }
{
    let text = with_dir(alloc, text)?;
    match read_line(alloc, number, &text) {
        Ok(line) => change_of(alloc, &line),
        Err(e) => Err(of_grammar(e, Why::Mode)),
    }
}

/// Adds what a line says.
#[tactic(auto, unfolding(crate::specs::Devices::read_line))]
fn add(alloc: Global, listing: &mut Listing, number: u64, text: &[u8]) -> Result<(), ListError>
    requires new { All IsNew listing.old.files.items }
    ensures said { Gives (λ _. said listing.new) result
        (devices.read_line (said listing.old) number text.now) }
    ensures new { All IsNew listing.new.files.items }
{
    let word = word_of(text);
    if word == MODE {
        return listing.add_change(change_in(alloc, number, text)?);
    }
    if !makes_file(word) {
        return Err(refused(number, BAD_WORD, Why::Word));
    }
    listing.add_file(file_in(alloc, number, text)?)
}

/// Returns what the lines of a text say, in their order.
///
/// # Errors
///
/// `Bad` for the first line that is refused by itself; `OutOfMemory`.
#[tactic(auto, unfolding(crate::specs::Devices::list_of))]
fn read_list(alloc: Global, text: &[u8]) -> Result<Listing, ListError>
    ensures said { Gives said result (devices.list_of text.now) }
    ensures new { IfOk result (λ l. All IsNew l.files.items) }
{
    let mut listing = Listing::new(alloc);
    let mut rest = Some(text);
    let mut number = 0u64;
    while let Some(bytes) = rest {
        let (line, more) = cut(bytes, b'\n');
        number += 1;
        if !is_skipped(line) {
            add(alloc, &mut listing, number, line)?;
        }
        rest = more;
    }
    Ok(listing)
}

/// The words PATH, TYPE, MAJOR, MINOR and MODE of a device.
pub type DeviceWords<'a> = (&'a str, &'a str, &'a str, &'a str, &'a str);

/// The line of a list that makes a device of these words, with its line feed.
fn nod_line(alloc: Global, words: &DeviceWords<'_>) -> Result<String, OutOfMemory>
    ensures { IfOk result (λ s. string_bytes s ≡ nod_line words.now) }
{
    let (path, kind, major, minor, mode) = *words;
    Ok(format!(in alloc; "nod {path} {mode} 0 0 {kind} {major} {minor}\n")?)
}

/// Returns the text of a list that makes these devices.
pub fn list_for(alloc: Global, devices: &[DeviceWords<'_>]) -> Result<Vec<u8>, OutOfMemory>
    ensures { IfOk result (λ v. v.items ≡ nod_lines devices.now) }
{
    let mut text = Vec::new(alloc);
    for words in devices {
        text.extend_from_slice(nod_line(alloc, words)?.as_bytes())?;
    }
    Ok(text)
}

/// Returns what the lines of a list say, its files sorted by their paths. The found files are in
/// the order of their paths.
///
/// # Errors
///
/// `Bad` for the first line that is refused by itself; if there is none, for the first whose file
/// does not fit the others or the found files; `OutOfMemory`.
pub fn listed(alloc: Global, text: &[u8], found: &[NamedFile]) -> Result<Listing, ListError>
    ensures listed { AreInOrder found.now → IfOk result (IsListed found.now text.now) }
    ensures refused { AreInOrder found.now → IfErr result (IsRefusal found.now text.now) }
{
    let mut listing = read_list(alloc, text)?;
    sort(&mut listing.files)?;
    match first_unfit(alloc, &listing.files, found)? {
        None => Ok(listing),
        Some(bad) => Err(ListError::Bad(bad)),
    }
}
