//! The rows of a table of devices, as the program `makedevs` of Buildroot reads it: each has a
//! path, a type, a mode, an owner, a group, the two numbers of a device, and a start, an increment
//! and a count for several devices. (Buildroot's manual, "Makedev syntax documentation".)
//! `specs/TableRow.antt` says what a row is.
ghost use Rattle.std.specs.List.{list_any};
ghost use Rattle.std.specs.Option.{option_map};
ghost use Rattle.std.specs.Prelude.{◌≡◌, ◌<◌, ◌≤◌, ◌∷◌, ◌+◌, ◌-◌, ◌*◌, ◌^◌, if◌then◌else◌, length};
ghost use Rattle.std.specs.Prelude.{map};
ghost use Rattle.std.specs.Prelude.{IfOk, IfSome, None, Some, count_by, ◌==◌, slice_get};
ghost use Rattle.manifest.specs.Texts.{below, digits_from, is_digit};
ghost use Rattle.build_commands.specs.Lists.{Gives};
ghost use Rattle.build_commands.specs.TableRow.{begins_comment, is_space, kind_named, mode_in};
ghost use Rattle.build_commands.specs.TableRow.{number_in, numbers_in};
ghost use Rattle.build_commands.specs.TableRow.{owner_in, row_if, row_in, row_of, row_view};
ghost use Rattle.build_commands.specs.TableRow.{row_with};
ghost use Rattle.build_commands.specs.TableRow.{spaced, spaced_after, texts, trimmed, words};
ghost use Rattle.build_commands.specs.TableRow.{has_device_mode, word_of_node};

use crate::listing::{ListError, Why, is_text, refused};
use manifest::Word;
use manifest::error::{BAD_NUMBER, BAD_PATH, BAD_WORD};
use rom_fields::OutOfMemory;
use std::alloc::Global;

/// The most devices of one row.
const MOST_DEVICES: u64 = 65_536;

/// The most names on a path of an image.
const MOST_NAMES: usize = 64;

/// The most that each of the other numbers may be: Linux has 20 bits for a minor number.
const MOST_NUMBER: u32 = (1 << 20) - 1;

/// The most words of a row.
const MOST_WORDS: usize = 10;

/// What a row does.
#[derive(Clone, Copy)]
pub enum Kind {
    /// Sets the attributes of a regular file, which has to be there.
    Regular,
    /// Sets the attributes of a regular file, if it is there.
    MaybeRegular,
    /// Sets the attributes of a directory, or makes it.
    Directory,
    /// Sets the attributes of a file and of all below it.
    Below,
    /// Makes devices or FIFOs.
    Device(Node),
}

/// A kind of file that a row can make several of.
#[derive(Clone, Copy)]
pub enum Node {
    Character,
    Block,
    Fifo,
}

impl Node {
    /// Returns the word of a manifest's line that makes such a file.
    pub fn word(self) -> Word
        ensures { result ≡ word_of_node self }
    {
        match self {
            Node::Character => Word::Character,
            Node::Block => Word::Block,
            Node::Fifo => Word::Fifo,
        }
    }
}

/// The numbers of a row.
#[derive(Clone, Copy)]
pub struct Numbers {
    /// The mode, unless the file keeps its own.
    pub mode: Option<u32>,
    pub uid: u32,
    pub gid: u32,
    pub major: u32,
    pub minor: u32,
    pub start: u32,
    pub increment: u32,
}

/// A row of the table, by the number of its line.
#[derive(Clone, Copy)]
pub struct Row<'a> {
    pub line: u64,
    pub path: &'a [u8],
    pub kind: Kind,
    pub numbers: Numbers,
    /// How many devices it makes: one, if this is 0.
    pub count: u32,
}

/// Whether a byte is between words.
fn is_space(byte: u8) -> bool
    ensures { result ≡ is_space byte }
{
    byte == b' ' || byte == b'\t' || byte == b'\n' || byte == b'\r' || byte == 12
}

/// Returns the part before the first space, and the part behind it, if the text has one.
fn cut_word(text: &[u8]) -> (&[u8], Option<&[u8]>)
    ensures whole { spaced text.now ≡ result.0.now ∷ spaced_after result.1 }
    ensures shorter { IfSome result.1 (λ rest. length rest.now < length text.now) }
{
    for i in 0..text.len() {
        if is_space(text[i]) {
            return (&text[..i], Some(&text[i + 1..]));
        }
    }
    (text, None)
}

/// Returns the words of a line.
fn words<'a>(alloc: Global, line: &'a [u8]) -> Result<Vec<&'a [u8]>, OutOfMemory>
    ensures { IfOk result (λ v. texts v.items ≡ words line.entry.now) }
{
    let mut words = Vec::new(alloc);
    let mut rest = Some(line);
    while let Some(text) = rest {
        let (word, more) = cut_word(text);
        if !word.is_empty() {
            words.push(word)?;
        }
        rest = more;
    }
    Ok(words)
}

/// Returns the value of a byte as a digit, if it is one.
fn digit(byte: u8, base: u64) -> Option<u64>
    requires { base ≤ 10 }
    ensures { result ≡ (if is_digit base byte then Some (byte - 48) else None) }
{
    if byte < b'0' || u64::from(byte) >= 48 + base {
        return None;
    }
    Some(u64::from(byte) - 48)
}

/// Returns a number with one more digit behind it, if it fits 64 bits.
fn with_digit(number: u64, base: u64, digit: u64) -> Option<u64>
    ensures { result ≡ below (2 ^ 64) (Some (number * base + digit)) }
{
    number.checked_mul(base)?.checked_add(digit)
}

/// Returns the number of these digits, if it fits 64 bits.
fn digits(text: &[u8], base: u64) -> Option<u64>
    requires { (2 ≤ base) × (base ≤ 10) }
    ensures { result ≡ below (2 ^ 64) (digits_from base 0 text.now) }
{
    let mut number = 0u64;
    for byte in text {
        let digit = digit(*byte, base)?;
        number = with_digit(number, base, digit)?;
    }
    Some(number)
}

/// A decimal number, which is at most this one; a missing one, or `-`, is 0.
fn number(word: Option<&[u8]>, most: u64) -> Option<u64>
    ensures number { result ≡ number_in most (option_map (λ w. w.now) word.entry) }
    ensures bound { IfSome result (λ n. n ≤ most) }
{
    let Some(word) = word else {
        return Some(0);
    };
    if word == b"-".as_slice() {
        return Some(0);
    }
    let number = digits(word, 10)?;
    if number > most {
        return None;
    }
    Some(number)
}

/// A number of at most 20 bits.
fn small(word: Option<&[u8]>) -> Option<u32>
    ensures { result ≡ number_in 1048575 (option_map (λ w. w.now) word.entry) }
{
    let number = number(word, u64::from(MOST_NUMBER))?;
    Some(number as u32)
}

/// The number of an owner or a group: `root` is 0.
fn owner(word: Option<&[u8]>) -> Option<u32>
    ensures { result ≡ owner_in (option_map (λ w. w.now) word.entry) }
{
    if let Some(name) = word
        && name == b"root".as_slice()
    {
        return Some(0);
    }
    let number = number(word, u64::from(u32::MAX))?;
    Some(number as u32)
}

/// A mode in octal digits; -1 stands for that of the file.
fn mode(word: Option<&[u8]>) -> Option<Option<u32>>
    ensures { result ≡ mode_in (option_map (λ w. w.now) word.entry) }
{
    let word = word?;
    if word == b"-1".as_slice() {
        return Some(None);
    }
    let mode = digits(word, 8)?;
    if mode > 0o7777 {
        return None;
    }
    Some(Some(mode as u32))
}

/// The word of this index, if there is one.
fn nth<'a>(words: &[&'a [u8]], index: usize) -> Option<&'a [u8]>
    ensures { option_map (λ w. w.now) result ≡ slice_get (texts words.now) index }
{
    words.get(index).copied()
}

/// The numbers of a row, if each word that should be one is one.
#[tactic(auto, unfolding(crate::specs::TableRow::numbers_in))]
fn numbers_in(words: &[&[u8]]) -> Option<Numbers>
    ensures { result ≡ numbers_in (texts words.now) }
{
    Some(Numbers {
        mode: mode(nth(words, 2))?,
        uid: owner(nth(words, 3))?,
        gid: owner(nth(words, 4))?,
        major: small(nth(words, 5))?,
        minor: small(nth(words, 6))?,
        start: small(nth(words, 7))?,
        increment: small(nth(words, 8))?,
    })
}

/// What a row of this type does, if it is one.
fn kind_named(word: &[u8]) -> Option<Kind>
    ensures { result ≡ kind_named word.now }
{
    match word {
        b"f" => Some(Kind::Regular),
        b"F" => Some(Kind::MaybeRegular),
        b"d" => Some(Kind::Directory),
        b"r" => Some(Kind::Below),
        b"c" => Some(Kind::Device(Node::Character)),
        b"b" => Some(Kind::Device(Node::Block)),
        b"p" => Some(Kind::Device(Node::Fifo)),
        _ => None,
    }
}

/// A path without the slashes at its end.
fn trimmed<'a>(path: &'a [u8]) -> &'a [u8]
    ensures { result.now ≡ trimmed path.entry.now }
{
    let mut end = path.len();
    while end > 0 && path[end - 1] == b'/' {
        end -= 1;
    }
    &path[..end]
}

/// Returns how many slashes a path has.
fn slashes(path: &[u8]) -> usize
    ensures { result ≡ count_by (λ b. b == 47) path.now }
{
    path.iter().filter(|byte| **byte == b'/').count()
}

/// Whether a device of a row has a mode, if the row makes one.
fn has_device_mode(kind: Kind, numbers: &Numbers) -> bool
    ensures { result ≡ has_device_mode kind numbers.now }
{
    match kind {
        Kind::Device(_) => numbers.mode.is_some(),
        _ => true,
    }
}

/// The row of a path, a type, numbers and a count.
fn row_with<'a>(
    line: u64,
    path: &'a [u8],
    word: &[u8],
    numbers: Numbers,
    count: u64,
) -> Result<Row<'a>, ListError>
    ensures { Gives row_view result (row_with line path.entry.now word.now numbers count) }
{
    if count > MOST_DEVICES {
        return Err(refused(line, BAD_NUMBER, Why::Count));
    }
    if slashes(path) > MOST_NAMES {
        return Err(refused(line, BAD_PATH, Why::Deep));
    }
    let Some(kind) = kind_named(word) else {
        return Err(refused(line, BAD_WORD, Why::Type));
    };
    if !has_device_mode(kind, &numbers) {
        return Err(refused(line, BAD_NUMBER, Why::Number));
    }
    Ok(Row {
        line,
        path,
        kind,
        numbers,
        count: count as u32,
    })
}

/// The row of some words.
fn row_of<'a>(line: u64, words: &[&'a [u8]]) -> Result<Row<'a>, ListError>
    ensures { Gives row_view result (row_of line (texts words.now)) }
{
    let [path, word, _, ..] = words else {
        return Err(refused(line, BAD_WORD, Why::Row));
    };
    let (Some(numbers), Some(count)) = (numbers_in(words), number(nth(words, 9), u64::MAX)) else {
        return Err(refused(line, BAD_NUMBER, Why::Number));
    };
    if words.len() > MOST_WORDS {
        return Err(refused(line, BAD_WORD, Why::Row));
    }
    row_with(line, trimmed(path), word, numbers, count)
}

/// Whether a word begins a comment.
fn begins_comment(word: &[u8]) -> bool
    ensures { result ≡ begins_comment word.now }
{
    match word {
        [] => false,
        [first, ..] => *first == b'#',
    }
}

/// The row of some words, unless there are none, or they are a comment.
fn row_if<'a>(line: u64, words: &[&'a [u8]]) -> Result<Option<Row<'a>>, ListError>
    ensures { Gives (option_map row_view) result (row_if line (texts words.now)) }
{
    let [first, ..] = words else {
        return Ok(None);
    };
    if begins_comment(first) {
        return Ok(None);
    }
    Ok(Some(row_of(line, words)?))
}

/// Returns the row of a line, unless it is empty or a comment, which begins with `#`.
///
/// # Errors
///
/// `Bad` if it is not UTF-8 or no row; `OutOfMemory`.
pub fn row_in(alloc: Global, number: u64, line: &[u8]) -> Result<Option<Row<'_>>, ListError>
    ensures { Gives (option_map row_view) result (row_in number line.now) }
{
    if !is_text(line) {
        return Err(refused(number, BAD_WORD, Why::Row));
    }
    row_if(number, &words(alloc, line)?)
}
