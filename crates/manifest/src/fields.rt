//! The fields of a line, by its word.
ghost use Rattle.std.specs.Prelude.{[], ◌≡◌, ◌<◌, ◌⊎◌, true, false, map, length, IfSome, IfNone};
ghost use Rattle.std.specs.List.{list_any};
ghost use Rattle.std.specs.Option.{option_map};
ghost use Rattle.manifest.specs.Texts.{pieces, is_empty};
ghost use Rattle.manifest.specs.Grammar as grammar;
ghost use Rattle.manifest.specs.Views.{fields_view, texts};

use crate::line::Word;
use crate::text::cut;
use arrayvec::ArrayVec;

/// The most fields that a line may have.
const FIELDS_MAX: usize = 8;

const NO_MODE: &[u8] = b"0000";

const ZERO: &[u8] = b"0";

const NOTHING: &[u8] = b"";

/// The texts of a line's fields. A field that the word lacks is zero or empty.
#[derive(Clone, Copy)]
pub struct Fields<'a> {
    pub word: Word,
    pub path: &'a [u8],
    pub mode: &'a [u8],
    pub uid: &'a [u8],
    pub gid: &'a [u8],
    pub align: &'a [u8],
    pub major: &'a [u8],
    pub minor: &'a [u8],
    pub text: &'a [u8],
}

/// Returns the fields between the spaces of a line, if none is empty and there are at most eight.
pub fn split(line: &[u8]) -> Option<ArrayVec<&[u8], FIELDS_MAX>>
    ensures some { IfSome result (λ fields. texts fields.items ≡ pieces 32 line.now) }
    ensures whole { IfSome result (λ _. list_any is_empty (pieces 32 line.now) ≡ false) }
    ensures none { IfNone result ((list_any is_empty (pieces 32 line.now) ≡ true)
        ⊎ (8 < length (pieces 32 line.now))) }
{
    let mut fields = ArrayVec::new();
    let mut rest = Some(line);
    while let Some(text) = rest {
        let (field, more) = cut(text, b' ');
        if field.is_empty() || fields.is_full() {
            return None;
        }
        fields.push(field);
        rest = more;
    }
    Some(fields)
}

/// Returns the name in the fields of `volume NAME`.
pub fn volume<'a>(fields: &[&'a [u8]]) -> Option<&'a [u8]>
    ensures { option_map (λ name. name.now) result ≡ grammar.volume_field (texts fields.now) }
{
    match fields {
        [word, name] if *word == b"volume".as_slice() => Some(*name),
        _ => None,
    }
}

/// Returns the fields of a line that has these fields and no others.
fn plain<'a>(word: Word, path: &'a [u8], mode: &'a [u8], uid: &'a [u8], gid: &'a [u8]) -> Fields<'a>
    ensures { fields_view result ≡ grammar.plain_fields word path.now mode.now uid.now gid.now
        grammar.zero_text [] }
{
    Fields {
        word,
        path,
        mode,
        uid,
        gid,
        align: ZERO,
        major: ZERO,
        minor: ZERO,
        text: NOTHING,
    }
}

/// Returns the fields of `hard PATH OLD`.
fn three<'a>(word: &[u8], path: &'a [u8], old: &'a [u8]) -> Option<Fields<'a>>
    ensures { option_map fields_view result ≡ grammar.three_fields word.now path.now old.now }
{
    if word != b"hard".as_slice() {
        return None;
    }
    Some(Fields {
        text: old,
        ..plain(Word::Hard, path, NO_MODE, ZERO, ZERO)
    })
}

/// Returns the fields of `dir`, `pipe` or `sock`, and `PATH MODE UID GID`.
fn five<'a>(
    word: &[u8],
    path: &'a [u8],
    mode: &'a [u8],
    uid: &'a [u8],
    gid: &'a [u8],
) -> Option<Fields<'a>>
    ensures { option_map fields_view result ≡ grammar.five_fields word.now path.now mode.now
        uid.now gid.now }
{
    let word = if word == b"dir".as_slice() {
        Word::Dir
    } else if word == b"pipe".as_slice() {
        Word::Fifo
    } else if word == b"sock".as_slice() {
        Word::Socket
    } else {
        return None;
    };
    Some(plain(word, path, mode, uid, gid))
}

/// Returns the fields of `slink PATH MODE UID GID TARGET` or `same PATH MODE UID GID OLD`.
fn six<'a>(
    word: &[u8],
    path: &'a [u8],
    mode: &'a [u8],
    uid: &'a [u8],
    gid: &'a [u8],
    text: &'a [u8],
) -> Option<Fields<'a>>
    ensures { option_map fields_view result ≡ grammar.six_fields word.now path.now mode.now uid.now
        gid.now text.now }
{
    let word = if word == b"slink".as_slice() {
        Word::Slink
    } else if word == b"same".as_slice() {
        Word::Same
    } else {
        return None;
    };
    Some(Fields {
        text,
        ..plain(word, path, mode, uid, gid)
    })
}

/// Returns the fields of `file PATH MODE UID GID ALIGN SOURCE`.
fn seven<'a>(
    word: &[u8],
    path: &'a [u8],
    mode: &'a [u8],
    uid: &'a [u8],
    gid: &'a [u8],
    align: &'a [u8],
    source: &'a [u8],
) -> Option<Fields<'a>>
    ensures { option_map fields_view result
        ≡ grammar.seven_fields word.now path.now mode.now uid.now gid.now align.now source.now }
{
    if word != b"file".as_slice() {
        return None;
    }
    Some(Fields {
        align,
        text: source,
        ..plain(Word::File, path, mode, uid, gid)
    })
}

/// Returns the word of a device, by its letter.
fn device(letter: &[u8]) -> Option<Word>
    ensures { result ≡ grammar.device_word letter.now }
{
    if letter == b"b".as_slice() {
        return Some(Word::Block);
    }
    if letter == b"c".as_slice() {
        return Some(Word::Character);
    }
    None
}

/// Returns the fields of `nod PATH MODE UID GID b|c MAJOR MINOR`.
fn eight<'a>(
    word: &[u8],
    path: &'a [u8],
    mode: &'a [u8],
    uid: &'a [u8],
    gid: &'a [u8],
    letter: &[u8],
    major: &'a [u8],
    minor: &'a [u8],
) -> Option<Fields<'a>>
    ensures { option_map fields_view result
        ≡ grammar.eight_fields word.now path.now mode.now uid.now gid.now letter.now major.now
        minor.now }
{
    if word != b"nod".as_slice() {
        return None;
    }
    let word = device(letter)?;
    Some(Fields {
        major,
        minor,
        ..plain(word, path, mode, uid, gid)
    })
}

/// Returns the fields of a line, by their count and its word; `volume` is read separately.
pub fn by_word<'a>(fields: &[&'a [u8]]) -> Option<Fields<'a>>
    ensures { option_map fields_view result ≡ grammar.fields_of (texts fields.now) }
{
    match fields {
        [] | [_] | [_, _] | [_, _, _, _] => None,
        [word, path, old] => three(word, path, old),
        [word, path, mode, uid, gid] => five(word, path, mode, uid, gid),
        [word, path, mode, uid, gid, text] => six(word, path, mode, uid, gid, text),
        [word, path, mode, uid, gid, align, source] => {
            seven(word, path, mode, uid, gid, align, source)
        }
        [word, path, mode, uid, gid, letter, major, minor] => {
            eight(word, path, mode, uid, gid, letter, major, minor)
        }
        [_, _, _, _, _, _, _, _, _, ..] => None,
    }
}
