//! Reads the pieces of a pattern's text.
ghost use Rattle.std.specs.Prelude.{◌≡◌, ◌≢◌, ◌&&◌, ◌∷◌, [], not, false};
ghost use Rattle.std.specs.Prelude.{length, IfErr, IfOk, Ok, Err, Some, drop, map};
ghost use Rattle.path_patterns.specs.Reading.{begins, character, character_part, escaped, is_class};
ghost use Rattle.path_patterns.specs.Reading.{is_hyphen, is_nothing, range};
ghost use Rattle.path_patterns.specs.Reading.{is_negation, part_at, part_of, parts_of, range_at};
ghost use Rattle.path_patterns.specs.Reading.{ranges_from, set_at, set_in};
ghost use Rattle.path_patterns.specs.declared.reading.PatternError.TheVariants.{OutOfMemory};

use crate::pattern::{Piece, Range, Set};
use std::alloc::{AllocError, AllocFailed, Global};

/// Why a text is not a pattern.
#[derive(Clone, Copy, Debug, PartialEq, Eq)]
pub enum PatternError {
    OutOfMemory,
    /// A bracket is not closed, or a backslash is the last character.
    Unfinished,
    /// A class, such as `[:alpha:]`, which no pattern may have.
    Class,
}

impl From<AllocError> for PatternError {
    ghost use Rattle.std.specs.Prelude.{◌≡◌};
    ghost use Rattle.path_patterns.specs.declared.reading.PatternError.{PatternError};

    ghost from_gives = { λ _ answer. answer ≡ PatternError.OutOfMemory };

    fn from(_: AllocError) -> PatternError {
        PatternError::OutOfMemory
    }
}

impl<T: Drop> From<AllocFailed<T>> for PatternError {
    ghost use Rattle.std.specs.Prelude.{◌≡◌};
    ghost use Rattle.path_patterns.specs.declared.reading.PatternError.{PatternError};

    ghost from_gives = { λ _ answer. answer ≡ PatternError.OutOfMemory };

    fn from(_: AllocFailed<T>) -> PatternError {
        PatternError::OutOfMemory
    }
}

/// Whether a text begins with this character.
fn begins(text: &[char], c: char) -> bool
    ensures { result ≡ begins c text.now }
{
    match text {
        [] => false,
        [first, ..] => *first == c,
    }
}

/// The text after its first character.
fn behind(text: &[char]) -> &[char]
    ensures { result.now ≡ drop 1 text.now }
{
    match text {
        [] => text,
        [_, rest @ ..] => rest,
    }
}

/// The character after a backslash, and the text after it.
fn escaped(text: &[char]) -> Result<(char, &[char]), PatternError>
    ensures ok { IfOk result (λ p. escaped text.now ≡ Ok (p.0, p.1.now)) }
    ensures err { IfErr result (λ e. escaped text.now ≡ Err e) }
{
    match text {
        [] => Err(PatternError::Unfinished),
        [c, rest @ ..] => Ok((*c, rest)),
    }
}

/// A character of a text, which may have a backslash before it, and the text after it.
fn character(text: &[char]) -> Result<(char, &[char]), PatternError>
    ensures ok { IfOk result (λ p. character text.now ≡ Ok (p.0, p.1.now)) }
    ensures err { IfErr result (λ e. character text.now ≡ Err e) }
{
    match text {
        [] => Err(PatternError::Unfinished),
        [c, rest @ ..] => {
            if *c == '\\' {
                escaped(rest)
            } else {
                Ok((*c, rest))
            }
        }
    }
}

/// Whether a class begins here.
fn is_class(text: &[char]) -> bool
    ensures { result ≡ is_class text.now }
{
    let next = behind(text);
    begins(text, '[') && (begins(next, ':') || begins(next, '.') || begins(next, '='))
}

/// Whether a hyphen is here that is not the last character within its brackets.
fn is_hyphen(text: &[char]) -> bool
    ensures { result ≡ is_hyphen text.now }
{
    begins(text, '-') && !begins(behind(text), ']')
}

/// The first range inside brackets, and the text after it. A range is a character, or two with a
/// hyphen between them.
fn range_of(inside: &[char]) -> Result<(Range, &[char]), PatternError>
    ensures ok { IfOk result (λ p. range_at inside.now ≡ Ok (p.0, p.1.now)) }
    ensures err { IfErr result (λ e. range_at inside.now ≡ Err e) }
{
    if is_class(inside) {
        return Err(PatternError::Class);
    }
    let (first, rest) = character(inside)?;
    if is_hyphen(rest) {
        let (last, rest) = character(behind(rest))?;
        Ok((Range { first, last }, rest))
    } else {
        Ok((Range { first, last: first }, rest))
    }
}

/// Whether the closing bracket of a set is here, after these ranges of it.
fn is_end(ranges: &[Range], rest: &[char]) -> bool
    ensures { result ≡ (begins 93 rest.now && not (is_nothing ranges.now)) }
{
    match ranges {
        [] => false,
        [_, ..] => begins(rest, ']'),
    }
}

/// The ranges up to the closing bracket, and the text after it. A closing bracket in front is one
/// of the characters.
fn ranges_of(alloc: Global, inside: &[char]) -> Result<(Vec<Range>, &[char]), PatternError>
    ensures ok { IfOk result (λ p. ranges_from (length inside.now) [] inside.now
        ≡ Ok (p.0.items, p.1.now)) }
    ensures err { IfErr result (λ e. e ≢ OutOfMemory
        → ranges_from (length inside.now) [] inside.now ≡ Err e) }
{
    let mut ranges = Vec::new(alloc);
    let mut rest = inside;
    for i in 0..inside.len() {
        if is_end(&ranges, rest) {
            return Ok((ranges, behind(rest)));
        }
        let (range, more) = match range_of(rest) {
            Ok(read) => read,
            Err(e) => return Err(e),
        };
        ranges.push(range)?;
        rest = more;
    }
    Err(PatternError::Unfinished)
}

/// Whether a set is negated.
fn is_negation(inside: &[char]) -> bool
    ensures { result ≡ is_negation inside.now }
{
    begins(inside, '!') || begins(inside, '^')
}

/// The piece of a set, negated or not, whose bracket is open, and the text after it.
fn set_in(
    alloc: Global,
    is_negated: bool,
    inside: &[char],
) -> Result<(Piece, &[char]), PatternError>
    ensures ok { IfOk result (λ p. set_in is_negated inside.now ≡ Ok (part_of p.0, p.1.now)) }
    ensures err { IfErr result (λ e. e ≢ OutOfMemory → set_in is_negated inside.now ≡ Err e) }
{
    let (ranges, rest) = ranges_of(alloc, inside)?;
    Ok((Piece::One(Set { is_negated, ranges }), rest))
}

/// The piece of a set whose bracket is open, and the text after it.
fn set_of(alloc: Global, inside: &[char]) -> Result<(Piece, &[char]), PatternError>
    ensures ok { IfOk result (λ p. set_at inside.now ≡ Ok (part_of p.0, p.1.now)) }
    ensures err { IfErr result (λ e. e ≢ OutOfMemory → set_at inside.now ≡ Err e) }
{
    if is_negation(inside) {
        set_in(alloc, true, behind(inside))
    } else {
        set_in(alloc, false, inside)
    }
}

/// The piece of one character.
fn exactly(alloc: Global, c: char) -> Result<Piece, AllocError>
    ensures { IfOk result (λ p. part_of p ≡ Some (false, range c c ∷ [])) }
{
    let mut ranges = Vec::new(alloc);
    ranges.push(Range { first: c, last: c })?;
    let is_negated = false;
    Ok(Piece::One(Set { is_negated, ranges }))
}

/// The piece of a character at the front of a text, and the text after it.
fn character_piece(alloc: Global, text: &[char]) -> Result<(Piece, &[char]), PatternError>
    ensures ok { IfOk result (λ p. character_part text.now ≡ Ok (part_of p.0, p.1.now)) }
    ensures err { IfErr result (λ e. e ≢ OutOfMemory → character_part text.now ≡ Err e) }
{
    let (c, rest) = character(text)?;
    Ok((exactly(alloc, c)?, rest))
}

/// The first piece of a text, and the text after it.
fn piece_of(alloc: Global, text: &[char]) -> Result<(Piece, &[char]), PatternError>
    ensures ok { IfOk result (λ p. part_at text.now ≡ Ok (part_of p.0, p.1.now)) }
    ensures err { IfErr result (λ e. e ≢ OutOfMemory → part_at text.now ≡ Err e) }
{
    if begins(text, '*') {
        Ok((Piece::Star, behind(text)))
    } else if begins(text, '?') {
        let (is_negated, ranges) = (true, Vec::new(alloc));
        Ok((Piece::One(Set { is_negated, ranges }), behind(text)))
    } else if begins(text, '[') {
        set_of(alloc, behind(text))
    } else {
        character_piece(alloc, text)
    }
}

/// Whether a text has no characters.
fn is_nothing(text: &[char]) -> bool
    ensures { result ≡ is_nothing text.now }
{
    match text {
        [] => true,
        [_, ..] => false,
    }
}

/// Reads a pattern. `*` matches any number of characters, `?` one character, `[..]` one character
/// of a set, and `[!..]` or `[^..]` one that is not in the set. A backslash and a character match
/// that character. Any other character matches itself.
///
/// # Errors
///
/// `Unfinished` and `Class`; `OutOfMemory`.
pub fn pieces_of(alloc: Global, text: &[char]) -> Result<Vec<Piece>, PatternError>
    ensures ok { IfOk result (λ v. parts_of text.now ≡ Ok (map part_of v.items)) }
    ensures err { IfErr result (λ e. e ≢ OutOfMemory → parts_of text.now ≡ Err e) }
{
    let mut pieces = Vec::new(alloc);
    let mut rest = text;
    for i in 0..text.len() {
        if is_nothing(rest) {
            return Ok(pieces);
        }
        let (piece, more) = match piece_of(alloc, rest) {
            Ok(read) => read,
            Err(e) => return Err(e),
        };
        pieces.push(piece)?;
        rest = more;
    }
    Ok(pieces)
}
