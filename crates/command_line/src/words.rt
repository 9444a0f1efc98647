//! The words of the command line.
ghost use Rattle.std.specs.Prelude.{◌≡◌, ◌↔◌, IfOk, Ok, codes, false, map, option_map};
ghost use Rattle.std.specs.Prelude.{string_bytes, true};
ghost use Rattle.std.specs.Str.{bytes_eq};
ghost use Rattle.clap.specs.Words.{found_of, rows_of, subcommand_of, subcommand_rows_of};
ghost use Rattle.command_line.specs.Commands.{romtool_app};
ghost use Rattle.command_line.specs.Words.{IsAskedOf, is_bare};
ghost use Rattle.command_line.specs.declared.request.Request.TheVariants.{Example};

use crate::asking::asked;
use crate::commands::command;
use crate::error::{WordsError, Wrong};
use crate::request::{Limited, Request};
use crate::values::most_of;
use clap::error::ErrorKind;
use clap::{ArgMatches, Error};
use percent_encoding::{AsciiSet, CONTROLS, ascii_set, percent_encode};
use std::alloc::{AllocError, Global};

/// The bytes of a word that are escaped when clap shows it.
const ESCAPED: AsciiSet = ascii_set!(CONTROLS.add(b' ').add(b'%'));

/// Returns the subcommand that was given, with its values.
fn entered<'m, 'a>(matches: &'m ArgMatches<'a>) -> Option<(&'a str, &'m ArgMatches<'a>)>
    ensures { option_map (λ p. (p.0.now, rows_of (found_of p.1.now))) result
        ≡ subcommand_rows_of matches.now }
{
    matches.subcommand()
}

/// Returns what the words with a subcommand ask for.
fn chosen<'a>(alloc: Global, matches: &ArgMatches<'a>) -> Result<Limited<'a>, WordsError<'a>>
    ensures { IfOk result (IsAskedOf (subcommand_rows_of matches.now)) }
{
    match entered(matches) {
        Some((name, values)) => Ok(Limited {
            request: asked(alloc, name, values)?,
            most: most_of(values)?,
        }),
        None => Err(Wrong::NoSubcommand.into()),
    }
}

/// Returns whether a word is the option to explain.
pub fn is_explain(word: &[u8]) -> bool
    ensures { result ≡ bytes_eq word.now (codes "--explain") }
{
    word == b"--explain".as_slice()
}

/// Returns whether there is no word after the program's name, or only the option to explain.
fn is_bare(words: &[String]) -> bool
    ensures { result ≡ is_bare (map string_bytes words.now) }
{
    match words {
        [] | [_] => true,
        [_, word] => is_explain(word.as_bytes()),
        _ => false,
    }
}

/// Returns the words with each byte that is no visible ASCII character, and each `%`, escaped.
fn escaped(alloc: Global, words: &[String]) -> Result<Vec<String>, AllocError> {
    let mut line = Vec::new(alloc);
    for word in words {
        let word = percent_encode(word.as_bytes(), ESCAPED);
        line.push(format!(in alloc; "{word}")?)?;
    }
    Ok(line)
}

/// Returns clap's text for words that it refuses, with their bytes escaped as in all names. Clap
/// refuses the escaped words for the same reason, since no word that it knows has such a byte.
fn refused<'a>(alloc: Global, words: &[String], error: Error) -> WordsError<'a> {
    let Ok(words) = escaped(alloc, words) else {
        return WordsError::OutOfMemory;
    };
    let error = match command(alloc) {
        Ok(command) => command.try_get_matches_from(&words).err().unwrap_or(error),
        Err(AllocError) => return WordsError::OutOfMemory,
    };
    match error.kind() {
        ErrorKind::OutOfMemory => WordsError::OutOfMemory,
        _ => WordsError::Refused(error),
    }
}

/// Reads the words of a command line, the program's name first. A request for help is not a request
/// of this program.
///
/// # Errors
///
/// `OutOfMemory`; `Refused` with clap's text if clap refuses the words; `Taken` with the reason if
/// clap accepts the words and they ask for nothing.
pub fn read<'a>(alloc: Global, words: &'a [String]) -> Result<Limited<'a>, WordsError<'a>>
    ensures example { IfOk result (λ l. (l.request ≡ Example)
        ↔ (is_bare (map string_bytes words.now) ≡ true)) }
    ensures bare { is_bare (map string_bytes words.now) ≡ true
        → result ≡ Ok (record { request = Example; most = None }) }
    ensures asked { is_bare (map string_bytes words.now) ≡ false → IfOk result (IsAskedOf
        (subcommand_of romtool_app (map string_bytes words.now))) }
{
    if is_bare(words) {
        return Ok(Limited {
            request: Request::Example,
            most: None,
        });
    }
    match command(alloc)?.try_get_matches_from(words) {
        Ok(matches) => chosen(alloc, &matches),
        Err(error) => Err(refused(alloc, words, error)),
    }
}
