//! Help and usage errors as people see them: clap's text, with the subcommands in groups, what a
//! word of other programs is called here, and lines that fit a terminal.
use crate::error::WordsError;
use std::alloc::{AllocError, Global};

/// The number of columns of a terminal.
const COLUMNS: usize = 80;

/// What the subcommands are for, and their names.
const GROUPS: [(&str, &[&str]); 8] = [
    ("to make an image", &["pack", "scan", "build"]),
    (
        "to check it, and see what Linux does with it",
        &["check", "linux", "xip"],
    ),
    ("to see what is in it", &["list", "info", "cat", "digest"]),
    ("to see where files are", &["map", "which"]),
    ("to compare", &["diff", "verify"]),
    ("to unpack", &["extract"]),
    ("to read it in programs", &["serve", "space", "numbers"]),
    ("others", &["version", "help"]),
];

/// The words before the name of an unknown subcommand.
const UNKNOWN: &str = "error: unrecognized subcommand '";

/// The line before the list of subcommands.
const LISTED: &str = "\nCommands:\n";

/// The subcommand that a word of other programs may mean.
fn meant_by(word: &str) -> Option<&'static str> {
    match word {
        "unpack" | "unzip" | "x" => Some("did you mean 'extract'?"),
        "create" | "make" | "mkfs" => {
            Some("did you mean 'pack' (of directories) or 'build' (of a manifest)?")
        }
        "mount" => Some("did you mean the program romtool-mount?"),
        "dump" => Some("did you mean 'cat' (one file) or 'extract' (all files)?"),
        _ => None,
    }
}

/// A text in which the tip for an unknown subcommand says what the word means here, if that is
/// known.
fn tipped(alloc: Global, text: &str) -> Result<String, AllocError> {
    if let Some(rest) = text.strip_prefix(UNKNOWN)
        && let Some((word, rest)) = rest.split_once("'\n")
        && let Some(tip) = meant_by(word)
        && let Some((_, usage)) = rest.split_once("Usage: ")
    {
        return format!(in alloc; "{UNKNOWN}{word}'\n\n  tip: {tip}\n\nUsage: {usage}");
    }
    String::from_str(alloc, text)
}

/// Adds the line of a subcommand in a list of subcommands, if it is there.
fn add_listed(text: &mut String, listed: &str, name: &str) -> Result<(), AllocError> {
    for line in listed.split('\n') {
        if line.trim_start().split(' ').next() == Some(name) {
            text.push_str(line)?;
            text.push_str("\n")?;
        }
    }
    Ok(())
}

/// A text of help with its list of subcommands in groups, if it has one.
fn grouped(alloc: Global, text: &str) -> Result<String, AllocError> {
    if let Some((front, rest)) = text.split_once(LISTED)
        && let Some((listed, rest)) = rest.split_once("\n\n")
    {
        let mut all = format!(in alloc; "{front}{LISTED}")?;
        for (aim, names) in GROUPS {
            all.push_str(&format!(in alloc; " {aim}:\n")?)?;
            for name in names {
                add_listed(&mut all, listed, name)?;
            }
        }
        all.push_str("\n")?;
        all.push_str(rest)?;
        return Ok(all);
    }
    String::from_str(alloc, text)
}

/// The column of the second part of a line, which is behind two spaces or more, or 0 if there is
/// none.
fn column_of(line: &str) -> usize {
    let (mut spaces, mut has_text) = (0usize, false);
    for (at, byte) in line.as_bytes().iter().enumerate() {
        if *byte == b' ' {
            spaces = spaces.saturating_add(1);
        } else {
            if has_text && spaces > 1 {
                return at;
            }
            (spaces, has_text) = (0, true);
        }
    }
    0
}

/// Adds a line that is broken between words if it is too long. What follows the break is below the
/// second part of the line.
fn add_broken(alloc: Global, text: &mut String, line: &str) -> Result<(), AllocError> {
    let column = column_of(line);
    let (Some(front), Some(back)) = (line.get(..column), line.get(column..)) else {
        return text.push_str(line);
    };
    text.push_str(front)?;
    let mut used = column;
    for (number, word) in back.split(' ').enumerate() {
        let more = word.len().saturating_add(1);
        if number > 0 && used.saturating_add(more) > COLUMNS {
            text.push_str(&format!(in alloc; "\n{:column$}", "")?)?;
            used = column;
        } else if number > 0 {
            text.push_str(" ")?;
            used = used.saturating_add(1);
        }
        text.push_str(word)?;
        used = used.saturating_add(word.len());
    }
    Ok(())
}

/// A text of which no line is too long for a terminal, unless a word is.
fn broken(alloc: Global, text: &str) -> Result<String, AllocError> {
    let mut all = String::new(alloc);
    for (number, line) in text.split('\n').enumerate() {
        if number > 0 {
            all.push_str("\n")?;
        }
        if line.len() <= COLUMNS {
            all.push_str(line)?;
        } else {
            add_broken(alloc, &mut all, line)?;
        }
    }
    Ok(all)
}

/// Returns why words ask for nothing, or the help that they ask for, as text for people. For a
/// terminal, the lines have at most 80 columns.
///
/// # Errors
///
/// `OutOfMemory`.
pub fn shown(
    alloc: Global,
    error: &WordsError<'_>,
    is_terminal: bool,
) -> Result<String, AllocError> {
    let text = format!(in alloc; "{error}")?;
    let text = grouped(alloc, &tipped(alloc, &text)?)?;
    if is_terminal {
        broken(alloc, &text)
    } else {
        Ok(text)
    }
}
