//! The fields of a manifest's line at a fault.
use crate::fields::{count_of, directory_of, field_of, line_of, numbers_of, wanted_count};
use crate::path_rule::{Meant, broken};
use crate::words::field_shown;
use manifest::error::{BAD_ALIGN, BAD_NUMBER, BAD_TARGET, BAD_WORD, EXISTS, NO_PARENT};
use manifest::{decimal, octal};
use std::alloc::{AllocError, Global};

/// The index of the mode in a line.
const MODE_PLACE: usize = 2;

/// The index of the alignment in a `file` line.
const ALIGN_PLACE: usize = 5;

/// Says what is wrong with the first word, the number of fields, or the kind of a device.
fn wrong_word(alloc: Global, line: &[u8]) -> Result<String, AllocError> {
    let word = field_of(line, 0);
    let text = field_shown(alloc, word)?;
    let count = count_of(line);
    let Some(wanted) = wanted_count(word) else {
        return format!(in alloc; "no line begins with the word {text}");
    };
    for number in 0..count {
        if field_of(line, number).is_empty() {
            return format!(in alloc;
                "word {} is empty, after two spaces or at the end",
                number + 1
            );
        }
    }
    if count != wanted {
        return format!(in alloc; "a line {text} has {wanted} words, and this one {count}");
    }
    format!(in alloc;
        "{} is neither b nor c",
        field_shown(alloc, field_of(line, 5))?
    )
}

/// Says which number of a line is wrong: the first one.
fn wrong_number(alloc: Global, line: &[u8]) -> Result<String, AllocError> {
    for (place, name) in numbers_of(field_of(line, 0)) {
        let field = field_of(line, *place);
        let number = if *place == MODE_PLACE {
            octal(field)
        } else {
            decimal(field)
        };
        if number.is_none() {
            return format!(in alloc; "{name} is {}", field_shown(alloc, field)?);
        }
    }
    Ok(String::new(alloc))
}

/// The fields of a line that are paths or texts: their indices, and what they have to be.
fn texts_of(line: &[u8]) -> [(usize, Meant); 2] {
    let last = count_of(line).saturating_sub(1);
    match field_of(line, 0) {
        b"dir" => [(1, Meant::Directory), (1, Meant::Directory)],
        b"volume" => [(1, Meant::Volume), (1, Meant::Volume)],
        b"slink" => [(1, Meant::Path), (last, Meant::Target)],
        b"hard" | b"same" => [(1, Meant::Path), (last, Meant::Path)],
        _ => [(1, Meant::Path), (1, Meant::Path)],
    }
}

/// Says which path, text or name of a line is wrong, and which rule it breaks.
fn wrong_path(alloc: Global, line: &[u8]) -> Result<String, AllocError> {
    for (place, meant) in texts_of(line) {
        let field = field_of(line, place);
        if let Some(rule) = broken(alloc, field, meant)? {
            return format!(in alloc; "{} {rule}", field_shown(alloc, field)?);
        }
    }
    field_shown(alloc, field_of(line, 1))
}

/// Returns what is wrong in the line of this number of a text, if it has the fault of this number.
///
/// # Errors
///
/// `OutOfMemory`.
pub fn seen(alloc: Global, text: &[u8], line: u64, number: u32) -> Result<String, AllocError> {
    let line = line_of(text, line);
    match number {
        BAD_WORD => wrong_word(alloc, line),
        BAD_NUMBER => wrong_number(alloc, line),
        NO_PARENT => field_shown(alloc, directory_of(field_of(line, 1))),
        EXISTS => field_shown(alloc, field_of(line, 1)),
        BAD_ALIGN => field_shown(alloc, field_of(line, ALIGN_PLACE)),
        BAD_TARGET => field_shown(alloc, field_of(line, count_of(line).saturating_sub(1))),
        _ => wrong_path(alloc, line),
    }
}

/// Returns the number of lines that end in a carriage return, and the number of the first one.
pub fn returns_of(text: &[u8]) -> Option<(u64, u64)> {
    let (mut first, mut count, mut number) = (0u64, 0u64, 0u64);
    for line in text.split(|byte| *byte == b'\n') {
        number = number.saturating_add(1);
        if line.ends_with(b"\r") {
            count = count.saturating_add(1);
            if first == 0 {
                first = number;
            }
        }
    }
    if count == 0 {
        None
    } else {
        Some((first, count))
    }
}
