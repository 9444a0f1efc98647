//! Names as texts for people.
use percent_encoding::{AsciiSet, CONTROLS, ascii_set, percent_encode};
use std::alloc::{AllocError, Global};

/// The bytes that are escaped in a name, as in the lines that the program prints.
const ESCAPED: AsciiSet = ascii_set!(CONTROLS.add(b' ').add(b'%'));

/// The most bytes of a name that are shown.
const MOST: usize = 200;

/// The first bytes of a text: as many as are shown.
fn front(text: &[u8]) -> &[u8] {
    match text.get(..MOST) {
        Some(front) => front,
        None => text,
    }
}

/// Returns a name in which each byte that is no visible ASCII character, and each `%`, is escaped.
///
/// # Errors
///
/// `OutOfMemory`.
pub fn escaped(alloc: Global, name: &[u8]) -> Result<String, AllocError> {
    format!(in alloc; "{}", percent_encode(name, ESCAPED))
}

/// Returns the front of a name, escaped.
///
/// # Errors
///
/// `OutOfMemory`.
pub fn shown(alloc: Global, name: &[u8]) -> Result<String, AllocError> {
    escaped(alloc, front(name))
}

/// Returns the front of a field of a manifest, which is already escaped.
///
/// # Errors
///
/// `OutOfMemory`.
pub fn field_shown(alloc: Global, field: &[u8]) -> Result<String, AllocError> {
    format!(in alloc; "{}", percent_encode(front(field), CONTROLS))
}
