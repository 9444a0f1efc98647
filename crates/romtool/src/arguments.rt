//! The words of the command line.
use std::alloc::AllocError;
use std::env::{Env, FillError};

/// The number of bytes that are first requested for a word.
const SHORT: usize = 256;

/// The program's own name, if the one that the system has is no UTF-8.
const PROGRAM: &str = "romtool";

/// The bytes of the word of this number, from 0 on, if there is one.
fn word(rt: &HostRuntime, number: usize) -> Result<Option<Vec<u8>>, AllocError> {
    let mut room = SHORT;
    for _ in 0..usize::BITS {
        let mut bytes = Vec::new(rt.alloc());
        bytes.resize(room, 0)?;
        match rt.arg(number, &mut bytes) {
            Ok(len) => {
                bytes.truncate(len);
                return Ok(Some(bytes));
            }
            Err(FillError::NotPresent) => return Ok(None),
            Err(FillError::TooLong) => room = room.saturating_mul(2),
        }
    }
    Err(AllocError)
}

/// Why the words of the command line cannot be read.
pub enum NoWords {
    /// Memory was refused.
    OutOfMemory,
    /// The word of this number is no UTF-8. The first one after the program's name has the number
    /// 1.
    NoText(usize),
}

/// A word as a text. The first one may be no UTF-8, since it asks for nothing.
fn text(rt: &HostRuntime, number: usize, bytes: Vec<u8>) -> Result<String, NoWords> {
    match String::from_utf8(bytes) {
        Ok(text) => Ok(text),
        Err(_) if number == 0 => match String::from_str(rt.alloc(), PROGRAM) {
            Ok(text) => Ok(text),
            Err(_) => Err(NoWords::OutOfMemory),
        },
        Err(_) => Err(NoWords::NoText(number)),
    }
}

/// Returns the words of the command line, the program's name first.
///
/// # Errors
///
/// `OutOfMemory`, and `NoText` if a word other than the first is no UTF-8.
pub fn words(rt: &HostRuntime) -> Result<Vec<String>, NoWords> {
    let mut words = Vec::new(rt.alloc());
    for number in 0..usize::MAX {
        let bytes = match word(rt, number) {
            Ok(Some(bytes)) => bytes,
            Ok(None) => break,
            Err(AllocError) => return Err(NoWords::OutOfMemory),
        };
        if words.push(text(rt, number, bytes)?).is_err() {
            return Err(NoWords::OutOfMemory);
        }
    }
    Ok(words)
}
