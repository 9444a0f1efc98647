//! What the lines of `xip` and of `linux` say of an image, each thing once.
use crate::fields::field_of;
use crate::misreads::misread_sentence;
use crate::programs::program_sentence;
use crate::words::field_shown;
use std::alloc::{AllocError, Global};
use std::io::{self, Write};

/// What several lines say: its name and its sentence, the number of these lines, and the path of
/// the first.
#[derive(Drop)]
struct Said {
    name: Vec<u8>,
    sentence: &'static str,
    count: u64,
    path: Vec<u8>,
}

/// Notes what lines of `xip` or of `linux` say that are written to it. It keeps a line only up to
/// its end.
#[derive(Drop)]
pub struct Noted {
    alloc: Global,
    line: Vec<u8>,
    all: Vec<Said>,
}

/// The number that decimal digits stand for.
fn number_of(digits: &[u8]) -> u32 {
    let mut number = 0u32;
    for digit in digits {
        let value = u32::from(digit.saturating_sub(b'0'));
        number = number.saturating_mul(10).saturating_add(value);
    }
    number
}

/// The name, the path and the sentence of what a line says, if it is one of these.
fn parts(line: &[u8]) -> Option<(&[u8], &[u8], &'static str)> {
    let word = field_of(line, 0);
    if word == b"linux".as_slice() {
        let sentence = misread_sentence(number_of(field_of(line, 1)));
        return Some((field_of(line, 2), field_of(line, 3), sentence));
    }
    let name = if word == b"not".as_slice() {
        field_of(line, 3)
    } else {
        word
    };
    match program_sentence(name) {
        Some(sentence) => Some((name, field_of(line, 1), sentence)),
        None => None,
    }
}

impl Noted {
    /// Returns a writer that has noted nothing.
    pub fn new(alloc: Global) -> Noted {
        Noted {
            alloc,
            line: Vec::new(alloc),
            all: Vec::new(alloc),
        }
    }

    /// Notes the line that was written.
    fn note(&mut self) -> Result<(), AllocError> {
        let Some((name, path, sentence)) = parts(&self.line) else {
            return Ok(());
        };
        for said in self.all.iter_mut() {
            if said.name.as_slice() == name {
                said.count = said.count.saturating_add(1);
                return Ok(());
            }
        }
        self.all.push(Said {
            name: name.to_vec(self.alloc)?,
            sentence,
            count: 1,
            path: path.to_vec(self.alloc)?,
        })?;
        Ok(())
    }

    /// Returns what was noted in words, in the order of the first lines.
    ///
    /// # Errors
    ///
    /// `OutOfMemory`.
    pub fn texts(&self) -> Result<Vec<String>, AllocError> {
        let alloc = self.alloc;
        let mut texts = Vec::new(alloc);
        for said in &self.all {
            let name = field_shown(alloc, &said.name)?;
            let path = field_shown(alloc, &said.path)?;
            texts.push(format!(in alloc;
                "{name}: {}; files: {}, first {path}",
                said.sentence, said.count
            )?)?;
        }
        Ok(texts)
    }
}

impl Write for Noted {
    fn write(&mut self, b: &[u8]) -> io::Result<usize> {
        for byte in b {
            if *byte == b'\n' {
                self.note()?;
                self.line.clear();
            } else {
                self.line.push(*byte)?;
            }
        }
        Ok(b.len())
    }

    fn flush(&mut self) -> io::Result<()> {
        Ok(())
    }
}
