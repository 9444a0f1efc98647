//! Whether bytes are a text that a terminal shows.
use std::io::{self, Write};
use std::str;

/// Sees whether the bytes that are written to it are a text in UTF-8 without characters that a
/// terminal takes for commands: controls except tabs and line ends. It keeps no byte except those
/// of a character that is not whole.
#[derive(Drop)]
pub struct TextSeen {
    part: [u8; 4],
    len: usize,
    is_text: bool,
}

/// Whether a terminal shows a character.
fn is_shown(c: char) -> bool {
    !c.is_control() || matches!(c, '\t' | '\n' | '\r')
}

impl TextSeen {
    /// Returns what has seen no byte.
    pub fn new() -> TextSeen {
        TextSeen {
            part: [0; 4],
            len: 0,
            is_text: true,
        }
    }

    /// Sees a byte.
    fn see(&mut self, byte: u8) {
        if let Some(place) = self.part.get_mut(self.len) {
            *place = byte;
            self.len = self.len.saturating_add(1);
        }
        let part = self.part.get(..self.len).unwrap_or(&[]);
        match str::from_utf8(part) {
            Ok(text) => {
                self.is_text = self.is_text && text.chars().all(is_shown);
                self.len = 0;
            }
            Err(e) => {
                if e.error_len().is_some() {
                    self.is_text = false;
                    self.len = 0;
                }
            }
        }
    }

    /// Returns whether all bytes so far are such a text.
    pub fn is_text(&self) -> bool {
        self.is_text && self.len == 0
    }
}

impl Write for TextSeen {
    fn write(&mut self, b: &[u8]) -> io::Result<usize> {
        for byte in b {
            if self.is_text {
                self.see(*byte);
            }
        }
        Ok(b.len())
    }

    fn flush(&mut self) -> io::Result<()> {
        Ok(())
    }
}
