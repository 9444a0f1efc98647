//! Writes replies to lines, and explains why a line was refused.
ghost use Rattle.std.specs.Prelude.{◌≡◌, [], OnOk};
ghost use Rattle.std.specs.Io.KnownBytes.{Keeps};
ghost use Rattle.program_streams.specs.Streams.{held_back, held_contents};

use crate::reporter::Reporter;
use program_streams::Held;
use sentences::{call_sentence, line_sentence};
use std::io::{self, Write};

/// The number of bytes of a reply that are kept. The longest name of an error, in `0 err
/// ENAMETOOLONG`, needs eighteen.
const FRONT: usize = 32;

/// A writer of replies, each of which is flushed. If words for people are asked for, a reply that
/// refuses a line is followed by the reason.
#[derive(Drop)]
pub struct Replies<'a, X> {
    inner: Held<X>,
    reporter: Reporter<'a>,
    front: Vec<u8>,
    lines: u64,
}

/// Why a reply refuses its line, if it does. `err NAME` refuses a call; any other text refuses the
/// line itself.
fn refusal(reply: &[u8]) -> Option<&'static str> {
    let reply = match reply {
        [b'0'..=b'7', b' ', rest @ ..] => rest,
        _ => reply,
    };
    match reply {
        [b'e', b'r', b'r', b' ', name @ .., b'\n'] => call_sentence(name),
        [line @ .., b'\n'] => line_sentence(line),
        _ => None,
    }
}

impl<'a, X: Write> Replies<'a, X> {
    /// Returns a writer in front of this one.
    pub fn new(reporter: Reporter<'a>, inner: X) -> Replies<'a, X> {
        Replies {
            inner: Held::new(reporter.rt.alloc(), inner),
            reporter,
            front: Vec::new(reporter.rt.alloc()),
            lines: 0,
        }
    }

    /// Keeps the front of a reply.
    fn note(&mut self, b: &[u8])
        ensures { self.new.inner ≡ self.old.inner }
    {
        let room = FRONT.saturating_sub(self.front.len());
        let part = b.get(..room).unwrap_or(b);
        let _ = self.front.extend_from_slice(part);
    }

    /// Explains why the reply refuses its line.
    fn explain(&mut self)
        ensures { self.new.inner ≡ self.old.inner }
    {
        self.lines = self.lines.saturating_add(1);
        if let Some(sentence) = refusal(&self.front) {
            let alloc = self.reporter.rt.alloc();
            if let Ok(place) = format!(in alloc; "stdin:{}", self.lines) {
                self.reporter.explain(place.as_bytes(), &sentence);
            }
        }
        self.front.clear();
    }
}

impl<X: Write> Write for Replies<'_, X> {
    ghost contents = { λ s. held_contents X.contents s.inner };

    fn write(&mut self, b: &[u8]) -> io::Result<usize> {
        if self.reporter.is_explained() {
            self.note(b);
        }
        self.inner.write(b)
    }

    fn flush(&mut self) -> io::Result<()>
        ensures bytes { Keeps (held_contents X.contents self.old.inner)
            (held_contents X.contents self.new.inner) }
        ensures empty { OnOk result (held_back self.new.inner ≡ []) }
    {
        self.inner.flush()?;
        if self.reporter.is_explained() {
            self.explain();
        }
        Ok(())
    }
}
