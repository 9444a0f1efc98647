//! Words for people, which are kept until they are said.
use crate::origin::Origin;
use rom_fields::Fault;
use sentences::words::escaped;
use sentences::{fault_sentence, image, reason_sentence};
use std::alloc::{AllocError, Global};
use std::fmt::Display;
use std::io;
use system_files::Refusal;

/// A sentence about a file, a line or a stream.
#[derive(Drop)]
pub struct Sentence {
    pub place: Vec<u8>,
    pub what: String,
}

/// Sentences, which are kept only if words are asked for. One for which memory is refused is left
/// out.
#[derive(Drop)]
pub struct Words {
    alloc: Global,
    are_asked: bool,
    all: Vec<Sentence>,
}

impl Words {
    /// Returns no sentences.
    pub fn new(alloc: Global, are_asked: bool) -> Words {
        Words {
            alloc,
            are_asked,
            all: Vec::new(alloc),
        }
    }

    /// Returns where their memory is.
    pub fn alloc(&self) -> Global {
        self.alloc
    }

    /// Returns whether words are asked for.
    pub fn are_asked(&self) -> bool {
        self.are_asked
    }

    /// Returns the sentences, the first one first.
    pub fn all(&self) -> &[Sentence] {
        &self.all
    }

    /// Adds what is said of a file, a line or a stream.
    pub fn add<W: Display>(&mut self, place: &[u8], what: &W) {
        if self.are_asked {
            let _ = self.try_add(place, what);
        }
    }

    fn try_add<W: Display>(&mut self, place: &[u8], what: &W) -> Result<(), AllocError> {
        let sentence = Sentence {
            place: place.to_vec(self.alloc)?,
            what: format!(in self.alloc; "{what}")?,
        };
        match self.all.push(sentence) {
            Ok(()) => Ok(()),
            Err(_) => Err(AllocError),
        }
    }

    /// Adds why a file was refused.
    pub fn add_refusal(&mut self, place: &[u8], why: Refusal) {
        if self.are_asked
            && let Ok(words) = refusal_words(self.alloc, why)
        {
            self.add(place, &words);
        }
    }

    /// Adds what is said of a source, and where the manifest names it.
    pub fn add_source<W: Display>(&mut self, origin: Origin<'_>, number: usize, what: &W) {
        if self.are_asked {
            let _ = self.try_add_source(origin, number, what);
        }
    }

    fn try_add_source<W: Display>(
        &mut self,
        origin: Origin<'_>,
        number: usize,
        what: &W,
    ) -> Result<(), AllocError> {
        let manifest = escaped(self.alloc, origin.name.as_bytes())?;
        let line = origin.line(number);
        let what = format!(in self.alloc; "{what} ({manifest}:{line})")?;
        self.try_add(origin.source(number), &what)
    }

    /// Adds why a source was refused.
    pub fn add_refused_source(&mut self, origin: Origin<'_>, number: usize, why: Refusal) {
        if self.are_asked
            && let Ok(words) = refusal_words(self.alloc, why)
        {
            self.add_source(origin, number, &words);
        }
    }

    /// Adds which fault a file has, by all its bytes or by its first ones.
    pub fn add_fault(&mut self, name: &[u8], bytes: &[u8], fault: Fault) {
        if self.are_asked {
            let _ = self.try_add_fault(name, bytes, fault);
        }
    }

    fn try_add_fault(&mut self, name: &[u8], bytes: &[u8], fault: Fault) -> Result<(), AllocError> {
        let alloc = self.alloc;
        let Fault { number, at } = fault;
        let (short, sentence) = (rom_fields::fault::name(number), fault_sentence(number));
        let seen = image::seen(alloc, bytes, number, at)?;
        let colon = if seen.is_empty() { "" } else { ": " };
        let what = format!(in alloc;
            "{short} ({number}) at {at}: {sentence}{colon}{seen}; see FAULTS, {number} {short}"
        )?;
        self.try_add(name, &what)
    }
}

/// Returns why a file was refused, in words.
pub fn refusal_words(alloc: Global, why: Refusal) -> Result<String, AllocError> {
    match why {
        Refusal::System(e) => words_of(alloc, &e),
        Refusal::Reason(reason) => String::from_str(alloc, reason_sentence(reason)),
        Refusal::TooLong { bytes, most, by } => image::too_long(alloc, bytes, most, by),
    }
}

/// Returns the operating system's words for an error, without its number.
pub fn words_of(alloc: Global, e: &io::Error) -> Result<String, AllocError> {
    let words = format!(in alloc; "{e}")?;
    match words.as_str().split_once(" (os error ") {
        Some((front, _)) => String::from_str(alloc, front),
        None => Ok(words),
    }
}
