//! Writes to standard error: a line of the protocol, and a line in words for people, if it is asked
//! for or standard error is a terminal.
ghost use Rattle.std.specs.Prelude.{◌≡◌, true};
ghost use Rattle.rom_commands.specs.Endings.{status_of};
ghost use Rattle.romtool.specs.Stops.{IsAfter, IsAfterLine, is_refusal};

use crate::arguments::NoWords;
use crate::needed::Unmet;
use crate::output::{coloured_lines, errors, lines};
use crate::stop::{FrontOf, Line, Noted, Stop};
use crate::warned;
use crate::words::{Words, refusal_words, words_of};
use build_commands::{
    print_bad_manifest, print_misfit, print_needs, print_size, print_unfit, print_unread,
};
use command_line::{WordsError, is_explain, shown};
use program_streams::Held;
use rom_commands::{Ending, Status, refuse, refuse_in, report};
use rom_fields::{Failed, Plain};
use sentences::reasons::{NO_SLASH, NO_STREAM, NO_WORD};
use sentences::words::escaped;
use sentences::{call_sentence, ending_sentence};
use std::alloc::AllocError;
use std::env::{Env, FillError};
use std::fmt::Display;
use std::io::{self, IsTerminal, Write};
use std_io::io::last_error;
use system_files::{Front, Refusal};

/// The number of bytes of the word that asks to explain.
const EXPLAIN_LEN: usize = 9;

/// The environment variable that asks to explain, if it is `1`.
const VARIABLE: &str = "ROMTOOL_EXPLAIN";

/// Linux's number of the error that a pipe has no reader any more.
const NO_READER: i32 = 32;

/// Whether the words up to the first `--` ask to explain, or are those of `pack`, which explains
/// without being asked, unless it has to be quiet.
fn has_explain(rt: &HostRuntime) -> bool {
    let (mut is_pack, mut is_quiet) = (false, false);
    for number in 1..usize::MAX {
        let mut word = [0; EXPLAIN_LEN];
        match rt.arg(number, &mut word) {
            Ok(len) => {
                let word = word.get(..len).unwrap_or(&[]);
                if is_explain(word) {
                    return true;
                }
                if word == b"--".as_slice() {
                    break;
                }
                is_pack = is_pack || number == 1 && word == b"pack".as_slice();
                is_quiet = is_quiet || word == b"--quiet".as_slice();
            }
            Err(FillError::TooLong) => {}
            Err(FillError::NotPresent) => break,
        }
    }
    is_pack && !is_quiet
}

/// Whether the environment asks to explain.
fn is_set(rt: &HostRuntime) -> bool {
    let mut value = [0; 1];
    match rt.var(VARIABLE, &mut value) {
        Ok(len) => value.get(..len) == Some(b"1".as_slice()),
        Err(_) => false,
    }
}

/// Whether standard output failed since nobody reads it any more, by the number of the system's
/// error. Then nothing is explained.
fn is_left(ending: Ending<'_>, reason: &io::Error) -> bool {
    ending == Ending::WriteFault && reason.raw_os_error() == Some(NO_READER)
}

/// The sentence of an ending, if it has one. The sentence of a fault needs the image.
fn sentence_of(ending: Ending<'_>) -> Option<&'static str> {
    match ending {
        Ending::Memory => ending_sentence(b"memory"),
        Ending::ReadFault => ending_sentence(b"read fault"),
        Ending::WriteFault => ending_sentence(b"write fault"),
        Ending::TooManyReads => ending_sentence(b"too many reads"),
        Ending::NoFile(error) if error.name() == b"EINVAL".as_slice() => Some(NO_SLASH),
        Ending::NoFile(error) => call_sentence(error.name()),
        _ => None,
    }
}

/// What an ending is about: memory, a standard stream, or otherwise the file of this path.
fn place_of<'a>(ending: Ending<'_>, path: &'a [u8]) -> &'a [u8] {
    match ending {
        Ending::Memory => b"memory",
        Ending::ReadFault | Ending::TooManyReads => b"stdin",
        Ending::WriteFault => b"stdout",
        _ => path,
    }
}

/// Reports how a command ends, and explains it in words if standard error is a terminal or words
/// are asked for. A failure to explain changes nothing.
#[derive(Clone, Copy)]
pub struct Reporter<'a> {
    pub rt: &'a HostRuntime,
    /// The most bytes of an image that is read, if the words give them.
    pub most: Option<u64>,
    is_explained: bool,
}

impl<'a> Reporter<'a> {
    /// Returns the reporter for the words, the environment and standard error.
    pub fn new(rt: &'a HostRuntime) -> Reporter<'a> {
        Reporter {
            rt,
            most: None,
            is_explained: has_explain(rt) || is_set(rt) || rt.stderr().is_terminal(),
        }
    }

    /// Returns the same reporter, with words for people or without them.
    pub fn with_words(&self, is_explained: bool) -> Reporter<'a> {
        Reporter {
            is_explained,
            ..*self
        }
    }

    /// Returns the same reporter, for images of at most this many bytes.
    pub fn with_most(&self, most: Option<u64>) -> Reporter<'a> {
        Reporter { most, ..*self }
    }

    /// Returns whether words for people are written as well.
    pub fn is_explained(&self) -> bool {
        self.is_explained
    }

    /// Returns no words yet, of which those are kept that are said.
    pub fn words(&self) -> Words {
        Words::new(self.rt.alloc(), self.is_explained)
    }

    /// Says all these words, if words are asked for.
    pub fn tell(&self, words: &Words) {
        for sentence in words.all() {
            self.explain(&sentence.place, &sentence.what);
        }
    }

    /// Returns whether requests are typed at a terminal, and words are asked for.
    pub fn is_typed(&self) -> bool {
        self.is_explained && self.rt.stdin().is_terminal()
    }

    /// Writes a text on standard error as it is.
    pub fn put(&self, text: &[u8]) {
        let mut err = Held::new(self.rt.alloc(), self.rt.stderr());
        let _ = err.write_all(text);
        let _ = err.flush();
    }

    /// Explains something about a file or a stream, if words are asked for.
    pub fn explain<W: Display>(&self, place: &[u8], what: &W) {
        if self.is_explained {
            let _ = self.try_explain(place, what);
        }
    }

    fn try_explain<W: Display>(&self, place: &[u8], what: &W) -> Result<(), AllocError> {
        let alloc = self.rt.alloc();
        let line = format!(in alloc; "romtool: {}: {what}\n", escaped(alloc, place)?)?;
        self.put(line.as_bytes());
        Ok(())
    }

    /// Reports how a command ended, by one write, and explains it.
    pub fn say(&self, ending: Ending<'_>) -> Status
        ensures { result ≡ status_of ending.entry }
    {
        let mut err = Plain::new(Held::new(self.rt.alloc(), self.rt.stderr()));
        let status = report(ending, &mut err);
        self.finish(err, ending, b"");
        status
    }

    /// Writes what a command held back for standard error, and explains how it ended. The path is
    /// that of the file in an image that the command was about. A fault is not explained here.
    pub fn finish<X: Write + Drop>(&self, err: Plain<Held<X>>, ending: Ending<'_>, path: &[u8]) {
        self.finish_for(err, ending, path, &last_error());
    }

    /// Does the same, for this last error of the system.
    fn finish_for<X: Write + Drop>(
        &self,
        err: Plain<Held<X>>,
        ending: Ending<'_>,
        path: &[u8],
        reason: &io::Error,
    ) {
        let mut held = err.into_inner();
        let _ = held.flush();
        if let Some(sentence) = sentence_of(ending)
            && !is_left(ending, reason)
        {
            let place = place_of(ending, path);
            if ending == Ending::WriteFault
                && let Ok(words) = self.with_reason(sentence, reason)
            {
                self.explain(place, &words);
            } else {
                self.explain(place, &sentence);
            }
        }
    }

    /// A sentence, followed by the operating system's words for an error.
    fn with_reason(&self, sentence: &str, e: &io::Error) -> Result<String, AllocError> {
        let words = words_of(self.rt.alloc(), e)?;
        format!(in self.rt.alloc(); "{sentence}: {words}")
    }

    /// Does the same for a command on the image in the file of this name, and explains the image's
    /// fault if it has one. Its bytes are all that were read, or the first ones.
    pub fn finish_image<X: Write + Drop>(
        &self,
        err: Plain<Held<X>>,
        ending: Ending<'_>,
        name: &[u8],
        bytes: &[u8],
    ) {
        self.finish(err, ending, name);
        self.explain_ending(ending, name, bytes);
    }

    /// Explains the fault with which a command on the image in the file of this name ended.
    pub fn explain_ending(&self, ending: Ending<'_>, name: &[u8], bytes: &[u8]) {
        if let Ending::Fault { fault, .. } = ending {
            let mut words = self.words();
            words.add_fault(name, bytes, fault);
            self.tell(&words);
        }
    }

    /// Reports that a file could not be read, listed or written, and why.
    fn failed<W: Display>(&self, name: &[u8], why: &W) -> Status
        ensures { result ≡ Status.Failed }
    {
        let status = self.say(Ending::File(name));
        self.explain(name, why);
        status
    }

    /// Reports why an operation on a file was refused: memory, or the file.
    pub fn refused(&self, name: &[u8], why: Refusal) -> Status
        ensures { result ≡ Status.Failed }
    {
        if why.is_memory() {
            return self.say(Ending::Memory);
        }
        let status = self.say(Ending::File(name));
        if self.is_explained
            && let Ok(words) = refusal_words(self.rt.alloc(), why)
        {
            self.explain(name, &words);
        }
        status
    }

    /// Reports why a file was not read.
    fn unread(&self, name: &[u8], why: Refusal) -> Status
        ensures { result ≡ Status.Failed }
    {
        let status = self.refused(name, why);
        if name == b"-".as_slice() {
            self.explain(name, &NO_STREAM);
        }
        status
    }

    /// Reports that standard output did not take everything, for this reason of the system.
    fn unwritten(&self, reason: &io::Error) -> Status
        ensures { result ≡ Status.Failed }
    {
        let mut err = Plain::new(Held::new(self.rt.alloc(), self.rt.stderr()));
        let status = report(Ending::WriteFault, &mut err);
        self.finish_for(err, Ending::WriteFault, b"", reason);
        status
    }

    /// Reports how a command ended early, and explains it.
    fn ended(&self, ending: Ending<'_>, place: &str, why: &'static str) -> Status
        ensures { result ≡ status_of ending.entry }
    {
        let status = self.say(ending);
        self.explain(place.as_bytes(), &why);
        status
    }

    /// Reports which of these files are not as they have to be.
    fn failed_each(&self, all: &[Noted]) -> Status
        ensures { result ≡ Status.Failed }
    {
        for file in all {
            self.failed(file.place.as_bytes(), &file.why);
        }
        Status::Failed
    }

    /// Returns the status of a refusal whose line was written. Reports that it was not.
    pub fn printed(&self, written: Result<(), Failed>) -> Status
        ensures { is_refusal result ≡ true }
    {
        match written {
            Ok(()) => Status::Refused,
            Err(Failed) => self.say(Ending::WriteFault),
        }
    }

    /// Reports that the first bytes of a file refuse it as an image.
    fn refused_front(&self, name: &[u8], front: &Front, of: FrontOf) -> Status {
        let (fault, mut err) = (front.fault, errors(self.rt));
        let ending = match of {
            FrontOf::Data => {
                let ending = Ending::Fault { fault, image: None };
                report(ending, &mut err);
                ending
            }
            FrontOf::One(asked) => refuse(fault, asked, &mut coloured_lines(self.rt), &mut err),
            FrontOf::Several(image) => refuse_in(fault, image, &mut lines(self.rt), &mut err),
        };
        self.finish_image(err, ending, name, &front.bytes);
        ending.status()
    }

    /// Writes the line by which a command stops.
    fn say_line(&self, line: Line) -> Status
        ensures { IsAfterLine line result }
    {
        match line {
            Line::Of(ending) => self.say(ending),
            Line::File(name) => self.say(Ending::File(&name)),
            Line::BadManifest { line, number } => {
                self.printed(print_bad_manifest(&mut lines(self.rt), line, number))
            }
            Line::Misfit { line, number } => {
                self.printed(print_misfit(&mut lines(self.rt), line, number))
            }
            Line::Needs(Unmet { line, path, name }) => {
                let out = &mut lines(self.rt);
                match name {
                    Some(name) => self.printed(print_needs(out, line, &path, &name)),
                    None => self.printed(print_unread(out, line, &path)),
                }
            }
            Line::Unfit(counts) => {
                // the status says it, even if standard error accepts no line
                let _ = print_unfit(&mut errors(self.rt), counts);
                Status::Refused
            }
        }
    }

    /// Reports why a command stops.
    pub fn stopped(&self, stop: Stop) -> Status
        ensures { IsAfter stop result }
    {
        match stop {
            Stop::Memory => self.say(Ending::Memory),
            Stop::Unwritten(reason) => self.unwritten(&reason),
            Stop::Refused(name, why) => self.refused(name.as_bytes(), why),
            Stop::Unread(name, why) => self.unread(name.as_bytes(), why),
            Stop::Failed(name, why) => self.failed(name.as_bytes(), &why),
            Stop::FailedEach(all) => self.failed_each(&all),
            Stop::Changed(name, why) => self.ended(Ending::Changed, &name, why),
            Stop::Usage(word, why) => self.ended(Ending::Usage, &word, why),
            Stop::Front(name, front, of) => self.refused_front(name.as_bytes(), &front, of),
            Stop::TooLarge { out, len, most } => {
                let status = self.printed(print_size(&mut lines(self.rt), len, most));
                warned::explain_size(self, &out, len, most);
                status
            }
            Stop::Told(line, words) => {
                let status = self.say_line(line);
                self.tell(&words);
                status
            }
            Stop::Said(status) => status,
        }
    }

    /// Reports that a word of the command line cannot be read.
    pub fn refused_word(&self, wrong: NoWords) -> Status {
        match wrong {
            NoWords::OutOfMemory => self.say(Ending::Memory),
            NoWords::NoText(number) => {
                let status = self.say(Ending::Usage);
                if self.is_explained
                    && let Ok(place) = format!(in self.rt.alloc(); "word:{number}")
                {
                    self.explain(place.as_bytes(), &NO_WORD);
                }
                status
            }
        }
    }

    /// Reports that the words ask for nothing, and why; if clap refused the words, in clap's text.
    pub fn refused_words(&self, error: WordsError<'_>) -> Status {
        if matches!(error, WordsError::OutOfMemory) {
            return self.say(Ending::Memory);
        }
        let status = self.say(Ending::Usage);
        if self.is_explained
            && let Ok(text) = shown(self.rt.alloc(), &error, self.rt.stderr().is_terminal())
        {
            self.put(text.as_bytes());
        }
        status
    }
}
