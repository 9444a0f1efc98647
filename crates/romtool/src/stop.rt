//! Why a command stops early, as a value. One function says it: `Reporter::stopped`.
use crate::needed::Unmet;
use crate::words::Words;
use build_commands::changes::ChangeCounts;
use rom_commands::{Asked, Ending, Status};
use rom_fields::OutOfMemory;
use sentences::reason_sentence;
use sentences::reasons::OWN_ERROR;
use std::alloc::{AllocError, AllocFailed, Global};
use std::io;
use std_io::io::last_error;
use system_files::reading::Unread;
use system_files::{FileError, Front, Reason, Refusal, Unopened};

/// What is said of the first bytes of a file, which refuse it as an image.
#[derive(Clone, Copy)]
pub enum FrontOf {
    /// The fault, on standard error: what is asked for are data.
    Data,
    /// What is said of the only image, of which this is asked.
    One(Asked),
    /// The fault of the image of this number among several, from 0 on.
    Several(u32),
}

/// The line of the protocol by which a command stops.
#[derive(Drop)]
pub enum Line {
    /// That of an ending.
    Of(Ending<'static>),
    /// `file NAME`.
    File(Vec<u8>),
    /// `manifest LINE NUMBER NAME`.
    BadManifest { line: u64, number: u32 },
    /// `plan LINE NUMBER NAME`.
    Misfit { line: u64, number: u32 },
    /// `unfit OWNERS GROUPS MODES`.
    Unfit(ChangeCounts),
    /// `needs LINE PATH NAME`, or `unread LINE PATH`.
    Needs(Unmet),
}

/// What is said of a file.
#[derive(Drop)]
pub struct Noted {
    pub place: String,
    pub why: &'static str,
}

/// Why a command stops early.
#[derive(Drop)]
pub enum Stop {
    /// Memory was refused.
    Memory,
    /// A write to standard output failed, for this reason.
    Unwritten(io::Error),
    /// Something about the file of this name was refused.
    Refused(String, Refusal),
    /// The file of this name was not read.
    Unread(String, Refusal),
    /// The file of this name is not as it has to be.
    Failed(String, &'static str),
    /// None of these files is as it has to be.
    FailedEach(Vec<Noted>),
    /// The file of this name changed.
    Changed(String, &'static str),
    /// This word asks for nothing that is there.
    Usage(String, &'static str),
    /// The first bytes of the file of this name refuse it as an image.
    Front(String, Front, FrontOf),
    /// The image in the file of this name would have `len` bytes, and may have `most`.
    TooLarge { out: String, len: u64, most: u64 },
    /// This line says it, and these words explain it.
    Told(Line, Words),
    /// It was said already.
    Said(Status),
}

impl<T: Drop> From<AllocFailed<T>> for Stop {
    fn from(_: AllocFailed<T>) -> Stop {
        Stop::Memory
    }
}

impl From<AllocError> for Stop {
    fn from(_: AllocError) -> Stop {
        Stop::Memory
    }
}

impl From<OutOfMemory> for Stop {
    fn from(_: OutOfMemory) -> Stop {
        Stop::Memory
    }
}

impl From<FileError> for Stop {
    fn from(e: FileError) -> Stop {
        match e {
            FileError::OutOfMemory => Stop::Memory,
            FileError::Refused(name, why) => Stop::Refused(name, why),
        }
    }
}

impl From<Status> for Stop {
    fn from(status: Status) -> Stop {
        Stop::Said(status)
    }
}

impl Stop {
    /// Returns that a write to standard output failed, for the reason of the system's last error.
    pub fn unwritten() -> Stop {
        Stop::Unwritten(last_error())
    }

    /// Returns that the file of this name was refused, even if it was memory that was refused.
    pub fn of_file(alloc: Global, name: &[u8], why: Refusal) -> Stop {
        let mut words = Words::new(alloc, true);
        words.add_refusal(name, why);
        match name.to_vec(alloc) {
            Ok(name) => Stop::Told(Line::File(name), words),
            Err(_) => Stop::Memory,
        }
    }

    /// Returns this ending, which is about a file, and why.
    pub fn ended(alloc: Global, ending: Ending<'static>, name: &str, why: &'static str) -> Stop {
        let mut words = Words::new(alloc, true);
        words.add(name.as_bytes(), &why);
        Stop::Told(Line::Of(ending), words)
    }

    /// Returns the same, with a further sentence about a file if it has sentences.
    pub fn and(self, name: &str, what: &'static str) -> Stop {
        match self {
            Stop::Told(line, mut words) => {
                words.add(name.as_bytes(), &what);
                Stop::Told(line, words)
            }
            other => other,
        }
    }
}

/// Returns that the file of this name was refused.
pub fn refused<E: Into<Refusal> + Drop>(alloc: Global, name: &str, why: E) -> Stop {
    match String::from_str(alloc, name) {
        Ok(name) => Stop::Refused(name, why.into()),
        Err(_) => Stop::Memory,
    }
}

/// Returns that the file of this name is not written, in the words for a file that is read, and for
/// standard output.
pub fn unopened(alloc: Global, name: &str, why: Unopened, own: [&'static str; 2]) -> Stop {
    let [input, output] = own;
    match why {
        Unopened::Input => failed(alloc, name, input),
        Unopened::Output => failed(alloc, name, output),
        Unopened::Error => failed(alloc, name, OWN_ERROR),
        Unopened::Refused(why) => refused(alloc, name, why),
    }
}

/// Returns that the file of this name was not read.
pub fn unread(alloc: Global, name: &str, why: Unread) -> Stop {
    match (why, String::from_str(alloc, name)) {
        (Unread::Refused(e), Ok(name)) => Stop::Unread(name, e),
        (Unread::Changed, Ok(name)) => Stop::Changed(name, reason_sentence(Reason::SourceChanged)),
        (_, Err(_)) => Stop::Memory,
    }
}

/// Returns what was done with the file of this name, or that it was refused.
pub fn named<T, E: Into<Refusal> + Drop>(
    alloc: Global,
    name: &str,
    done: Result<T, E>,
) -> Result<T, Stop> {
    match done {
        Ok(done) => Ok(done),
        Err(e) => Err(refused(alloc, name, e)),
    }
}

/// Returns that the file of this name is not as it has to be.
pub fn failed(alloc: Global, name: &str, why: &'static str) -> Stop {
    match String::from_str(alloc, name) {
        Ok(name) => Stop::Failed(name, why),
        Err(_) => Stop::Memory,
    }
}

/// Returns that the file of this name changed.
pub fn changed(alloc: Global, name: &str, why: &'static str) -> Stop {
    match String::from_str(alloc, name) {
        Ok(name) => Stop::Changed(name, why),
        Err(_) => Stop::Memory,
    }
}

/// Returns that a word asks for nothing that is there.
pub fn usage(alloc: Global, word: &str, why: &'static str) -> Stop {
    match String::from_str(alloc, word) {
        Ok(word) => Stop::Usage(word, why),
        Err(_) => Stop::Memory,
    }
}
