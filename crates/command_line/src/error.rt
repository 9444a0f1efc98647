//! Why words ask for nothing.
ghost use Rattle.std.specs.Prelude.{◌≡◌};

use clap::Error;
use std::alloc::AllocError;
use std::fmt::{self, Display, Formatter};

/// Why words that clap accepts ask for nothing.
#[derive(Debug, Clone, Copy, PartialEq, Eq)]
pub enum Wrong<'a> {
    /// They have no subcommand.
    NoSubcommand,
    /// A value is missing.
    Missing,
    /// No format has this name.
    Format(&'a str),
    /// The word is no alignment.
    Align(&'a str),
    /// The word is no address.
    Address(&'a str),
    /// The word is no number of bytes.
    Size(&'a str),
    /// The word is no owner and group.
    Owner(&'a str),
    /// The word is no device.
    Device(&'a str),
    /// The map was asked for in several forms, or a prefix or a pattern was given without `--c` and
    /// `--ld`.
    Forms,
    /// Several images are to be checked without `--each`.
    Images,
    /// The option of this name was given to a scan without `--all`.
    WithoutAll(&'static str),
    /// A scan without `--all` has several directories.
    Directories,
    /// Both an owner and `--all-root` were given.
    Owners,
    /// The directory of the sources has an empty name.
    NoDirectory,
    /// The word is no byte.
    Byte(&'a str),
    /// The size of a partition is larger than that of any flash.
    Partition(u64),
    /// A byte after the image is given, and no size.
    FillWithoutSize,
    /// Equal files are to share contents in a format that is not cramfs, or in none.
    Dedupe,
    /// A strict scan has no format.
    StrictWithoutFormat,
    /// A rule for make is asked for, and no file for the manifest.
    DepfileWithoutOutput,
    /// Only one name follows the format of a packed image.
    NoOut,
}

/// Why words ask for nothing. It is shown to people; if clap refused the words, in clap's text.
#[derive(Debug, Drop)]
pub enum WordsError<'a> {
    /// Memory was refused.
    OutOfMemory,
    /// The words ask for help or for the version, or clap refuses them.
    Refused(Error),
    /// The program refuses the words.
    Taken(Wrong<'a>),
}

impl Display for Wrong<'_> {
    fn fmt<W: fmt::Write>(&self, f: &mut Formatter<W>) -> fmt::Result {
        match self {
            Wrong::NoSubcommand => write!(f, "a subcommand is missing after the options"),
            Wrong::Missing => write!(f, "a value is missing"),
            Wrong::Format(word) => {
                write!(f, "FORMAT is romfs, cramfs or cramfs-be, and not {word:?}")
            }
            Wrong::Align(word) => {
                write!(
                    f,
                    "N is a power of two from 4 to 65536, such as 4096 or 4K, and not {word:?}"
                )
            }
            Wrong::Address(word) => {
                write!(
                    f,
                    "HEX is an address in hexadecimal digits, and not {word:?}"
                )
            }
            Wrong::Size(word) => {
                write!(
                    f,
                    "N is a number of bytes, such as 4096, 64K, 2M, 1G or 0x10000, and not {word:?}"
                )
            }
            Wrong::Owner(word) => {
                write!(f, "UID:GID are two numbers, such as 0:0, and not {word:?}")
            }
            Wrong::Device(word) => {
                write!(
                    f,
                    "DEVICE is PATH TYPE MAJOR MINOR MODE, five words with single spaces between them, such as '/dev/console c 5 1 0600', and not {word:?}"
                )
            }
            Wrong::Forms => {
                write!(
                    f,
                    "a map has one of '--all', '--c', '--ld' and '--svg'; '--prefix' and '--only' go with '--c' and '--ld'"
                )
            }
            Wrong::Images => write!(f, "several images are checked with '--each' only"),
            Wrong::WithoutAll(name) => write!(f, "the option '--{name}' goes with '--all' only"),
            Wrong::Directories => write!(f, "several directories are scanned with '--all' only"),
            Wrong::Owners => write!(f, "'--owner' and '--all-root' do not go together"),
            Wrong::NoDirectory => write!(f, "DIR is empty; '.' is the current directory"),
            Wrong::Byte(word) => {
                write!(
                    f,
                    "BYTE is a number up to 255, such as 0xff, and not {word:?}"
                )
            }
            Wrong::Partition(size) => {
                write!(f, "--size is at most 4294967296 bytes (4G), and not {size}")
            }
            Wrong::FillWithoutSize => write!(f, "'--fill' goes with '--size' only"),
            Wrong::Dedupe => write!(f, "'--dedupe' is for cramfs and cramfs-be"),
            Wrong::StrictWithoutFormat => write!(f, "'--strict' goes with '--for' only"),
            Wrong::DepfileWithoutOutput => write!(f, "'--depfile' goes with '--output' only"),
            Wrong::NoOut => write!(f, "OUT is missing: pack FORMAT DIR.. OUT"),
        }
    }
}

impl Display for WordsError<'_> {
    fn fmt<W: fmt::Write>(&self, f: &mut Formatter<W>) -> fmt::Result {
        match self {
            WordsError::OutOfMemory => write!(f, "error: out of memory\n"),
            WordsError::Refused(e) => write!(f, "{e}"),
            WordsError::Taken(wrong) => {
                write!(f, "error: {wrong}\n\nFor more information, try '--help'.\n")
            }
        }
    }
}

impl From<AllocError> for WordsError<'_> {
    ghost use Rattle.command_line.specs.declared.error.WordsError.{WordsError};

    ghost from_gives = { λ _ answer. answer ≡ WordsError.OutOfMemory };

    fn from(_error: AllocError) -> Self {
        WordsError::OutOfMemory
    }
}

impl<'a> From<Wrong<'a>> for WordsError<'a> {
    ghost use Rattle.command_line.specs.declared.error.WordsError.{WordsError};

    ghost from_gives = { λ wrong answer. answer ≡ WordsError.Taken wrong };

    fn from(wrong: Wrong<'a>) -> Self {
        WordsError::Taken(wrong)
    }
}
