//! The faults of a manifest. The numbers and names are this project's own; docs/MANIFEST.md
//! explains them.
ghost use Rattle.std.specs.Prelude.{◌≡◌};
ghost use Rattle.manifest.specs.Errors.{name_of_fault};

use rom_fields::OutOfMemory;
use std::fmt::{self, Display, Formatter};

/// An unknown word, a wrong number of fields for it, an empty field, or a device that is neither
/// `b` nor `c`.
pub const BAD_WORD: u32 = 1;

/// A field that is not a number of its kind.
pub const BAD_NUMBER: u32 = 2;

/// A text that is not a path, or a name or a link text that is too long or has a zero byte.
pub const BAD_PATH: u32 = 3;

/// No earlier line makes the directory that the path is in.
pub const NO_PARENT: u32 = 4;

/// An earlier line has the path, or names the volume.
pub const EXISTS: u32 = 5;

/// An alignment that is not a power of two from 4 to 65,536.
pub const BAD_ALIGN: u32 = 6;

/// `hard` or `same` names a path that does not exist, or whose file is not of the right kind.
pub const BAD_TARGET: u32 = 7;

/// The reason why a text was refused as a manifest: its first faulty line, counted from 1, with the
/// least number of that line's faults; or memory was refused.
#[derive(Clone, Copy, Debug, PartialEq, Eq)]
pub enum ManifestError {
    OutOfMemory,
    Bad { line: u64, number: u32 },
}

/// Returns the name of the fault of this number, or `Unknown` if no fault has it.
pub fn name(number: u32) -> &'static str
    ensures { result.now ≡ name_of_fault number }
{
    match number {
        BAD_WORD => "BadWord",
        BAD_NUMBER => "BadNumber",
        BAD_PATH => "BadPath",
        NO_PARENT => "NoParent",
        EXISTS => "Exists",
        BAD_ALIGN => "BadAlign",
        BAD_TARGET => "BadTarget",
        _ => "Unknown",
    }
}

/// Writes a fault as `5 Exists at line 2`: its number, its name and its line.
impl Display for ManifestError {
    fn fmt<W: fmt::Write>(&self, f: &mut Formatter<W>) -> fmt::Result {
        match self {
            ManifestError::OutOfMemory => write!(f, "out of memory"),
            ManifestError::Bad { line, number } => {
                let name = name(*number);
                write!(f, "{number} {name} at line {line}")
            }
        }
    }
}

impl From<OutOfMemory> for ManifestError {
    ghost use Rattle.manifest.specs.declared.error.ManifestError.{ManifestError};

    ghost from_gives = { λ _ answer. answer ≡ ManifestError.OutOfMemory };

    fn from(_: OutOfMemory) -> ManifestError {
        ManifestError::OutOfMemory
    }
}
