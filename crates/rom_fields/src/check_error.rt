//! The answer of a check that refuses an image.
ghost use Rattle.std.specs.Prelude.{◌≡◌};
ghost use Rattle.rom_fields.specs.Faults.{fault_answer};
ghost use Rattle.rom_fields.specs.declared.check_error.CheckError.{CheckError};

use crate::fault::{Fault, name};
use crate::memory::OutOfMemory;
use std::fmt::{self, Display, Formatter};

/// The reason why an image was refused: its least fault, by number and offset, or refused memory.
#[derive(Clone, Copy, Debug, PartialEq, Eq)]
pub enum CheckError {
    OutOfMemory,
    Fault { number: u32, at: u32 },
}

/// Shows a fault as `12 HeaderSum at 96`: its number, its name and its offset.
impl Display for CheckError {
    fn fmt<W: fmt::Write>(&self, f: &mut Formatter<W>) -> fmt::Result {
        match self {
            CheckError::OutOfMemory => write!(f, "out of memory"),
            CheckError::Fault { number, at } => {
                let name = name(*number);
                write!(f, "{number} {name} at {at}")
            }
        }
    }
}

impl From<OutOfMemory> for CheckError {
    ghost from_gives = { λ _ answer. answer ≡ CheckError.OutOfMemory };

    fn from(_: OutOfMemory) -> CheckError {
        CheckError::OutOfMemory
    }
}

/// Answers a fault by its number and its offset.
impl From<Fault> for CheckError {
    ghost from_gives = { λ fault answer. answer ≡ fault_answer fault };

    fn from(fault: Fault) -> CheckError {
        CheckError::Fault {
            number: fault.number,
            at: fault.at,
        }
    }
}
