//! The reasons why a manifest has no plan. The numbers and names are this project's own.
ghost use Rattle.std.specs.Prelude.{◌≡◌};
ghost use Rattle.layout_plan.specs.Errors.{name_of_refusal};

use plan_rows::misfit::{ATTRIBUTE, HARD_LINK, NAME_TOO_LONG, TOO_LARGE};
use rom_fields::OutOfMemory;
use std::fmt::{self, Display, Formatter};

/// The reason why a manifest was not planned: its least misfit, by the number of its line and then
/// by its own number; or memory was refused. Line 0 is the whole.
#[derive(Clone, Copy, Debug, PartialEq, Eq)]
pub enum PlanError {
    OutOfMemory,
    Refused { line: u64, number: u32 },
}

/// Returns the name of the refusal of this number, or `Unknown` if no refusal has it.
pub fn name(number: u32) -> &'static str
    ensures { result.now ≡ name_of_refusal number }
{
    match number {
        ATTRIBUTE => "Attribute",
        TOO_LARGE => "TooLarge",
        NAME_TOO_LONG => "NameTooLong",
        HARD_LINK => "HardLink",
        _ => "Unknown",
    }
}

/// Writes a refusal as `3 NameTooLong at line 2`: its number, its name and its line.
impl Display for PlanError {
    fn fmt<W: fmt::Write>(&self, f: &mut Formatter<W>) -> fmt::Result {
        match self {
            PlanError::OutOfMemory => write!(f, "out of memory"),
            PlanError::Refused { line, number } => {
                let name = name(*number);
                write!(f, "{number} {name} at line {line}")
            }
        }
    }
}

impl From<OutOfMemory> for PlanError {
    ghost use Rattle.layout_plan.specs.declared.error.PlanError.{PlanError};

    ghost from_gives = { λ _ answer. answer ≡ PlanError.OutOfMemory };

    fn from(_: OutOfMemory) -> PlanError {
        PlanError::OutOfMemory
    }
}
