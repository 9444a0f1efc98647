//! Refusals of the traversal as answers of a check.
ghost use Rattle.std.specs.Prelude.{◌≡◌};
ghost use Rattle.record_forest.specs.Answers.{traversal_answer};

use crate::traversal::TraversalError;
use rom_fields::CheckError;
use rom_fields::fault::{TOO_MANY, TWICE};

/// Answers a refusal of the traversal: too many references by fault 1 at 0, a record's fault by
/// that fault, and a record to which two references lead by fault 20 at that record.
impl From<TraversalError> for CheckError {
    ghost from_gives = { λ error answer. answer ≡ traversal_answer error };

    fn from(error: TraversalError) -> CheckError {
        match error {
            TraversalError::OutOfMemory => CheckError::OutOfMemory,
            TraversalError::TooMany => CheckError::Fault {
                number: TOO_MANY,
                at: 0,
            },
            TraversalError::Record(fault) => fault.into(),
            TraversalError::Twice(at) => CheckError::Fault { number: TWICE, at },
        }
    }
}
