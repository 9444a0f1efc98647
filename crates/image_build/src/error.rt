//! The reasons why nothing was built.
ghost use Rattle.std.specs.Prelude.{◌≡◌};

use layout_plan::PlanError;
use manifest::ManifestError;
use rom_fields::OutOfMemory;
use std::fmt::{self, Display, Formatter};

/// The reason why nothing was built.
#[derive(Clone, Copy, Debug, PartialEq, Eq)]
pub enum BuildError {
    OutOfMemory,
    /// The text is not a valid manifest: its first faulty line, counted from 1, and the least
    /// number of that line's faults. `manifest::name` returns the fault's name.
    Manifest { line: u64, number: u32 },
    /// The manifest does not fit the format: its least misfit, by the number of its line (0 for the
    /// whole) and by its own number. `layout_plan::name` returns the misfit's name.
    Plan { line: u64, number: u32 },
    /// There are fewer or more contents than sources.
    Count,
}

/// Writes a refusal as `manifest: 5 Exists at line 2`: the part that refused, and its number, its
/// name and its line.
impl Display for BuildError {
    fn fmt<W: fmt::Write>(&self, f: &mut Formatter<W>) -> fmt::Result {
        match self {
            BuildError::OutOfMemory => write!(f, "out of memory"),
            BuildError::Manifest { line, number } => {
                let name = manifest::name(*number);
                write!(f, "manifest: {number} {name} at line {line}")
            }
            BuildError::Plan { line, number } => {
                let name = layout_plan::name(*number);
                write!(f, "plan: {number} {name} at line {line}")
            }
            BuildError::Count => write!(f, "another number of contents than of sources"),
        }
    }
}

impl From<OutOfMemory> for BuildError {
    ghost use Rattle.image_build.specs.declared.error.BuildError.{BuildError};

    ghost from_gives = { λ _ answer. answer ≡ BuildError.OutOfMemory };

    fn from(_: OutOfMemory) -> BuildError {
        BuildError::OutOfMemory
    }
}

impl From<ManifestError> for BuildError {
    ghost use Rattle.image_build.specs.Builds.{of_manifest};

    ghost from_gives = { λ error answer. answer ≡ of_manifest error };

    fn from(error: ManifestError) -> BuildError {
        match error {
            ManifestError::OutOfMemory => BuildError::OutOfMemory,
            ManifestError::Bad { line, number } => BuildError::Manifest { line, number },
        }
    }
}

impl From<PlanError> for BuildError {
    ghost use Rattle.image_build.specs.Builds.{of_plan};

    ghost from_gives = { λ error answer. answer ≡ of_plan error };

    fn from(error: PlanError) -> BuildError {
        match error {
            PlanError::OutOfMemory => BuildError::OutOfMemory,
            PlanError::Refused { line, number } => BuildError::Plan { line, number },
        }
    }
}
