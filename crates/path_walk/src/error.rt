//! The errors of paths.
ghost use Rattle.std.specs.Prelude.{◌≡◌};
ghost use Rattle.path_walk.specs.Errors.{error_name, error_number};
ghost use Rattle.path_walk.specs.declared.error.WithinError.TheVariants.{Path};

use thiserror::Error;

/// The reason why a path leads nowhere, by the names of POSIX.1-2017. It is shown as its number and
/// its name.
#[derive(Clone, Copy, Debug, PartialEq, Eq, Error)]
pub enum WalkError {
    /// The path is empty, or a directory has no entry of a component's name.
    #[error("1 ENOENT")]
    Enoent,
    /// A component follows something that is no directory.
    #[error("2 ENOTDIR")]
    Enotdir,
    /// More than 40 symbolic links were met.
    #[error("3 ELOOP")]
    Eloop,
    /// The path has more than 4095 bytes, or a component more than 255.
    #[error("4 ENAMETOOLONG")]
    Enametoolong,
    /// The path does not begin with a slash.
    #[error("5 EINVAL")]
    Einval,
}

impl WalkError {
    /// Returns its number, from 1 to 5. The numbers are this project's own.
    pub fn number(self) -> u32
        ensures { result ≡ error_number self }
    {
        match self {
            WalkError::Enoent => 1,
            WalkError::Enotdir => 2,
            WalkError::Eloop => 3,
            WalkError::Enametoolong => 4,
            WalkError::Einval => 5,
        }
    }

    /// Returns its name in POSIX.1-2017, as `ENOENT`.
    pub fn name(self) -> &'static str
        ensures { result.now ≡ error_name self }
    {
        match self {
            WalkError::Enoent => "ENOENT",
            WalkError::Enotdir => "ENOTDIR",
            WalkError::Eloop => "ELOOP",
            WalkError::Enametoolong => "ENAMETOOLONG",
            WalkError::Einval => "EINVAL",
        }
    }
}

/// The reason why a walk that compares no more names than a budget ends without a node.
#[derive(Clone, Copy, Debug, PartialEq, Eq, Error)]
pub enum WithinError {
    /// The path leads nowhere.
    #[error("{0}")]
    Path(WalkError),
    /// The walk compares more names than the budget.
    #[error("too many names compared")]
    TooManyNames,
}

/// The refusal of a walk along a path.
impl From<WalkError> for WithinError {
    ghost from_gives = { λ error answer. answer ≡ Path error };

    fn from(error: WalkError) -> WithinError {
        WithinError::Path(error)
    }
}
