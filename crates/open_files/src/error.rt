//! The errors of calls.
ghost use Rattle.std.specs.Prelude.{◌≡◌};
ghost use Rattle.open_files.specs.Errors.{error_name, error_number, error_of};

use path_walk::WalkError;
use std::fmt::{self, Display, Formatter};
use thiserror::Error;

/// The reason why a call is refused, by the names of POSIX.1-2017.
#[derive(Clone, Copy, Debug, PartialEq, Eq, Error)]
pub enum CallError {
    /// The path is empty, or a directory has no entry of a component's name.
    Enoent,
    /// A component follows something that is no directory, or the open node is no directory.
    Enotdir,
    /// More than 40 symbolic links were met.
    Eloop,
    /// The path has more than 4095 bytes, or a component more than 255.
    Enametoolong,
    /// The path does not begin with a slash, or leads to no symbolic link; a range is empty or is
    /// not in the file; or the image is not mounted.
    Einval,
    /// The descriptor is not open.
    Ebadf,
    /// The open node is a directory.
    Eisdir,
    /// The path leads to something that is neither a directory nor a regular file.
    Enxio,
    /// All descriptors are open.
    Emfile,
    /// The bytes do not follow one another in the image.
    Erange,
    /// There is no such image.
    Enodev,
    /// The image is mounted, or another is mounted in it, or the directory is the root of an image.
    Ebusy,
}

impl CallError {
    /// Returns its number, from 1 to 12. The numbers are this project's own; the first five are
    /// those of `WalkError`.
    pub fn number(self) -> u32
        ensures { result ≡ error_number self }
    {
        match self {
            CallError::Enoent => 1,
            CallError::Enotdir => 2,
            CallError::Eloop => 3,
            CallError::Enametoolong => 4,
            CallError::Einval => 5,
            CallError::Ebadf => 6,
            CallError::Eisdir => 7,
            CallError::Enxio => 8,
            CallError::Emfile => 9,
            CallError::Erange => 10,
            CallError::Enodev => 11,
            CallError::Ebusy => 12,
        }
    }

    /// Returns its name in POSIX.1-2017, as `EBADF`.
    pub fn name(self) -> &'static str
        ensures { result.now ≡ error_name self }
    {
        match self {
            CallError::Enoent => "ENOENT",
            CallError::Enotdir => "ENOTDIR",
            CallError::Eloop => "ELOOP",
            CallError::Enametoolong => "ENAMETOOLONG",
            CallError::Einval => "EINVAL",
            CallError::Ebadf => "EBADF",
            CallError::Eisdir => "EISDIR",
            CallError::Enxio => "ENXIO",
            CallError::Emfile => "EMFILE",
            CallError::Erange => "ERANGE",
            CallError::Enodev => "ENODEV",
            CallError::Ebusy => "EBUSY",
        }
    }
}

/// Shows a refusal as `6 EBADF`: its number and its name.
impl Display for CallError {
    fn fmt<W: fmt::Write>(&self, f: &mut Formatter<W>) -> fmt::Result {
        write!(f, "{} {}", self.number(), self.name())
    }
}

/// The refusal of a walk along a path.
impl From<WalkError> for CallError {
    ghost from_gives = { λ error answer. answer ≡ error_of error };

    fn from(error: WalkError) -> CallError {
        match error {
            WalkError::Enoent => CallError::Enoent,
            WalkError::Enotdir => CallError::Enotdir,
            WalkError::Eloop => CallError::Eloop,
            WalkError::Enametoolong => CallError::Enametoolong,
            WalkError::Einval => CallError::Einval,
        }
    }
}
