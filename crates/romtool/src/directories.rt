//! Whether scanned directories changed.
use build_commands::Recheck;
use directory_walk::Directory;
use system_files::{FileError, Stamp, directories_stayed};

/// The directories of the system below `top`, which are looked at again, and whether the system
/// reported of so many that they are as they were found.
#[derive(Drop)]
pub struct Again<'a> {
    pub rt: &'a HostRuntime,
    pub top: &'a str,
    pub stayed: Option<usize>,
}

impl Recheck for Again<'_> {
    ghost use Rattle.std.specs.Prelude.{◌≡◌, Some, length};

    type State = Stamp;

    type Error = FileError;

    // What the system answered. They may change at any time.
    ghost as_found = { λ again directories. again.stayed ≡ Some (length directories) };

    fn check(&mut self, directories: &[Directory<Stamp>]) -> Result<(), FileError> {
        directories_stayed(self.rt, self.top, directories)?;
        self.stayed = Some(directories.len());
        Ok(())
    }
}
