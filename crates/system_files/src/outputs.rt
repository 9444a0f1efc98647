//! The files that a command writes, which are none of those that it reads.
use crate::asked::{attributes, identity_of};
use crate::own_output::{error_identity, identity, is_own, is_own_error};
use crate::reason::Refusal;
use crate::stamp::Identity;
use crate::target::Target;
use std::alloc::AllocError;

/// Why a file was not opened to be written.
#[derive(Drop)]
pub enum Unopened {
    /// It is a file that the command reads.
    Input,
    /// It is standard output.
    Output,
    /// It is standard error.
    Error,
    /// The system, or this program, refused it.
    Refused(Refusal),
}

/// What a command reads, and what it writes besides.
#[derive(Clone, Copy)]
pub struct Outputs<'a> {
    /// The files that it reads. They stay, even if they have the names of parts.
    pub read: &'a [Identity],
    /// The name of the other file that it writes, if there is one.
    pub other: Option<&'a str>,
    /// Whether a standard stream that is no regular file may be written to by its name as well.
    pub shares_streams: bool,
}

impl Outputs<'_> {
    /// Refuses a file that is read, and one that is a standard stream: then lines would get into
    /// it, or into a file without a name.
    fn check(&self, rt: &HostRuntime, name: &str) -> Result<(), Unopened> {
        let Some(found) = attributes(rt, name) else {
            return Ok(());
        };
        if self.read.contains(&Identity::of(&found)) {
            return Err(Unopened::Input);
        }
        if self.shares_streams && !found.is_file() {
            return Ok(());
        }
        if is_own(rt, &found) {
            return Err(Unopened::Output);
        }
        if is_own_error(rt, &found) {
            return Err(Unopened::Error);
        }
        Ok(())
    }

    /// The files that stay, even if they have the names of parts.
    fn kept(&self, rt: &HostRuntime) -> Result<Vec<Identity>, AllocError> {
        let mut all = Vec::new(rt.alloc());
        let other = self.other.and_then(|name| identity_of(rt, name));
        for file in [identity(rt), error_identity(rt), other] {
            if let Some(file) = file {
                all.push(file)?;
            }
        }
        all.extend_from_slice(self.read)?;
        Ok(all)
    }

    /// Opens the target of this name.
    ///
    /// # Errors
    ///
    /// `Input`, `Output` and `Error` for these files; `Refused` with the errors of `Target::open`.
    pub fn open(&self, rt: &HostRuntime, name: &str) -> Result<Target, Unopened> {
        self.check(rt, name)?;
        let kept = match self.kept(rt) {
            Ok(kept) => kept,
            Err(e) => return Err(Unopened::Refused(e.into())),
        };
        match Target::open(rt, name, kept) {
            Ok(target) => Ok(target),
            Err(why) => Err(Unopened::Refused(why)),
        }
    }
}
