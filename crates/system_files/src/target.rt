//! The target of an image. It gets its name only after all of it is written.
ghost use Rattle.std.specs.Prelude.{◌≡◌, ◌≤◌, []};
ghost use Rattle.atomic_file.specs.Accounts.{log_of, room_of};

use crate::beside::{
    Beside, KeepError, NAMES, Others, PartRights, System, into_file, is_of_its_kind,
};
use crate::closing::close;
use crate::mounted::use_of;
use crate::names::{directory_of, is_own_file, name_in_directory, way_to};
use crate::owner::{STICKY, WRITABLE_BY_OTHERS};
use crate::parts::is_part_name;
use crate::reason::{Reason, Refusal};
use crate::stamp::Identity;
use crate::writer::Writer;
use atomic_file::{Begun, Durability, Unbegun, abandon, begin, keep};
use rom_fields::Failed;
use std::fs::{File, Metadata, OpenFile, OpenOptions};
use std::marker::Model;
use std::os::unix::fs::MetadataExt;
use std::{fs, io};

/// The permissions of a file that nobody else is to read while it is written.
const PRIVATE: u32 = 0o600;

/// The permissions of a new file, before the process's mask is applied.
const USUAL: u32 = 0o666;

/// A part that was made for a name, under its own name.
#[derive(Drop)]
struct Ready {
    beside: Beside,
    name: u32,
}

impl Model for Ready {
    ghost use Rattle.std.specs.Prelude.{◌≤◌, []};
    ghost use Rattle.atomic_file.specs.Accounts.{log_of, room_of};
    ghost use Rattle.atomic_file.specs.Moments.{IsBegun};
    ghost use Rattle.system_files.specs.Parts.{part_names};

    ghost Value = { Unit {0} };

    ghost view = { λ _. tt };

    ghost invariant = { λ r. IsBegun part_names r.name [] (log_of r.beside.account)
        × (4 ≤ room_of r.beside.account) };
}

/// The target of an image: a new file beside the one of its name; or the file with its name, if
/// that is not regular.
#[derive(Drop)]
pub struct Target {
    writer: Option<Writer>,
    // which file that is, if it is not a part
    straight: Option<Identity>,
    ready: Option<Ready>,
}

/// A part that is open to be filled, in the directory of the name that it is to have.
#[derive(Drop)]
pub struct OpenPart<'a> {
    pub system: System<'a>,
    pub begun: Begun<Writer>,
}

impl<'a> Model for OpenPart<'a> {
    ghost use Rattle.std.specs.Prelude.{◌≤◌, []};
    ghost use Rattle.atomic_file.specs.Accounts.{log_of, room_of};
    ghost use Rattle.atomic_file.specs.Moments.{IsBegun};
    ghost use Rattle.system_files.specs.Parts.{part_names};

    ghost Value = { Unit {0} };

    ghost view = { λ _. tt };

    ghost invariant = { λ p. IsBegun part_names p.begun.name [] (log_of p.system.beside.account)
        × (4 ≤ room_of p.system.beside.account) };
}

/// What a target is written to.
#[derive(Drop)]
pub enum Opened<'a> {
    /// A part, which gets its name at the end.
    Part(OpenPart<'a>),
    /// A file that is not regular, which is written in place.
    Straight(Writer),
    /// Nothing: its writer was taken.
    Nothing,
}

fn to_write(rt: &HostRuntime, name: &str) -> io::Result<File> {
    OpenOptions::new().write(true).open(rt, name)
}

/// Opens the directory of a file, if this process may list it.
fn opened_directory(rt: &HostRuntime, name: &str) -> io::Result<Option<File>> {
    match File::open(rt, directory_of(name)) {
        Ok(directory) => Ok(Some(directory)),
        Err(e) if e.kind() == io::ErrorKind::PermissionDenied => Ok(None),
        Err(e) => Err(e),
    }
}

/// Returns why the system refused a part.
fn refusal(beside: Beside, e: Unbegun) -> Refusal {
    match (e, beside.error()) {
        (Unbegun::Refused, Some(KeepError::Refused(e))) => Refusal::System(e),
        _ => Refusal::Reason(Reason::HundredParts),
    }
}

/// Makes a part.
fn target_beside(rt: &HostRuntime, beside: Beside) -> Result<Target, Refusal>
    requires log { log_of beside.account ≡ [] }
    requires room { 304 ≤ room_of beside.account }
{
    let mut system = System { rt, beside };
    let begun = match begin(&mut system, NAMES) {
        Ok(begun) => begun,
        Err(e) => return Err(refusal(system.beside, e)),
    };
    let Begun { name, part } = begun;
    if system.beside.is_refused() {
        abandon(&mut system, name);
        return Err(refusal(system.beside, Unbegun::Refused));
    }
    let ready = Ready {
        beside: system.beside,
        name,
    };
    Ok(Target {
        writer: Some(part),
        straight: None,
        ready: Some(ready),
    })
}

/// Whether all users may make files in a directory with these attributes, and only remove their
/// own.
fn is_shared(directory: &Metadata) -> bool {
    directory.mode() & STICKY != 0 && directory.mode() & WRITABLE_BY_OTHERS != 0
}

/// Refuses to replace a file that another user made in a directory where all users may make files:
/// the new file would be that user's. The owner of the directory and the user of the process are
/// trusted.
fn check_maker(rt: &HostRuntime, name: &str, found: &Metadata) -> Result<(), Refusal> {
    let directory = fs::metadata(rt, directory_of(name))?;
    if !is_shared(&directory) || found.uid() == directory.uid() || is_own_file(rt, found) {
        return Ok(());
    }
    Err(Reason::OutputOfAnother.into())
}

/// Makes a new file beside a regular file that can be written, with its owner and permissions.
fn in_place_of(rt: &HostRuntime, whole: &str, inputs: Vec<Identity>) -> Result<Target, Refusal> {
    let found = to_write(rt, whole)?.metadata()?;
    if Identity::of(&fs::symlink_metadata(rt, whole)?) != Identity::of(&found) {
        return Err(Reason::Replaced.into());
    }
    let directory = opened_directory(rt, whole)?;
    check_maker(rt, whole, &found)?;
    let rights = PartRights {
        mode: PRIVATE,
        like: Some(found),
    };
    target_beside(rt, Beside::new(rt, whole, directory, rights, inputs)?)
}

/// Makes a new file beside a name that nothing has, not even a link that leads nowhere.
fn in_a_new_place(
    rt: &HostRuntime,
    name: &str,
    inputs: Vec<Identity>,
    missing: io::Error,
) -> Result<Target, Refusal> {
    match fs::symlink_metadata(rt, name) {
        Ok(_) => Err(missing.into()),
        Err(e) if e.kind() == io::ErrorKind::NotFound => {
            let directory = opened_directory(rt, name)?;
            let rights = PartRights {
                mode: USUAL,
                like: None,
            };
            target_beside(rt, Beside::new(rt, name, directory, rights, inputs)?)
        }
        Err(e) => Err(e.into()),
    }
}

/// Opens the file with this name, which is not regular.
fn straight(rt: &HostRuntime, name: &str) -> Result<Target, Refusal> {
    let file = to_write(rt, name)?;
    let straight = match file.metadata() {
        Ok(found) => Some(Identity::of(&found)),
        Err(_) => None,
    };
    Ok(Target {
        writer: Some(Writer::new(rt.alloc(), file)),
        straight,
        ready: None,
    })
}

/// Whether both names are in one directory.
fn are_in_one_directory(rt: &HostRuntime, one: &str, another: &str) -> bool {
    let (first, second) = (directory_of(one), directory_of(another));
    match (fs::metadata(rt, first), fs::metadata(rt, second)) {
        (Ok(here), Ok(there)) => Identity::of(&here) == Identity::of(&there),
        _ => first == second,
    }
}

/// Whether both are to get one name in one directory.
fn are_for_one_name(rt: &HostRuntime, one: &str, another: &str) -> bool {
    name_in_directory(one) == name_in_directory(another) && are_in_one_directory(rt, one, another)
}

/// Returns whether two names lead to one file, or are to lead to one that is not there yet.
pub fn are_one_file(rt: &HostRuntime, one: &str, another: &str) -> bool {
    match (fs::metadata(rt, one), fs::metadata(rt, another)) {
        (Ok(here), Ok(there)) => Identity::of(&here) == Identity::of(&there),
        (Err(_), Err(_)) => are_for_one_name(rt, one, another),
        _ => false,
    }
}

/// Returns whether the first name is one that a part of the second one may have.
pub fn is_part_of(rt: &HostRuntime, part: &str, whole: &str) -> bool {
    is_part_name(part, whole) && are_in_one_directory(rt, part, whole)
}

/// Synchronizes a file that is not regular, if that can be done.
fn synced(file: &File) -> io::Result<Durability> {
    match file.sync_all() {
        Ok(()) => Ok(Durability::Durable),
        Err(e) if is_of_its_kind(&e) => Ok(Durability::Unknown),
        Err(e) => Err(e),
    }
}

/// Synchronizes a file that is not regular, if that can be done, and closes it. Returns whether it
/// was synchronized.
///
/// # Errors
///
/// `Refused`: the error of the first write that failed, or of the synchronization, or of the close.
pub fn close_straight(rt: &HostRuntime, writer: Writer) -> Result<Durability, KeepError> {
    match closed(rt, writer) {
        Ok(durability) => Ok(durability),
        Err(e) => Err(KeepError::Refused(e)),
    }
}

fn closed(rt: &HostRuntime, writer: Writer) -> io::Result<Durability> {
    let file = into_file(writer)?;
    let durability = synced(&file)?;
    close(rt, file)?;
    Ok(durability)
}

impl Ready {
    /// Gives the part its name.
    fn keep(self, rt: &HostRuntime, part: Writer) -> Result<(), KeepError> {
        let Ready { beside, name } = self;
        let mut system = System { rt, beside };
        match keep(&mut system, NAMES, Begun { name, part }) {
            Ok(_) => Ok(()),
            Err(Failed) => Err(system.refusal()),
        }
    }

    /// Removes the part.
    fn abandon(self, rt: &HostRuntime) {
        let Ready { beside, name } = self;
        let mut system = System { rt, beside };
        abandon(&mut system, name);
    }
}

impl Target {
    /// Opens the target of an image of this name. A file that has this name stays as it is, and so
    /// do the inputs, even if they have the names of parts.
    ///
    /// # Errors
    ///
    /// The operating system's error: for a directory, for a file that cannot be written, for a link
    /// that leads nowhere, or if no file can be made beside it; `LinkToOutput`, `TooManyLinks`,
    /// `OutputOfAnother`, `Replaced`, `HundredParts`; `Mounted` or `Swapped` for a block device
    /// that the system uses.
    pub fn open(rt: &HostRuntime, name: &str, inputs: Vec<Identity>) -> Result<Target, Refusal> {
        let whole = way_to(rt, name)?;
        match fs::metadata(rt, &whole) {
            Ok(found) if found.is_file() => in_place_of(rt, &whole, inputs),
            Ok(found) => match use_of(rt, &found) {
                Some(why) => Err(why.into()),
                None => straight(rt, &whole),
            },
            Err(e) if e.kind() == io::ErrorKind::NotFound => in_a_new_place(rt, &whole, inputs, e),
            Err(e) => Err(e.into()),
        }
    }

    /// Returns the name that it is to have, and what was found of other builds beside it.
    pub fn others(&self) -> Option<(&str, Others)> {
        match &self.ready {
            Some(ready) => Some((ready.beside.whole(), ready.beside.others())),
            None => None,
        }
    }

    /// Returns whether what is written gets the name only at the end, so that its bytes can be
    /// replaced until then.
    pub fn is_part(&self) -> bool {
        self.ready.is_some()
    }

    /// Returns whether both are written to one file, or are to get one name in one directory.
    pub fn has_place_of(&self, rt: &HostRuntime, other: &Target) -> bool {
        match (&self.ready, &other.ready) {
            (Some(one), Some(another)) => {
                are_for_one_name(rt, one.beside.whole(), another.beside.whole())
            }
            (None, None) => self.straight.is_some() && self.straight == other.straight,
            _ => false,
        }
    }

    /// Takes out the writer to it, which has its only descriptor. If there were another one, its
    /// close would report what the file system lost, and the close of this one would not.
    pub fn take_writer(&mut self) -> Option<Writer> {
        self.writer.take()
    }

    /// Puts the writer back, after all is written and flushed.
    pub fn put_back(&mut self, writer: Writer) {
        self.writer = Some(writer);
    }

    /// Gives what was written its name. The file is synchronized, closed and renamed, in this
    /// order; then the directory is synchronized.
    ///
    /// # Errors
    ///
    /// `Changed`, or that of the system. The name then leads to what it led to before, except if
    /// only the directory could not be synchronized: then it leads to what was written.
    pub fn keep(self, rt: &HostRuntime) -> Result<(), KeepError> {
        let Target { writer, ready, .. } = self;
        match (writer, ready) {
            (Some(writer), Some(ready)) => ready.keep(rt, writer),
            (Some(writer), None) => {
                close_straight(rt, writer)?;
                Ok(())
            }
            (None, _) => Err(KeepError::Changed),
        }
    }

    /// Returns what it is written to.
    pub fn opened(self, rt: &HostRuntime) -> Opened<'_> {
        let Target { writer, ready, .. } = self;
        match (writer, ready) {
            (Some(part), Some(ready)) => {
                let Ready { beside, name } = ready;
                Opened::Part(OpenPart {
                    system: System { rt, beside },
                    begun: Begun { name, part },
                })
            }
            (Some(writer), None) => Opened::Straight(writer),
            (None, _) => Opened::Nothing,
        }
    }

    /// Removes what was written, if it is a part.
    pub fn abandon(self, rt: &HostRuntime) {
        let Target { ready, .. } = self;
        if let Some(ready) = ready {
            ready.abandon(rt);
        }
    }
}
