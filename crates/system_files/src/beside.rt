//! The directory of a file that is replaced, as the system has it.
//!
//! It is proved of the account that is kept here that a file is replaced whole or not at all. The
//! proof trusts this file by reading: each method of `Directory` makes the calls of the system that
//! it notes, and notes what they returned. Name 0 is the file, and name k + 1 is its part k.
ghost use Rattle.std.specs.Prelude.{◌≡◌, ◌+◌, ◌<◌, ◌≤◌, None};
ghost use Rattle.atomic_file.specs.Log.{Logs};

use crate::closing::close;
use crate::owner::{lends_rights, take_after};
use crate::parts::{Lock, MARK, lock_part, part_path, remove_left};
use crate::stamp::Identity;
use crate::writer::Writer;
use atomic_file::{Account, Answer, Asked, CreateError, Directory, Durability, LeftError, Names};
use rom_fields::{ByteWrite, Failed};
use std::fs::{File, Metadata, OpenFile, OpenOptions, Permissions};
use std::os::unix::fs::{MetadataExt, OpenOptionsExt, PermissionsExt};
use std::{fs, io};

/// The name of the file, and the names of its hundred parts.
pub const NAMES: Names = Names {
    out: 0,
    first: 1,
    end: 101,
};

/// How many calls an account has memory for: three for each part, and four at the end.
const CALLS: usize = 304;

/// The reason why a target did not get its name.
#[derive(Drop)]
pub enum KeepError {
    /// The system refused something.
    Refused(io::Error),
    /// Another file has the name of the part now.
    Changed,
}

/// Parts of other builds of the same name.
#[derive(Clone, Copy, Default)]
pub struct Others {
    /// The number of parts that interrupted builds left and that were removed.
    pub removed: u32,
    /// The number of parts that stay, since builds use them or it cannot be found out.
    pub kept: u32,
}

/// A part that was made: its name as a number and as a path, which file it is, and the lock that
/// shows that a build uses it, if its file system has locks.
#[derive(Drop)]
struct Part {
    name: u32,
    path: String,
    identity: Option<Identity>,
    lock: Option<File>,
}

/// Which permissions and owner a part gets.
#[derive(Drop)]
pub struct PartRights {
    /// The permissions, before the process's mask is applied.
    pub mode: u32,
    /// The file whose owner and permissions it gets afterwards, if there is one.
    pub like: Option<Metadata>,
}

/// A name in a directory, and what was asked of the directory.
#[derive(Drop)]
pub struct Beside {
    whole: String,
    // the directory, if it can be opened
    directory: Option<File>,
    // the permissions of a part, before the process's mask is applied
    mode: u32,
    // the file whose owner and permissions a part gets
    like: Option<Metadata>,
    // files that are no parts, whatever their names are
    inputs: Vec<Identity>,
    part: Option<Part>,
    others: Others,
    // the name that was cleared last
    cleared: Option<u32>,
    // why a call was refused first
    error: Option<KeepError>,
    pub account: Account,
}

impl Beside {
    ghost use Rattle.std.specs.Prelude.{[], IfOk};
    ghost use Rattle.atomic_file.specs.Accounts.{log_of, room_of};

    /// Makes the value for a name, whose parts get these permissions, or those of another file. The
    /// inputs are not removed, whatever their names are.
    pub fn new(
        rt: &HostRuntime,
        whole: &str,
        directory: Option<File>,
        rights: PartRights,
        inputs: Vec<Identity>,
    ) -> io::Result<Beside>
        ensures log { IfOk result (λ b. log_of b.account ≡ []) }
        ensures room { IfOk result (λ b. 304 ≤ room_of b.account) }
    {
        let PartRights { mode, like } = rights;
        Ok(Beside {
            whole: String::from_str(rt.alloc(), whole)?,
            directory,
            mode,
            like,
            inputs,
            part: None,
            others: Others::default(),
            cleared: None,
            error: None,
            account: Account::new(rt.alloc(), CALLS)?,
        })
    }

    /// Returns the name, as a path.
    pub fn whole(&self) -> &str {
        &self.whole
    }

    /// Returns what was found of other builds.
    pub fn others(&self) -> Others {
        self.others
    }

    /// Returns why a call was refused first.
    pub fn error(self) -> Option<KeepError> {
        self.error
    }

    /// Returns the calls that were made, and what they returned.
    pub fn into_account(self) -> Account
        ensures { result ≡ self.account }
    {
        self.account
    }

    /// Returns whether a call was refused.
    pub fn is_refused(&self) -> bool {
        self.error.is_some()
    }

    /// Remembers why a call was refused, if it is the first.
    fn refuse(&mut self, e: KeepError)
        ensures { self.new.account ≡ self.old.account }
    {
        if self.error.is_none() {
            self.error = Some(e);
        }
    }
}

/// The directory while calls are made.
#[derive(Drop)]
pub struct System<'a> {
    pub rt: &'a HostRuntime,
    pub beside: Beside,
}

/// Returns the path of a part.
fn path_of(rt: &HostRuntime, whole: &str, name: u32) -> io::Result<String> {
    Ok(part_path(rt.alloc(), whole, name.saturating_sub(NAMES.first))?)
}

/// Returns the file behind a writer, after all was passed on to it.
pub fn into_file(mut part: Writer) -> io::Result<File> {
    let is_flushed = part.flush().is_ok();
    let (file, error) = part.into_parts();
    match error {
        Some(e) => Err(e),
        None if !is_flushed => Err(io::Error::from(io::ErrorKind::WriteZero)),
        None => Ok(file),
    }
}

/// Synchronizes a file, and returns it and which file it is. If `like` lends rights of its owner or
/// its group, the file gets its mode once more, because a write of an ordinary user clears these
/// bits.
fn synced(part: Writer, like: Option<&Metadata>) -> io::Result<(File, Identity)> {
    let file = into_file(part)?;
    match like {
        Some(found) if lends_rights(found) => take_after(&file, found, MARK)?,
        _ => {}
    }
    file.sync_all()?;
    let identity = Identity::of(&file.metadata()?);
    Ok((file, identity))
}

/// Takes the mark from a part that is about to get its name, unless it is the bit of a file that
/// the part took after, with its owner. This comes last, so that a part without its mark is left
/// only if the program is killed right then.
fn take_mark(file: &File, like: Option<&Metadata>) -> io::Result<()> {
    let made = file.metadata()?;
    match like {
        Some(found) if found.mode() & MARK != 0 && found.uid() == made.uid() => Ok(()),
        _ => file.set_permissions(Permissions::from_mode(made.mode() & !MARK)),
    }
}

/// Returns whether the system refused to synchronize because of the kind of file.
pub fn is_of_its_kind(e: &io::Error) -> bool {
    let kind = e.kind();
    kind == io::ErrorKind::InvalidInput
        || kind == io::ErrorKind::Unsupported
        || kind == io::ErrorKind::ReadOnlyFilesystem
}

impl Part {
    /// Returns whether this part has this name, and the name still leads to its file.
    fn is_at(&self, rt: &HostRuntime, name: u32) -> Result<(), KeepError> {
        if self.name != name {
            return Err(KeepError::Changed);
        }
        match fs::symlink_metadata(rt, &self.path) {
            Ok(found) if Some(Identity::of(&found)) == self.identity => Ok(()),
            Ok(_) => Err(KeepError::Changed),
            Err(e) if e.kind() == io::ErrorKind::NotFound => Err(KeepError::Changed),
            Err(e) => Err(KeepError::Refused(e)),
        }
    }
}

impl System<'_> {
    ghost use Rattle.std.specs.Prelude.{MatchResult, IfOk, IfErr};
    ghost use Rattle.atomic_file.specs.Accounts.{log_of, room_of, call_of};

    /// Returns the calls that were made, and what they returned.
    pub fn into_account(self) -> Account
        ensures { result ≡ self.entry.beside.account }
    {
        self.beside.into_account()
    }

    /// Returns why the directory refused to keep a part: the first call that was refused, or that
    /// another file has the name.
    pub fn refusal(self) -> KeepError {
        match self.beside.error() {
            Some(e) => e,
            None => KeepError::Changed,
        }
    }

    /// Creates the file of a part at a path where nothing is. If a file is there again after it was
    /// removed, another build uses the name, which is counted.
    fn open_new(&mut self, name: u32, path: &str) -> Result<File, CreateError>
        ensures { self.new.beside.account ≡ self.old.beside.account }
    {
        let mut options = OpenOptions::new();
        let opened = options
            .write(true)
            .create_new(true)
            .mode(self.beside.mode | MARK)
            .open(self.rt, path);
        match opened {
            Ok(file) => Ok(file),
            Err(e) if e.kind() == io::ErrorKind::AlreadyExists => {
                if self.beside.cleared == Some(name) {
                    self.beside.others.kept = self.beside.others.kept.saturating_add(1);
                }
                Err(CreateError::Exists)
            }
            Err(e) => {
                self.beside.refuse(KeepError::Refused(e));
                Err(CreateError::Refused)
            }
        }
    }

    /// Opens a new file under the name of a part, if nothing has it, locks it, and gives it the
    /// owner and the permissions that it is to have.
    fn made(&mut self, name: u32) -> Result<File, CreateError>
        ensures { self.new.beside.account ≡ self.old.beside.account }
    {
        let path = match path_of(self.rt, &self.beside.whole, name) {
            Ok(path) => path,
            Err(e) => {
                self.beside.refuse(KeepError::Refused(e));
                return Err(CreateError::Refused);
            }
        };
        let file = self.open_new(name, &path)?;
        let lock = match lock_part(self.rt, &path, &file) {
            Lock::Held(lock) => Some(lock),
            Lock::Refused => None,
            Lock::Lost => return Err(CreateError::Lost),
        };
        let identity = match file.metadata() {
            Ok(found) => Some(Identity::of(&found)),
            Err(_) => None,
        };
        self.beside.part = Some(Part {
            name,
            path,
            identity,
            lock,
        });
        self.liken(&file);
        Ok(file)
    }

    /// Gives a part the owner and the permissions of another file, if it is to have them.
    fn liken(&mut self, file: &File)
        ensures { self.new.beside.account ≡ self.old.beside.account }
    {
        let likened = match &self.beside.like {
            Some(found) => take_after(file, found, MARK),
            None => Ok(()),
        };
        if let Err(e) = likened {
            self.beside.refuse(KeepError::Refused(e));
        }
    }

    /// Removes what an interrupted build left under the name of a part, and counts it.
    fn cleared(&mut self, name: u32) -> Result<(), LeftError>
        ensures { self.new.beside.account ≡ self.old.beside.account }
    {
        let Ok(path) = path_of(self.rt, &self.beside.whole, name) else {
            return Err(LeftError::Missing);
        };
        if remove_left(self.rt, &path, &self.beside.inputs) {
            self.beside.others.removed = self.beside.others.removed.saturating_add(1);
            self.beside.cleared = Some(name);
            return Ok(());
        }
        if fs::symlink_metadata(self.rt, &path).is_err() {
            return Err(LeftError::Missing);
        }
        self.beside.others.kept = self.beside.others.kept.saturating_add(1);
        Err(LeftError::InUse)
    }

    /// Gives the part of one name the name of the file, if that is the other one.
    fn renamed(&self, from: u32, to: u32) -> Result<(), KeepError> {
        let Some(part) = &self.beside.part else {
            return Err(KeepError::Changed);
        };
        part.is_at(self.rt, from)?;
        if to != NAMES.out {
            return Err(KeepError::Changed);
        }
        match fs::rename(self.rt, &part.path, &self.beside.whole) {
            Ok(()) => Ok(()),
            Err(e) => Err(KeepError::Refused(e)),
        }
    }

    /// Removes the part of this name, if the name still leads to it.
    fn removed(&self, name: u32) -> Result<(), KeepError> {
        let Some(part) = &self.beside.part else {
            return Err(KeepError::Changed);
        };
        part.is_at(self.rt, name)?;
        match fs::remove_file(self.rt, &part.path) {
            Ok(()) => Ok(()),
            Err(e) => Err(KeepError::Refused(e)),
        }
    }

    /// Synchronizes the directory, if that can be done.
    fn synced(&self) -> Result<Durability, KeepError> {
        let Some(directory) = &self.beside.directory else {
            return Ok(Durability::Unknown);
        };
        match directory.sync_all() {
            Ok(()) => Ok(Durability::Durable),
            Err(e) if is_of_its_kind(&e) => Ok(Durability::Unknown),
            Err(e) => Err(KeepError::Refused(e)),
        }
    }

    /// Notes a call and what the system returned, and returns the same.
    fn answer(&mut self, asked: Asked, answered: Result<(), KeepError>) -> Result<(), Failed>
        requires { 0 < room_of self.old.beside.account }
        ensures same { MatchResult answered (λ _. IfErr result (λ _. ⊥))
            (λ _. IfOk result (λ _. ⊥)) }
        ensures log { Logs (call_of asked) result (log_of self.old.beside.account)
            (log_of self.new.beside.account) }
        ensures room { room_of self.old.beside.account ≤ room_of self.new.beside.account + 1 }
    {
        match answered {
            Ok(()) => {
                self.beside.account.note(asked, Answer::Done);
                Ok(())
            }
            Err(e) => {
                self.beside.account.note(asked, Answer::Refused);
                self.beside.refuse(e);
                Err(Failed)
            }
        }
    }
}

impl Directory for System<'_> {
    ghost use Rattle.atomic_file.specs.Accounts.{log_of, room_of};

    type Part = Writer;

    type Synced = File;

    ghost log = { λ s. log_of s.beside.account };

    ghost room = { λ s. room_of s.beside.account };

    ghost fresh = { None };

    fn create_new(&mut self, name: u32) -> Result<Writer, CreateError> {
        match self.made(name) {
            Ok(file) => {
                self.beside.account.note(Asked::Create(name), Answer::Done);
                Ok(Writer::new(self.rt.alloc(), file))
            }
            Err(e) => {
                self.beside
                    .account
                    .note(Asked::Create(name), Answer::Refused);
                Err(e)
            }
        }
    }

    fn remove_left(&mut self, name: u32) -> Result<(), LeftError> {
        match self.cleared(name) {
            Ok(()) => {
                self.beside.account.note(Asked::Remove(name), Answer::Done);
                Ok(())
            }
            Err(e) => {
                self.beside
                    .account
                    .note(Asked::Remove(name), Answer::Refused);
                Err(e)
            }
        }
    }

    fn sync(&mut self, part: Writer) -> Result<File, Failed> {
        match synced(part, self.beside.like.as_ref()) {
            Ok((file, identity)) => {
                self.beside.account.note(Asked::Sync(None), Answer::Done);
                if let Some(part) = &mut self.beside.part {
                    part.identity = Some(identity);
                }
                Ok(file)
            }
            Err(e) => {
                self.beside.account.note(Asked::Sync(None), Answer::Refused);
                self.beside.refuse(KeepError::Refused(e));
                Err(Failed)
            }
        }
    }

    fn close(&mut self, part: File) -> Result<(), Failed> {
        let closed = match take_mark(&part, self.beside.like.as_ref()) {
            Ok(()) => close(self.rt, part),
            Err(e) => Err(e),
        };
        let closed = match closed {
            Ok(()) => Ok(()),
            Err(e) => Err(KeepError::Refused(e)),
        };
        self.answer(Asked::Close, closed)
    }

    fn rename(&mut self, from: u32, to: u32) -> Result<(), Failed> {
        let renamed = self.renamed(from, to);
        self.answer(Asked::Rename(from, to), renamed)
    }

    fn remove(&mut self, name: u32) -> Result<(), Failed> {
        let removed = self.removed(name);
        self.answer(Asked::Remove(name), removed)
    }

    fn sync_directory(&mut self) -> Result<Durability, Failed> {
        match self.synced() {
            Ok(Durability::Durable) => {
                self.beside.account.note(Asked::SyncDirectory, Answer::Done);
                Ok(Durability::Durable)
            }
            Ok(Durability::Unknown) => {
                self.beside
                    .account
                    .note(Asked::SyncDirectory, Answer::Skipped);
                Ok(Durability::Unknown)
            }
            Err(e) => {
                self.beside
                    .account
                    .note(Asked::SyncDirectory, Answer::Refused);
                self.beside.refuse(e);
                Err(Failed)
            }
        }
    }
}
