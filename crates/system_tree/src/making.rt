//! Makes directories, files and links where nothing exists, and syncs them to the disk if that is
//! asked for.
use std::fs::{self, DirBuilder, File, Metadata, OpenFile, OpenOptions, Permissions};
use std::os::unix::fs::{
    DirBuilderExt, MetadataExt, OpenOptionsExt, PermissionsExt, fchown, lchown, symlink,
};
use std::{env, io};
use system_files::{
    Identity, Reason, Refusal, close, directory_at, directory_of, is_open_to_others,
    name_in_directory,
};
use tree_extract::{Owner, Rights};

/// The permissions of a directory while it is filled. Nobody else may read it.
const PRIVATE_FOLDER: u32 = 0o700;

/// The permissions of a file while it is written. Nobody else may read it.
const PRIVATE_FILE: u32 = 0o600;

/// All permissions. A file that is made with them shows which of them the process's mask removes.
const ALL_PERMISSIONS: u32 = 0o777;

/// The name of that file.
const PROBE: &str = ".romtool-probe";

/// Linux's numbers of the errors that mean that a further name of a file cannot be made: `EPERM`,
/// `EXDEV`, `EMLINK` and `EOPNOTSUPP`.
const NOT_PERMITTED: i32 = 1;

const CROSSES_DEVICES: i32 = 18;

const TOO_MANY_NAMES: i32 = 31;

const NOT_SUPPORTED: i32 = 95;

/// Gives a file or a directory this mode and owner. The owner comes first, since a change of owner
/// clears bits of the mode.
fn give(file: &File, rights: Rights) -> io::Result<()> {
    if let Some(owner) = rights.owner {
        fchown(file, Some(owner.uid), Some(owner.gid))?;
    }
    file.set_permissions(Permissions::from_mode(rights.mode))
}

/// Makes a directory that nobody else may read.
pub fn new_directory(rt: &HostRuntime, place: &str) -> Result<(), Refusal> {
    DirBuilder::new().mode(PRIVATE_FOLDER).create(rt, place)?;
    Ok(())
}

/// Makes an empty file that nobody else may read. No link is followed, and nothing is replaced.
pub fn new_file(rt: &HostRuntime, place: &str) -> Result<File, Refusal> {
    let mut options = OpenOptions::new();
    let made = options
        .write(true)
        .create_new(true)
        .mode(PRIVATE_FILE)
        .open(rt, place)?;
    Ok(made)
}

/// Makes a symbolic link with this text. Nothing is replaced.
pub fn new_link(
    rt: &HostRuntime,
    text: &str,
    place: &str,
    owner: Option<Owner>,
) -> Result<(), Refusal> {
    symlink(rt, text, place)?;
    if let Some(owner) = owner {
        lchown(rt, place, Some(owner.uid), Some(owner.gid))?;
    }
    Ok(())
}

/// Opens an existing directory. No link is followed.
fn opened(rt: &HostRuntime, place: &str) -> Result<File, Refusal> {
    let directory = File::open(rt, place)?;
    let found = fs::symlink_metadata(rt, place)?;
    if Identity::of(&found) != Identity::of(&directory.metadata()?) {
        return Err(Reason::Replaced.into());
    }
    Ok(directory)
}

/// Whether what was made is synced to the disk.
#[derive(Clone, Copy, PartialEq, Eq)]
pub enum Syncing {
    Synced,
    Unsynced,
}

/// Syncs a directory to the disk, if its file system can do that and it is asked for.
fn sync_directory(directory: &File, syncing: Syncing) -> io::Result<()> {
    if syncing == Syncing::Unsynced {
        return Ok(());
    }
    match directory.sync_all() {
        Err(e)
            if !matches!(
                e.kind(),
                io::ErrorKind::InvalidInput | io::ErrorKind::Unsupported
            ) => { Err(e) }
        _ => Ok(()),
    }
}

/// Sets the mode and owner of a directory that was made, and syncs it to the disk if that is asked
/// for.
pub fn set_directory(
    rt: &HostRuntime,
    place: &str,
    rights: Rights,
    syncing: Syncing,
) -> Result<(), Refusal> {
    let directory = opened(rt, place)?;
    give(&directory, rights)?;
    sync_directory(&directory, syncing)?;
    Ok(())
}

/// Sets the mode and owner of a file that was written, syncs it to the disk if that is asked for,
/// and closes it. Some file systems report only then that they lost what was written.
pub fn finish_file(
    rt: &HostRuntime,
    file: File,
    rights: Rights,
    syncing: Syncing,
) -> Result<(), Refusal> {
    give(&file, rights)?;
    if syncing == Syncing::Synced {
        file.sync_all()?;
    }
    close(rt, file)?;
    Ok(())
}

/// Makes a further name of a file, if the file system can, and returns whether it can. Other errors
/// are returned.
pub fn new_name(rt: &HostRuntime, file: &str, place: &str) -> Result<bool, Refusal> {
    match fs::hard_link(rt, file, place) {
        Ok(()) => Ok(true),
        Err(e) => match e.raw_os_error() {
            Some(NOT_PERMITTED | CROSSES_DEVICES | TOO_MANY_NAMES | NOT_SUPPORTED) => Ok(false),
            _ => Err(e.into()),
        },
    }
}

/// Checks that a link in the current directory leads where the owner of the directory behind it, or
/// root, lets it lead: nobody else may have made the link, or may replace it.
///
/// # Errors
///
/// The operating system's error; `LinkOfAnother` if somebody else may.
fn check_link(rt: &HostRuntime, link: &Metadata, behind: &Metadata) -> Result<(), Refusal> {
    let here = fs::metadata(rt, ".")?;
    let is_trusted = |found: &Metadata| found.uid() == behind.uid() || found.uid() == 0;
    if is_trusted(link) && is_trusted(&here) && !is_open_to_others(&here) {
        return Ok(());
    }
    Err(Reason::LinkOfAnother.into())
}

/// Makes the directory of this name in the current directory, or finds the existing one, and enters
/// it. Returns whether it was made.
fn enter_name(rt: &HostRuntime, name: &str) -> Result<bool, Refusal> {
    let is_made = match new_directory(rt, name) {
        Ok(()) => true,
        Err(Refusal::System(e)) if e.kind() == io::ErrorKind::AlreadyExists => false,
        Err(e) => return Err(e),
    };
    let found = fs::symlink_metadata(rt, name)?;
    // a pipe without a writer must not be opened
    let there = directory_at(rt, name)?;
    if found.is_symlink() {
        check_link(rt, &found, &there)?;
    } else if Identity::of(&found) != Identity::of(&there) {
        return Err(Reason::Replaced.into());
    }
    env::set_current_dir(rt, name)?;
    if Identity::of(&fs::metadata(rt, ".")?) != Identity::of(&there) {
        return Err(Reason::Replaced.into());
    }
    Ok(is_made)
}

/// Checks that the current directory is empty. The buffer of its list is not moved, so that it
/// takes little memory on the stack.
#[inline(never)]
fn check_empty(rt: &HostRuntime) -> Result<(), Refusal> {
    match fs::read_dir(rt, ".") {
        Err(e) => Err(e.into()),
        Ok(mut entries) => match entries.next() {
            None => Ok(()),
            Some(Ok(_)) => Err(Reason::NotEmpty.into()),
            Some(Err(e)) => Err(e.into()),
        },
    }
}

/// The directory that an image is taken apart into. It is the current directory of the process. So
/// each name of a member is looked up in this directory, wherever the names that lead to it lead.
#[derive(Drop)]
pub struct Top {
    directory: File,
    /// The directory that has the name, if it can be opened.
    above: io::Result<File>,
    /// Whether it was made; otherwise it existed.
    is_made: bool,
    /// The bits of a mode that the process's mask removes from new files.
    masked: u32,
}

impl Top {
    /// Makes the directory of this name, which nobody else may read; or takes the existing one, if
    /// it is empty. It becomes the current directory. An existing one has to belong to the user of
    /// the process, and nobody else may replace what is made in it.
    ///
    /// # Errors
    ///
    /// The operating system's error; `NotADirectory`, `Replaced`; `NotEmpty`; `OfAnotherUser` and
    /// `LinkOfAnother` for another user's directory or link, `OpenToOthers` for a directory in
    /// which others may replace files; `ProbeLeft`. Then an existing directory is unchanged, except
    /// that `ProbeLeft` leaves an empty file in it.
    pub fn enter(rt: &HostRuntime, name: &str) -> Result<Top, Refusal> {
        let whole = match name.trim_end_matches('/') {
            "" if !name.is_empty() => "/.",
            whole => whole,
        };
        env::set_current_dir(rt, directory_of(whole))?;
        let above = File::open(rt, ".");
        let is_made = enter_name(rt, name_in_directory(whole))?;
        let directory = File::open(rt, ".")?;
        check_empty(rt)?;
        let masked = masked_in(rt, &directory)?;
        if !is_made && is_open_to_others(&directory.metadata()?) {
            return Err(Reason::OpenToOthers.into());
        }
        Ok(Top {
            directory,
            above,
            is_made,
            masked,
        })
    }

    /// Returns the bits of a mode that the process's mask removes from new files.
    pub fn masked(&self) -> u32 {
        self.masked
    }

    /// Sets the mode and owner of the directory after it is filled, and syncs it and its name to
    /// the disk if that is asked for. A directory that existed keeps its mode and owner.
    ///
    /// # Errors
    ///
    /// The operating system's error.
    pub fn end(self, rights: Rights, syncing: Syncing) -> io::Result<()> {
        let Top {
            directory,
            above,
            is_made,
            masked: _,
        } = self;
        if !is_made {
            return sync_directory(&directory, syncing);
        }
        give(&directory, rights)?;
        sync_directory(&directory, syncing)?;
        match above {
            Ok(above) => sync_directory(&above, syncing),
            // without the right to read the directory above, that one cannot be synced
            Err(e) if e.kind() == io::ErrorKind::PermissionDenied => Ok(()),
            Err(e) => Err(e),
        }
    }
}

/// Whether another file has the name of the probe that was made, as far as the system says it.
fn is_replaced(rt: &HostRuntime, probe: &File) -> bool {
    match (fs::symlink_metadata(rt, PROBE), probe.metadata()) {
        (Ok(found), Ok(made)) => Identity::of(&found) != Identity::of(&made),
        _ => false,
    }
}

/// The bits of a mode that the process's mask removes from new files in the current directory. It
/// has to belong to the user of the process. An empty file shows both, and is removed again; if it
/// cannot be removed, the error says so.
fn masked_in(rt: &HostRuntime, directory: &File) -> Result<u32, Refusal> {
    let probe = OpenOptions::new()
        .write(true)
        .create_new(true)
        .mode(ALL_PERMISSIONS)
        .open(rt, PROBE)?;
    if is_replaced(rt, &probe) {
        return Err(Reason::Replaced.into());
    }
    if fs::remove_file(rt, PROBE).is_err() {
        return Err(Reason::ProbeLeft.into());
    }
    let (made, there) = (probe.metadata()?, directory.metadata()?);
    if made.uid() != there.uid() {
        return Err(Reason::OfAnotherUser.into());
    }
    Ok(ALL_PERMISSIONS & !made.mode())
}
