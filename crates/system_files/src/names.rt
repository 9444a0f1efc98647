//! Names of files: where links lead, and the directories that names are in.
ghost use Rattle.std.specs.Prelude.{◌≡◌};
ghost use Rattle.system_files.specs.Names.{IsDirectoryOf, IsNameInDirectory, or_root};

use crate::owner::{STICKY, WRITABLE_BY_OTHERS};
use crate::reason::{Reason, Refusal};
use std::fs::Metadata;
use std::os::unix::fs::MetadataExt;
use std::{fs, io};

/// The most links that are followed, as in Linux.
const MOST_LINKS: u32 = 40;

/// The root, if nothing is before a last slash.
fn or_root(directory: &str) -> &str
    ensures { result.now ≡ or_root directory.now }
{
    if directory.is_empty() { "/" } else { directory }
}

/// Returns the directory that a name is in.
pub fn directory_of(name: &str) -> &str
    ensures { IsDirectoryOf name.now result.now }
{
    match name.rsplit_once('/') {
        Some((directory, _)) => or_root(directory),
        None => ".",
    }
}

/// Returns the last name of a path, which the file has in its directory.
pub fn name_in_directory(name: &str) -> &str
    ensures { IsNameInDirectory name.now result.now }
{
    match name.rsplit_once('/') {
        Some((_, last)) => last,
        None => name,
    }
}

/// The directory of the process, which belongs to its user.
const PROCESS: &str = "/proc/self";

/// Returns whether other users may replace what is in a directory with these attributes: they may
/// write in it, and no sticky bit keeps them from the names of others.
pub fn is_open_to_others(found: &Metadata) -> bool {
    found.mode() & WRITABLE_BY_OTHERS != 0 && found.mode() & STICKY == 0
}

/// Returns whether a file with these attributes belongs to the user of the process.
pub fn is_own_file(rt: &HostRuntime, found: &Metadata) -> bool {
    match fs::metadata(rt, PROCESS) {
        Ok(process) => process.uid() == found.uid(),
        Err(_) => false,
    }
}

/// Checks that a link leads where root, the user of the process, or the owner of what is behind it
/// lets it lead: nobody else made it. If it is the last name of a path, nobody else may replace it
/// either.
fn check_link(rt: &HostRuntime, link: &str, behind: &str, is_last: bool) -> Result<(), Refusal> {
    let behind = fs::metadata(rt, behind).ok();
    let is_trusted = |found: &Metadata| {
        found.uid() == 0
            || behind
                .as_ref()
                .is_some_and(|behind| behind.uid() == found.uid())
            || is_own_file(rt, found)
    };
    let here = fs::metadata(rt, directory_of(link))?;
    let is_kept = !is_last || is_trusted(&here) && !is_open_to_others(&here);
    if is_kept && is_trusted(&fs::symlink_metadata(rt, link)?) {
        return Ok(());
    }
    Err(Reason::LinkToOutput.into())
}

/// The name to which the text of a link leads, if the link has this name.
fn led_to(rt: &HostRuntime, link: &str, text: &str) -> io::Result<String> {
    match link.rsplit_once('/') {
        Some((directory, _)) if !text.starts_with('/') => {
            Ok(format!(in rt.alloc(); "{directory}/{text}")?)
        }
        _ => Ok(String::from_str(rt.alloc(), text)?),
    }
}

/// The part of a path up to its first name that is a link, and what follows that, if there is one.
fn first_link<'a>(rt: &HostRuntime, path: &'a str) -> io::Result<Option<(&'a str, &'a str)>> {
    for at in 1..=path.len() {
        let is_end = path.as_bytes().get(at).is_none_or(|byte| *byte == b'/');
        if let (true, Some(front), Some(rest)) = (is_end, path.get(..at), path.get(at..))
            && fs::symlink_metadata(rt, front)?.is_symlink()
        {
            return Ok(Some((front, rest)));
        }
    }
    Ok(None)
}

/// Returns the name of a file that is written, after all links on the way to it, each of which is
/// checked. It begins as this name does: it is not made absolute, since an absolute path may be too
/// long, or no UTF-8. A link to something that has no name, such as a pipe in `/proc`, or that is
/// not there, stays.
///
/// # Errors
///
/// The operating system's error; `TooManyLinks`; `LinkToOutput`.
pub fn way_to(rt: &HostRuntime, name: &str) -> Result<String, Refusal> {
    let mut whole = String::from_str(rt.alloc(), name)?;
    for _ in 0..=MOST_LINKS {
        let (link, rest) = match first_link(rt, &whole) {
            Ok(Some(found)) => found,
            Ok(None) => return Ok(whole),
            Err(e) if e.kind() == io::ErrorKind::NotFound => return Ok(whole),
            Err(e) => return Err(e.into()),
        };
        let behind = led_to(rt, link, fs::read_link(rt, link)?.as_str())?;
        check_link(rt, link, &behind, rest.is_empty())?;
        if fs::symlink_metadata(rt, &behind).is_err() {
            return Ok(whole);
        }
        whole = format!(in rt.alloc(); "{behind}{rest}")?;
    }
    Err(Reason::TooManyLinks.into())
}
