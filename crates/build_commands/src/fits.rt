//! Whether the files of a list fit one another and the files that were found.
ghost use Rattle.std.specs.Prelude.{◌≡◌, ℕ, List, IfOk};
ghost use Rattle.std.specs.Option.{option_map};
ghost use Rattle.build_commands.specs.Fitting.{before_last, differs, fault_of, first_unfit};
ghost use Rattle.build_commands.specs.Fitting.{has_directory, holds, is_there, repeats, sooner};
ghost use Rattle.build_commands.specs.Overlay.{AreInOrder};
ghost use Rattle.build_commands.specs.Rights.{file_at};

use crate::inventory::NamedFile;
use crate::listing::{BadLine, Why};
use crate::overlay::is_directory;
use crate::rights::file_at;
use manifest::error::{EXISTS, NO_PARENT};
use memchr::memrchr;
use rom_fields::OutOfMemory;
use std::alloc::Global;
use std::collections::BTreeSet;

/// Returns what is before the last slash of a path, or nothing.
fn directory_of<'a>(path: &'a [u8]) -> &'a [u8]
    ensures { result.now ≡ before_last 47 path.now }
{
    match memrchr(b'/', path) {
        None => b"",
        Some(last) => &path[..last],
    }
}

/// Returns the paths of the directories of a list.
fn directories<'a>(
    alloc: Global,
    listed: &'a [NamedFile],
) -> Result<BTreeSet<&'a [u8]>, OutOfMemory>
    ensures { IfOk result (λ set. (path : List ℕ)
        → holds set path ≡ has_directory listed.entry.now path) }
{
    let mut set = BTreeSet::new(alloc);
    for file in listed {
        if is_directory(file) {
            set.insert(file.path())?;
        }
    }
    Ok(set)
}

/// Whether a file has the path of the one before it.
fn repeats(last: Option<&NamedFile>, file: &NamedFile) -> bool
    ensures { result ≡ repeats (option_map (λ f. f.now) last.entry) file.now }
{
    match last {
        Some(last) => last.path() == file.path(),
        None => false,
    }
}

/// Whether the file that was found at the path of another one is of another kind.
fn differs(found: Option<&NamedFile>, file: &NamedFile) -> bool
    ensures { result ≡ differs (option_map (λ f. f.now) found.entry) file.now }
{
    match found {
        Some(found) => is_directory(found) != is_directory(file),
        None => false,
    }
}

/// Whether there is a directory at a path, or the path is empty.
fn is_there(found: &[NamedFile], made: &BTreeSet<&[u8]>, path: &[u8]) -> bool
    ensures { (listed : List NamedFile) → AreInOrder found.now
        → ((p : List ℕ) → holds made.now p ≡ has_directory listed p)
        → result ≡ is_there found.now listed path.now }
{
    path.is_empty() || file_at(found, path).is_some_and(is_directory) || made.contains(path)
}

/// The fault of a file of a list, if it has one; `is_repeated`: an earlier one has its path.
fn fault_of(
    found: &[NamedFile],
    made: &BTreeSet<&[u8]>,
    is_repeated: bool,
    file: &NamedFile,
) -> Option<BadLine>
    ensures { (listed : List NamedFile) → AreInOrder found.now
        → ((p : List ℕ) → holds made.now p ≡ has_directory listed p)
        → result ≡ fault_of found.now listed is_repeated file.now }
{
    let line = file.inode.number;
    if is_repeated || differs(file_at(found, file.path()), file) {
        return Some(BadLine {
            line,
            number: EXISTS,
            why: Why::Exists,
        });
    }
    if is_there(found, made, directory_of(file.path())) {
        return None;
    }
    Some(BadLine {
        line,
        number: NO_PARENT,
        why: Why::Parent,
    })
}

/// Returns the bad line of the lesser number, and of one number the first.
fn sooner(first: Option<BadLine>, next: Option<BadLine>) -> Option<BadLine>
    ensures { result ≡ sooner first next }
{
    match (first, next) {
        (Some(a), Some(b)) => Some(if b.line < a.line { b } else { a }),
        (Some(a), None) => Some(a),
        (None, next) => next,
    }
}

/// Returns the first line of a list whose file does not fit the others or the found files. The
/// files of the list are sorted, and the found files are in the order of their paths.
#[tactic(auto, unfolding(crate::specs::Fitting::first_unfit))]
pub fn first_unfit(
    alloc: Global,
    listed: &[NamedFile],
    found: &[NamedFile],
) -> Result<Option<BadLine>, OutOfMemory>
    ensures { AreInOrder found.now
        → IfOk result (λ first. first ≡ first_unfit found.now listed.now) }
{
    let made = directories(alloc, listed)?;
    let mut first = None;
    let mut last: Option<&NamedFile> = None;
    for file in listed {
        let fault = fault_of(found, &made, repeats(last, file), file);
        first = sooner(first, fault);
        last = Some(file);
    }
    Ok(first)
}
