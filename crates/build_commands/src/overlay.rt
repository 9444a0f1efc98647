//! Files laid over one another: of each path, the last one counts.
ghost use Rattle.std.specs.Prelude.{◌≡◌, ℕ, List, IfErr, IfOk, OnOk, false};
ghost use Rattle.std.specs.Str.{bytes_eq};
ghost use Rattle.build_commands.specs.Inventory.{path_of};
ghost use Rattle.build_commands.specs.Overlay.{AreApart, AreLaid, AreSorted, IsRefused};
ghost use Rattle.build_commands.specs.Overlay.{is_directory, named};

use crate::inventory::{FileKind, NamedFile};
use std::alloc::{AllocError, AllocFailed, Global};

/// Why files cannot be laid over one another.
#[derive(Drop)]
pub enum OverlayError {
    OutOfMemory,
    /// This file and the one before it of the same path are a directory and another kind of file.
    Kinds(NamedFile),
}

impl<T: Drop> From<AllocFailed<T>> for OverlayError {
    ghost use Rattle.build_commands.specs.declared.overlay.OverlayError.{OverlayError};

    ghost from_gives = { λ _ answer. answer ≡ OverlayError.OutOfMemory };

    fn from(_: AllocFailed<T>) -> OverlayError {
        OverlayError::OutOfMemory
    }
}

impl From<AllocError> for OverlayError {
    ghost use Rattle.build_commands.specs.declared.overlay.OverlayError.{OverlayError};

    ghost from_gives = { λ _ answer. answer ≡ OverlayError.OutOfMemory };

    fn from(_: AllocError) -> OverlayError {
        OverlayError::OutOfMemory
    }
}

/// Returns whether a file is a directory.
pub fn is_directory(file: &NamedFile) -> bool
    ensures { result ≡ is_directory file.now }
{
    matches!(file.kind, FileKind::Directory)
}

/// Sorts files by the bytes of their paths, so that a directory comes before the files in it. Files
/// of one path stay in their order. If memory is refused, all stay in their order.
pub fn sort(found: &mut Vec<NamedFile>) -> Result<(), AllocError>
    ensures order { OnOk result (AreSorted found.new.items) }
    ensures named { OnOk result ((path : List ℕ)
        → named path found.new.items ≡ named path found.old.items) }
{
    found.sort_by(|a, b| a.path().cmp(b.path()))?;
    Ok(())
}

/// Whether two files have one path.
fn have_one_path(one: &NamedFile, other: &NamedFile) -> bool
    ensures { result ≡ bytes_eq (path_of one.now) (path_of other.now) }
{
    one.path() == other.path()
}

/// Whether two neighbours have one path.
fn have_repeats(found: &[NamedFile]) -> bool
    ensures { result ≡ false → AreApart found.now }
{
    for i in 1..found.len() {
        if have_one_path(&found[i - 1], &found[i]) {
            return true;
        }
    }
    false
}

/// Returns the last file of each path of sorted files.
///
/// # Errors
///
/// `Kinds` if a directory would replace a file of another kind, or the reverse.
fn last_of_each(alloc: Global, found: Vec<NamedFile>) -> Result<Vec<NamedFile>, OverlayError>
    requires { AreSorted found.items }
    ensures laid { IfOk result (λ v. AreLaid found.items v.items) }
    ensures mixed { IfErr result (λ e. IsRefused found.items e) }
{
    let mut laid = Vec::new(alloc);
    let mut held: Option<NamedFile> = None;
    for file in found {
        if let Some(last) = held {
            if !have_one_path(&last, &file) {
                laid.push(last)?;
            } else if is_directory(&last) != is_directory(&file) {
                return Err(OverlayError::Kinds(file));
            }
        }
        held = Some(file);
    }
    if let Some(last) = held {
        laid.push(last)?;
    }
    Ok(laid)
}

/// Returns the last file of each path, sorted by the bytes of the paths, so that a directory comes
/// before the files in it.
///
/// # Errors
///
/// `Kinds` exactly if a directory would replace a file of another kind, or the reverse, unless
/// memory was refused first; `OutOfMemory` if memory was refused.
pub fn laid_over(alloc: Global, mut found: Vec<NamedFile>) -> Result<Vec<NamedFile>, OverlayError>
    ensures laid { IfOk result (λ v. AreLaid found.items v.items) }
    ensures mixed { IfErr result (λ e. IsRefused found.items e) }
{
    sort(&mut found)?;
    if !have_repeats(&found) {
        return Ok(found);
    }
    last_of_each(alloc, found)
}
