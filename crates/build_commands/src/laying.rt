//! Lists and tables of devices laid over the files that were found.
ghost use Rattle.std.specs.Prelude.{◌≡◌, ◌++◌, IfErr, IfOk, OnOk, map};
ghost use Rattle.std.specs.List.Sorted.{IsSortedByKey, IsStableByKey};
ghost use Rattle.std.specs.Ordering.{nat_cmp};
ghost use Rattle.build_commands.specs.Laying.{IsListLaid, IsListRefusal, IsTableLaid};
ghost use Rattle.build_commands.specs.Laying.{IsTableRefusal, made, of_list, of_overlay};
ghost use Rattle.build_commands.specs.Laying.{of_rights, setting_by, sets, settings};
ghost use Rattle.build_commands.specs.Lists.{setting_of};
ghost use Rattle.build_commands.specs.Overlay.{AreInOrder, AreLaid, IsRefused};
ghost use Rattle.build_commands.specs.Rights.{IsRefusal, changed};

use crate::inventory::NamedFile;
use crate::listing::{BadLine, ListError, Listing, Why};
use crate::overlay::{OverlayError, is_directory, laid_over};
use crate::rights::{Attributes, Change, RightsError, file_at, set_all};
use crate::{device_table, devices};
use manifest::error::BAD_TARGET;
use std::alloc::{AllocError, AllocFailed, Global};

/// Why a list or a table cannot be laid over the files that were found.
#[derive(Drop)]
pub enum LayError {
    OutOfMemory,
    /// A line is refused.
    Bad(BadLine),
    /// This file and the one before it of the same path are a directory and another kind of file.
    Kinds(NamedFile),
}

impl From<ListError> for LayError {
    ghost from_gives = { λ e answer. answer ≡ of_list e };

    fn from(e: ListError) -> LayError {
        match e {
            ListError::OutOfMemory => LayError::OutOfMemory,
            ListError::Bad(bad) => LayError::Bad(bad),
        }
    }
}

impl From<RightsError> for LayError {
    ghost from_gives = { λ e answer. answer ≡ of_rights e };

    fn from(e: RightsError) -> LayError {
        match e {
            RightsError::OutOfMemory => LayError::OutOfMemory,
            RightsError::Missing(line) => LayError::Bad(BadLine {
                line,
                number: BAD_TARGET,
                why: Why::Missing,
            }),
        }
    }
}

impl From<OverlayError> for LayError {
    ghost from_gives = { λ e answer. answer ≡ of_overlay e };

    fn from(e: OverlayError) -> LayError {
        match e {
            OverlayError::OutOfMemory => LayError::OutOfMemory,
            OverlayError::Kinds(file) => LayError::Kinds(file),
        }
    }
}

impl From<AllocError> for LayError {
    ghost use Rattle.build_commands.specs.declared.laying.LayError.{LayError};

    ghost from_gives = { λ _ answer. answer ≡ LayError.OutOfMemory };

    fn from(_: AllocError) -> LayError {
        LayError::OutOfMemory
    }
}

/// Whether a file of a list is a directory that was found.
fn sets(found: &[NamedFile], file: &NamedFile) -> bool
    ensures { AreInOrder found.now → result ≡ sets found.now file.now }
{
    if !is_directory(file) {
        return false;
    }
    match file_at(found, file.path()) {
        Some(there) => is_directory(there),
        None => false,
    }
}

/// The change of attributes that a directory of a list makes.
fn change_by(alloc: Global, file: &NamedFile) -> Result<Change, AllocError>
    ensures { IfOk result (λ c. setting_of c ≡ setting_by file.now) }
{
    Ok(Change {
        line: file.inode.number,
        path: String::from_str(alloc, &file.place)?,
        attributes: Attributes {
            mode: Some(file.mode),
            uid: file.uid,
            gid: file.gid,
        },
    })
}

/// Takes those directories that were found out of the files of a list, and adds the changes that
/// they make.
fn divided(alloc: Global, found: &[NamedFile], listed: Listing) -> Result<Listing, AllocError>
    ensures made { AreInOrder found.now
        → IfOk result (λ l. l.files.items ≡ made found.now listed.files.items) }
    ensures settings { AreInOrder found.now
        → IfOk result (λ l. map setting_of l.changes.items ≡ settings found.now listed) }
{
    let Listing { files, mut changes } = listed;
    let mut made = Vec::new(alloc);
    for file in files {
        if sets(found, &file) {
            changes.push(change_by(alloc, &file)?)?;
        } else {
            made.push(file)?;
        }
    }
    Ok(Listing {
        files: made,
        changes,
    })
}

/// Sorts changes by their lines. Those of one line stay in their order.
fn sort_changes(changes: &mut Vec<Change>) -> Result<(), AllocError>
    ensures order { OnOk result (IsSortedByKey (λ c. c.line) nat_cmp changes.new.items) }
    ensures stable { OnOk result
        (IsStableByKey (λ c. c.line) nat_cmp changes.old.items changes.new.items) }
{
    changes.sort_by_key(|change| change.line)?;
    Ok(())
}

/// Adds files behind others.
fn append(all: &mut Vec<NamedFile>, more: Vec<NamedFile>) -> Result<(), AllocError>
    ensures { OnOk result (all.new.items ≡ all.old.items ++ more.items) }
{
    for file in more {
        all.push(file)?;
    }
    Ok(())
}

/// Lays files over others.
fn laid_with(
    alloc: Global,
    mut found: Vec<NamedFile>,
    files: Vec<NamedFile>,
) -> Result<Vec<NamedFile>, OverlayError>
    ensures laid { IfOk result (λ v. AreLaid (found.items ++ files.items) v.items) }
    ensures mixed { IfErr result (IsRefused (found.items ++ files.items)) }
{
    append(&mut found, files)?;
    laid_over(alloc, found)
}

/// Sets attributes of files, which are in the order of their paths.
fn set(alloc: Global, files: &mut Vec<NamedFile>, changes: &[Change]) -> Result<(), RightsError>
    requires { AreInOrder files.old.items }
    ensures set { OnOk result
        (files.new.items ≡ map (changed files.old.items changes.now) files.old.items) }
    ensures order { OnOk result (AreInOrder files.new.items) }
    ensures refused { IfErr result (IsRefusal files.old.items changes.now) }
{
    set_all(alloc, files, changes)
}

/// Lays the files of a list of devices over those that were found, and then sets attributes in the
/// order of its lines. A directory that was found is not replaced: its line sets its attributes.
///
/// # Errors
///
/// `Bad` for the first line that `devices::listed` refuses; if there is none, for the first that
/// sets attributes of no file; `Kinds`; `OutOfMemory`.
pub fn lay_list(
    alloc: Global,
    found: Vec<NamedFile>,
    text: &[u8],
) -> Result<Vec<NamedFile>, LayError>
    requires { AreInOrder found.items }
    ensures laid { IfOk result (λ v. IsListLaid found.items text.now v.items) }
    ensures order { IfOk result (λ v. AreInOrder v.items) }
    ensures refused { IfErr result (IsListRefusal found.items text.now) }
{
    let listing = devices::listed(alloc, text, &found)?;
    let Listing { files, mut changes } = divided(alloc, &found, listing)?;
    sort_changes(&mut changes)?;
    let mut laid = laid_with(alloc, found, files)?;
    set(alloc, &mut laid, &changes)?;
    Ok(laid)
}

/// Sets the attributes that a table of devices has for files that were found, and lays its own
/// files over them.
///
/// # Errors
///
/// `Bad` for the line that `device_table::listed` refuses; if there is none, for the first that
/// sets attributes of no file; `Kinds`; `OutOfMemory`.
pub fn lay_table(
    alloc: Global,
    mut found: Vec<NamedFile>,
    text: &[u8],
) -> Result<Vec<NamedFile>, LayError>
    requires { AreInOrder found.items }
    ensures laid { IfOk result (λ v. IsTableLaid found.items text.now v.items) }
    ensures order { IfOk result (λ v. AreInOrder v.items) }
    ensures refused { IfErr result (IsTableRefusal found.items text.now) }
{
    let Listing { files, changes } = device_table::listed(alloc, text, &found)?;
    set(alloc, &mut found, &changes)?;
    Ok(laid_with(alloc, found, files)?)
}
