//! The entries of a walk, as they are printed.
ghost use Rattle.std.specs.Prelude.{◌≡◌, Bool, Some, length, IfOk};
ghost use Rattle.build_commands.specs.Scanned.{scan_text};
ghost use Rattle.build_commands.specs.ScanPrinted.{HaveSameLines, IsPrinted};
ghost use Rattle.build_commands.specs.Scans.{IsManifestOf, IsScannable, all_shown};
ghost use Rattle.directory_walk.specs.Trees.{AreAllBelow, AreInOrder, Top};
ghost use Rattle.directory_walk.specs.Views.{names_of};

use crate::laws;
use crate::scanning::{Found, put_scan};
use directory_walk::Entry;
use rom_fields::{ByteWrite, OutOfMemory};
use std::alloc::Global;
use thiserror::Error;

/// The reason why found entries were not printed.
#[derive(Clone, Copy, Debug, PartialEq, Eq, Error)]
pub enum PrintError {
    /// Memory was refused, and nothing was written.
    #[error("out of memory")]
    OutOfMemory,
    /// A write or the flush failed.
    #[error("a write failed")]
    Failed,
}

/// Returns the entries, which are files and directories, as they are printed.
fn found_of(alloc: Global, entries: Vec<Entry<bool>>) -> Result<Vec<Found>, OutOfMemory>
    ensures { IfOk result (λ found. HaveSameLines (names_of entries.items) found.items) }
{
    let mut found = Vec::new(alloc);
    for entry in entries {
        found.push(Found {
            place: entry.path,
            is_directory: entry.known,
        })?;
    }
    Ok(found)
}

/// Writes the line of a manifest for each entry that a walk found, and flushes the lines. What is
/// known of an entry is whether it is a directory. An entry's path in the image is its path without
/// the first `front` bytes, which are the path of the scanned directory. If the entries are all
/// those below this directory, the text is the manifest of its tree.
///
/// # Errors
///
/// `OutOfMemory` if memory was refused; `Failed` if a write or the flush failed.
pub fn print_walked<W: ByteWrite>(
    alloc: Global,
    w: &mut W,
    front: usize,
    entries: Vec<Entry<bool>>,
) -> Result<(), PrintError>
    ensures printed { IsPrinted front (names_of entries.items) (W.output w.old) (W.output w.new)
        result }
    ensures tree { (t : Top Bool) → IsScannable t.path t.tree → length t.path ≡ front
        → AreAllBelow (Some t) (names_of entries.items) → AreInOrder (names_of entries.items)
        → IsManifestOf t (scan_text (all_shown front (names_of entries.items))) }
{
    laws::scan_is_the_tree();
    let found = match found_of(alloc, entries) {
        Ok(found) => found,
        Err(OutOfMemory) => return Err(PrintError::OutOfMemory),
    };
    match put_scan(w, front, &found) {
        Ok(()) => Ok(()),
        Err(_) => Err(PrintError::Failed),
    }
}
