//! What Linux's cramfs keeps of the first file with the contents of each source.
ghost use Rattle.std.specs.Prelude.{◌≡◌, ℕ, List, IfOk, OnOk};
ghost use Rattle.std.specs.BTreeMap.{get};
ghost use Rattle.std.specs.Ordering.{nat_cmp};
ghost use Rattle.plan_rows.specs.Files.{IsOf};
ghost use Rattle.plan_rows.specs.Rows.{inode_view};
ghost use Rattle.linux_misreads.specs.Tables.{either};
ghost use Rattle.build_commands.specs.Planned.{AreFirst, has_same as any_same, kept_by};
ghost use Rattle.build_commands.specs.Planned.{known_as, source_in};

use crate::planned::seen_of;
use linux_misreads::{Known, known_of};
use manifest::{Manifest, Word};
use plan_rows::{Bytes, Inode, PathTargets, rows};
use rom_fields::OutOfMemory;
use std::alloc::Global;
use std::collections::BTreeMap;

/// Returns the source of a file that is not empty.
fn source_of(inode: &Inode<'_>) -> Option<usize>
    ensures { result ≡ source_in (inode_view inode.now) }
{
    match inode.bytes {
        Bytes::Source(source) => { if inode.size > 0 { Some(source) } else { None } }
        Bytes::Nothing | Bytes::Text(_) => None,
    }
}

/// Returns what is kept of the first file with the contents of a file.
pub(crate) fn kept_of(first: &BTreeMap<usize, Known>, inode: &Inode<'_>) -> Option<Known>
    ensures { result ≡ kept_by (get nat_cmp first.now) (source_in (inode_view inode.now)) }
{
    let Some(source) = source_of(inode) else {
        return None;
    };
    match first.get(&source) {
        Some(kept) => Some(*kept),
        None => None,
    }
}

/// Returns whether a line makes a file with the contents of another one.
fn has_same(manifest: &Manifest) -> bool
    ensures { result ≡ any_same manifest.now.lines }
{
    let all = manifest.lines();
    for line in all {
        if matches!(line.word, Word::Same) {
            return true;
        }
    }
    false
}

/// Notes a file as the first with its contents, if none is noted yet.
fn note(first: &mut BTreeMap<usize, Known>, inode: &Inode<'_>) -> Result<(), OutOfMemory>
    ensures { OnOk result ((k : ℕ) → get nat_cmp first.new k
        ≡ either (get nat_cmp first.old k) (known_as k (inode_view inode.now))) }
{
    let Some(source) = source_of(inode) else {
        return Ok(());
    };
    if !first.contains_key(&source) {
        first.insert(source, known_of(seen_of(inode, 0)))?;
    }
    Ok(())
}

/// Returns what is kept of the first file with the contents of each source, in the order of the
/// tree. Without a `same` line each file is the only one, and nothing is returned.
///
/// # Errors
///
/// `OutOfMemory` if memory was refused.
pub(crate) fn first_files(
    alloc: Global,
    manifest: &Manifest,
    files: &PathTargets,
) -> Result<BTreeMap<usize, Known>, OutOfMemory>
    ensures { IfOk result (λ m. (sizes : List ℕ) → IsOf manifest.now.lines sizes files.now
        → AreFirst manifest.now.lines sizes m) }
{
    let mut first = BTreeMap::new(alloc);
    if !has_same(manifest) {
        return Ok(first);
    }
    let listed = rows(alloc, manifest, files)?;
    let all = listed.as_slice();
    for row in all {
        note(&mut first, &row.inode)?;
    }
    Ok(first)
}
