//! Attributes of files that lines set.
ghost use Rattle.std.specs.List.{All, HoldsAt};
ghost use Rattle.std.specs.Option.{IfNone};
ghost use Rattle.std.specs.Prelude.{◌≡◌, ◌<◌, ℕ, List, IfErr, IfOk, IfSome, None, OnErr, OnOk};
ghost use Rattle.std.specs.Prelude.{Some, cond, length, map, option_map};
ghost use Rattle.build_commands.specs.Inventory.{path_of};
ghost use Rattle.build_commands.specs.Noting.{AreApplied, AreNoted, applied, are_equal, key_of};
ghost use Rattle.build_commands.specs.Noting.{merged, noted};
ghost use Rattle.build_commands.specs.Overlay.{AreInOrder};
ghost use Rattle.build_commands.specs.Rights.{HasFile, IsRefusal, changed, file_at, owned};

use crate::inventory::NamedFile;
use rom_fields::OutOfMemory;
use std::alloc::Global;
use std::collections::BTreeMap;

/// The attributes that a line sets.
#[derive(Clone, Copy)]
pub struct Attributes {
    /// The mode, unless a file keeps its own.
    pub mode: Option<u32>,
    pub uid: u32,
    pub gid: u32,
}

/// The attributes that a line sets for the file at a path.
#[derive(Drop)]
pub struct Change {
    /// The number of the line.
    pub line: u64,
    pub path: String,
    pub attributes: Attributes,
}

/// The reason why attributes were not set.
#[derive(Clone, Copy, Debug, PartialEq, Eq)]
pub enum RightsError {
    OutOfMemory,
    /// The line of this number has the path of no file.
    Missing(u64),
}

impl From<OutOfMemory> for RightsError {
    ghost use Rattle.build_commands.specs.declared.rights.RightsError.{RightsError};

    ghost from_gives = { λ _ answer. answer ≡ RightsError.OutOfMemory };

    fn from(_: OutOfMemory) -> RightsError {
        RightsError::OutOfMemory
    }
}

/// What identifies a file: for one with several links, 1 and its device and number; otherwise 0 and
/// its index.
type Key = (u64, u64, u64);

/// The attributes that were set for files so far.
type Noted = BTreeMap<Key, Attributes>;

/// Returns the index of the file of this path, if there is one.
fn number_at(found: &[NamedFile], path: &[u8]) -> Option<usize>
    ensures at { IfSome result (λ i. (i < length found.now)
        × HoldsAt (λ f. path_of f ≡ path.now) found.now i) }
    ensures none { AreInOrder found.now → IfNone result (file_at path.now found.now ≡ None) }
{
    match found.binary_search_by(|file| file.path().cmp(path)) {
        Ok(index) => Some(index),
        Err(_) => None,
    }
}

/// Returns the file of this path, if there is one. The files are in the order of their paths.
pub fn file_at<'a>(found: &'a [NamedFile], path: &[u8]) -> Option<&'a NamedFile>
    ensures { AreInOrder found.entry.now
        → option_map (λ f. f.now) result ≡ file_at path.now found.entry.now }
{
    match number_at(found, path) {
        Some(index) => Some(&found[index]),
        None => None,
    }
}

/// The key of the file at an index.
fn key_of(file: &NamedFile, index: usize) -> Key
    ensures { result ≡ key_of file.now index }
{
    if file.has_links {
        (1, file.inode.device, file.inode.number)
    } else {
        (0, index as u64, 0)
    }
}

/// Attributes after others: a mode that stays is that of those before.
fn merged(before: Option<Attributes>, next: Attributes) -> Attributes
    ensures { result ≡ merged before next }
{
    match before {
        Some(before) => Attributes {
            mode: next.mode.or(before.mode),
            ..next
        },
        None => next,
    }
}

/// Notes attributes for the file of a key.
fn note(notes: &mut Noted, key: Key, next: Attributes) -> Result<(), OutOfMemory>
    ensures { OnOk result ((k : ℕ × ℕ × ℕ) → noted notes.new k
        ≡ cond (are_equal key k) (Some (merged (noted notes.old key) next)) (noted notes.old k)) }
{
    let before = notes.get(&key).copied();
    notes.insert(key, merged(before, next))?;
    Ok(())
}

/// The attributes that changes set, by the keys of files.
fn notes_of(alloc: Global, found: &[NamedFile], changes: &[Change]) -> Result<Noted, RightsError>
    ensures noted { AreInOrder found.now → IfOk result (AreNoted found.now changes.now) }
    ensures there { AreInOrder found.now → OnOk result (All (HasFile found.now) changes.now) }
    ensures refused { AreInOrder found.now → IfErr result (IsRefusal found.now changes.now) }
{
    let mut notes = BTreeMap::new(alloc);
    for change in changes {
        let Some(index) = number_at(found, change.path.as_bytes()) else {
            return Err(RightsError::Missing(change.line));
        };
        note(&mut notes, key_of(&found[index], index), change.attributes)?;
    }
    Ok(notes)
}

/// Sets the owner and the group of each file. All paths stay.
pub fn own_all(found: &mut [NamedFile], uid: u32, gid: u32)
    ensures owned { found.new ≡ map (owned uid gid) found.old }
    ensures order { AreInOrder found.old → AreInOrder found.new }
{
    for index in 0..found.len() {
        found[index].uid = uid;
        found[index].gid = gid;
    }
}

/// Gives a file the attributes that were noted for it, if there are some.
fn apply(file: &mut NamedFile, attributes: Option<Attributes>)
    ensures { file.new ≡ applied attributes file.old }
{
    if let Some(attributes) = attributes {
        file.mode = attributes.mode.unwrap_or(file.mode);
        file.uid = attributes.uid;
        file.gid = attributes.gid;
    }
}

/// Gives each file the attributes that were noted for it.
fn apply_all(found: &mut [NamedFile], notes: &Noted)
    ensures { AreApplied notes.now found.old found.new }
{
    for index in 0..found.len() {
        let noted = notes.get(&key_of(&found[index], index)).copied();
        apply(&mut found[index], noted);
    }
}

/// Sets attributes of files, which are in the order of their paths. All names of a file get those
/// that were set last, whichever of its names the change has.
///
/// # Errors
///
/// `Missing` for the first change of a path that no file has; `OutOfMemory`. Then no file changed.
pub fn set_all(
    alloc: Global,
    found: &mut [NamedFile],
    changes: &[Change],
) -> Result<(), RightsError>
    ensures set { AreInOrder found.old
        → OnOk result (found.new ≡ map (changed found.old changes.now) found.old) }
    ensures there { AreInOrder found.old → OnOk result (All (HasFile found.old) changes.now) }
    ensures refused { AreInOrder found.old → IfErr result (IsRefusal found.old changes.now) }
    ensures order { AreInOrder found.old → AreInOrder found.new }
    ensures unchanged { OnErr result (found.new ≡ found.old) }
{
    let notes = notes_of(alloc, found, changes)?;
    apply_all(found, &notes);
    Ok(())
}
