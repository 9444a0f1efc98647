//! The part of a file: its beginning, and its end if it is given up.
ghost use Rattle.std.specs.Prelude.{◌≡◌, ◌≢◌, ◌+◌, ◌-◌, ◌*◌, ◌<◌, ◌≤◌, ◌∷◌, ◌⊎◌, List};
ghost use Rattle.std.specs.Prelude.{ℕ, IfOk, OnErr, IfSome, IfNone, ⊤};
ghost use Rattle.atomic_file.specs.Log.{Event, Create, Remove, Refused, EndsBy, Knows};
ghost use Rattle.atomic_file.specs.Log.{Throughout};
ghost use Rattle.atomic_file.specs.Moments.{IsPart, IsApart, IsTried, IsBegun, IsLeft};
ghost use Rattle.atomic_file.specs.Runs.{Adds, IsTry, IsOther, IsMade, IsUnbegun, IsRemoval};

use crate::directory::{CreateError, Directory, LeftError};
use crate::names::Names;
use rom_fields::Failed;

/// A part: its name, and its file.
#[derive(Drop)]
pub struct Begun<P: Drop> {
    pub name: u32,
    pub part: P,
}

/// The reason why no part was made.
#[derive(Clone, Copy, Debug, PartialEq, Eq)]
pub enum Unbegun {
    /// Each name is taken.
    Taken,
    /// The directory refused the last name that was tried.
    Refused,
}

/// Makes a part of this name. What an interrupted replacement left under it is removed.
fn try_name<D: Directory>(
    directory: &mut D,
    names: Names,
    name: u32,
) -> Result<Option<D::Part>, Failed>
    requires room { 3 ≤ D.room directory.old }
    requires part { IsPart names name }
    ensures room { D.room directory.old ≤ D.room directory.new + 3 }
    ensures some { IfOk result (λ made. IfSome made (λ part.
        IsMade names name (D.log directory.old) (D.log directory.new)
        × ((D.Part.output part).contents ≡ D.fresh))) }
    ensures none { IfOk result (λ made. IfNone made (
        Adds (IsTry names) (D.log directory.old) (D.log directory.new)
        × Knows (Refused (Create name)) (D.log directory.old) (D.log directory.new))) }
    ensures err { OnErr result (
        Adds (IsTry names) (D.log directory.old) (D.log directory.new)
        × EndsBy (Refused (Create name)) (D.log directory.new)) }
{
    match directory.create_new(name) {
        Ok(part) => return Ok(Some(part)),
        Err(CreateError::Exists) => {}
        Err(CreateError::Lost) => return Ok(None),
        Err(CreateError::Refused) => return Err(Failed),
    }
    match directory.remove_left(name) {
        Ok(()) => {}
        Err(_) => return Ok(None),
    }
    match directory.create_new(name) {
        Ok(part) => Ok(Some(part)),
        Err(CreateError::Exists) => Ok(None),
        Err(CreateError::Lost) => Ok(None),
        Err(CreateError::Refused) => Err(Failed),
    }
}

/// Removes what an interrupted replacement left under a name behind this one, and returns whether
/// something had it.
fn clear_one<D: Directory>(directory: &mut D, names: Names, name: u32, following: u32) -> bool
    requires room { 0 < D.room directory.old }
    requires part { IsPart names following }
    requires other { following ≢ name }
    ensures room { D.room directory.old ≤ D.room directory.new + 1 }
    ensures run { Adds (IsOther names name) (D.log directory.old) (D.log directory.new) }
{
    match directory.remove_left(following) {
        Ok(()) => true,
        Err(LeftError::InUse) => true,
        Err(LeftError::Missing) => false,
    }
}

/// Removes what interrupted replacements left under the names behind this one, up to the first name
/// that nothing has.
fn clear_following<D: Directory>(directory: &mut D, names: Names, name: u32)
    requires room { names.end - name ≤ D.room directory.old + 1 }
    requires part { IsPart names name }
    ensures room { D.room directory.old + 1 ≤ D.room directory.new + (names.end - name) }
    ensures run { Adds (IsOther names name) (D.log directory.old) (D.log directory.new) }
{
    for following in name + 1..names.end {
        if !clear_one(directory, names, name, following) {
            return;
        }
    }
}

/// Makes a part under the first name that is free. What interrupted replacements left under the
/// names of parts is removed, up to the first name behind the part's that nothing has.
///
/// # Errors
///
/// `Taken`: nothing has none of the names. `Refused`: a file was refused for another reason. There
/// is no new part then.
pub fn begin<D: Directory>(directory: &mut D, names: Names) -> Result<Begun<D::Part>, Unbegun>
    requires ordered { names.first ≤ names.end }
    requires room { 3 * (names.end - names.first) ≤ D.room directory.old }
    ensures room { D.room directory.old ≤ D.room directory.new + 3 * (names.end - names.first) }
    ensures any_moment { Throughout (IsApart names (D.log directory.old))
        (D.log directory.old) (D.log directory.new) }
    ensures begun { IfOk result (λ begun.
        IsBegun names begun.name (D.log directory.old) (D.log directory.new)) }
    ensures empty { IfOk result (λ begun. (D.Part.output begun.part).contents ≡ D.fresh) }
    ensures err { OnErr result (IsTried names (D.log directory.old) (D.log directory.new)) }
    ensures cause { OnErr result (IsUnbegun names (D.log directory.old) (D.log directory.new)) }
{
    for name in names.first..names.end {
        match try_name(directory, names, name) {
            Ok(Some(part)) => {
                clear_following(directory, names, name);
                return Ok(Begun { name, part });
            }
            Ok(None) => {}
            Err(Failed) => return Err(Unbegun::Refused),
        }
    }
    Err(Unbegun::Taken)
}

/// Removes the part of this name, if the directory permits it. The contract says by which call.
fn remove_part<D: Directory>(directory: &mut D, name: u32)
    requires room { 0 < D.room directory.old }
    ensures { (e : Event) × IsRemoval name e × (D.log directory.new ≡ e ∷ D.log directory.old) }
{
    match directory.remove(name) {
        Ok(()) => {}
        Err(_) => {}
    }
}

/// Removes the part of this name, if the directory permits it. The file is as before.
pub fn abandon<D: Directory>(directory: &mut D, name: u32)
    requires room { 0 < D.room directory.old }
    ensures run { (e : Event) × IsRemoval name e × (D.log directory.new ≡ e ∷ D.log directory.old) }
    ensures any_moment { (names : Names) (old : List Event)
        → IsBegun names name old (D.log directory.old)
        → Throughout (IsApart names old) (D.log directory.old) (D.log directory.new) }
    ensures no_part { (names : Names) (old : List Event)
        → IsBegun names name old (D.log directory.old) → (n : ℕ) → IsPart names n
        → IsLeft old (D.log directory.new) n ⊎ EndsBy (Refused (Remove n)) (D.log directory.new) }
{
    remove_part(directory, name)
}
