//! The end of a replacement: the part gets the name of the file.
ghost use Rattle.std.specs.Prelude.{◌≡◌, ◌+◌, ◌≤◌, ℕ, List, Option, IfOk, OnErr};
ghost use Rattle.atomic_file.specs.Log.{Event, Throughout};
ghost use Rattle.atomic_file.specs.Moments.{IsNoPart, IsBegun, IsOldOrNew, IsReplaced};
ghost use Rattle.atomic_file.specs.Moments.{IsDurable, IsKept};
ghost use Rattle.atomic_file.specs.Runs.{IsDone, IsUnkept};

use crate::beginning::{Begun, abandon};
use crate::directory::{Directory, Durability};
use crate::names::Names;
use rom_fields::Failed;

/// Makes the calls of `keep`. The contract says which.
fn run<D: Directory>(
    directory: &mut D,
    names: Names,
    begun: Begun<D::Part>,
) -> Result<Durability, Failed>
    requires room { 4 ≤ D.room directory.old }
    ensures done { IfOk result (λ d. IsDone names begun.name (D.Part.output begun.part).contents d
        (D.log directory.old) (D.log directory.new)) }
    ensures stopped { OnErr result (IsUnkept names begun.name (D.Part.output begun.part).contents
        (D.log directory.old) (D.log directory.new)) }
{
    let Begun { name, part } = begun;
    let synced = match directory.sync(part) {
        Ok(synced) => synced,
        Err(e) => {
            abandon(directory, name);
            return Err(e);
        }
    };
    match directory.close(synced) {
        Ok(()) => {}
        Err(e) => {
            abandon(directory, name);
            return Err(e);
        }
    }
    match directory.rename(name, names.out) {
        Ok(()) => {}
        Err(e) => {
            abandon(directory, name);
            return Err(e);
        }
    }
    match directory.sync_directory() {
        Ok(durability) => Ok(durability),
        Err(e) => Err(e),
    }
}

/// Gives a part, which holds the new bytes, the name of the file: the part is synchronized, closed
/// and renamed, in this order, and its directory is synchronized.
///
/// At each moment the file is what it was or the part, whole, and a crash leaves it so.
///
/// # Errors
///
/// A call was refused. The part is removed then, if the directory permits it, except if only the
/// synchronization of the directory was refused: then the file is the part, but a crash may undo
/// this.
pub fn keep<D: Directory>(
    directory: &mut D,
    names: Names,
    begun: Begun<D::Part>,
) -> Result<Durability, Failed>
    requires distinct { IsNoPart names names.out }
    requires room { 4 ≤ D.room directory.old }
    ensures any_moment { (old : List Event) → IsBegun names begun.name old (D.log directory.old)
        → Throughout (IsOldOrNew names (λ known. known ≡ (D.Part.output begun.part).contents) old)
        (D.log directory.old) (D.log directory.new) }
    ensures ok { IfOk result (λ d. (old : List Event)
        → IsBegun names begun.name old (D.log directory.old)
        → IsReplaced names (λ known. known ≡ (D.Part.output begun.part).contents) old
        (D.log directory.new)) }
    ensures durable { IfOk result (λ d. IsDurable d (D.log directory.new)) }
    ensures err { OnErr result ((old : List Event)
        → IsBegun names begun.name old (D.log directory.old)
        → IsKept names (λ known. known ≡ (D.Part.output begun.part).contents) old
        (D.log directory.new)) }
    ensures cause { OnErr result (IsUnkept names begun.name (D.Part.output begun.part).contents
        (D.log directory.old) (D.log directory.new)) }
{
    run(directory, names, begun)
}
