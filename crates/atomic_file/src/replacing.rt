//! A file that is replaced by a new one.
ghost use Rattle.std.specs.Prelude.{◌≡◌, ◌+◌, ◌-◌, ◌*◌, ◌≤◌, ℕ, List, Option, IfOk, OnErr, IfErr};
ghost use Rattle.atomic_file.specs.Log.{Event, Throughout};
ghost use Rattle.atomic_file.specs.Moments.{IsNoPart, IsBegun, IsOldOrNew, IsReplaced};
ghost use Rattle.atomic_file.specs.Moments.{IsDurable, IsKept};
ghost use Rattle.atomic_file.specs.Runs.{IsUnwritten, IsStop, IsCause};

use crate::beginning::{Begun, Unbegun, abandon, begin};
use crate::directory::{Directory, Durability};
use crate::fill::Fill;
use crate::keeping::keep;
use crate::names::Names;

/// The reason why a part did not become the file.
#[derive(Drop)]
pub enum Unfinished<E: Drop, P: Drop> {
    /// The bytes were not written whole, for this reason; and the part, which may know more.
    NotWritten(E, P),
    /// The directory refused a call.
    NotKept,
}

/// The reason why a file was not replaced.
#[derive(Drop)]
pub enum Stopped<E: Drop, P: Drop> {
    /// No part was made.
    NotBegun(Unbegun),
    /// The part did not become the file.
    NotFinished(Unfinished<E, P>),
}

/// Fills a part, and gives it the name of the file, as `keep` does.
///
/// # Errors
///
/// `NotWritten`: the source or the part failed, and the part is removed, if the directory permits
/// it. `NotKept`: as for `keep`.
pub fn finish<D: Directory, S: Fill>(
    directory: &mut D,
    names: Names,
    begun: Begun<D::Part>,
    source: &mut S,
) -> Result<Durability, Unfinished<S::Error, D::Part>>
    requires distinct { IsNoPart names names.out }
    requires room { 4 ≤ D.room directory.old }
    requires empty { (D.Part.output begun.part).contents ≡ D.fresh }
    requires ready { S.ready source.old }
    ensures any_moment { (old : List Event) → IsBegun names begun.name old (D.log directory.old)
        → Throughout (IsOldOrNew names (S.writes source.old source.new D.fresh) old)
        (D.log directory.old) (D.log directory.new) }
    ensures ok { IfOk result (λ d. (old : List Event)
        → IsBegun names begun.name old (D.log directory.old)
        → IsReplaced names (S.writes source.old source.new D.fresh) old (D.log directory.new)) }
    ensures durable { IfOk result (λ d. IsDurable d (D.log directory.new)) }
    ensures err { OnErr result ((old : List Event)
        → IsBegun names begun.name old (D.log directory.old)
        → IsKept names (S.writes source.old source.new D.fresh) old (D.log directory.new)) }
    ensures cause { IfErr result (λ e. IsStop names begun.name
        (S.writes source.old source.new D.fresh)
        (IsUnwritten (S.fails source.old source.new) D.fresh)
        (D.log directory.old) (D.log directory.new) e) }
    ensures stays { S.stays source.old source.new }
{
    let Begun { name, mut part } = begun;
    match source.fill(&mut part) {
        Ok(()) => {}
        Err(e) => {
            abandon(directory, name);
            return Err(Unfinished::NotWritten(e, part));
        }
    }
    match keep(directory, names, Begun { name, part }) {
        Ok(durability) => Ok(durability),
        Err(_) => Err(Unfinished::NotKept),
    }
}

/// Replaces a file by a new one, which the source fills: `begin`, then `finish`.
///
/// At each moment the file is what it was or the new one, whole, and a crash at each moment leaves
/// it so. At `Durable`, a crash leaves the new one.
///
/// # Errors
///
/// `NotBegun`: as for `begin`. `NotFinished`: as for `finish`. The file is what it was, except if
/// only the synchronization of the directory was refused.
pub fn replace<D: Directory, S: Fill>(
    directory: &mut D,
    names: Names,
    source: &mut S,
) -> Result<Durability, Stopped<S::Error, D::Part>>
    requires distinct { IsNoPart names names.out }
    requires ordered { names.first ≤ names.end }
    requires room { 3 * (names.end - names.first) + 4 ≤ D.room directory.old }
    requires ready { S.ready source.old }
    ensures any_moment { Throughout
        (IsOldOrNew names (S.writes source.old source.new D.fresh) (D.log directory.old))
        (D.log directory.old) (D.log directory.new) }
    ensures ok { IfOk result (λ d. IsReplaced names (S.writes source.old source.new D.fresh)
        (D.log directory.old) (D.log directory.new)) }
    ensures durable { IfOk result (λ d. IsDurable d (D.log directory.new)) }
    ensures err { OnErr result (IsKept names (S.writes source.old source.new D.fresh)
        (D.log directory.old) (D.log directory.new)) }
    ensures cause { IfErr result (λ e. IsCause names (S.writes source.old source.new D.fresh)
        (IsUnwritten (S.fails source.old source.new) D.fresh)
        (D.log directory.old) (D.log directory.new) e) }
{
    let begun = match begin(directory, names) {
        Ok(begun) => begun,
        Err(e) => return Err(Stopped::NotBegun(e)),
    };
    match finish(directory, names, begun, source) {
        Ok(durability) => Ok(durability),
        Err(e) => Err(Stopped::NotFinished(e)),
    }
}
