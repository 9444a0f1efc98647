//! The walk.
ghost use Rattle.std.specs.Prelude.{◌≡◌, [], ◌∷◌, ◌++◌, IfOk, IfErr, IsPermutation, string_bytes};
ghost use Rattle.directory_walk.specs.Trees.{Tree, IsDirectoryOf, IsReached, IsTop, AreAllBelow};
ghost use Rattle.directory_walk.specs.Trees.{AreInOrder, entered};
ghost use Rattle.directory_walk.specs.Views.{IsListing, IsRefusal, names_of, paths_of};

use crate::lister::{Directory, Entry, Listed, Lister};
use crate::sorting::sort;
use crate::taking::take_in;
use rom_fields::OutOfMemory;
use std::alloc::Global;

/// What a walk found.
#[derive(Drop)]
pub struct Walked<T, S> {
    /// All entries below the directory, in the order of the bytes of their paths.
    pub entries: Vec<Entry<T>>,
    /// The directories that were entered, in the order in which this was done.
    pub directories: Vec<Directory<S>>,
}

/// A directory that could not be listed: its path, and the lister's reason.
#[derive(Drop)]
pub struct Refusal<E> {
    pub path: String,
    pub error: E,
}

/// The reason why a walk ended early.
#[derive(Drop)]
pub enum WalkError<E> {
    OutOfMemory,
    Refused(Refusal<E>),
}

/// A list of one directory.
fn only<S: Drop>(alloc: Global, top: Directory<S>) -> Result<Vec<Directory<S>>, OutOfMemory>
    ensures { IfOk result (λ waiting. paths_of waiting.items ≡ string_bytes top.path ∷ []) }
{
    let mut waiting = Vec::new(alloc);
    waiting.push(top)?;
    Ok(waiting)
}

/// Lists a directory, and returns it with its entries. An error comes with its path.
fn list_one<L: Lister>(
    lister: &mut L,
    directory: Directory<L::State>,
) -> Result<(Directory<L::State>, Vec<Listed<L::Known, L::State>>), WalkError<L::Error>>
    ensures known { (g : Tree L.Known)
        → IsDirectoryOf (L.tree lister.old) (string_bytes directory.path) g
        → IfOk result (λ r. IsListing (string_bytes directory.path) g r.1.items) }
    ensures path { IfOk result (λ r. string_bytes r.0.path ≡ string_bytes directory.path) }
    ensures same { L.tree lister.new ≡ L.tree lister.old }
    ensures error { IsReached (L.tree lister.old) (string_bytes directory.path)
        → IfErr result (λ e. IsRefusal (L.tree lister.old) (L.refuses lister.new) e) }
{
    match lister.list(&directory) {
        Ok(listed) => Ok((directory, listed)),
        Err(error) => {
            let path = directory.path;
            Err(WalkError::Refused(Refusal { path, error }))
        }
    }
}

/// Lists a directory, and all directories that are found so, the last one first.
fn visit<L: Lister>(
    alloc: Global,
    lister: &mut L,
    top: Directory<L::State>,
) -> Result<Walked<L::Known, L::State>, WalkError<L::Error>>
    requires { IsTop (L.tree lister.old) (string_bytes top.path) }
    ensures all { IfOk result (λ w. AreAllBelow (L.tree lister.old) (names_of w.entries.items)) }
    ensures entered { IfOk result (λ w. IsPermutation
        (string_bytes top.path ∷ entered (names_of w.entries.items))
        (paths_of w.directories.items)) }
    ensures error { IfErr result (λ e. IsRefusal (L.tree lister.old) (L.refuses lister.new) e) }
{
    let mut entries = Vec::new(alloc);
    let mut directories = Vec::new(alloc);
    let mut waiting = match only(alloc, top) {
        Ok(waiting) => waiting,
        Err(_) => return Err(WalkError::OutOfMemory),
    };
    for _ in 0..u64::MAX {
        let Some(directory) = waiting.pop() else {
            return Ok(Walked {
                entries,
                directories,
            });
        };
        let (directory, listed) = match list_one(lister, directory) {
            Ok(both) => both,
            Err(e) => return Err(e),
        };
        match take_in(&mut entries, &mut waiting, listed) {
            Ok(()) => {}
            Err(_) => return Err(WalkError::OutOfMemory),
        }
        match directories.push(directory) {
            Ok(()) => {}
            Err(_) => return Err(WalkError::OutOfMemory),
        }
    }
    Err(WalkError::OutOfMemory)
}

/// Returns all that is below a directory, in the order of the bytes of paths, so that each
/// directory comes before its entries.
///
/// # Errors
///
/// `Refused` if a directory could not be listed, with its path and the lister's reason;
/// `OutOfMemory` if memory was refused.
pub fn walk<L: Lister>(
    alloc: Global,
    lister: &mut L,
    top: Directory<L::State>,
) -> Result<Walked<L::Known, L::State>, WalkError<L::Error>>
    requires { IsTop (L.tree lister.old) (string_bytes top.path) }
    ensures all { IfOk result (λ w. AreAllBelow (L.tree lister.old) (names_of w.entries.items)) }
    ensures order { IfOk result (λ w. AreInOrder (names_of w.entries.items)) }
    ensures entered { IfOk result (λ w. IsPermutation
        (string_bytes top.path ∷ entered (names_of w.entries.items))
        (paths_of w.directories.items)) }
    ensures error { IfErr result (λ e. IsRefusal (L.tree lister.old) (L.refuses lister.new) e) }
{
    let mut walked = match visit(alloc, lister, top) {
        Ok(walked) => walked,
        Err(e) => return Err(e),
    };
    match sort(&mut walked.entries) {
        Ok(()) => Ok(walked),
        Err(_) => Err(WalkError::OutOfMemory),
    }
}
