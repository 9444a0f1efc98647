//! The command `scan`: a directory is walked, and the manifest of what it has is printed.
ghost use Rattle.std.specs.Prelude.{◌≡◌, Bool, List, OnOk, IfErr, string_bytes};
ghost use Rattle.build_commands.specs.ScanEnds.{IsScan, IsScanAfter};
ghost use Rattle.directory_walk.specs.Trees.{IsTop};
ghost use Rattle.directory_walk.specs.declared.lister.Directory.{Directory as Found};

use crate::printing::{PrintError, print_walked};
use directory_walk::{Directory, Lister, WalkError, walk};
use rom_fields::ByteWrite;
use std::alloc::Global;

/// What looks at directories again, after all of them were listed.
pub trait Recheck {
    /// What was noted of a directory when it was found.
    type State: Drop;

    /// The reason why directories are not as they were found, or why this is not known.
    type Error: Drop;

    // These directories are as they were found.
    ghost as_found: { Self → List (Found Self.State) → Type 0 };

    /// Checks that directories are as they were found.
    fn check(&mut self, directories: &[Directory<Self::State>]) -> Result<(), Self::Error>
        ensures { OnOk result (as_found self.new directories.now) };
}

/// The reason why the manifest of a directory was not printed.
#[derive(Drop)]
pub enum Unscanned<E: Drop, C: Drop> {
    /// A directory could not be listed, or memory was refused.
    NotWalked(WalkError<E>),
    /// A directory changed meanwhile.
    Changed(C),
    /// Memory was refused, or a write failed.
    NotPrinted(PrintError),
}

/// Lists a directory and all below it, checks that each directory is as it was found, and prints
/// the manifest of what was listed. What is told of an entry is whether it is a directory. Its path
/// in the image is its path without the one of `top`.
///
/// `Ok`: the text is a line for each entry, in the order of the bytes of their paths, and was
/// flushed. If the lister tells a tree that a manifest can describe, it is the tree's manifest.
///
/// # Errors
///
/// `NotWalked` and `Changed`: nothing was printed. `NotPrinted`: nothing if memory was refused, and
/// a prefix of the text if a write failed.
pub fn scan_directory<L: Lister<Known = bool>, C: Recheck<State = L::State>, W: ByteWrite>(
    alloc: Global,
    lister: &mut L,
    top: Directory<L::State>,
    recheck: &mut C,
    out: &mut W,
) -> Result<(), Unscanned<L::Error, C::Error>>
    requires { IsTop (L.tree lister.old) (string_bytes top.path) }
    ensures ok { OnOk result (IsScan (L.tree lister.old) (string_bytes top.path)
        (C.as_found recheck.new) (W.output out.old) (W.output out.new)) }
    ensures err { IfErr result (IsScanAfter (string_bytes top.path) (W.output out.old)
        (W.output out.new)) }
{
    let front = top.path.as_bytes().len();
    let walked = match walk(alloc, lister, top) {
        Ok(walked) => walked,
        Err(e) => return Err(Unscanned::NotWalked(e)),
    };
    if let Err(e) = recheck.check(&walked.directories) {
        return Err(Unscanned::Changed(e));
    }
    match print_walked(alloc, out, front, walked.entries) {
        Ok(()) => Ok(()),
        Err(e) => Err(Unscanned::NotPrinted(e)),
    }
}
