//! A walk and a scan by a lister that reports its tree: the directory `t` has the file `z` and the
//! directory `a` in it, and this has the file `b`.
ghost use Rattle.std.specs.Prelude.{◌≡◌, ◌∷◌, [], true, false, codes, string_bytes, IfOk};
ghost use Rattle.std.specs.Prelude.{IsPermutation};
ghost use Rattle.directory_walk.specs.Trees.{name};
ghost use Rattle.directory_walk.specs.Views.{listed_names, names_of};

use build_commands::{Recheck, scan_directory};
use directory_walk::{Directory, Listed, Lister, Refusal, WalkError, Walked, walk};
use rom_fields::Plain;
use std::alloc::{AllocError, Global};
use std::test::Fail;

/// The lister, which has no error except refused memory.
#[derive(Drop)]
struct Fixed {
    alloc: Global,
}

/// The entries of `t`.
fn outer(alloc: Global) -> Result<Vec<Listed<bool, ()>>, AllocError>
    ensures { IfOk result (λ v. listed_names v.items
        ≡ name (codes "t/z") false false ∷ name (codes "t/a") true true ∷ []) }
{
    let mut listed = Vec::new(alloc);
    listed.push(Listed {
        path: String::from_str(alloc, "t/z")?,
        known: false,
        state: None,
    })?;
    listed.push(Listed {
        path: String::from_str(alloc, "t/a")?,
        known: true,
        state: Some(()),
    })?;
    Ok(listed)
}

/// The entries of `t/a`.
fn inner(alloc: Global) -> Result<Vec<Listed<bool, ()>>, AllocError>
    ensures { IfOk result (λ v. listed_names v.items ≡ name (codes "t/a/b") false false ∷ []) }
{
    let mut listed = Vec::new(alloc);
    listed.push(Listed {
        path: String::from_str(alloc, "t/a/b")?,
        known: false,
        state: None,
    })?;
    Ok(listed)
}

impl Lister for Fixed {
    ghost use Rattle.std.specs.Prelude.{Some, ⊤, codes, false, true};
    ghost use Rattle.directory_walk.specs.Trees.{Nil, Leaf, Branch};

    type Known = bool;

    type State = ();

    type Error = AllocError;

    ghost tree = { λ _. Some (record {
      path = codes "t";
      tree = Leaf (codes "z") false
          (Branch (codes "a") true (Leaf (codes "b") false Nil) Nil);
    }) };

    ghost refuses = { λ _ _ _. ⊤ };

    fn list(&mut self, directory: &Directory<()>) -> Result<Vec<Listed<bool, ()>>, AllocError> {
        if directory.path.as_str() == "t" {
            outer(self.alloc)
        } else {
            inner(self.alloc)
        }
    }
}

/// Why a directory is not listed.
#[derive(Drop)]
enum Unlisted {
    OutOfMemory,
    /// It may not be read.
    Denied,
}

/// The same lister, except that `a` may not be read.
#[derive(Drop)]
struct Closed {
    all: Fixed,
}

impl Lister for Closed {
    ghost use Rattle.std.specs.Prelude.{◌≡◌, None, codes};
    ghost use Rattle.library_tests.specs.declared.lister.Unlisted.TheVariants.{Denied};

    type Known = bool;

    type State = ();

    type Error = Unlisted;

    ghost tree = { λ _. None };

    ghost refuses = { λ _ path e. e ≡ Denied → path ≡ codes "t/a" };

    fn list(&mut self, directory: &Directory<()>) -> Result<Vec<Listed<bool, ()>>, Unlisted> {
        if directory.path.as_str() == "t/a" {
            return Err(Unlisted::Denied);
        }
        match self.all.list(directory) {
            Ok(listed) => Ok(listed),
            Err(AllocError) => Err(Unlisted::OutOfMemory),
        }
    }
}

/// The walk of `t`, which finds exactly these entries.
fn walked(alloc: Global, top: String) -> Result<Walked<bool, ()>, WalkError<AllocError>>
    requires { string_bytes top ≡ codes "t" }
    ensures { IfOk result (λ w. IsPermutation (name (codes "t/z") false false
        ∷ name (codes "t/a") true true ∷ name (codes "t/a/b") false false ∷ [])
        (names_of w.entries.items)) }
{
    let top = Directory {
        path: top,
        state: (),
    };
    walk(alloc, &mut Fixed { alloc }, top)
}

/// Whether the directories stayed.
#[derive(Drop)]
struct Stayed(bool);

impl Recheck for Stayed {
    ghost use Rattle.std.specs.Prelude.{◌≡◌, true, length};

    type State = ();

    type Error = ();

    ghost as_found = { λ s directories. (s.0 ≡ true) × (length directories ≡ 2) };

    fn check(&mut self, directories: &[Directory<()>]) -> Result<(), ()> {
        if self.0 && directories.len() == 2 {
            Ok(())
        } else {
            Err(())
        }
    }
}

/// What a scan of `t` prints, and whether it is done.
fn printed(alloc: Global, top: String, stayed: bool) -> (Vec<u8>, bool)
    requires { string_bytes top ≡ codes "t" }
{
    let top = Directory {
        path: top,
        state: (),
    };
    let mut out = Plain::new(Vec::new(alloc));
    let done = scan_directory(
        alloc,
        &mut Fixed { alloc },
        top,
        &mut Stayed(stayed),
        &mut out,
    );
    (out.into_inner(), done.is_ok())
}

/// The manifest of `t`.
const TEXT: &[u8] = b"dir /a 0755 0 0\nfile /a/b 0644 0 0 4 t/a/b\nfile /z 0644 0 0 4 t/z\n";

#[test]
fn scan_of_a_tree_that_is_known(rt: HostRuntime) -> Result<(), Fail> {
    for (stayed, text) in [(true, TEXT), (false, b"".as_slice())] {
        let top = String::from_str(rt.alloc(), "t")?;
        let (out, done) = printed(rt.alloc(), top, stayed);
        assert!(rt; done == stayed);
        assert!(rt; out.as_slice() == text);
    }
    Ok(())
}

/// Its entries, in the order of the bytes of their paths.
const KNOWN: [&str; 3] = ["t/a", "t/a/b", "t/z"];

#[test]
fn entries_of_a_tree_that_is_known(rt: HostRuntime) -> Result<(), Fail> {
    let top = String::from_str(rt.alloc(), "t")?;
    let Ok(walked) = walked(rt.alloc(), top) else {
        return Err(Fail::new("has memory"));
    };
    assert!(rt; walked.entries.len() == KNOWN.len());
    for (entry, path) in walked.entries.iter().zip(&KNOWN) {
        assert!(rt; entry.path.as_str() == *path);
    }
    Ok(())
}

#[test]
fn directory_that_may_not_be_read(rt: HostRuntime) -> Result<(), Fail> {
    let top = Directory {
        path: String::from_str(rt.alloc(), "t")?,
        state: (),
    };
    let all = Fixed { alloc: rt.alloc() };
    match walk(rt.alloc(), &mut Closed { all }, top) {
        Err(WalkError::Refused(Refusal { path, error })) => {
            assert!(rt; path.as_str() == "t/a");
            assert!(rt; matches!(error, Unlisted::Denied));
            Ok(())
        }
        _ => Err(Fail::new("a refusal")),
    }
}
