//! The extraction of a tree.
ghost use Rattle.std.specs.Prelude.{◌≡◌, ◌<◌, ◌≤◌, ◌+◌, [], length, true, nat_eq, OnOk, IfErr};
ghost use Rattle.tree_extract.specs.Extracted.{IsExtracted, AreOf, is_file};
ghost use Rattle.tree_extract.specs.Members.{AreMembers, kind_at, path_at};
ghost use Rattle.tree_extract.specs.Passes.{IsRun, IsAt, IsSet, IsFileMade, IsNameMade};
ghost use Rattle.tree_extract.specs.Passes.{number, rank};
ghost use Rattle.tree_extract.specs.Safe.{AreSafe, IsNew};
ghost use Rattle.tree_extract.specs.declared.tree.Kind.TheVariants.{Further};

use crate::directory::Directory;
use crate::tree::{Kind, Tree};

/// What is made in one pass over the members. Links are made last, so that nothing is made through
/// one.
#[derive(Clone, Copy)]
enum Phase {
    Directories,
    Files,
    Links,
}

/// The reason why a tree was not extracted, and the index of the member that was not made.
#[derive(Drop)]
pub struct Stopped<E: Drop> {
    pub index: usize,
    pub error: E,
}

/// Whether members of a kind are made in a pass.
fn is_made_in(kind: Kind, phase: Phase) -> bool
    ensures { result ≡ nat_eq (rank kind) (number phase) }
{
    matches!(
        (kind, phase),
        (Kind::Directory, Phase::Directories)
            | (Kind::File | Kind::Further(_), Phase::Files)
            | (Kind::Symlink, Phase::Links)
    )
}

/// Makes a file, writes its contents, and then sets its rights.
fn make_file<T: Tree, D: Directory>(
    tree: &T,
    directory: &mut D,
    index: usize,
) -> Result<(), D::Error>
    requires within { index < length (T.members tree.now) }
    requires members { AreMembers (T.members tree.now) }
    requires same { D.members directory.old ≡ T.members tree.now }
    requires file { is_file (kind_at (T.members tree.now) index) ≡ true }
    requires run { IsRun D.fresh (T.members tree.now) (D.log directory.old) }
    requires fresh { IsNew (D.log directory.old) (path_at (T.members tree.now) index) }
    ensures same { D.members directory.new ≡ T.members tree.now }
    ensures run { IsRun D.fresh (T.members tree.now) (D.log directory.new) }
    ensures ok { OnOk result (IsFileMade D.fresh (T.members tree.now) index
        (D.log directory.old) (D.log directory.new)) }
{
    let mut file = match directory.make_file(index) {
        Ok(file) => file,
        Err(e) => return Err(e),
    };
    match tree.write_contents(index, &mut file) {
        Ok(()) => directory.finish_file(index, file),
        Err(_) => Err(directory.unwritten(file)),
    }
}

/// Makes a further name of a file; or a file of its own, if the directory cannot do that.
fn make_name<T: Tree, D: Directory>(
    tree: &T,
    directory: &mut D,
    index: usize,
    first: usize,
) -> Result<(), D::Error>
    requires within { index < length (T.members tree.now) }
    requires members { AreMembers (T.members tree.now) }
    requires same { D.members directory.old ≡ T.members tree.now }
    requires further { kind_at (T.members tree.now) index ≡ Further first }
    requires run { IsRun D.fresh (T.members tree.now) (D.log directory.old) }
    requires fresh { IsNew (D.log directory.old) (path_at (T.members tree.now) index) }
    ensures same { D.members directory.new ≡ T.members tree.now }
    ensures run { IsRun D.fresh (T.members tree.now) (D.log directory.new) }
    ensures ok { OnOk result (IsNameMade D.fresh (T.members tree.now) index first
        (D.log directory.old) (D.log directory.new)) }
{
    match directory.make_name(index, first) {
        Ok(true) => Ok(()),
        Ok(false) => make_file(tree, directory, index),
        Err(e) => Err(e),
    }
}

/// Makes a member, if it is made in this pass.
fn make<T: Tree, D: Directory>(
    tree: &T,
    directory: &mut D,
    phase: Phase,
    index: usize,
) -> Result<(), D::Error>
    requires within { index < length (T.members tree.now) }
    requires members { AreMembers (T.members tree.now) }
    requires same { D.members directory.old ≡ T.members tree.now }
    requires place { IsAt D.fresh (T.members tree.now) (number phase) index
        (D.log directory.old) }
    ensures same { D.members directory.new ≡ T.members tree.now }
    ensures run { IsRun D.fresh (T.members tree.now) (D.log directory.new) }
    ensures ok { OnOk result (IsAt D.fresh (T.members tree.now) (number phase) (index + 1)
        (D.log directory.new)) }
{
    let kind = tree.kind(index);
    if !is_made_in(kind, phase) {
        return Ok(());
    }
    match kind {
        Kind::Directory => directory.make_directory(index),
        Kind::File => make_file(tree, directory, index),
        Kind::Further(first) => make_name(tree, directory, index, first),
        Kind::Symlink => directory.make_symlink(index, tree.link_text(index)),
        Kind::Nothing => Ok(()),
    }
}

/// Makes all members of this pass.
fn make_all<T: Tree, D: Directory>(
    tree: &T,
    directory: &mut D,
    phase: Phase,
) -> Result<(), Stopped<D::Error>>
    requires members { AreMembers (T.members tree.now) }
    requires same { D.members directory.old ≡ T.members tree.now }
    requires place { IsAt D.fresh (T.members tree.now) (number phase) 0 (D.log directory.old) }
    ensures same { D.members directory.new ≡ T.members tree.now }
    ensures run { IsRun D.fresh (T.members tree.now) (D.log directory.new) }
    ensures ok { OnOk result (IsAt D.fresh (T.members tree.now) (number phase)
        (length (T.members tree.now)) (D.log directory.new)) }
    ensures err { IfErr result (λ e. e.index < length (T.members tree.now)) }
{
    for index in 0..tree.len() {
        match make(tree, directory, phase, index) {
            Ok(()) => {}
            Err(error) => return Err(Stopped { index, error }),
        }
    }
    Ok(())
}

/// Sets the rights of a member, if it is a directory.
fn finish<T: Tree, D: Directory>(tree: &T, directory: &mut D, index: usize) -> Result<(), D::Error>
    requires within { index < length (T.members tree.now) }
    requires members { AreMembers (T.members tree.now) }
    requires same { D.members directory.old ≡ T.members tree.now }
    requires place { IsSet D.fresh (T.members tree.now) (index + 1) (D.log directory.old) }
    ensures same { D.members directory.new ≡ T.members tree.now }
    ensures run { IsRun D.fresh (T.members tree.now) (D.log directory.new) }
    ensures ok { OnOk result (IsSet D.fresh (T.members tree.now) index (D.log directory.new)) }
{
    let kind = tree.kind(index);
    if !is_made_in(kind, Phase::Directories) {
        return Ok(());
    }
    directory.set_rights(index)
}

/// Sets the rights of all directories, those of inner ones first.
fn finish_all<T: Tree, D: Directory>(tree: &T, directory: &mut D) -> Result<(), Stopped<D::Error>>
    requires members { AreMembers (T.members tree.now) }
    requires same { D.members directory.old ≡ T.members tree.now }
    requires place { IsSet D.fresh (T.members tree.now) (length (T.members tree.now))
        (D.log directory.old) }
    ensures same { D.members directory.new ≡ T.members tree.now }
    ensures run { IsRun D.fresh (T.members tree.now) (D.log directory.new) }
    ensures ok { OnOk result (IsSet D.fresh (T.members tree.now) 0 (D.log directory.new)) }
    ensures err { IfErr result (λ e. e.index < length (T.members tree.now)) }
{
    let mut left = tree.len();
    while left > 0 {
        let index = left - 1;
        match finish(tree, directory, index) {
            Ok(()) => {}
            Err(error) => return Err(Stopped { index, error }),
        }
        left = index;
    }
    Ok(())
}

/// Makes the members of a tree in an empty directory: directories, then files, then symbolic links;
/// and sets the rights of the directories, those of inner ones first.
///
/// Each call is safe: its path leads down from the directory, and through no link that was made.
/// Nothing is made that is no member. At `Ok` each member was made whole. A further name is a file
/// of its own only if the directory refused to make the name.
///
/// # Errors
///
/// The directory refused a call for this member, or not all of its contents was written. What was
/// made before stays.
pub fn extract<T: Tree, D: Directory>(tree: &T, directory: &mut D) -> Result<(), Stopped<D::Error>>
    requires members { AreMembers (T.members tree.now) }
    requires same { D.members directory.old ≡ T.members tree.now }
    requires empty { D.log directory.old ≡ [] }
    ensures safe { AreSafe (D.log directory.new) }
    ensures only { AreOf D.fresh (T.members tree.now) (D.log directory.new) }
    ensures ok { OnOk result (IsExtracted D.fresh (T.members tree.now) (D.log directory.new)) }
    ensures err { IfErr result (λ e. e.index < length (T.members tree.now)) }
    ensures same { D.members directory.new ≡ T.members tree.now }
{
    make_all(tree, directory, Phase::Directories)?;
    make_all(tree, directory, Phase::Files)?;
    make_all(tree, directory, Phase::Links)?;
    finish_all(tree, directory)
}
