//! The choice of some members of a tree.
ghost use Rattle.std.specs.Prelude.{◌≡◌, ◌<◌, ◌&&◌, ℕ, None, get_or, length, IfOk, IfSome};
ghost use Rattle.std.specs.Prelude.{if◌then◌else◌};
ghost use Rattle.tree_extract.specs.Choices.{kind_in, kinds_chosen, file_by, is_file_at, or_at};
ghost use Rattle.tree_extract.specs.Choices.{name_by, kind_after};
ghost use Rattle.tree_extract.specs.declared.tree.Kind.TheVariants.{Further as AFurther};

use crate::tree::Kind;
use std::alloc::{AllocError, Global};

/// Returns the index of the first name of the file that the member of this kind and index names.
fn file_of(kind: Kind, index: usize) -> Option<usize>
    ensures { result ≡ file_by kind index }
{
    match kind {
        Kind::File => Some(index),
        Kind::Further(first) => Some(first),
        Kind::Directory | Kind::Symlink | Kind::Nothing => None,
    }
}

/// Returns what is made of a name of a file, by the first name of it that is made.
fn name_of(first: Option<usize>) -> Kind
    ensures { result ≡ name_by first }
{
    match first {
        None => Kind::File,
        Some(first) => Kind::Further(first),
    }
}

/// Returns what is made of a member, and notes its index if it is the first name of its file that
/// is made.
fn choice(kind: Kind, index: usize, is_chosen: bool, firsts: &mut Vec<Option<usize>>) -> Kind
    requires { IfSome (file_by kind index) (λ file. file < length firsts.old.items) }
    ensures kind { result ≡ kind_after is_chosen firsts.old.items index kind }
    ensures length { length firsts.new.items ≡ length firsts.old.items }
    ensures noted { (f : ℕ) → get_or firsts.new.items f None
        ≡ or_at (get_or firsts.old.items f None)
        (is_chosen && is_file_at f (file_by kind index)) index }
{
    if !is_chosen {
        return Kind::Nothing;
    }
    let Some(file) = file_of(kind, index) else {
        return kind;
    };
    let first = firsts[file];
    if first.is_none() {
        firsts[file] = Some(index);
    }
    name_of(first)
}

/// Returns what is made of the members of a tree, which are of these kinds, if only those are made
/// that are chosen: nothing of the others. The first chosen name of a file is the file, and each
/// other one a further name of it. It takes time and memory for each member.
///
/// # Errors
///
/// Memory was refused.
pub fn choose(alloc: Global, kinds: &[Kind], chosen: &[bool]) -> Result<Vec<Kind>, AllocError>
    requires all { length chosen.now ≡ length kinds.now }
    requires further { (i first : ℕ) → i < length kinds.now
        → kind_in kinds.now i ≡ AFurther first → first < length kinds.now }
    ensures { IfOk result (λ v. v.items ≡ kinds_chosen kinds.now chosen.now) }
{
    let mut firsts = Vec::new(alloc);
    firsts.resize(kinds.len(), None)?;
    let mut made = Vec::new(alloc);
    for index in 0..kinds.len() {
        made.push(choice(kinds[index], index, chosen[index], &mut firsts))?;
    }
    Ok(made)
}
