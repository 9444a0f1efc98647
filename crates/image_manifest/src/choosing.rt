//! The names of an image that patterns choose.
ghost use Rattle.std.specs.Prelude.{◌≡◌, ◌<◌, ◌≤◌, ◌&&◌, ◌||◌, ℕ, List, length, map, IfOk};
ghost use Rattle.image_manifest.specs.Chosen.{AreChosen, AreWanted, directory_at, is_at};
ghost use Rattle.image_manifest.specs.Chosen.{is_chosen_by, is_named};
ghost use Rattle.image_manifest.specs.Composed.{path_at};
ghost use Rattle.path_patterns.specs.declared.pattern.Piece.{Piece as APiece};
ghost use Rattle.tree_extract.specs.Choices.{is_chosen};

use crate::composing::path_of;
use crate::naming::{Member, PATH_MAX};
use arrayvec::ArrayVec;
use path_patterns::{Piece, any_matches};
use std::alloc::{AllocError, Global};

/// Returns the index of the directory that has a member.
fn directory_of(members: &[Member<'_>], index: usize) -> Option<usize>
    requires { index < length members.now }
    ensures { result ≡ directory_at members.now index }
{
    let parent = members[index].parent?;
    if parent < index { Some(parent) } else { None }
}

/// Returns whether a pattern matches the path of a member, or its directory is wanted.
fn is_wanted(
    alloc: Global,
    members: &[Member<'_>],
    patterns: &[Vec<Piece>],
    index: usize,
    wanted: &[bool],
) -> Result<bool, AllocError>
    requires within { index < length members.now }
    requires short { length (path_at members.now index) ≤ 4095 }
    requires earlier { length wanted.now ≡ index }
    ensures { IfOk result (λ b. b ≡ (is_named (map (λ p. p.items) patterns.now) members.now index
        || is_chosen_by wanted.now (directory_at members.now index))) }
{
    let mut path: ArrayVec<u8, PATH_MAX> = ArrayVec::new();
    path_of(members, index, &mut path);
    if any_matches(alloc, patterns, path.as_slice())? {
        return Ok(true);
    }
    match directory_of(members, index) {
        Some(directory) => Ok(wanted[directory]),
        None => Ok(false),
    }
}

/// Returns which members are wanted: a pattern matches their path, or that of a directory above
/// them.
fn wanted(
    alloc: Global,
    members: &[Member<'_>],
    patterns: &[Vec<Piece>],
) -> Result<Vec<bool>, AllocError>
    requires { (i : ℕ) → length (path_at members.now i) ≤ 4095 }
    ensures { IfOk result (λ v. AreWanted (map (λ p. p.items) patterns.now) members.now v.items) }
{
    let mut found = Vec::new(alloc);
    for index in 0..members.len() {
        let is_found = is_wanted(alloc, members, patterns, index, &found)?;
        found.push(is_found)?;
    }
    Ok(found)
}

/// Chooses the directory of a member that is chosen.
fn add_directory(members: &[Member<'_>], index: usize, chosen: &mut Vec<bool>)
    requires within { index < length members.now }
    requires all { length chosen.old.items ≡ length members.now }
    ensures length { length chosen.new.items ≡ length chosen.old.items }
    ensures added { (j : ℕ) → is_chosen chosen.new.items j ≡ (is_chosen chosen.old.items j
        || (is_chosen chosen.old.items index && is_at j (directory_at members.now index))) }
{
    if !chosen[index] {
        return;
    }
    let Some(directory) = directory_of(members, index) else {
        return;
    };
    chosen[directory] = true;
}

/// Returns which members are made: those that are wanted, and the directories above them.
fn with_directories(members: &[Member<'_>], wanted: Vec<bool>) -> Vec<bool>
    requires { length wanted.items ≡ length members.now }
    ensures { (ps : List (List APiece)) → AreWanted ps members.now wanted.items
        → AreChosen ps members.now result.items }
{
    let mut chosen = wanted;
    let mut left = members.len();
    while left > 0 {
        left -= 1;
        add_directory(members, left, &mut chosen);
    }
    chosen
}

/// Returns which members patterns choose: those whose paths a pattern matches, all below them, and
/// the directories above them. The patterns are compared with a path without its first slash. It
/// takes the time of comparing each path with each pattern.
///
/// # Errors
///
/// Memory was refused.
pub(crate) fn chosen(
    alloc: Global,
    members: &[Member<'_>],
    patterns: &[Vec<Piece>],
) -> Result<Vec<bool>, AllocError>
    requires { (i : ℕ) → length (path_at members.now i) ≤ 4095 }
    ensures { IfOk result (λ v. AreChosen (map (λ p. p.items) patterns.now) members.now v.items) }
{
    let found = wanted(alloc, members, patterns)?;
    Ok(with_directories(members, found))
}
