//! Whether a pattern matches a path.
ghost use Rattle.std.specs.Prelude.{◌≡◌, ◌<◌, ◌≤◌, ◌+◌, ◌∷◌, ◌||◌, ◌&&◌, []};
ghost use Rattle.std.specs.Prelude.{IfOk, IfNone, IfSome, Bool, List, ℕ, drop};
ghost use Rattle.std.specs.Prelude.{false, get_or, length};
ghost use Rattle.std.specs.List.{list_any};
ghost use Rattle.path_patterns.specs.Patterns.{any_rest, fits, has, is_within, starts};
ghost use Rattle.path_patterns.specs.Rows.{row_of};
ghost use Rattle.path_patterns.specs.declared.pattern.Piece.{Piece};

use crate::pattern::{Piece, Range, Set};
use std::alloc::{AllocError, Global};

impl Range {
    /// Whether the character is in the range.
    fn has(&self, c: char) -> bool
        ensures { result ≡ is_within c self.now }
    {
        self.first <= c && c <= self.last
    }
}

/// Whether the character is in one of the ranges.
fn is_in_one(ranges: &[Range], c: char) -> bool
    ensures { result ≡ list_any (is_within c) ranges.now }
{
    ranges.iter().any(|range| range.has(c))
}

impl Set {
    /// Whether the character is one of the set.
    fn has(&self, c: char) -> bool
        ensures { result ≡ has self.now c }
    {
        if self.is_negated {
            !is_in_one(&self.ranges, c)
        } else {
            is_in_one(&self.ranges, c)
        }
    }
}

/// How many pieces in front of the first star match as many characters in front of a path; `None`
/// if one of them does not match its character.
fn front_of(pieces: &[Piece], path: &[char]) -> Option<usize>
    ensures some { IfSome result (λ n. (n ≤ length pieces.now) × (n ≤ length path.now)
        × (fits pieces.now path.now ≡ fits (drop n pieces.now) (drop n path.now))) }
    ensures none { IfNone result (fits pieces.now path.now ≡ false) }
{
    for n in 0..pieces.len() {
        let Piece::One(set) = &pieces[n] else {
            return Some(n);
        };
        if n >= path.len() || !set.has(path[n]) {
            return None;
        }
    }
    Some(pieces.len())
}

/// Whether no piece matches each end of a path, from the empty one to the whole.
fn row_of_none(alloc: Global, path: &[char]) -> Result<Vec<bool>, AllocError>
    ensures { IfOk result (λ row. row.items ≡ row_of (fits []) path.now) }
{
    let mut row = Vec::new(alloc);
    row.push(true)?;
    for i in 0..path.len() {
        row.push(false)?;
    }
    Ok(row)
}

/// Whether at least one of two is true.
fn either(first: bool, second: bool) -> bool
    ensures { result ≡ (first || second) }
{
    first || second
}

/// Whether both of two are true.
fn both(first: bool, second: bool) -> bool
    ensures { result ≡ (first && second) }
{
    first && second
}

/// Whether the predicate holds for an end of a path or for a shorter one. `behind` says whether it
/// holds for each end.
fn row_of_star(alloc: Global, path: &[char], behind: &[bool]) -> Result<Vec<bool>, AllocError>
    requires { length behind.now ≡ length path.now + 1 }
    ensures { (f : List ℕ → Bool) → behind.now ≡ row_of f path.now
        → IfOk result (λ row. row.items ≡ row_of (any_rest f) path.now) }
{
    let mut row = Vec::new(alloc);
    let mut is_matched = behind[0];
    row.push(is_matched)?;
    for i in 0..path.len() {
        is_matched = either(behind[i + 1], is_matched);
        row.push(is_matched)?;
    }
    Ok(row)
}

/// Whether an end of a path begins with a character of the set and the predicate holds for the
/// rest, for each end. `behind` says whether it holds for each end.
fn row_of_one(
    alloc: Global,
    set: &Set,
    path: &[char],
    behind: &[bool],
) -> Result<Vec<bool>, AllocError>
    requires { length behind.now ≡ length path.now + 1 }
    ensures { (f : List ℕ → Bool) → behind.now ≡ row_of f path.now
        → IfOk result (λ row. row.items ≡ row_of (starts set.now f) path.now) }
{
    let mut row = Vec::new(alloc);
    row.push(false)?;
    for i in 0..path.len() {
        let c = path[path.len() - 1 - i];
        row.push(both(set.has(c), behind[i]))?;
    }
    Ok(row)
}

/// Whether a piece and those after it match each end of a path.
fn row_before(
    alloc: Global,
    piece: &Piece,
    path: &[char],
    behind: &[bool],
) -> Result<Vec<bool>, AllocError>
    requires { length behind.now ≡ length path.now + 1 }
    ensures { (ps : List Piece) → behind.now ≡ row_of (fits ps) path.now
        → IfOk result (λ row. row.items ≡ row_of (fits (piece.now ∷ ps)) path.now) }
{
    match piece {
        Piece::Star => row_of_star(alloc, path, behind),
        Piece::One(set) => row_of_one(alloc, set, path, behind),
    }
}

/// Whether the pieces match each end of a path.
fn row_of_all(alloc: Global, pieces: &[Piece], path: &[char]) -> Result<Vec<bool>, AllocError>
    ensures { IfOk result (λ row. row.items ≡ row_of (fits pieces.now) path.now) }
{
    let mut row = row_of_none(alloc, path)?;
    for k in 0..pieces.len() {
        row = row_before(alloc, &pieces[pieces.len() - 1 - k], path, &row)?;
    }
    Ok(row)
}

/// An entry of a row.
fn entry_of(row: &[bool], i: usize) -> bool
    requires { i < length row.now }
    ensures { result ≡ get_or row.now i false }
{
    row[i]
}

/// Whether the pieces match the whole path.
fn match_whole(alloc: Global, pieces: &[Piece], path: &[char]) -> Result<bool, AllocError>
    ensures { IfOk result (λ b. b ≡ fits pieces.now path.now) }
{
    let row = row_of_all(alloc, pieces, path)?;
    Ok(entry_of(&row, path.len()))
}

/// Returns whether the pieces of a pattern match the whole path.
///
/// # Errors
///
/// Memory was refused.
pub fn matches(alloc: Global, pieces: &[Piece], path: &[char]) -> Result<bool, AllocError>
    ensures { IfOk result (λ b. b ≡ fits pieces.now path.now) }
{
    match front_of(pieces, path) {
        None => Ok(false),
        Some(n) => match_whole(alloc, &pieces[n..], &path[n..]),
    }
}
