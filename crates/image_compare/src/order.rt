//! The order of names by path.
ghost use Rattle.std.specs.Prelude.{◌≡◌, ℕ, List, length};
ghost use Rattle.std.specs.Cmp.Lexicographic.{slice_cmp};
ghost use Rattle.std.specs.Ordering.{nat_cmp, is_lt};
ghost use Rattle.image_compare.specs.Directories.{AreWays};
ghost use Rattle.image_compare.specs.Rows.{row_path};

use crate::directories::{Directory, byte_of, len_at, meeting};
use crate::rows::Row;
use std::cmp::Ordering;

/// Whether a path comes before another one, compared as bytes.
pub(crate) fn is_before(one: &[u8], other: &[u8]) -> bool
    ensures { result ≡ is_lt (slice_cmp nat_cmp one.now other.now) }
{
    one.cmp(other).is_lt()
}

/// Returns the length of the path of a name.
fn path_len(directories: &[Directory<'_>], row: &Row<'_>) -> usize
    requires { (ws : List (List ℕ)) × AreWays directories.now ws }
    ensures { (ws : List (List ℕ)) → AreWays directories.now ws
        → result ≡ length (row_path ws row.now) }
{
    len_at(directories, row.directory) + 1 + row.name.len()
}

/// Compares the paths of two names as bytes, from the last directory on the way to both on.
pub(crate) fn compare(directories: &[Directory<'_>], one: &Row<'_>, other: &Row<'_>) -> Ordering
    requires { (ws : List (List ℕ)) × AreWays directories.now ws }
    ensures { (ws : List (List ℕ)) → AreWays directories.now ws
        → result ≡ slice_cmp nat_cmp (row_path ws one.now) (row_path ws other.now) }
{
    let from = len_at(
        directories,
        meeting(directories, one.directory, other.directory),
    );
    let len = path_len(directories, one);
    let beside = path_len(directories, other);
    for at in from..len.min(beside) {
        let x = byte_of(directories, one.directory, one.name, at);
        let y = byte_of(directories, other.directory, other.name, at);
        if x != y {
            return x.cmp(&y);
        }
    }
    len.cmp(&beside)
}
