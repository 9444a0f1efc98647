//! The first difference of two slices.
ghost use Rattle.image_compare.specs.Differences.{IsFirstDifference};

use crate::contents::is_same;

/// Returns the first index at which the bytes of two slices differ, or at which exactly one of them
/// has ended. Returns `None` if they are equal.
pub(crate) fn first_difference(a: &[u8], b: &[u8]) -> Option<usize>
    ensures { IsFirstDifference a.now b.now result }
{
    if is_same(a, b) {
        return None;
    }
    let least = a.len().min(b.len());
    let mut at = 0;
    while at < least {
        if a[at] != b[at] {
            return Some(at);
        }
        at += 1;
    }
    Some(least)
}
