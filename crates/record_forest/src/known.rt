//! Ranges of numbers of which something is known.
ghost use Rattle.std.specs.Prelude.{◌≡◌, ◌≤◌, ◌<◌, ◌⊎◌, ℕ, IfSome, Some, None};
ghost use Rattle.record_forest.specs.Known.{end_of, IsPartOf};

use std::alloc::Global;
use std::collections::BTreeMap;

/// The numbers from `start` to `end`, without `end`.
#[derive(Clone, Copy, PartialEq, Eq)]
pub struct Range {
    pub start: u32,
    pub end: u32,
}

/// Ranges of numbers that were found valid, so that they need not be looked at again. If memory is
/// refused, a range is not kept, and its numbers are looked at again.
#[derive(Drop)]
pub struct VerifiedRanges {
    ends: BTreeMap<u32, u32, Global>,
}

impl VerifiedRanges {
    /// Makes an empty set. Allocates no memory.
    pub fn new(alloc: Global) -> VerifiedRanges
        ensures { (start : ℕ) → end_of result start ≡ None }
    {
        VerifiedRanges {
            ends: BTreeMap::new(alloc),
        }
    }

    /// Looks at the range with the greatest start up to `at`. Removes and returns it if it has
    /// `at`.
    pub fn take(&mut self, at: u32) -> Option<Range>
        ensures range { IfSome result (λ x. end_of self.old x.start ≡ Some x.end) }
        ensures has { IfSome result (λ x. (x.start ≤ at) × (at < x.end)) }
        ensures rest { IsPartOf self.new self.old }
    {
        let (start, end) = match self.ends.range(..=at).next_back() {
            Some((start, end)) => (*start, *end),
            None => return None,
        };
        if end <= at {
            return None;
        }
        self.ends.remove(&start);
        Some(Range { start, end })
    }

    /// Adds a range, unless memory is refused.
    pub fn note(&mut self, range: Range)
        ensures { (start end : ℕ) → end_of self.new start ≡ Some end
            → (end_of self.old start ≡ Some end) ⊎ ((start ≡ range.start) × (end ≡ range.end)) }
    {
        let _ = self.ends.insert(range.start, range.end);
    }
}
