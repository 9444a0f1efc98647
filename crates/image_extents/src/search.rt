//! Searches among extents in order.
ghost use Rattle.std.specs.Prelude.{◌≡◌, ◌<◌, ◌≤◌, length};
ghost use Rattle.std.specs.List.Sorted.{IsNonDecreasingBy, IsPartitionPoint};
ghost use Rattle.image_extents.specs.Lines.{starting};
ghost use Rattle.image_extents.specs.Sorted.{start_of};

use crate::extent::Extent;

/// The number of extents that begin before the offset `limit`, found by halving.
pub(crate) fn begun(extents: &[Extent], limit: u64) -> usize
    requires { IsNonDecreasingBy start_of extents.now }
    ensures within { result ≤ length extents.now }
    ensures parts { IsPartitionPoint (λ x. x.start < limit) (λ x. limit ≤ x.start) extents.now
        result }
{
    let mut low = 0;
    let mut high = extents.len();
    while low < high {
        let middle = low + (high - low) / 2;
        if u64::from(extents[middle].start) < limit {
            low = middle + 1;
        } else {
            high = middle;
        }
    }
    low
}

/// The extents that begin at an offset.
pub(crate) fn run_at<'a>(extents: &'a [Extent], start: u32) -> &'a [Extent]
    requires { IsNonDecreasingBy start_of extents.now }
    ensures { result.now ≡ starting start extents.now }
{
    let start = u64::from(start);
    let first = begun(extents, start);
    let next = begun(extents, start + 1);
    &extents[first..next]
}
