//! The overlaps between extents of which some are runs of whole blocks.
ghost use Rattle.std.specs.Prelude.{◌≡◌, ◌+◌, ◌%◌, ◌↔◌, IsTrue};
ghost use Rattle.std.specs.List.Sorted.{IsNonDecreasingBy};
ghost use Rattle.rom_fields.specs.declared.span.Span.{Span};
ghost use Rattle.rom_fields.specs.Extents.{OverlapsAt, IsLeastOf};
ghost use Rattle.cramfs_image.specs.Merged.{expanded, IsRun, AreInStep, Conflict, ConflictsAt};

use rom_fields::{Extent, Span, overlap};

/// Whether an extent is a run of whole blocks.
fn is_whole_run(x: Span) -> bool
    ensures { IsTrue result ↔ IsRun x }
{
    x.kind == Extent::Data && x.len % 4_096 == 0
}

/// Whether both are runs of whole blocks, of which each two are the same or have no common byte.
fn are_in_step(x: Span, y: Span) -> bool
    ensures { IsTrue result ↔ AreInStep x y }
{
    is_whole_run(x) && is_whole_run(y) && x.start % 4_096 == y.start % 4_096
}

/// Whether blocks of these extents overlap.
fn conflict(x: Span, y: Span) -> bool
    ensures { IsTrue result ↔ Conflict x y }
{
    overlap(x, y) && !are_in_step(x, y)
}

/// The offset at which an extent ends.
fn end(x: Span) -> u64
    ensures { result ≡ x.start + x.len }
{
    u64::from(x.start) + u64::from(x.len)
}

/// The least offset at which blocks of two of the extents overlap, which are sorted by their
/// starts. It is the start of the first extent that conflicts with the earlier one that reaches
/// furthest.
fn first_conflict(spans: &[Span]) -> Option<u32>
    requires { IsNonDecreasingBy (λ (x : Span). x.start) spans.now }
    ensures { IsLeastOf (ConflictsAt spans.now) result }
{
    let mut furthest = Span {
        kind: Extent::Super,
        start: 0,
        len: 0,
    };
    'spans: for x in spans {
        if conflict(furthest, *x) {
            return Some(x.start);
        }
        if end(furthest) < end(*x) {
            furthest = *x;
        }
    }
    None
}

/// Returns the least offset at which two of the extents overlap, or `None` if no two do, if each
/// run of whole blocks counts as its blocks. The extents may be reordered.
pub fn least_conflict(spans: &mut [Span]) -> Option<u32>
    ensures { IsLeastOf (OverlapsAt (expanded spans.old)) result }
{
    spans.sort_unstable_by_key(|x| x.start);
    first_conflict(spans)
}
