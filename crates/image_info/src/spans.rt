//! The number of bytes that are in none of some extents.
ghost use Rattle.std.specs.Prelude.{◌≡◌, ◌+◌, min};
ghost use Rattle.std.specs.List.Sorted.{IsNonDecreasingBy};
ghost use Rattle.rom_fields.specs.declared.span.Span.{Span};
ghost use Rattle.image_info.specs.Unused.{unused};

use rom_fields::Span;

/// The offset among `size` bytes at which an extent ends.
fn end_within(x: Span, size: u32) -> u32
    ensures { result ≡ min (x.start + x.len) size }
{
    x.start.saturating_add(x.len).min(size)
}

/// The number of bytes, of `size`, in none of the extents, which are sorted by their starts.
fn left_by(spans: &[Span], size: u32) -> u32
    requires { IsNonDecreasingBy (λ (x : Span). x.start) spans.now }
    ensures { result ≡ unused spans.now 0 size }
{
    let mut left: u32 = 0;
    let mut reach: u32 = 0;
    'spans: for x in spans {
        left += x.start.min(size).saturating_sub(reach);
        reach = reach.max(end_within(*x, size));
    }
    left + (size - reach)
}

/// The number of bytes, of `size`, in none of the extents, which may be reordered. For n extents,
/// the time grows as n log n (this is not proved).
pub(crate) fn unused_bytes(spans: &mut [Span], size: u32) -> u32
    ensures { result ≡ unused spans.old 0 size }
{
    spans.sort_unstable_by_key(|x| x.start);
    left_by(spans, size)
}
