//! Extents of bytes, and the overlaps between them.
ghost use Rattle.std.specs.Prelude.{◌≡◌, ◌+◌, IsTrue, ◌↔◌, IsPermutation};
ghost use Rattle.std.specs.List.Sorted.{IsNonDecreasingBy};
ghost use Rattle.rom_fields.specs.declared.span.Span.{Span};
ghost use Rattle.rom_fields.specs.Extents.{is_shareable, AreShared, HaveCommonByte, Overlap};
ghost use Rattle.rom_fields.specs.Extents.{OverlapsAt, IsLeastOf};

/// What an extent of bytes holds: the superblock, a record, a directory's list, a file's block
/// table, or contents.
#[derive(Clone, Copy, PartialEq, Eq)]
pub enum Extent {
    Super,
    Record,
    List,
    Table,
    Data,
}

/// `len` bytes from `start` on, and what they hold.
#[derive(Clone, Copy, PartialEq, Eq)]
pub struct Span {
    pub kind: Extent,
    pub start: u32,
    pub len: u32,
}

/// Whether extents of this kind may be shared whole: tables and data.
fn is_shareable_kind(kind: Extent) -> bool
    ensures { result ≡ is_shareable kind }
{
    match kind {
        Extent::Super | Extent::Record | Extent::List => false,
        Extent::Table | Extent::Data => true,
    }
}

/// Whether both are tables or both data, with equal start and length.
fn are_shared(x: Span, y: Span) -> bool
    ensures { IsTrue result ↔ AreShared x y }
{
    x.kind == y.kind && is_shareable_kind(x.kind) && x.start == y.start && x.len == y.len
}

/// The offset at which an extent ends.
fn end(x: Span) -> u64
    ensures { result ≡ x.start + x.len }
{
    u64::from(x.start) + u64::from(x.len)
}

/// Whether two extents have a byte in common.
fn have_common_byte(x: Span, y: Span) -> bool
    ensures { IsTrue result ↔ HaveCommonByte x y }
{
    let first = u64::from(x.start.max(y.start));
    first < end(x) && first < end(y)
}

/// Returns whether two extents have a byte in common and are not shared.
pub fn overlap(x: Span, y: Span) -> bool
    ensures { IsTrue result ↔ Overlap x y }
{
    have_common_byte(x, y) && !are_shared(x, y)
}

/// The least offset at which two of the extents overlap, which are sorted by their starts. It is
/// the start of the first extent that overlaps the earlier one that reaches furthest.
fn first_meeting(spans: &[Span]) -> Option<u32>
    requires { IsNonDecreasingBy (λ (x : Span). x.start) spans.now }
    ensures { IsLeastOf (OverlapsAt spans.now) result }
{
    let mut furthest = Span {
        kind: Extent::Super,
        start: 0,
        len: 0,
    };
    'spans: for x in spans {
        if overlap(furthest, *x) {
            return Some(x.start);
        }
        if end(furthest) < end(*x) {
            furthest = *x;
        }
    }
    None
}

/// Returns the least offset at which two of the extents overlap, or `None` if no two do. Two
/// extents overlap at the greater of their starts. The extents stay the same, perhaps in another
/// order.
pub fn least_overlap(spans: &mut [Span]) -> Option<u32>
    ensures least { IsLeastOf (OverlapsAt spans.old) result }
    ensures kept { IsPermutation spans.new spans.old }
{
    spans.sort_unstable_by_key(|x| x.start);
    first_meeting(spans)
}
