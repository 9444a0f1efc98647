//! The extents of an image, and the first offset at which two of them overlap.
use crate::memory::OutOfMemory;
use crate::span::{Extent, Span, least_overlap};
use std::alloc::Global;
use std::marker::Model;

/// A list of extents, none of them empty.
#[derive(Drop)]
pub struct Extents {
    spans: Vec<Span>,
}

impl Model for Extents {
    ghost use Rattle.std.specs.Prelude.{List};
    ghost use Rattle.rom_fields.specs.declared.span.Span.{Span};

    ghost Value = { List Span };

    ghost view = { λ s. s.spans.items };
}

impl Extents {
    ghost use Rattle.std.specs.Prelude.{◌≡◌, ◌+◌, ◌<◌, ◌^◌, [], ◌∷◌, ◌++◌, OnOk, OnErr};
    ghost use Rattle.std.specs.Prelude.{IsPermutation};
    ghost use Rattle.rom_fields.specs.Extents.{added, OverlapsAt, IsLeastOf};

    /// Makes an empty list. Allocates no memory.
    pub fn new(alloc: Global) -> Extents
        ensures { result ≡ [] }
    {
        Extents {
            spans: Vec::new(alloc),
        }
    }

    /// Adds an extent at the end. An extent of length 0 is ignored. If memory is refused, the list
    /// is unchanged.
    pub fn add(&mut self, kind: Extent, start: u32, len: u32) -> Result<(), OutOfMemory>
        requires { start + len < 2 ^ 32 }
        ensures ok { OnOk result (self.new ≡ self.old ++ added kind start len) }
        ensures err { OnErr result (self.new ≡ self.old) }
    {
        if len > 0 {
            self.spans.push(Span { kind, start, len })?;
        }
        Ok(())
    }

    /// Returns the least offset at which two of the extents overlap, or `None` if no two do. Two
    /// extents overlap at the greater of their starts. The extents stay the same, perhaps in
    /// another order.
    pub fn first_overlap(&mut self) -> Option<u32>
        ensures least { IsLeastOf (OverlapsAt self.old) result }
        ensures kept { IsPermutation self.new self.old }
    {
        least_overlap(&mut self.spans)
    }
}
