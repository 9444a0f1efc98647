//! Extents in a list, in order.
ghost use Rattle.std.specs.Prelude.{◌≡◌, ◌++◌, OnOk};
ghost use Rattle.std.specs.Bool.{OnTrue};
ghost use Rattle.image_extents.specs.Found.{found};
ghost use Rattle.image_extents.specs.Apart.{AreApart, Follows};

use crate::extent::{Extent, Kind, end};
use rom_fields::OutOfMemory;

/// Adds an extent of a record at the end. One with no byte is ignored.
pub(crate) fn add(
    extents: &mut Vec<Extent>,
    kind: Kind,
    start: u32,
    len: u32,
    owner: usize,
) -> Result<(), OutOfMemory>
    ensures { OnOk result (extents.new.items ≡ extents.old.items ++ found kind start len 0 owner) }
{
    if len > 0 {
        extents.push(Extent {
            kind,
            start,
            len,
            offset: 0,
            owner,
        })?;
    }
    Ok(())
}

/// Whether an extent has the range of the one before it, or begins at its end or later.
fn follows(x: Extent, y: Extent) -> bool
    ensures { OnTrue result (Follows x y) }
{
    if y.start == x.start && y.len == x.len {
        return true;
    }
    end(x) <= u64::from(y.start)
}

/// Whether no two of the extents overlap, except those of one range.
pub(crate) fn are_apart(extents: &[Extent]) -> bool
    ensures { OnTrue result (AreApart extents.now) }
{
    let mut i = 1;
    while i < extents.len() {
        if !follows(extents[i - 1], extents[i]) {
            return false;
        }
        i += 1;
    }
    true
}
