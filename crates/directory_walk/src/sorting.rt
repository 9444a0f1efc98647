//! The order of entries.
ghost use Rattle.std.specs.Prelude.{OnOk, IsPermutation};
ghost use Rattle.directory_walk.specs.Trees.{AreInOrder};
ghost use Rattle.directory_walk.specs.Views.{names_of};

use crate::lister::Entry;
use rom_fields::OutOfMemory;

/// Sorts entries by the bytes of their paths.
pub(crate) fn sort<T: Drop>(entries: &mut Vec<Entry<T>>) -> Result<(), OutOfMemory>
    ensures same { OnOk result (IsPermutation (names_of entries.old.items)
        (names_of entries.new.items)) }
    ensures order { OnOk result (AreInOrder (names_of entries.new.items)) }
{
    entries.sort_by(|a, b| a.path.cmp(&b.path))?;
    Ok(())
}
