//! The extents of a checked image, whose records are traversed again.
ghost use Rattle.std.specs.Prelude.{◌≡◌, ℕ, IfOk};
ghost use Rattle.record_forest.specs.Forest.{Forest, all_rows, IsForest};
ghost use Rattle.romfs_format.specs.Refers.{references, LeadsToSound};

use crate::accessible::Accessible;
use crate::image::Romfs;
use crate::overlap::all_extents;
use crate::superblock::read_superblock;
use record_forest::{Row, TraversalError, traverse};
use rom_fields::{OutOfMemory, Span};
use rom_tree::{TreeImage, Viewed};
use std::alloc::Global;

/// The rows of an image whose records are those of a forest, at most this many.
fn rows_again(alloc: Global, b: &Accessible<'_>, most: u32) -> Result<Vec<Row>, OutOfMemory>
    requires { (f : Forest) × IsForest (references b.now.bytes.now b.now.root)
        (LeadsToSound b.now.bytes.now b.now.root) most f }
    ensures { IfOk result (λ v. (f : Forest)
        × (v.items ≡ all_rows (references b.now.bytes.now b.now.root) f)
        × IsForest (references b.now.bytes.now b.now.root)
        (LeadsToSound b.now.bytes.now b.now.root) most f) }
{
    match traverse(alloc, b, most) {
        Ok(rows) => Ok(rows),
        Err(error) => match error {
            TraversalError::OutOfMemory => Err(OutOfMemory),
            _ => unreachable!(),
        },
    }
}

impl<'a> Romfs<'a> {
    ghost use Rattle.std.specs.Prelude.{List};
    ghost use Rattle.rom_tree.specs.declared.types.Limits.{Limits};
    ghost use Rattle.romfs_format.specs.Tree.{IsSuperblock, IsTree, extents_of};
    ghost use Rattle.romfs_image.specs.Checked.{Shows};
    ghost use Rattle.romfs_image.specs.Reported.{report_of};

    /// Returns the extents of an image that a check returned, the same that the check tested for
    /// overlaps: that of the superblock, from 0 to the root; then for each record that of its
    /// header with its name, and that of its data if it has any. The records are in preorder: each
    /// before those of its list, and these before the next one. Extents of no bytes are left out.
    ///
    /// The records are read again. For r records, the time grows as r log r, and the memory is some
    /// 120 bytes a record, of which the result keeps 12 for each extent (this is not proved).
    ///
    /// # Errors
    ///
    /// `OutOfMemory` if memory is refused.
    pub fn extents(&self, alloc: Global) -> Result<Vec<Span>, OutOfMemory>
        requires { (limits : Limits) × Shows (⟦<Romfs<'a> as Viewed>⟧.image self.now).bytes limits
            (⟦<Romfs<'a> as Viewed>⟧.image self.now) (report_of self.now) }
        ensures { IfOk result (λ v. (b : List ℕ) (r most deepest : ℕ) (f : Forest)
            → IsSuperblock (⟦<Romfs<'a> as Viewed>⟧.image self.now).bytes b r
            → IsTree b r most deepest f
            → v.items ≡ extents_of b r (all_rows (references b r) f)) }
    {
        let Ok(b) = read_superblock(self.bytes()) else {
            unreachable!();
        };
        let rows = rows_again(alloc, &b, self.report().references)?;
        all_extents(alloc, &b, &rows)
    }
}
