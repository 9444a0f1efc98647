//! The extents of a checked image, whose records are traversed again.
ghost use Rattle.std.specs.Prelude.{◌≡◌, ℕ, IfOk};
ghost use Rattle.record_forest.specs.Forest.{Forest, all_rows, IsForest};
ghost use Rattle.cramfs_format.specs.Refers.{references, LeadsToSound};

use crate::accessible::Accessible;
use crate::image::Cramfs;
use crate::overlap::all_extents;
use crate::superblock::accessible_bytes;
use record_forest::{Row, TraversalError, traverse};
use rom_fields::{OutOfMemory, Span};
use rom_tree::{TreeImage, Viewed};
use std::alloc::Global;

/// The rows of an image that has at most this number of references and none of their faults.
fn rows_again(alloc: Global, b: &Accessible<'_>, most: u32) -> Result<Vec<Row>, OutOfMemory>
    requires { (f : Forest) × IsForest (references b.now.order b.now.bytes.now)
        (LeadsToSound b.now.order b.now.bytes.now) most f }
    ensures { IfOk result (λ v. (f : Forest) × (v.items
        ≡ all_rows (references b.now.order b.now.bytes.now) f)
        × IsForest (references b.now.order b.now.bytes.now)
        (LeadsToSound b.now.order b.now.bytes.now) most f) }
{
    match traverse(alloc, b, most) {
        Ok(rows) => Ok(rows),
        Err(TraversalError::OutOfMemory) => Err(OutOfMemory),
        Err(TraversalError::TooMany) => unreachable!(),
        Err(TraversalError::Record(_)) => unreachable!(),
        Err(TraversalError::Twice(_)) => unreachable!(),
    }
}

impl<'a> Cramfs<'a> {
    ghost use Rattle.std.specs.Prelude.{List};
    ghost use Rattle.rom_tree.specs.declared.types.Limits.{Limits};
    ghost use Rattle.cramfs_format.specs.Superblock.{IsSuperblock};
    ghost use Rattle.cramfs_format.specs.Tree.{IsTree, extents_of};
    ghost use Rattle.cramfs_image.specs.Checked.{Shows};
    ghost use Rattle.cramfs_image.specs.Reported.{order_in, report_of};
    ghost use Rattle.cramfs_image.specs.Extents.{AreTheSame};
    ghost use Rattle.cramfs_image.specs.Merged.{expanded};

    /// Returns the extents of an image that a check returned, the same that the check tested for
    /// overlaps: that of the superblock, that of the list of each directory, and those of the block
    /// pointers and the blocks of each file and link. Whole blocks of a file that follow each other
    /// are one extent, of a multiple of 4,096 bytes. Extents without a byte are left out. Each of
    /// the others is there at least once, and a whole block only once for each pointer, even if
    /// several files have the pointer. The superblock is first, then the lists in preorder, then
    /// the files in the order of their pointers (the order is not proved).
    ///
    /// The records are read again. For r records and w block pointers, the time grows as n log n,
    /// with n = r + w. The memory is some 120 bytes a record, and 24 for each whole block that does
    /// not begin where the one before it in its file ends. (Time and memory are not proved.)
    ///
    /// # Errors
    ///
    /// `OutOfMemory` if memory is refused.
    pub fn extents(&self, alloc: Global) -> Result<Vec<Span>, OutOfMemory>
        requires { (limits : Limits) × Shows (order_in self.now)
            (⟦<Cramfs<'a> as Viewed>⟧.image self.now).bytes limits
            (⟦<Cramfs<'a> as Viewed>⟧.image self.now) (report_of self.now) }
        ensures { IfOk result (λ v. (b : List ℕ) (most deepest : ℕ) (f : Forest)
            → IsSuperblock (order_in self.now) (⟦<Cramfs<'a> as Viewed>⟧.image self.now).bytes b
            → IsTree (order_in self.now) b most deepest f
            → AreTheSame (expanded v.items) (extents_of (order_in self.now) b
            (all_rows (references (order_in self.now) b) f))) }
    {
        let parts = self.parts();
        let Some(bytes) = accessible_bytes(parts.order, self.bytes()) else {
            unreachable!();
        };
        let b = Accessible {
            bytes,
            order: parts.order,
        };
        let rows = rows_again(alloc, &b, parts.references)?;
        all_extents(alloc, &b, &rows)
    }
}
