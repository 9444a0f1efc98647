//! The check of a cramfs image.
ghost use Rattle.std.specs.Prelude.{◌≡◌, ◌≤◌, IfOk, IfErr};

use crate::image::Cramfs;
use crate::phases::later_fault;
use crate::superblock::read_superblock;
use record_forest::traverse;
use rom_fields::CheckError;
use rom_tree::{Limits, Viewed};
use std::alloc::Global;

impl<'a> Cramfs<'a> {
    ghost use Rattle.cramfs_format.specs.Superblock.{order_of};
    ghost use Rattle.cramfs_format.specs.Faults.{HasNoFault};
    ghost use Rattle.cramfs_image.specs.Checked.{Shows, IsRefused, IsLeastAnswer};
    ghost use Rattle.rom_tree.specs.Tree.{IsShallow};
    ghost use Rattle.cramfs_image.specs.Reported.{order_in, report_of};

    /// Checks these bytes, and returns their image if they hold the tree of a cramfs image within
    /// the limits (a depth limit above 64 counts as 64). Otherwise returns their least fault, by
    /// phases: the image as a whole, the count of references, records, references, depth, extents,
    /// names (`cramfs_format/specs/Faults.antt`). The bytes are read as big-endian if they begin
    /// with `28 cd 3d 45`, otherwise as little-endian.
    ///
    /// Returns `OutOfMemory` if memory is refused. For r records and w block pointers, the time
    /// grows as n log n, with n = r + w. The memory is some 120 bytes a record, and 24 for each
    /// whole block that does not begin where the one before it in its file ends. (Time and memory
    /// are not proved.)
    pub fn check(alloc: Global, bytes: &'a [u8], limits: Limits) -> Result<Cramfs<'a>, CheckError>
        ensures ok { IfOk result (λ v. Shows (order_of bytes.now) bytes.now limits
            (⟦<Cramfs<'a> as Viewed>⟧.image v) (report_of v)) }
        ensures order { IfOk result (λ v. order_in v ≡ order_of bytes.now) }
        ensures shallow { IfOk result (λ v. IsShallow (⟦<Cramfs<'a> as Viewed>⟧.image v).tree) }
        ensures clean { IfOk result (λ v. HasNoFault
            (order_of bytes.now) bytes.now limits.references limits.depth) }
        ensures fault { IfErr result (IsRefused bytes.now limits) }
        ensures least { IfErr result (IsLeastAnswer (order_of bytes.now) bytes.now limits) }
    {
        let b = read_superblock(bytes)?;
        let rows = traverse(alloc, &b, limits.references)?;
        let list = rows.as_slice();
        match later_fault(alloc, &b, list, limits.depth.min(64))? {
            None => Ok(Cramfs::opened(bytes, b, list, limits)),
            Some(fault) => Err(fault.into()),
        }
    }
}
