//! The check of a romfs image.
ghost use Rattle.std.specs.Prelude.{◌≡◌, ◌≤◌, ◌<◌, ◌^◌, length, IfOk, IfErr, min};

use crate::image::Romfs;
use crate::phases::later_fault;
use crate::superblock::read_superblock;
use record_forest::traverse;
use rom_fields::CheckError;
use rom_tree::{Limits, Viewed};
use std::alloc::Global;

impl<'a> Romfs<'a> {
    ghost use Rattle.romfs_image.specs.Checked.{Shows, IsRefused, IsLeastAnswer};
    ghost use Rattle.romfs_format.specs.Faults.{HasNoFault};
    ghost use Rattle.rom_tree.specs.Tree.{IsShallow};
    ghost use Rattle.romfs_image.specs.Reported.{report_of};

    /// Checks these bytes, and returns their image if they hold the tree of a romfs image within
    /// the limits (a depth limit above 64 counts as 64). Otherwise returns their least fault, by
    /// phases: the image as a whole, the count of references, records, references, depth, extents,
    /// names (`romfs_format/specs/Faults.antt`).
    ///
    /// Returns `OutOfMemory` if memory is refused. For r records, the time grows as r log r, and
    /// the memory is some 120 bytes a record (this is not proved).
    pub fn check(alloc: Global, bytes: &'a [u8], limits: Limits) -> Result<Romfs<'a>, CheckError>
        ensures ok { IfOk result (λ v. Shows bytes.now limits (⟦<Romfs<'a> as Viewed>⟧.image v)
            (report_of v)) }
        ensures shallow { IfOk result (λ v. IsShallow (⟦<Romfs<'a> as Viewed>⟧.image v).tree) }
        ensures clean { IfOk result (λ v. HasNoFault bytes.now limits.references limits.depth) }
        ensures fault { IfErr result (IsRefused bytes.now limits) }
        ensures least { IfErr result (IsLeastAnswer bytes.now limits) }
    {
        let b = read_superblock(bytes)?;
        let rows = traverse(alloc, &b, limits.references)?;
        let list = rows.as_slice();
        match later_fault(alloc, &b, list, limits.depth.min(64))? {
            None => Ok(Romfs::opened(bytes, b, list, limits)),
            Some(fault) => Err(fault.into()),
        }
    }
}
