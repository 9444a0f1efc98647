//! The extents of an image.
ghost use Rattle.std.specs.Prelude.{◌≡◌, ◌≤◌, ◌^◌, ℕ, length, IfOk, OnOk};
ghost use Rattle.image_info.specs.Gaps.{IsChecked};
ghost use Rattle.cramfs_format.specs.Made.{IsCramfs};
ghost use Rattle.image_info.specs.Held.{HoldsRomfs, HoldsCramfs};
ghost use Rattle.romfs_format.specs.Superblock.{accessible as romfs_accessible};
ghost use Rattle.cramfs_format.specs.Superblock.{accessible as cramfs_accessible};
ghost use Rattle.image_extents.specs.Sorted.{AreBlocks, AreCramfs, AreOf, AreRomfs, IsInOrder};

use crate::cramfs_records::add_cramfs;
use crate::extent::{Extent, Extents};
use crate::order::are_apart;
use crate::romfs_records::add_romfs;
use crate::tables::none_next;
use cramfs_format::Order;
use cramfs_format::superblock::accessible_size;
use image_check::AnyImage;
use rom_fields::OutOfMemory;
use rom_tree::TreeImage;
use romfs_format::superblock::stated_size;
use std::alloc::Global;

/// Sorts extents by their offset. Those of one offset stay in their order.
fn sort(extents: &mut Vec<Extent>) -> Result<(), OutOfMemory>
    ensures { OnOk result (IsInOrder extents.old.items extents.new.items) }
{
    extents.sort_by_key(|x| x.start)?;
    Ok(())
}

/// The extents of a romfs image whose root is at `root`.
fn romfs_extents<'a>(alloc: Global, all: &'a [u8], root: u32) -> Result<Extents<'a>, OutOfMemory>
    requires { HoldsRomfs all.now root }
    ensures { IfOk result (AreRomfs (romfs_accessible all.now) root) }
{
    let bytes = &all[..stated_size(all) as usize];
    let mut records = Vec::new(alloc);
    let mut extents = Vec::new(alloc);
    add_romfs(alloc, &mut records, &mut extents, bytes, root)?;
    sort(&mut extents)?;
    let next = none_next(alloc, &records)?;
    Ok(Extents {
        bytes,
        records,
        next,
        extents,
    })
}

/// The extents of a cramfs image.
fn cramfs_extents<'a>(
    alloc: Global,
    order: Order,
    bytes: &'a [u8],
    joined: bool,
) -> Result<Extents<'a>, OutOfMemory>
    requires { (k : ℕ) × (k ≤ 2 ^ 32) × IsCramfs order bytes.now k }
    ensures { IfOk result (AreBlocks joined order bytes.now) }
{
    let mut records = Vec::new(alloc);
    let mut extents = Vec::new(alloc);
    let next = add_cramfs(alloc, &mut records, &mut extents, order, bytes, joined)?;
    sort(&mut extents)?;
    Ok(Extents {
        bytes,
        records,
        next,
        extents,
    })
}

/// The extents of a cramfs image. Blocks of a file that follow one another are joined, unless files
/// share blocks so that joined extents would overlap.
fn joined_extents<'a>(
    alloc: Global,
    order: Order,
    all: &'a [u8],
) -> Result<Extents<'a>, OutOfMemory>
    requires { HoldsCramfs order all.now }
    ensures { IfOk result (AreCramfs order (cramfs_accessible order all.now)) }
{
    let bytes = &all[..accessible_size(order, all) as usize];
    let joined = cramfs_extents(alloc, order, bytes, true)?;
    if are_apart(&joined.extents) {
        return Ok(joined);
    }
    let single = cramfs_extents(alloc, order, bytes, false)?;
    Ok(single)
}

/// Collects the records of a checked image with their extents. Those of records with the same block
/// pointers are collected once. For n bytes of the image, the time is n log n, and the memory grows
/// with n.
///
/// # Errors
///
/// `OutOfMemory` if memory was refused.
pub fn extents<'a>(alloc: Global, image: &AnyImage<'a>) -> Result<Extents<'a>, OutOfMemory>
    requires { IsChecked image.now }
    ensures { IfOk result (AreOf image.now) }
{
    match image {
        AnyImage::Romfs(image) => romfs_extents(alloc, image.bytes(), image.parts().root),
        AnyImage::Cramfs(image) => joined_extents(alloc, image.parts().order, image.bytes()),
    }
}
