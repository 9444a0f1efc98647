//! The count of the bytes that nothing uses.
ghost use Rattle.std.specs.Prelude.{◌≡◌, IfOk};
ghost use Rattle.image_check.specs.declared.any.AnyImage.TheVariants.{Romfs as InRomfs};
ghost use Rattle.image_check.specs.declared.any.AnyImage.TheVariants.{Cramfs as InCramfs};
ghost use Rattle.image_info.specs.Gaps.{gaps_of, IsChecked};

use crate::spans::unused_bytes;
use cramfs_format::superblock::accessible_size;
use cramfs_image::Cramfs;
use rom_fields::OutOfMemory;
use rom_tree::TreeImage;
use romfs_format::superblock::stated_size;
use romfs_image::Romfs;
use std::alloc::Global;

/// Does the same as `count_gaps` for a romfs image.
pub(crate) fn count_romfs(alloc: Global, image: &Romfs<'_>) -> Result<u32, OutOfMemory>
    requires { IsChecked (InRomfs image.now) }
    ensures { IfOk result (λ n. n ≡ gaps_of (InRomfs image.now)) }
{
    let size = stated_size(image.bytes());
    let mut spans = image.extents(alloc)?;
    Ok(unused_bytes(&mut spans, size))
}

/// Does the same as `count_gaps` for a cramfs image.
pub(crate) fn count_cramfs(alloc: Global, image: &Cramfs<'_>) -> Result<u32, OutOfMemory>
    requires { IsChecked (InCramfs image.now) }
    ensures { IfOk result (λ n. n ≡ gaps_of (InCramfs image.now)) }
{
    let size = accessible_size(image.parts().order, image.bytes());
    let mut spans = image.extents(alloc)?;
    Ok(unused_bytes(&mut spans, size))
}
