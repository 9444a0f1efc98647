//! The check of an image of romfs, or of cramfs in either byte order.
ghost use Rattle.std.specs.Prelude.{◌≡◌, ◌≤◌, IfOk, IfErr, Err};
ghost use Rattle.rom_tree.specs.Tree.{IsShallow};
ghost use Rattle.image_check.specs.Any.{any_view, report_of};
ghost use Rattle.formats.specs.Begins.{BeginsRomfs, BeginsCramfs};
ghost use Rattle.image_check.specs.Checked.{Shows, IsRefused, HasFormat};
ghost use Rattle.image_check.specs.Checked.{IsFaultless, IsLeastFaultUnder, neither};

use crate::any::AnyImage;
use cramfs_image::Cramfs;
use formats::Format;
use rom_fields::CheckError;
use rom_fields::fault::{MAGIC, SHORT};
use rom_tree::Limits;
use romfs_image::Romfs;
use std::alloc::Global;

/// The least number of bytes that can name a format.
const SHORTEST: usize = 8;

/// The fault of bytes that begin as no format.
fn neither(bytes: &[u8]) -> CheckError
    ensures { result ≡ neither bytes.now }
{
    let number = if bytes.len() < SHORTEST { SHORT } else { MAGIC };
    CheckError::Fault { number, at: 0 }
}

/// Checks these bytes, and returns their image if they hold the tree of a romfs image, or of a
/// cramfs image in either byte order, within the limits (a depth limit above 64 counts as 64).
/// Otherwise returns the least fault of the format that their first bytes name, by phases. Bytes
/// that name no format have fault 2 if they are fewer than 8, otherwise fault 3, at 0.
///
/// Returns `OutOfMemory` if memory is refused. The checks of the formats, `Romfs::check` and
/// `Cramfs::check`, state the time and the memory.
pub fn check<'a>(alloc: Global, bytes: &'a [u8], limits: Limits) -> Result<AnyImage<'a>, CheckError>
    ensures ok { IfOk result (λ v. Shows bytes.now limits (any_view v) (report_of v)) }
    ensures fault { IfErr result (IsRefused bytes.now limits) }
    ensures format { IfOk result (HasFormat bytes.now) }
    ensures shallow { IfOk result (λ v. IsShallow (any_view v).tree) }
    ensures clean { IfOk result (λ v. IsFaultless bytes.now limits) }
    ensures least { IfErr result (IsLeastFaultUnder bytes.now limits) }
    ensures neither { (BeginsRomfs bytes.now → ⊥) → (BeginsCramfs bytes.now → ⊥)
        → result ≡ Err (neither bytes.now) }
{
    let Some(format) = Format::in_bytes(bytes) else {
        return Err(neither(bytes));
    };
    match format {
        Format::Romfs => Ok(AnyImage::Romfs(Romfs::check(alloc, bytes, limits)?)),
        Format::Cramfs | Format::CramfsBig => {
            Ok(AnyImage::Cramfs(Cramfs::check(alloc, bytes, limits)?))
        }
    }
}
