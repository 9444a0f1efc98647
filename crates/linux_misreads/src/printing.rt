//! All that Linux misreads in an image.
ghost use Rattle.std.specs.Prelude.{◌≡◌, ◌≤◌, IfOk};
ghost use Rattle.rom_tree.specs.Tree.{IsShallow};
ghost use Rattle.image_check.specs.Any.{any_view};
ghost use Rattle.image_info.specs.Endings.{WritesAll};
ghost use Rattle.linux_misreads.specs.Misreads.{is_printed, misreads_text};

use crate::by_format::{first_files, put_misreads, put_volume};
use image_check::AnyImage;
use image_info::InfoError;
use rom_fields::ByteWrite;
use rom_tree::Walk;
use std::alloc::Global;

/// Writes a line for each thing that Linux's reader of its format misreads in an image: that of the
/// volume, and then, in the list's order, those of each name by their numbers. Returns `true` if
/// there is a line. Directories may be 64 deep. The lines are:
///
/// - `linux 1 LastBlock PATH`: a file of cramfs that ends with a whole block;
/// - `linux 2 SharedTable PATH`: a file or a link of cramfs that has the table of an earlier one
///   with another kind, mode, owner, group or size;
/// - `linux 3 NameCut PATH`, `linux 4 NameTooLong PATH`: a name of romfs of 128 bytes, or of more;
/// - `linux 5 Volume /`: a volume's name of romfs of more than 143 bytes;
/// - `linux 6 Device PATH`: a device that has other numbers in Linux;
/// - `linux 7 NamePadded PATH`: a name of cramfs with more padding than it needs;
/// - `linux 8 LinkCut PATH`: a link whose text has a zero byte;
/// - `linux 9 RootMode /`: a root of cramfs that has another mode in Linux;
/// - `linux 10 OtherPlace PATH`: a file or a link of romfs whose bytes Linux reads from another
///   offset.
///
/// # Errors
///
/// `OutOfMemory` if memory is refused: then nothing was written. `WriteFault` if a write failed:
/// then a prefix of the lines was written.
pub fn misreads<W: ByteWrite>(
    alloc: Global,
    image: &AnyImage<'_>,
    w: &mut W,
) -> Result<bool, InfoError>
    requires { IsShallow (any_view image.now).tree }
    ensures text { WritesAll (W.output w.old) (W.output w.new) (misreads_text image.now) result }
    ensures printed { IfOk result (λ b. b ≡ is_printed (misreads_text image.now)) }
{
    let Ok(first) = first_files(alloc, image) else {
        return Err(InfoError::OutOfMemory);
    };
    let mut failed = false;
    let mut printed = put_volume(image, w, &mut failed);
    let mut walk = Walk::new();
    while !failed {
        let Some(node) = walk.next(image) else {
            return Ok(printed);
        };
        put_misreads(image, &first, w, &mut failed, &mut printed, node, &walk);
    }
    Err(InfoError::WriteFault)
}
