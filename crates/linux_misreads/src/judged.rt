//! What Linux misreads in a name, whether it is in an image or only in a plan.
ghost use Rattle.std.specs.Prelude.{◌≡◌};
ghost use Rattle.linux_misreads.specs.Differences.{cramfs_misreads as misread_in_cramfs};
ghost use Rattle.linux_misreads.specs.Differences.{romfs_misreads as misread_in_romfs};

use crate::differences::{
    is_cut_name, is_cut_text, is_in_whole_blocks, is_not_found, is_other_device, is_other_root,
    is_read_elsewhere,
};
use crate::known::is_other_file;
use crate::readers::romfs_finds;
use crate::seen::{Known, Place, Seen, known_of};

/// What Linux misreads in a name of romfs. The numbers are those of the lines of `misreads`.
#[derive(Clone, Copy)]
pub struct RomfsMisreads {
    /// 3: fewer bytes of the name are listed.
    pub name_cut: bool,
    /// 4: the name is not found.
    pub name_too_long: bool,
    /// 6: the device has other numbers.
    pub device: bool,
    /// 8: the text of the link ends before a zero.
    pub link_cut: bool,
    /// 10: the bytes are read from another offset.
    pub other_place: bool,
}

/// What Linux misreads in a name of cramfs. The numbers are those of the lines of `misreads`.
#[derive(Clone, Copy)]
pub struct CramfsMisreads {
    /// 1: the last block is read as zeros.
    pub last_block: bool,
    /// 2: another file with the same table is read.
    pub shared_table: bool,
    /// 6: the device has other numbers.
    pub device: bool,
    /// 7: the name is listed, but not found.
    pub name_padded: bool,
    /// 8: the text of the link ends before a zero.
    pub link_cut: bool,
    /// 9: the root has another mode.
    pub root_mode: bool,
}

/// Returns what Linux misreads in a name of romfs: of the name itself, which is empty for the root,
/// of the text of its file if that is a link, of the file, and of the place of its bytes if it has
/// any.
pub fn romfs_misreads(name: &[u8], text: &[u8], seen: Seen, place: Option<Place>) -> RomfsMisreads
    ensures { result ≡ misread_in_romfs name.now text.now seen place }
{
    RomfsMisreads {
        name_cut: is_cut_name(name),
        name_too_long: !romfs_finds(name),
        device: is_other_device(seen),
        link_cut: is_cut_text(text),
        other_place: is_read_elsewhere(name, place),
    }
}

/// Returns what Linux misreads in a name of cramfs: of the name itself, which is empty for the root
/// and has `room` bytes in its record, of the text of its file if that is a link, and of the file.
/// `kept` is what Linux keeps of the first file with its table, if it has one.
pub fn cramfs_misreads(
    name: &[u8],
    text: &[u8],
    seen: Seen,
    room: usize,
    kept: Option<Known>,
) -> CramfsMisreads
    ensures { result ≡ misread_in_cramfs name.now text.now seen room kept }
{
    CramfsMisreads {
        last_block: is_in_whole_blocks(seen),
        shared_table: is_other_file(known_of(seen), kept),
        device: is_other_device(seen),
        name_padded: is_not_found(name, room),
        link_cut: is_cut_text(text),
        root_mode: is_other_root(name, seen.mode),
    }
}
