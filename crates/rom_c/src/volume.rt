//! The name of an image's volume.
ghost use Rattle.std.specs.Prelude.{◌≡◌, ◌≢◌, ◌+◌, ◌≤◌, ◌==◌, length, if◌then◌else◌};
ghost use Rattle.image_info.specs.Volumes.{romfs_volume, cramfs_volume};
ghost use Rattle.rom_c.specs.Reported.{no_place as no_place_reported};
ghost use Rattle.rom_c.specs.Volumes.{volume_reported};

use crate::answers::{CLOSED, RomtoolPlace, no_place};
use crate::image::{OPEN, ROMFS, RomtoolImage};
use romfs_format::superblock::{upto_zero, volume};

/// Returns the name of a volume in a superblock of cramfs.
#[tactic(auto, unfolding(image_info::specs::Volumes::cramfs_volume))]
fn cramfs_volume<'a>(bytes: &'a [u8]) -> &'a [u8]
    requires { 64 ≤ length bytes.now }
    ensures { result.now ≡ cramfs_volume bytes.now }
{
    upto_zero(&bytes[48..64])
}

/// Returns the offset and the length of the name of the image's volume. The length may be 0. The
/// error is 13 if no image is open.
#[unsafe(no_mangle)]
pub extern "C" fn romtool_volume_v3(image: &RomtoolImage<'_>) -> RomtoolPlace
    ensures closed { image.now.status ≢ 1 → result ≡ no_place_reported 13 }
    ensures volume { image.now.status ≡ 1
        → result ≡ volume_reported image.now.format image.now.bytes.now }
    ensures within { image.now.status ≡ 1 → result.at + result.len ≤ length image.now.bytes.now }
{
    if image.status != OPEN {
        return no_place(CLOSED);
    }
    if image.format == ROMFS {
        return RomtoolPlace {
            error: 0,
            at: 16,
            len: volume(image.bytes).len() as u64,
        };
    }
    RomtoolPlace {
        error: 0,
        at: 48,
        len: cramfs_volume(image.bytes).len() as u64,
    }
}
