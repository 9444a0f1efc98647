//! What each format can hold.
ghost use Rattle.std.specs.Prelude.{◌≡◌};
ghost use Rattle.formats.specs.Capacity.{capacity_of};

use crate::format::Format;
use romfs_format::disk::MOST_BYTES;

/// The most that images of a format can hold, and what they can express.
#[derive(Clone, Copy)]
pub struct Capacity {
    /// The highest owner.
    pub owner: u32,
    /// The highest group.
    pub group: u32,
    /// The highest major or minor number of a device.
    pub device: u32,
    /// The most bytes of a file.
    pub file: u64,
    /// The most bytes of a name, or `None` if only the size of the image limits it.
    pub name: Option<usize>,
    /// The most bytes of a volume's name, or `None` if only the size of the image limits it.
    pub volume: Option<usize>,
    /// Whether each file has a mode of its own. Otherwise its kind determines the mode, and of a
    /// directory or a regular file also whether it is executable.
    pub has_modes: bool,
    /// Whether a file can have further names (hard links).
    pub has_hard_links: bool,
    /// Whether the checksum is over all bytes of an image. Otherwise it is over the first 512.
    pub sums_all_bytes: bool,
}

impl Format {
    /// Returns what images of the format can hold.
    pub fn capacity(self) -> Capacity
        ensures { result ≡ capacity_of self }
    {
        match self {
            Format::Romfs => Capacity {
                owner: 0,
                group: 0,
                device: 65_535,
                file: MOST_BYTES as u64,
                name: None,
                volume: None,
                has_modes: false,
                has_hard_links: true,
                sums_all_bytes: false,
            },
            Format::Cramfs | Format::CramfsBig => Capacity {
                owner: 65_535,
                group: 255,
                device: 255,
                file: (1 << 24) - 1,
                name: Some(252),
                volume: Some(16),
                has_modes: true,
                has_hard_links: false,
                sums_all_bytes: true,
            },
        }
    }
}
