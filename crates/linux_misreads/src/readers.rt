//! The reading of the fields of a record by Linux.
ghost use Rattle.std.specs.Prelude.{◌≡◌, ◌+◌, ◌≤◌, ◌<◌, ◌^◌, length};
ghost use Rattle.linux_misreads.specs.Readers.{device_number as number_of, names_device as names};
ghost use Rattle.linux_misreads.specs.Readers.{old_device as old_number, romfs_data as data_of};
ghost use Rattle.linux_misreads.specs.Readers.{cramfs_finds as finds, romfs_finds as finds_romfs};
ghost use Rattle.linux_misreads.specs.Readers.{listed_len as len_listed, romfs_root as root_of};

use romfs_format::superblock::upto_zero;

/// Returns the number of a device in Linux.
pub fn device_number(major: u32, minor: u32) -> u64
    ensures { result ≡ number_of major minor }
{
    (u64::from(major) * (1 << 20) + u64::from(minor)) % (1 << 32)
}

/// Returns the number in Linux of a device of which 16 bits are kept.
pub fn old_device(bits: u32) -> u64
    ensures { result ≡ old_number bits }
{
    device_number(bits % (1 << 16) / (1 << 8), bits % (1 << 8))
}

/// Whether a device's number has this major and this minor number.
pub(crate) fn names_device(number: u64, major: u32, minor: u32) -> bool
    ensures { result ≡ names number major minor }
{
    number / (1 << 20) == u64::from(major) && number % (1 << 20) == u64::from(minor)
}

/// The number of bytes of a romfs name that Linux lists.
pub(crate) fn listed_len(name: &[u8]) -> usize
    ensures { result ≡ len_listed name.now }
{
    name.len().min(127)
}

/// Whether Linux finds a name of romfs.
pub(crate) fn romfs_finds(name: &[u8]) -> bool
    ensures { result ≡ finds_romfs name.now }
{
    !(128 < name.len())
}

/// Returns the offset that Linux uses for the root of romfs, behind a volume's name.
pub fn romfs_root(volume: &[u8]) -> usize
    ensures { result ≡ root_of volume.now }
{
    (16 + volume.len().min(128) + 1 + 15) / 16 * 16
}

/// The offset from which Linux reads the data of the record at `at` in a romfs image.
pub(crate) fn romfs_data(b: &[u8], at: u32) -> u64
    requires { at + 16 ≤ length b.now }
    ensures { result ≡ data_of b.now at }
{
    let name = upto_zero(&b[at as usize + 16..]);
    u64::from(at) + (16 + name.len().min(128) as u64 + 1 + 15) / 16 * 16
}

/// Whether Linux finds a name of cramfs that has `room` bytes with its padding.
pub(crate) fn cramfs_finds(name: &[u8], room: usize) -> bool
    ensures { result ≡ finds name.now room }
{
    (name.len() + 3) / 4 * 4 == room
}
