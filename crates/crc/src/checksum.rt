//! The checksum of bytes.
ghost use Rattle.std.specs.Prelude.{◌≡◌, ◌++◌, ℕ, List};
ghost use Rattle.crc.specs.Crc.{after_bytes, crc_of};

use crate::bits::with_bytes;
use crate::blocks::with_blocks;

/// The length from which on it is faster to reduce the bytes first.
const LONG: usize = 512;

/// The remainder before the first byte, with which the last remainder is combined.
const ONES: u32 = 0xffff_ffff;

/// The remainder after these bytes.
fn remainder(c: u32, bytes: &[u8]) -> u32
    ensures { result ≡ after_bytes c bytes.now }
{
    if bytes.len() < LONG {
        return with_bytes(c, bytes);
    }
    with_blocks(c, bytes)
}

/// Returns the CRC-32 of `bytes` (ISO 3309, ITU-T V.42). That of `123456789` is cbf43926
/// (hexadecimal), and that of no bytes is 0.
pub fn crc32(bytes: &[u8]) -> u32
    ensures { result ≡ crc_of bytes.now }
{
    crc32_more(0, bytes)
}

/// Returns the CRC-32 of some bytes followed by `bytes`. `c` is the CRC-32 of the bytes before, or
/// 0 if there are none.
pub fn crc32_more(c: u32, bytes: &[u8]) -> u32
    ensures more { (xs : List ℕ) → c ≡ crc_of xs → result ≡ crc_of (xs ++ bytes.now) }
    ensures first { c ≡ 0 → result ≡ crc_of bytes.now }
{
    remainder(c ^ ONES, bytes) ^ ONES
}
