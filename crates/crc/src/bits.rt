//! The remainder after bytes, bit by bit.
ghost use Rattle.std.specs.Prelude.{◌≡◌};
ghost use Rattle.crc.specs.Crc.{after_bit, after_bits, after_bytes};

/// The reflected polynomial.
const POLYNOMIAL: u32 = 0xedb8_8320;

/// The remainder after one more bit.
#[tactic(auto, unfolding(crate::specs::Crc::after_bit))]
fn with_bit(c: u32, bit: u32) -> u32
    ensures { result ≡ after_bit c bit }
{
    if c % 2 == bit {
        c / 2
    } else {
        c / 2 ^ POLYNOMIAL
    }
}

/// The remainder after one more byte.
fn with_byte(c: u32, x: u8) -> u32
    ensures { result ≡ after_bits 8 c x }
{
    let mut c = c;
    let mut rest = u32::from(x);
    for i in 0..8usize {
        c = with_bit(c, rest % 2);
        rest /= 2;
    }
    c
}

/// The remainder after these bytes.
pub(crate) fn with_bytes(c: u32, bytes: &[u8]) -> u32
    ensures { result ≡ after_bytes c bytes.now }
{
    let mut c = c;
    'bytes: for x in bytes {
        c = with_byte(c, *x);
    }
    c
}
