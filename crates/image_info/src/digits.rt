//! Hexadecimal digits.
ghost use Rattle.std.specs.Prelude.{◌≡◌, ◌<◌};
ghost use Rattle.rom_fields.specs.Written.{Puts, sink};
ghost use Rattle.image_info.specs.Map.{digit, eight_digits};

use rom_fields::{ByteWrite, put};

/// The hexadecimal digit of a number below 16.
fn digit_of(n: u8) -> u8
    requires { n < 16 }
    ensures { result ≡ digit n }
{
    if n < 10 { 48 + n } else { 87 + n }
}

/// Puts the last eight hexadecimal digits of a number, in lower case.
pub fn put_eight_digits<W: ByteWrite>(w: &mut W, failed: &mut bool, n: u64)
    ensures { Puts (sink (W.output w.old) failed.old)
        (sink (W.output w.new) failed.new) (eight_digits n) }
{
    let digits = [
        digit_of((n / 268_435_456 % 16) as u8),
        digit_of((n / 16_777_216 % 16) as u8),
        digit_of((n / 1_048_576 % 16) as u8),
        digit_of((n / 65_536 % 16) as u8),
        digit_of((n / 4096 % 16) as u8),
        digit_of((n / 256 % 16) as u8),
        digit_of((n / 16 % 16) as u8),
        digit_of((n % 16) as u8),
    ];
    put(w, failed, &digits);
}
