//! The texts of numbers and names, put into a sink.
ghost use Rattle.std.specs.Prelude.{◌≡◌, ◌∷◌, [], ◌++◌, ◌<◌, decimal};
ghost use Rattle.rom_fields.specs.Written.{Puts, sink};
ghost use Rattle.rom_fields.specs.Texts.{escaped, octal};

use crate::bytes::ByteWrite;
use crate::sink::put;
use itoa::Buffer;
use percent_encoding::{AsciiSet, CONTROLS, ascii_set, percent_encode};

const ESCAPED: AsciiSet = ascii_set!(CONTROLS.add(b' ').add(b'%'));

/// Puts a number of 32 bits in decimal digits.
pub fn put_decimal<W: ByteWrite>(w: &mut W, failed: &mut bool, n: u32)
    ensures { Puts (sink (W.output w.old) failed.old) (sink (W.output w.new) failed.new)
        (decimal n) }
{
    let mut buffer = Buffer::new();
    put(w, failed, buffer.format(n).as_bytes());
}

/// Puts a number of 64 bits in decimal digits.
pub fn put_long_decimal<W: ByteWrite>(w: &mut W, failed: &mut bool, n: u64)
    ensures { Puts (sink (W.output w.old) failed.old) (sink (W.output w.new) failed.new)
        (decimal n) }
{
    let mut digits = Buffer::new();
    put(w, failed, digits.format(n).as_bytes());
}

/// Puts the last four octal digits of a mode.
pub fn put_octal<W: ByteWrite>(w: &mut W, failed: &mut bool, mode: u32)
    ensures { Puts (sink (W.output w.old) failed.old) (sink (W.output w.new) failed.new)
        (octal mode) }
{
    let digits = [
        48 + (mode / 512 % 8) as u8,
        48 + (mode / 64 % 8) as u8,
        48 + (mode / 8 % 8) as u8,
        48 + (mode % 8) as u8,
    ];
    put(w, failed, &digits);
}

/// Puts a name. Each byte that is not a visible ASCII character, and each `%`, is escaped as `%`
/// and two upper-case hexadecimal digits.
pub fn put_escaped<W: ByteWrite>(w: &mut W, failed: &mut bool, name: &[u8])
    ensures { Puts (sink (W.output w.old) failed.old) (sink (W.output w.new) failed.new)
        (escaped name.now) }
{
    for piece in percent_encode(name, ESCAPED) {
        put(w, failed, piece.as_bytes());
    }
}
