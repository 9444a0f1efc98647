//! Lines of a key and a value.
ghost use Rattle.std.specs.Prelude.{◌≡◌, ◌<◌, decimal};
ghost use Rattle.rom_fields.specs.Written.{Puts, sink};
ghost use Rattle.image_info.specs.Info.{plain_line, text_line, number_line, word_line};

use crate::put_eight_digits;
use rom_fields::{ByteWrite, put, put_escaped, put_long_decimal};

/// Puts a key, a text as it is, and a line feed.
pub(crate) fn put_plain<W: ByteWrite>(w: &mut W, failed: &mut bool, key: &[u8], text: &[u8])
    ensures { Puts (sink (W.output w.old) failed.old) (sink (W.output w.new) failed.new)
        (plain_line key.now text.now) }
{
    put(w, failed, key);
    put(w, failed, text);
    put(w, failed, b"\n");
}

/// Puts a key, an escaped text, and a line feed.
pub(crate) fn put_text<W: ByteWrite>(w: &mut W, failed: &mut bool, key: &[u8], text: &[u8])
    ensures { Puts (sink (W.output w.old) failed.old) (sink (W.output w.new) failed.new)
        (text_line key.now text.now) }
{
    put(w, failed, key);
    put_escaped(w, failed, text);
    put(w, failed, b"\n");
}

/// Puts a key, a number in decimal digits, and a line feed.
pub(crate) fn put_number<W: ByteWrite>(w: &mut W, failed: &mut bool, key: &[u8], n: u64)
    ensures { Puts (sink (W.output w.old) failed.old) (sink (W.output w.new) failed.new)
        (number_line key.now n) }
{
    put(w, failed, key);
    put_long_decimal(w, failed, n);
    put(w, failed, b"\n");
}

/// Puts a key, `0x`, the eight hexadecimal digits of a word, and a line feed.
pub(crate) fn put_word<W: ByteWrite>(w: &mut W, failed: &mut bool, key: &[u8], n: u32)
    ensures { Puts (sink (W.output w.old) failed.old) (sink (W.output w.new) failed.new)
        (word_line key.now n) }
{
    put(w, failed, key);
    put(w, failed, b"0x");
    put_eight_digits(w, failed, n as u64);
    put(w, failed, b"\n");
}
