//! Words of 32 bits, the least byte first.
ghost use Rattle.rom_fields.specs.Written.{Puts, sink};
ghost use Rattle.image_info.specs.Description.{byte_text, word, word_text};

use rom_fields::{ByteWrite, put, put_decimal};

/// Puts a word.
pub(crate) fn put_word<W: ByteWrite>(w: &mut W, failed: &mut bool, n: u32)
    ensures { Puts (sink (W.output w.old) failed.old) (sink (W.output w.new) failed.new)
        (word n) }
{
    put(
        w,
        failed,
        &[
            (n % 256) as u8,
            (n / 256 % 256) as u8,
            (n / 65536 % 256) as u8,
            (n / 16_777_216 % 256) as u8,
        ],
    );
}

/// Puts a byte as an element of an array of C.
fn put_byte_text<W: ByteWrite>(w: &mut W, failed: &mut bool, byte: u32)
    ensures { Puts (sink (W.output w.old) failed.old) (sink (W.output w.new) failed.new)
        (byte_text byte) }
{
    put(w, failed, b" ");
    put_decimal(w, failed, byte);
    put(w, failed, b",");
}

/// Puts the bytes of a word as elements of an array of C.
pub(crate) fn put_word_text<W: ByteWrite>(w: &mut W, failed: &mut bool, n: u32)
    ensures { Puts (sink (W.output w.old) failed.old) (sink (W.output w.new) failed.new)
        (word_text n) }
{
    put_byte_text(w, failed, n % 256);
    put_byte_text(w, failed, n / 256 % 256);
    put_byte_text(w, failed, n / 65536 % 256);
    put_byte_text(w, failed, n / 16_777_216 % 256);
}
