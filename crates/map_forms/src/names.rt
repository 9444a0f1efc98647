//! C identifiers and C strings for paths.
ghost use Rattle.std.specs.Prelude.{◌≡◌};
ghost use Rattle.rom_fields.specs.Written.{Puts, sink};
ghost use Rattle.map_forms.specs.Names.{hex_digit, code_of, identifier, text_byte};
ghost use Rattle.map_forms.specs.Names.{text_of, is_letter, is_digit, is_word, are_words};
ghost use Rattle.map_forms.specs.Names.{is_prefix};

use rom_fields::{ByteWrite, put};

/// Whether a byte is an ASCII letter.
fn is_letter(byte: u8) -> bool
    ensures { result ≡ is_letter byte }
{
    (65 <= byte && byte <= 90) || (97 <= byte && byte <= 122)
}

/// Whether a byte is a digit.
fn is_digit(byte: u8) -> bool
    ensures { result ≡ is_digit byte }
{
    48 <= byte && byte <= 57
}

/// Whether a byte is a letter, a digit or an underscore.
fn is_word(byte: u8) -> bool
    ensures { result ≡ is_word byte }
{
    is_letter(byte) || is_digit(byte) || byte == b'_'
}

/// Whether all of the bytes are letters, digits and underscores.
fn are_words(bytes: &[u8]) -> bool
    ensures { result ≡ are_words bytes.now }
{
    for byte in bytes {
        let is_good = is_word(*byte);
        if !is_good {
            return false;
        }
    }
    true
}

/// Returns whether the names of a header may begin with these bytes: a letter, and letters, digits
/// and underscores after it.
pub fn is_prefix(bytes: &[u8]) -> bool
    ensures { result ≡ is_prefix bytes.now }
{
    match bytes {
        [] => false,
        [first, rest @ ..] => is_letter(*first) && are_words(rest),
    }
}

/// The lower-case hexadecimal digit of a number below 16.
fn hex_digit(n: u8) -> u8
    ensures { result ≡ hex_digit n }
{
    if n < 10 {
        48 + n
    } else if n < 16 {
        87 + n
    } else {
        102
    }
}

/// Puts what an identifier has for a byte of a path.
#[tactic(auto, unfolding(crate::specs::Names::code_of))]
fn put_code<W: ByteWrite>(w: &mut W, failed: &mut bool, byte: u8)
    ensures { Puts (sink (W.output w.old) failed.old) (sink (W.output w.new) failed.new)
        (code_of byte) }
{
    if byte == b'/' {
        put(w, failed, b"_");
    } else if byte == b'Z' {
        put(w, failed, b"ZZ");
    } else if is_letter(byte) || is_digit(byte) {
        put(w, failed, &[byte]);
    } else if byte == b'.' {
        put(w, failed, b"Zd");
    } else if byte == b'-' {
        put(w, failed, b"Zh");
    } else if byte == b'_' {
        put(w, failed, b"Zu");
    } else {
        put(
            w,
            failed,
            &[b'Z', b'x', hex_digit(byte / 16), hex_digit(byte % 16)],
        );
    }
}

/// Puts the identifier of a path after its prefix.
pub(crate) fn put_identifier<W: ByteWrite>(w: &mut W, failed: &mut bool, path: &[u8])
    ensures { Puts (sink (W.output w.old) failed.old) (sink (W.output w.new) failed.new)
        (identifier path.now) }
{
    for byte in path {
        put_code(w, failed, *byte);
    }
}

/// Puts what a C string has for a byte.
#[tactic(auto, unfolding(crate::specs::Names::text_byte))]
fn put_text_byte<W: ByteWrite>(w: &mut W, failed: &mut bool, byte: u8)
    ensures { Puts (sink (W.output w.old) failed.old) (sink (W.output w.new) failed.new)
        (text_byte byte) }
{
    if is_letter(byte)
        || is_digit(byte)
        || byte == b'/'
        || byte == b'.'
        || byte == b'-'
        || byte == b'_'
    {
        put(w, failed, &[byte]);
    } else {
        put(
            w,
            failed,
            &[b'\\', 48 + byte / 64, 48 + byte / 8 % 8, 48 + byte % 8],
        );
    }
}

/// Puts the C string that has these bytes.
pub(crate) fn put_text<W: ByteWrite>(w: &mut W, failed: &mut bool, bytes: &[u8])
    ensures { Puts (sink (W.output w.old) failed.old) (sink (W.output w.new) failed.new)
        (text_of bytes.now) }
{
    put(w, failed, b"\"");
    for byte in bytes {
        put_text_byte(w, failed, *byte);
    }
    put(w, failed, b"\"");
}
