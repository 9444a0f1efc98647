//! The fields of a line.
ghost use Rattle.std.specs.Prelude.{◌≡◌, ◌≤◌, ◌∷◌, [], length, Option, MatchOption, IfSome};
ghost use Rattle.serve_lines.specs.Commands.{fields, fields_left, number_of};

use itoa::Buffer;
use memchr::memchr;

/// Returns the first field of a text, and the part behind the space after it, if there is a space.
pub(crate) fn cut(text: &[u8]) -> (&[u8], Option<&[u8]>)
    ensures fields { fields text.now ≡ result.0.now ∷ fields_left result.1 }
    ensures first { length result.0.now ≤ length text.now }
    ensures rest { IfSome result.1 (λ r. length r.now ≤ length text.now) }
{
    match memchr(b' ', text) {
        None => (text, None),
        Some(i) => (&text[..i], Some(&text[i + 1..])),
    }
}

/// Returns the number of a field, if it is decimal, without leading zeros, and at most
/// 4,294,967,295.
pub(crate) fn number(field: &[u8]) -> Option<u32>
    ensures { result ≡ number_of field.now }
{
    let Ok(s) = std::str::from_utf8(field) else {
        return None;
    };
    let Ok(n) = u32::from_str_radix(s, 10) else {
        return None;
    };
    let mut buffer = Buffer::new();
    if buffer.format(n).as_bytes() == field {
        Some(n)
    } else {
        None
    }
}
