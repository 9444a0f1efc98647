//! Bytes as hexadecimal digits, through a fixed buffer.
ghost use Rattle.std.specs.Prelude.{◌≤◌, length};
ghost use Rattle.hex.specs.Hex.{encode_lower};
ghost use Rattle.rom_fields.specs.Written.{Puts, sink};
ghost use Rattle.serve_lines.specs.Texts.{hex_text};

use rom_fields::{ByteWrite, put};

/// Puts up to 256 bytes.
fn put_hex_part<W: ByteWrite>(w: &mut W, failed: &mut bool, part: &[u8])
    requires { length part.now ≤ 256 }
    ensures { Puts (sink (W.output w.old) failed.old) (sink (W.output w.new) failed.new)
        (encode_lower part.now) }
{
    let mut digits = [0u8; 512];
    let n = 2 * part.len();
    match hex::encode_to_slice(part, &mut digits[..n]) {
        Ok(()) => put(w, failed, &digits[..n]),
        Err(_) => {}
    }
}

/// Puts bytes as lower-case hexadecimal digits, two for each byte, or `-` if there is no byte.
pub(crate) fn put_hex<W: ByteWrite>(w: &mut W, failed: &mut bool, bytes: &[u8])
    ensures { Puts (sink (W.output w.old) failed.old) (sink (W.output w.new) failed.new)
        (hex_text bytes.now) }
{
    if bytes.is_empty() {
        put(w, failed, b"-");
        return;
    }
    let mut rest = bytes;
    while !rest.is_empty() {
        let (part, next) = rest.split_at(rest.len().min(256));
        put_hex_part(w, failed, part);
        rest = next;
    }
}
