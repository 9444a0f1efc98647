//! Names in the form that a line of sha256sum has.
ghost use Rattle.std.specs.Prelude.{◌≡◌};
ghost use Rattle.std.specs.List.{list_any};
ghost use Rattle.rom_fields.specs.Written.{Puts, sink};
ghost use Rattle.image_compare.specs.Digests.{beside, is_special, mark, shown_byte, shown_bytes};

use rom_fields::{ByteWrite, put};

/// Whether a byte of a name is escaped.
fn has_special(name: &[u8]) -> bool
    ensures { result ≡ list_any is_special name.now }
{
    name.iter()
        .any(|byte| *byte == b'\n' || *byte == b'\r' || *byte == b'\\')
}

/// Puts the backslash with which a line begins if a byte of its name is escaped.
pub(crate) fn put_mark<W: ByteWrite>(w: &mut W, failed: &mut bool, name: &[u8])
    ensures { Puts (sink (W.output w.old) failed.old)
        (sink (W.output w.new) failed.new) (mark name.now) }
{
    if has_special(name) {
        put(w, failed, b"\\");
    }
}

/// Puts `./` before the name `-`.
pub(crate) fn put_beside<W: ByteWrite>(w: &mut W, failed: &mut bool, name: &[u8])
    ensures { Puts (sink (W.output w.old) failed.old)
        (sink (W.output w.new) failed.new) (beside name.now) }
{
    if name == b"-".as_slice() {
        put(w, failed, b"./");
    }
}

/// Puts a byte of a name.
fn put_byte<W: ByteWrite>(w: &mut W, failed: &mut bool, byte: u8)
    ensures { Puts (sink (W.output w.old) failed.old)
        (sink (W.output w.new) failed.new) (shown_byte byte) }
{
    match byte {
        b'\n' => put(w, failed, b"\\n"),
        b'\r' => put(w, failed, b"\\r"),
        b'\\' => put(w, failed, b"\\\\"),
        _ => put(w, failed, &[byte]),
    }
}

/// Puts the bytes of a name.
pub(crate) fn put_bytes<W: ByteWrite>(w: &mut W, failed: &mut bool, name: &[u8])
    ensures { Puts (sink (W.output w.old) failed.old)
        (sink (W.output w.new) failed.new) (shown_bytes name.now) }
{
    for byte in name {
        put_byte(w, failed, *byte);
    }
}
