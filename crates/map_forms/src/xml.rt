//! Texts of XML.
ghost use Rattle.std.specs.Prelude.{◌≡◌};
ghost use Rattle.rom_fields.specs.Written.{Puts, sink};
ghost use Rattle.map_forms.specs.Xml.{xml_byte, xml_text};

use rom_fields::{ByteWrite, put};

/// Puts a byte of a text. `<`, `>`, `&` and quotes become references, any other visible ASCII
/// character and a space stay, and any other byte becomes `?`.
#[tactic(auto, unfolding(crate::specs::Xml::xml_byte))]
fn put_xml_byte<W: ByteWrite>(w: &mut W, failed: &mut bool, byte: u8)
    ensures { Puts (sink (W.output w.old) failed.old) (sink (W.output w.new) failed.new)
        (xml_byte byte) }
{
    if byte == b'<' {
        put(w, failed, b"&lt;");
    } else if byte == b'>' {
        put(w, failed, b"&gt;");
    } else if byte == b'&' {
        put(w, failed, b"&amp;");
    } else if byte == b'"' {
        put(w, failed, b"&#34;");
    } else if byte == b'\'' {
        put(w, failed, b"&#39;");
    } else if byte < 32 {
        put(w, failed, b"?");
    } else if byte > 126 {
        put(w, failed, b"?");
    } else {
        put(w, failed, &[byte]);
    }
}

/// Puts a text.
pub(crate) fn put_xml<W: ByteWrite>(w: &mut W, failed: &mut bool, text: &[u8])
    ensures { Puts (sink (W.output w.old) failed.old) (sink (W.output w.new) failed.new)
        (xml_text text.now) }
{
    for byte in text {
        put_xml_byte(w, failed, *byte);
    }
}
