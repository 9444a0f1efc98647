//! Numbers in C and in GNU ld.
ghost use Rattle.std.specs.Prelude.{◌≡◌};
ghost use Rattle.rom_fields.specs.Written.{Puts, sink};
ghost use Rattle.map_forms.specs.Header.{address_number, length_number};

use crate::form::{Form, put_long_suffix, put_suffix};
use image_info::put_eight_digits;
use rom_fields::{ByteWrite, put, put_long_decimal};

/// Puts an address. In a header it has its type in C: `u` below 2^32, and otherwise `ull`.
pub(crate) fn put_address<W: ByteWrite>(w: &mut W, failed: &mut bool, form: Form, address: u64)
    ensures { Puts (sink (W.output w.old) failed.old) (sink (W.output w.new) failed.new)
        (address_number form address) }
{
    put(w, failed, b"0x");
    if address < 4_294_967_296 {
        put_eight_digits(w, failed, address);
        put_suffix(w, failed, form);
    } else {
        put_eight_digits(w, failed, address / 4_294_967_296);
        put_eight_digits(w, failed, address);
        put_long_suffix(w, failed, form);
    }
}

/// Puts a length.
pub(crate) fn put_length<W: ByteWrite>(w: &mut W, failed: &mut bool, form: Form, length: u64)
    ensures { Puts (sink (W.output w.old) failed.old) (sink (W.output w.new) failed.new)
        (length_number form length) }
{
    put_long_decimal(w, failed, length);
    put_suffix(w, failed, form);
}
