//! The macros or symbols of one file.
ghost use Rattle.std.specs.Prelude.{◌++◌};
ghost use Rattle.rom_fields.specs.Written.{Puts, sink};
ghost use Rattle.map_forms.specs.Forms.{front, between};
ghost use Rattle.map_forms.specs.Names.{identifier};
ghost use Rattle.map_forms.specs.Header.{address_macro, macros, path_macro};

use crate::form::{Form, put_behind, put_between, put_opening};
use crate::names::{put_identifier, put_text};
use crate::numbers::{put_address, put_length};
use rom_fields::{ByteWrite, put};

/// Puts the name of a macro of the file with this path. The path is empty for the macros of the
/// image.
pub(crate) fn put_name<W: ByteWrite>(
    w: &mut W,
    failed: &mut bool,
    prefix: &[u8],
    path: &[u8],
    what: &[u8],
)
    ensures { Puts (sink (W.output w.old) failed.old) (sink (W.output w.new) failed.new)
        (prefix.now ++ (identifier path.now ++ what.now)) }
{
    put(w, failed, prefix);
    put_identifier(w, failed, path);
    put(w, failed, what);
}

/// Puts the front of a name's definition, up to the value.
pub(crate) fn put_front<W: ByteWrite>(
    w: &mut W,
    failed: &mut bool,
    form: Form,
    prefix: &[u8],
    path: &[u8],
    what: &[u8],
)
    ensures { Puts (sink (W.output w.old) failed.old) (sink (W.output w.new) failed.new)
        (front form ++ ((prefix.now ++ (identifier path.now ++ what.now)) ++ between form)) }
{
    put_opening(w, failed, form);
    put_name(w, failed, prefix, path, what);
    put_between(w, failed, form);
}

/// Puts the definition of the address that a file may have.
fn put_place<W: ByteWrite>(
    w: &mut W,
    failed: &mut bool,
    form: Form,
    prefix: &[u8],
    path: &[u8],
    address: Option<u64>,
)
    ensures { Puts (sink (W.output w.old) failed.old) (sink (W.output w.new) failed.new)
        (address_macro form prefix.now path.now address) }
{
    if let Some(address) = address {
        put_front(w, failed, form, prefix, path, b"_ADDRESS");
        put_address(w, failed, form, address);
        put_behind(w, failed, form);
    }
}

/// Puts the definition of a file's path, if the form has it.
fn put_path<W: ByteWrite>(w: &mut W, failed: &mut bool, form: Form, prefix: &[u8], path: &[u8])
    ensures { Puts (sink (W.output w.old) failed.old) (sink (W.output w.new) failed.new)
        (path_macro form prefix.now path.now) }
{
    match form {
        Form::Header => {
            put_front(w, failed, Form::Header, prefix, path, b"_PATH");
            put_text(w, failed, path);
            put_behind(w, failed, Form::Header);
        }
        Form::Script => {}
    }
}

/// Puts what is defined of a file of this number of bytes: its address, if it is in one piece, its
/// length and its path.
pub(crate) fn put_macros<W: ByteWrite>(
    w: &mut W,
    failed: &mut bool,
    form: Form,
    prefix: &[u8],
    path: &[u8],
    address: Option<u64>,
    length: u32,
)
    ensures { Puts (sink (W.output w.old) failed.old) (sink (W.output w.new) failed.new)
        (macros form prefix.now path.now address length) }
{
    put_place(w, failed, form, prefix, path, address);
    put_front(w, failed, form, prefix, path, b"_LENGTH");
    put_length(w, failed, form, u64::from(length));
    put_behind(w, failed, form);
    put_path(w, failed, form, prefix, path);
}
