//! In what a header for C and C++ and a script for GNU ld differ.
ghost use Rattle.rom_fields.specs.Written.{Puts, sink};
ghost use Rattle.map_forms.specs.Forms.{front, between, behind, suffix, long_suffix};
ghost use Rattle.map_forms.specs.Forms.{last_lines};

use rom_fields::{ByteWrite, put};

/// The form of a map.
#[derive(Clone, Copy)]
pub enum Form {
    /// A header for C and C++, which defines macros.
    Header,
    /// A script for GNU ld, which provides symbols.
    Script,
}

/// Puts what comes before a name.
pub(crate) fn put_opening<W: ByteWrite>(w: &mut W, failed: &mut bool, form: Form)
    ensures { Puts (sink (W.output w.old) failed.old) (sink (W.output w.new) failed.new)
        (front form) }
{
    match form {
        Form::Header => put(w, failed, b"#define "),
        Form::Script => put(w, failed, b"PROVIDE("),
    }
}

/// Puts what is between a name and its value.
pub(crate) fn put_between<W: ByteWrite>(w: &mut W, failed: &mut bool, form: Form)
    ensures { Puts (sink (W.output w.old) failed.old) (sink (W.output w.new) failed.new)
        (between form) }
{
    match form {
        Form::Header => put(w, failed, b" "),
        Form::Script => put(w, failed, b" = "),
    }
}

/// Puts what comes after a value.
pub(crate) fn put_behind<W: ByteWrite>(w: &mut W, failed: &mut bool, form: Form)
    ensures { Puts (sink (W.output w.old) failed.old) (sink (W.output w.new) failed.new)
        (behind form) }
{
    match form {
        Form::Header => put(w, failed, b"\n"),
        Form::Script => put(w, failed, b");\n"),
    }
}

/// Puts the suffix of a number below 2^32.
pub(crate) fn put_suffix<W: ByteWrite>(w: &mut W, failed: &mut bool, form: Form)
    ensures { Puts (sink (W.output w.old) failed.old) (sink (W.output w.new) failed.new)
        (suffix form) }
{
    match form {
        Form::Header => put(w, failed, b"u"),
        Form::Script => put(w, failed, b""),
    }
}

/// Puts the suffix of a number from 2^32 on.
pub(crate) fn put_long_suffix<W: ByteWrite>(w: &mut W, failed: &mut bool, form: Form)
    ensures { Puts (sink (W.output w.old) failed.old) (sink (W.output w.new) failed.new)
        (long_suffix form) }
{
    match form {
        Form::Header => put(w, failed, b"ull"),
        Form::Script => put(w, failed, b""),
    }
}

/// Puts what comes after all names and values.
pub(crate) fn put_last_lines<W: ByteWrite>(w: &mut W, failed: &mut bool, form: Form)
    ensures { Puts (sink (W.output w.old) failed.old) (sink (W.output w.new) failed.new)
        (last_lines form) }
{
    match form {
        Form::Header => put(w, failed, b"\n#endif\n"),
        Form::Script => put(w, failed, b""),
    }
}
