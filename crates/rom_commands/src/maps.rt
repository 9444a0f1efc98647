//! The chosen files of an image, for the programs that use them in place.
ghost use Rattle.std.specs.Prelude.{◌≡◌};
ghost use Rattle.map_forms.specs.declared.form.Form.TheVariants.{Header, Script};
ghost use Rattle.rom_commands.specs.Ends.{Ends};
ghost use Rattle.rom_commands.specs.Texts.{IsMap, StopsMap, map_ending};
ghost use Rattle.rom_tree.specs.Tree.{IsShallow};

use crate::ending::Ending;
use crate::inspected::end;
use map_forms::{Choice, HeaderError, write_header, write_script};
use rom_fields::ByteWrite;
use rom_tree::TreeImage;

/// How the writing of a map ended.
fn ending_of<'a>(written: Result<(), HeaderError>) -> Ending<'a>
    ensures { result ≡ map_ending written }
{
    match written {
        Ok(()) => Ending::Done,
        Err(HeaderError::LongPath) => Ending::LongPath,
        Err(HeaderError::WriteFault) => Ending::WriteFault,
        Err(HeaderError::OutOfMemory) => Ending::Memory,
    }
}

/// Prints to `out` a header for C and C++ of the chosen regular files of an image, whose first byte
/// has the address `base`, and flushes it. The names of macros begin with the prefix. Returns
/// `Done`. Otherwise `err` says why: `WriteFault` if a write or the flush failed, `LongPath` if the
/// path of a regular file has more than 16,640 bytes, and `Memory` if the choice was refused
/// memory.
pub fn print_header<'a, T: TreeImage<'a>, C: Choice, W: ByteWrite, E: ByteWrite>(
    image: &T,
    base: u64,
    prefix: &[u8],
    choice: &C,
    out: &mut W,
    err: &mut E,
) -> Ending<'a>
    requires { IsShallow (T.image image.now).tree }
    ensures { Ends (IsMap Header (C.chosen choice.now) prefix.now base (T.image image.now))
        (StopsMap Header (C.chosen choice.now) (C.refuses choice.now) prefix.now base
        (T.image image.now)) (W.output out.old) (W.output out.new) (E.output err.old)
        (E.output err.new) result }
{
    let printed = ending_of(write_header(image, base, prefix, choice, out));
    end(out, err, printed)
}

/// Prints to `out` a script for GNU ld of the chosen regular files of an image, whose first byte
/// has the address `base`, and flushes it. The names of symbols begin with the prefix. Returns
/// `Done`. Otherwise `err` says why, as `print_header` does.
pub fn print_script<'a, T: TreeImage<'a>, C: Choice, W: ByteWrite, E: ByteWrite>(
    image: &T,
    base: u64,
    prefix: &[u8],
    choice: &C,
    out: &mut W,
    err: &mut E,
) -> Ending<'a>
    requires { IsShallow (T.image image.now).tree }
    ensures { Ends (IsMap Script (C.chosen choice.now) prefix.now base (T.image image.now))
        (StopsMap Script (C.chosen choice.now) (C.refuses choice.now) prefix.now base
        (T.image image.now)) (W.output out.old) (W.output out.new) (E.output err.old)
        (E.output err.new) result }
{
    let printed = ending_of(write_script(image, base, prefix, choice, out));
    end(out, err, printed)
}
