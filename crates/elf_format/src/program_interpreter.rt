//! The interpreter that a program names.
ghost use Rattle.std.specs.Prelude.{◌≡◌, option_map};
ghost use Rattle.elf_format.specs.Needs.{elf_interpreter, interpreter_of};

use crate::header::Header;
use crate::script::{is_script, script_interpreter};
use crate::texts::text;

/// Returns the path of an ELF file's interpreter.
fn elf_interpreter(b: &[u8]) -> Option<&[u8]>
    ensures { option_map (λ t. t.now) result ≡ elf_interpreter b.now }
{
    let Ok(header) = Header::read(b) else {
        return None;
    };
    let program = header.segment(b, 3)?;
    text(program.bytes(b))
}

/// Returns the path of the interpreter that Linux starts for a program: behind `#!` in the first
/// 256 bytes of a script, or the text of an ELF file's segment for it. Returns `None` if the file
/// names none.
#[tactic(auto, unfolding(crate::specs::Needs::interpreter_of))]
pub fn interpreter(b: &[u8]) -> Option<&[u8]>
    ensures { option_map (λ t. t.now) result ≡ interpreter_of b.now }
{
    if is_script(b) {
        return script_interpreter(b);
    }
    elf_interpreter(b)
}
