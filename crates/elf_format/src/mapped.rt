//! The segments of a file that cannot be written.
ghost use Rattle.std.specs.Prelude.{◌≡◌};
ghost use Rattle.elf_format.specs.Mapped.{has_fixed, is_executed, is_fixed};

use crate::header::Header;
use crate::program::Program;

impl Program {
    /// Returns whether it is a segment with bytes of the file that cannot be written.
    fn is_fixed(&self) -> bool
        ensures { result ≡ is_fixed self.now }
    {
        self.kind == 1 && self.file_size > 0 && self.flags / 2 % 2 != 1
    }
}

/// Returns whether a type is that of programs or libraries.
fn is_executed(kind: u16) -> bool
    ensures { result ≡ is_executed kind }
{
    kind == 2 || kind == 3
}

/// Returns whether an ELF file is a program or a library with a segment that cannot be written:
/// then Linux can map it from flash. The bytes are the file, or a front of it with all program
/// headers.
#[tactic(auto, unfolding(crate::specs::Mapped::has_fixed))]
pub(crate) fn has_fixed(b: &[u8]) -> bool
    ensures { result ≡ has_fixed b.now }
{
    let Ok(header) = Header::read(b) else {
        return false;
    };
    if !is_executed(header.kind) {
        return false;
    }
    for index in 0..header.count {
        let program = header.program(b, index);
        if program.is_fixed() {
            return true;
        }
    }
    false
}
