//! How a command ends that printed a text.
ghost use Rattle.std.specs.Prelude.{◌≡◌};
ghost use Rattle.std.specs.Io.KnownBytes.{Keeps};
ghost use Rattle.rom_commands.specs.Ends.{Closes, is_whole};

use crate::ending::{Ending, report};
use rom_fields::ByteWrite;

/// Whether a text was printed whole.
fn is_whole(ending: Ending<'_>) -> bool
    ensures { result ≡ is_whole ending.entry }
{
    match ending {
        Ending::Done | Ending::Warned => true,
        _ => false,
    }
}

/// Flushes `out`. Returns how the writing of a text ended, and says on `err` why it was not written
/// whole. If the flush failed, the ending is `WriteFault`, and that is what `err` says.
pub(crate) fn end<'a, W: ByteWrite, E: ByteWrite>(
    out: &mut W,
    err: &mut E,
    printed: Ending<'a>,
) -> Ending<'a>
    ensures kept { Keeps (W.output out.old).contents (W.output out.new).contents }
    ensures ends { Closes (W.output out.old) (W.output out.new)
        (E.output err.old) (E.output err.new) printed.entry result }
{
    if out.flush().is_err() {
        report(Ending::WriteFault, err);
        return Ending::WriteFault;
    }
    if !is_whole(printed) {
        report(printed, err);
    }
    printed
}
