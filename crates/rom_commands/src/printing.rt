//! Prints to standard output and to standard error.
ghost use Rattle.std.specs.Prelude.{◌≡◌, ℕ, List, IfOk, length};
ghost use Rattle.rom_tree.specs.Tree.{IsShallow};
ghost use Rattle.image_check.specs.Any.{any_view};
ghost use Rattle.image_info.specs.Gaps.{IsChecked};
ghost use Rattle.std.specs.Io.KnownBytes.{Keeps};
ghost use Rattle.rom_commands.specs.Asked.{Fits, takes_fault};
ghost use Rattle.rom_commands.specs.Answers.{Closes, Ends, Flushes, IsAnswer, IsHandedOn, Prints};
ghost use Rattle.rom_commands.specs.Answers.{has_text};
ghost use Rattle.rom_commands.specs.Endings.{complaint_of};

use crate::asked::Asked;
use crate::ending::{Ending, has_text, report};
use crate::shown::{check_usual, show_answer, takes_fault};
use image_check::AnyImage;
use rom_fields::{ByteWrite, CheckError, Plain};
use std::alloc::Global;
use std::io::Write;

/// Flushes `out`. Returns the given ending, or `WriteFault` if the flush or a write before it
/// failed; `err` then says so.
fn flushed<X: Write, E: ByteWrite>(
    out: &mut Plain<X>,
    err: &mut E,
    ending: Ending<'static>,
) -> Ending<'static>
    ensures kept { Keeps (⟦<Plain<X> as ByteWrite>⟧.output out.old).contents
        (⟦<Plain<X> as ByteWrite>⟧.output out.new).contents }
    ensures ends { Flushes (⟦<Plain<X> as ByteWrite>⟧.output out.old)
        (⟦<Plain<X> as ByteWrite>⟧.output out.new) (E.output err.old) (E.output err.new)
        ending.entry result }
{
    let _ = out.flush();
    if out.failures() > 0 {
        report(Ending::WriteFault, err);
        return Ending::WriteFault;
    }
    ending
}

/// Flushes `out` if it has a text, and prints the line of the ending to `err` otherwise. The line
/// of a fault is in `out` if `takes_fault` says so. Returns the ending, or `WriteFault` if the
/// flush or a write before it failed; `err` then says so.
pub(crate) fn closed<X: Write, E: ByteWrite>(
    out: &mut Plain<X>,
    err: &mut E,
    ending: Ending<'static>,
    takes_fault: bool,
) -> Ending<'static>
    ensures kept { Keeps (⟦<Plain<X> as ByteWrite>⟧.output out.old).contents
        (⟦<Plain<X> as ByteWrite>⟧.output out.new).contents }
    ensures ends { Closes (has_text ending.entry takes_fault)
        (⟦<Plain<X> as ByteWrite>⟧.output out.old) (⟦<Plain<X> as ByteWrite>⟧.output out.new)
        (E.output err.old) (E.output err.new) ending.entry result }
{
    if has_text(ending, takes_fault) {
        return flushed(out, err, ending);
    }
    report(ending, err);
    ending
}

/// Prints to `out` what is asked of an image of which a check under the usual limits answered this,
/// as `print` does. The image need not be checked again.
pub fn print_answer<X: Write, E: ByteWrite>(
    alloc: Global,
    answer: &Result<AnyImage<'_>, CheckError>,
    asked: Asked,
    out: &mut Plain<X>,
    err: &mut E,
) -> Ending<'static>
    requires fresh { (⟦<Plain<X> as ByteWrite>⟧.output out.old).failures ≡ 0 }
    requires shallow { IfOk answer.now (λ v. IsShallow (any_view v).tree) }
    requires checked { IfOk answer.now IsChecked }
    requires fits { IfOk answer.now (λ v. Fits asked (length (any_view v).bytes)) }
    ensures ends { (bytes : List ℕ) → IsAnswer bytes answer.now
        → Ends bytes asked (⟦<Plain<X> as ByteWrite>⟧.output out.old)
        (⟦<Plain<X> as ByteWrite>⟧.output out.new) result }
    ensures handed { (bytes : List ℕ) → IsAnswer bytes answer.now
        → IsHandedOn result (takes_fault asked) (⟦<Plain<X> as ByteWrite>⟧.output out.new) }
    ensures said { (bytes : List ℕ) → IsAnswer bytes answer.now
        → Prints (E.output err.old) (E.output err.new) (complaint_of result (takes_fault asked)) }
{
    let ending = show_answer(alloc, answer, asked, out);
    closed(out, err, ending, takes_fault(asked))
}

/// Prints to `out` what is asked of an image, and flushes `out`. Prints to `err` if memory was
/// refused or a write failed. The line of a fault goes to `out` if `takes_fault` says so, and to
/// `err` otherwise.
///
/// Returns `Done` if the image is valid; `Warned` if it does not fit, or has something that Linux
/// misreads or a program that Linux does not execute in place, and that was asked for; `Fault` with
/// its least fault if it has one; `Memory` if memory was refused; `WriteFault` if a write failed.
pub fn print<X: Write, E: ByteWrite>(
    alloc: Global,
    bytes: &[u8],
    asked: Asked,
    out: &mut Plain<X>,
    err: &mut E,
) -> Ending<'static>
    requires fresh { (⟦<Plain<X> as ByteWrite>⟧.output out.old).failures ≡ 0 }
    requires fits { Fits asked (length bytes.now) }
    ensures ends { Ends bytes.now asked (⟦<Plain<X> as ByteWrite>⟧.output out.old)
        (⟦<Plain<X> as ByteWrite>⟧.output out.new) result }
    ensures handed { IsHandedOn result (takes_fault asked)
        (⟦<Plain<X> as ByteWrite>⟧.output out.new) }
    ensures said { Prints (E.output err.old) (E.output err.new)
        (complaint_of result (takes_fault asked)) }
{
    let answer = check_usual(alloc, bytes);
    print_answer(alloc, &answer, asked, out, err)
}
