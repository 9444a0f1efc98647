//! Serves images to lines, and reports how it ended.
ghost use Rattle.std.specs.Prelude.{◌≡◌, ◌≤◌, ℕ, List, None, true, IfOk};
ghost use Rattle.rom_tree.specs.Tree.{IsShallow};
ghost use Rattle.image_check.specs.Any.{any_view};
ghost use Rattle.open_files.specs.Machine.{no_files};
ghost use Rattle.rom_serve.specs.Machines.{image_machine};
ghost use Rattle.rom_commands.specs.Asked.{takes_fault};
ghost use Rattle.rom_commands.specs.Answers.{Ends, HasFault, Prints, WritesFault};
ghost use Rattle.rom_commands.specs.Endings.{complaint_of};
ghost use Rattle.rom_commands.specs.Serving.{input_of, EndsServed, CheckedEnds, ImageEnds};
ghost use Rattle.rom_commands.specs.Serving.{ending_of, serving_of, refusal_of};
ghost use Rattle.rom_commands.specs.Serving.{ServingEnds, ServingEndsUnder};
ghost use Rattle.rom_commands.specs.declared.ending.Ending.TheVariants.{Fault as FaultEnding};

use crate::asked::Asked;
use crate::ending::{Ending, conclude, report, write_and_flush, write_fault};
use crate::shown::takes_fault;
use image_check::{AnyImage, check};
use lookups::Indexed;
use rom_fields::{ByteRead, ByteWrite, CheckError, Failed, Fault};
use rom_serve::{Cached, NoCache, ServeError, serve};
use rom_tree::Limits;
use std::alloc::Global;

/// The number of names in the server's cache of look-ups.
const NAMES: usize = 256;

/// How the serving of images ended.
#[derive(Debug, Clone, Copy, PartialEq, Eq)]
pub enum Serving {
    /// The input ended, or a line ended the serving. All replies were written.
    Served,
    /// An image has a fault, whose line was written.
    Refused,
    /// Memory was refused. Nothing was read or written.
    Memory,
    /// A read failed.
    ReadFault,
    /// A write or a flush failed.
    WriteFault,
    /// 2^40 bytes were read, and the input had not ended.
    TooManyReads,
}

/// How the answering of lines ended, for the program.
pub(crate) fn answered(served: Result<(), ServeError>) -> Ending<'static>
    ensures { result ≡ ending_of served }
{
    match served {
        Ok(()) => Ending::Done,
        Err(ServeError::ReadFault) => Ending::ReadFault,
        Err(ServeError::WriteFault) => Ending::WriteFault,
        Err(ServeError::TooManyReads) => Ending::TooManyReads,
    }
}

/// How the answering of lines ended.
fn ended(served: Result<(), ServeError>) -> Serving
    ensures { result ≡ serving_of served }
{
    match served {
        Ok(()) => Serving::Served,
        Err(ServeError::ReadFault) => Serving::ReadFault,
        Err(ServeError::WriteFault) => Serving::WriteFault,
        Err(ServeError::TooManyReads) => Serving::TooManyReads,
    }
}

/// How the writing of a fault's line ended.
fn refused(written: Result<(), Failed>) -> Serving
    ensures { result ≡ refusal_of written }
{
    match written {
        Ok(()) => Serving::Refused,
        Err(Failed) => Serving::WriteFault,
    }
}

/// Writes the line of a file's fault, and returns the fault; or `WriteFault` if a write failed, and
/// `err` says so. The line goes to `w` if `takes_fault` says so, and to `err` otherwise. `print`
/// does the same with bytes that have this fault, and so does `serve_on` if a report is asked for.
/// So nothing more has to be read of a file if its first bytes show the fault.
pub fn refuse<W: ByteWrite, E: ByteWrite>(
    fault: Fault,
    asked: Asked,
    w: &mut W,
    err: &mut E,
) -> Ending<'static>
    ensures reports { takes_fault asked ≡ true
        → WritesFault (FaultEnding fault None) (W.output w.old) (W.output w.new) result }
    ensures ends { (bytes : List ℕ) → HasFault bytes fault.number fault.at
        → Ends bytes asked (W.output w.old) (W.output w.new) result }
    ensures said { Prints (E.output err.old) (E.output err.new)
        (complaint_of result (takes_fault asked)) }
{
    if takes_fault(asked) {
        let ending = write_fault(w, fault, None);
        conclude(ending, err)
    } else {
        let ending = Ending::Fault { fault, image: None };
        report(ending, err);
        ending
    }
}

/// Answers the lines of `r` on `w` from an image with indices of its lists. If there is memory for
/// it, a cache of look-ups is in front of these. Directories of the image may be 64 deep.
fn answer_lines<'a, R: ByteRead, W: ByteWrite>(
    alloc: Global,
    image: AnyImage<'a>,
    r: &mut R,
    w: &mut W,
) -> Result<(), ServeError>
    requires { IsShallow (any_view image).tree }
    ensures { EndsServed (image_machine (any_view image.entry)) (no_files 64)
        (input_of (R.remaining r.old) (R.failures r.old))
        (input_of (R.remaining r.new) (R.failures r.new))
        (W.output w.old) (W.output w.new) (serving_of result) }
{
    match Cached::new(alloc, Indexed::new(alloc, image), NAMES) {
        Ok(cached) => serve(cached, r, w),
        Err(NoCache { image }) => serve(image, r, w),
    }
}

/// Serves an image that a check with any limits accepted: answers the lines of `r` on `w`, as
/// `rom_serve::serve` does. If the check found a fault, writes its line and flushes it. Ends with
/// `Memory` only if memory was refused to the check.
pub(crate) fn serve_checked<'a, R: ByteRead, W: ByteWrite>(
    alloc: Global,
    checked: Result<AnyImage<'a>, CheckError>,
    r: &mut R,
    w: &mut W,
) -> Serving
    requires { IfOk checked (λ v. IsShallow (any_view v).tree) }
    ensures { CheckedEnds checked.entry
        (input_of (R.remaining r.old) (R.failures r.old))
        (input_of (R.remaining r.new) (R.failures r.new))
        (W.output w.old) (W.output w.new) result }
{
    match checked {
        Ok(image) => ended(answer_lines(alloc, image, r, w)),
        Err(CheckError::Fault { number, at }) => refused(write_and_flush(
            w,
            Ending::Fault {
                fault: Fault { number, at },
                image: None,
            },
        )),
        Err(CheckError::OutOfMemory) => Serving::Memory,
    }
}

/// Checks an image under some limits, and serves it as `serve_checked` does. Directories may be 64
/// deep, also if the limits allow more.
pub fn serve_under<R: ByteRead, W: ByteWrite>(
    alloc: Global,
    bytes: &[u8],
    limits: Limits,
    r: &mut R,
    w: &mut W,
) -> Serving
    ensures { ServingEndsUnder limits bytes.now
        (input_of (R.remaining r.old) (R.failures r.old))
        (input_of (R.remaining r.new) (R.failures r.new))
        (W.output w.old) (W.output w.new) result }
{
    let checked = check(alloc, bytes, limits);
    serve_checked(alloc, checked, r, w)
}

/// Checks an image under the usual limits, and answers the lines of `r` from its tree on `w`, as
/// `rom_serve::serve` does. If the image has a fault, writes the line of the fault.
///
/// If there is memory for it, the results of the last look-ups of about 256 names are kept, and the
/// names of each directory with more than 16 entries are sorted at its first use. This takes 24
/// bytes for each name.
pub fn serve_image<R: ByteRead, W: ByteWrite>(
    alloc: Global,
    bytes: &[u8],
    r: &mut R,
    w: &mut W,
) -> Serving
    ensures { ServingEnds bytes.now
        (input_of (R.remaining r.old) (R.failures r.old))
        (input_of (R.remaining r.new) (R.failures r.new))
        (W.output w.old) (W.output w.new) result }
{
    serve_under(alloc, bytes, Limits::usual(), r, w)
}

/// Serves an image as `serve_image` does. The ending has the image's fault, if there is one.
fn serve_one<R: ByteRead, W: ByteWrite>(
    alloc: Global,
    bytes: &[u8],
    r: &mut R,
    w: &mut W,
) -> Ending<'static>
    ensures { ImageEnds bytes.now
        (input_of (R.remaining r.old) (R.failures r.old))
        (input_of (R.remaining r.new) (R.failures r.new))
        (W.output w.old) (W.output w.new) result }
{
    match check(alloc, bytes, Limits::usual()) {
        Ok(image) => answered(answer_lines(alloc, image, r, w)),
        Err(CheckError::Fault { number, at }) => write_fault(w, Fault { number, at }, None),
        Err(CheckError::OutOfMemory) => Ending::Memory,
    }
}

/// Serves an image as `serve_image` does, and prints to `err` what went wrong. Returns `Done` if
/// all replies were written; `Fault` with the image's least fault if it has one; `Memory` if memory
/// was refused; `ReadFault`, `WriteFault` or `TooManyReads` if a stream failed.
pub fn serve_on<'e, R: ByteRead, W: ByteWrite, E: ByteWrite>(
    alloc: Global,
    bytes: &[u8],
    r: &mut R,
    w: &mut W,
    err: &mut E,
) -> Ending<'e>
    ensures ends { ImageEnds bytes.now
        (input_of (R.remaining r.old) (R.failures r.old))
        (input_of (R.remaining r.new) (R.failures r.new))
        (W.output w.old) (W.output w.new) result }
    ensures said { Prints (E.output err.old) (E.output err.new) (complaint_of result true) }
{
    let ending = serve_one(alloc, bytes, r, w);
    conclude(ending, err)
}
