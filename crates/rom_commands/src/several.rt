//! Serves several images to the lines of sessions.
ghost use Rattle.std.specs.Prelude.{◌≡◌, ◌≤◌, ◌<◌, ℕ, List, Some, length, map, true, IfOk, IfErr};
ghost use Rattle.path_walk.specs.Graft.{AreShallow};
ghost use Rattle.image_check.specs.Any.{any_view};
ghost use Rattle.lookups.specs.Inner.{inner};
ghost use Rattle.rom_tree.specs.Tree.{IsShallow};
ghost use Rattle.open_files.specs.Sessions.{no_sessions};
ghost use Rattle.rom_serve.specs.Machines.{space_machine};
ghost use Rattle.rom_commands.specs.Answers.{Holds, Prints, WritesFault};
ghost use Rattle.rom_commands.specs.Endings.{complaint_of};
ghost use Rattle.rom_commands.specs.Serving.{input_of, HasFirstFault, HoldAll, ImagesEnd, Input};
ghost use Rattle.rom_commands.specs.Refused.{EndsAnswered, EndsUnserved, IsFaultAt, IsFirst};
ghost use Rattle.rom_commands.specs.declared.ending.Ending.TheVariants.{Fault as FaultEnding};

use crate::ending::{Ending, conclude, write_fault};
use crate::serving::answered;
use image_check::{AnyImage, check};
use lookups::Indexed;
use rom_fields::{ByteRead, ByteWrite, CheckError, Fault};
use rom_serve::serve_space;
use rom_tree::Limits;
use std::alloc::Global;

/// Why not all of some bytes are images.
#[derive(Clone, Copy, PartialEq, Eq)]
enum NoImage {
    /// Memory was refused.
    OutOfMemory,
    /// The first of the bytes that are no image, and their fault.
    Fault {
        /// The fault's number.
        number: u32,
        /// Its offset.
        at: u32,
        /// Which of the bytes have it, from 0 on.
        image: u32,
    },
}

/// Checks the image at number `image`, under the usual limits.
fn checked<'a>(alloc: Global, bytes: &'a [u8], image: u32) -> Result<AnyImage<'a>, NoImage>
    ensures held { IfOk result (λ v. Holds bytes.now (any_view v)) }
    ensures shallow { IfOk result (λ v. IsShallow (any_view v).tree) }
    ensures fault { IfErr result (IsFaultAt bytes.now image) }
{
    match check(alloc, bytes, Limits::usual()) {
        Ok(checked) => Ok(checked),
        Err(CheckError::Fault { number, at }) => Err(NoImage::Fault { number, at, image }),
        Err(CheckError::OutOfMemory) => Err(NoImage::OutOfMemory),
    }
}

/// The images that some files hold, each with an empty set of indices of its lists.
fn check_all<'a>(
    alloc: Global,
    files: &'a [Vec<u8>],
) -> Result<Vec<Indexed<'a, AnyImage<'a>>>, NoImage>
    requires { length files.now ≤ 8 }
    ensures held { IfOk result (λ v.
        HoldAll (map (λ f. f.items) files.now) (map (λ x. any_view (inner x)) v.items)) }
    ensures shallow { IfOk result (λ v. AreShallow (map (λ x. any_view (inner x)) v.items)) }
    ensures fault { IfErr result (IsFirst (map (λ f. f.items) files.now)) }
{
    let mut images = Vec::new(alloc);
    let mut rest = files;
    while let [file, others @ ..] = rest {
        let image = match checked(alloc, file.as_slice(), images.len() as u32) {
            Ok(image) => image,
            Err(e) => return Err(e),
        };
        match images.push(Indexed::new(alloc, image)) {
            Ok(()) => {}
            Err(_) => return Err(NoImage::OutOfMemory),
        }
        rest = others;
    }
    Ok(images)
}

/// Writes to `w` the line of the fault of the first of several files that has one, and returns the
/// fault; or `WriteFault` if a write failed, and `err` says so. `serve_several_on` does the same
/// with bytes whose first fault is this.
pub fn refuse_in<W: ByteWrite, E: ByteWrite>(
    fault: Fault,
    image: u32,
    w: &mut W,
    err: &mut E,
) -> Ending<'static>
    ensures reports { WritesFault (FaultEnding fault (Some image)) (W.output w.old)
        (W.output w.new) result }
    ensures ends { (all : List (List ℕ)) (r : Input)
        → HasFirstFault all fault.number fault.at image
        → ImagesEnd all r r (W.output w.old) (W.output w.new) result }
    ensures said { Prints (E.output err.old) (E.output err.new) (complaint_of result true) }
{
    let ending = write_fault(w, fault, Some(image));
    conclude(ending, err)
}

/// Serves several images after their checks. If all were accepted, answers the lines of `r` from
/// their trees on `w`, as `rom_serve::serve_space` does. Otherwise writes the line of the first
/// fault, and flushes it. Ends with `Memory` only if memory was refused to the checks.
fn serve_all_checked<'a, R: ByteRead, W: ByteWrite>(
    checked: Result<Vec<Indexed<'a, AnyImage<'a>>>, NoImage>,
    r: &mut R,
    w: &mut W,
) -> Ending<'static>
    requires some { IfOk checked (λ v. 0 < length (map (λ x. any_view (inner x)) v.items)) }
    requires few { IfOk checked (λ v. length (map (λ x. any_view (inner x)) v.items) ≤ 8) }
    requires shallow { IfOk checked (λ v. AreShallow (map (λ x. any_view (inner x)) v.items)) }
    ensures served { IfOk checked.entry (λ v.
        EndsAnswered (space_machine (map (λ x. any_view (inner x)) v.items)) (no_sessions 64)
        (input_of (R.remaining r.old) (R.failures r.old))
        (input_of (R.remaining r.new) (R.failures r.new))
        (W.output w.old) (W.output w.new) result) }
    ensures unserved { IfErr checked.entry (λ e. EndsUnserved e
        (input_of (R.remaining r.old) (R.failures r.old))
        (input_of (R.remaining r.new) (R.failures r.new))
        (W.output w.old) (W.output w.new) result) }
{
    match checked {
        Ok(images) => answered(serve_space(images, r, w)),
        Err(NoImage::Fault { number, at, image }) => {
            write_fault(w, Fault { number, at }, Some(image))
        }
        Err(NoImage::OutOfMemory) => Ending::Memory,
    }
}

/// Checks 1 to 8 images under the usual limits, and answers the lines of `r` from their trees on
/// `w`, as `rom_serve::serve_space` does. If an image has a fault, writes the line of the first
/// such image's fault, with the image's number. Names are sorted as in `serving::serve_image`;
/// there is no cache of look-ups.
///
/// Returns `Done` if all replies were written; `Fault` with the first fault and the number of its
/// image if there is one; `Memory` if memory was refused; `ReadFault`, `WriteFault` or
/// `TooManyReads` if a stream failed.
pub fn serve_images<R: ByteRead, W: ByteWrite>(
    alloc: Global,
    files: &[Vec<u8>],
    r: &mut R,
    w: &mut W,
) -> Ending<'static>
    requires some { 0 < length files.now }
    requires few { length files.now ≤ 8 }
    ensures { ImagesEnd (map (λ f. f.items) files.now)
        (input_of (R.remaining r.old) (R.failures r.old))
        (input_of (R.remaining r.new) (R.failures r.new))
        (W.output w.old) (W.output w.new) result }
{
    let checked = check_all(alloc, files);
    serve_all_checked(checked, r, w)
}

/// Serves several images as `serve_images` does, prints to `err` what went wrong, and returns how
/// it ended.
pub fn serve_several_on<'e, R: ByteRead, W: ByteWrite, E: ByteWrite>(
    alloc: Global,
    files: &[Vec<u8>],
    r: &mut R,
    w: &mut W,
    err: &mut E,
) -> Ending<'e>
    requires some { 0 < length files.now }
    requires few { length files.now ≤ 8 }
    ensures ends { ImagesEnd (map (λ f. f.items) files.now)
        (input_of (R.remaining r.old) (R.failures r.old))
        (input_of (R.remaining r.new) (R.failures r.new))
        (W.output w.old) (W.output w.new) result }
    ensures said { Prints (E.output err.old) (E.output err.new) (complaint_of result true) }
{
    let ending = serve_images(alloc, files, r, w);
    conclude(ending, err)
}
