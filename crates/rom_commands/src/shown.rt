//! What is printed of an image.
ghost use Rattle.std.specs.Prelude.{◌≡◌, ◌≤◌, ◌↔◌, ◌++◌, ℕ, List, false, length, not, None, Err};
ghost use Rattle.std.specs.Prelude.{IfOk, IsTrue};
ghost use Rattle.rom_fields.specs.Failures.{Counts};
ghost use Rattle.rom_fields.specs.Written.{WritesText};
ghost use Rattle.rom_tree.specs.Tree.{IsShallow};
ghost use Rattle.image_info.specs.Endings.{WritesAll};
ghost use Rattle.image_info.specs.Info.{info_text};
ghost use Rattle.formats.specs.Format.{name_of};
ghost use Rattle.image_check.specs.Any.{any_view, image_format, report_of};
ghost use Rattle.image_info.specs.Gaps.{IsChecked};
ghost use Rattle.program_report.specs.Needs.{needs_text, needs_warn};
ghost use Rattle.rom_commands.specs.Lines.{ok_line};
ghost use Rattle.rom_commands.specs.Asked.{sound_text, takes_fault, warns, Fits};
ghost use Rattle.rom_commands.specs.Answers.{Ends, IsAnswer, ShowsFault};
ghost use Rattle.rom_commands.specs.Room.{fits, room_text};
ghost use Rattle.rom_commands.specs.declared.ending.Ending.TheVariants.{Fault as FaultEnding};

use crate::asked::Asked;
use crate::ending::{Ending, write_line};
use crate::lent::Lent;
use crate::room::{free_bytes, image_size, write_room};
use image_check::{AnyImage, check};
use image_info::{InfoError, map, write_info};
use linux_misreads::misreads;
use lookups::Indexed;
use program_report::{Question, write_needs, write_programs};
use rom_fields::{ByteWrite, CheckError, Failed, Fault, put, put_decimal};
use rom_tree::{Limits, Report, list};
use std::alloc::Global;

/// Returns whether each byte of an image of this length has an address of 64 bits, if addresses are
/// asked for.
pub fn has_addresses(asked: Asked, len: usize) -> bool
    ensures { IsTrue result ↔ Fits asked len }
{
    match asked {
        Asked::Map(base) | Asked::Programs(Question { base, .. }) => {
            len == 0 || base.checked_add(len as u64 - 1).is_some()
        }
        _ => true,
    }
}

/// Returns whether the line of a fault is written in place of what is asked. This holds for a
/// report and a list. Otherwise standard error has the line, so that no fault is among data.
pub(crate) fn takes_fault(asked: Asked) -> bool
    ensures { result ≡ takes_fault asked }
{
    match asked {
        Asked::Report | Asked::List => true,
        Asked::Map(_) | Asked::Misreads | Asked::Needs | Asked::Programs(_) => false,
        Asked::Facts(_) | Asked::Fit { .. } => false,
    }
}

/// The name of an image's format.
fn format_name(image: &AnyImage) -> &'static [u8]
    ensures { result.now ≡ name_of (image_format image.now) }
{
    image.format().name().as_bytes()
}

/// Writes the line of a valid image.
fn write_ok_line<W: ByteWrite>(w: &mut W, format: &[u8], report: Report) -> Result<(), Failed>
    ensures text { WritesText (W.output w.old).contents (W.output w.new).contents result
        (ok_line format.now report.references report.depth) }
    ensures count { Counts (W.output w.old).failures (W.output w.new).failures result }
{
    let mut failed = false;
    put(w, &mut failed, b"ok ");
    put(w, &mut failed, format);
    put(w, &mut failed, b" ");
    put_decimal(w, &mut failed, report.references);
    put(w, &mut failed, b" ");
    put_decimal(w, &mut failed, report.depth);
    put(w, &mut failed, b"\n");
    if failed { Err(Failed) } else { Ok(()) }
}

/// Writes what the programs of a valid image need that it does not have, and returns whether there
/// is something. Names are looked up by an index if there is memory for it.
fn write_missing<W: ByteWrite>(
    alloc: Global,
    image: &AnyImage,
    w: &mut W,
) -> Result<bool, InfoError>
    requires { IsShallow (any_view image.now).tree }
    ensures text { WritesAll (W.output w.old) (W.output w.new) (needs_text (any_view image.now))
        result }
    ensures warns { IfOk result (λ b. b ≡ needs_warn (any_view image.now)) }
{
    let mut indexed = Indexed::new(alloc, Lent { image });
    match write_needs(&mut indexed, w) {
        Ok(warned) => Ok(warned),
        Err(_) => Err(InfoError::WriteFault),
    }
}

/// Writes the facts of a valid image, which are no warning.
fn write_facts<W: ByteWrite>(
    alloc: Global,
    image: &AnyImage,
    file: u64,
    w: &mut W,
) -> Result<bool, InfoError>
    requires shallow { IsShallow (any_view image.now).tree }
    requires checked { IsChecked image.now }
    ensures text { WritesAll (W.output w.old) (W.output w.new) (info_text file image.now) result }
    ensures quiet { IfOk result (λ b. b ≡ false) }
{
    match write_info(alloc, image, file, w) {
        Ok(()) => Ok(false),
        Err(error) => Err(error),
    }
}

/// Writes the facts of a valid image and whether it fits, and returns whether it does not.
fn write_fit<W: ByteWrite>(
    alloc: Global,
    image: &AnyImage,
    file: u64,
    limit: u64,
    w: &mut W,
) -> Result<bool, InfoError>
    requires shallow { IsShallow (any_view image.now).tree }
    requires checked { IsChecked image.now }
    ensures text { WritesAll (W.output w.old) (W.output w.new)
        (info_text file image.now ++ room_text limit image.now) result }
    ensures warns { IfOk result (λ b. b ≡ not (fits limit image.now)) }
{
    let (free, size) = (free_bytes(alloc, image)?, image_size(image));
    match write_info(alloc, image, file, w) {
        Ok(()) => match write_room(w, free, size, limit) {
            Ok(()) => Ok(limit < size),
            Err(_) => Err(InfoError::WriteFault),
        },
        Err(error) => Err(error),
    }
}

/// Writes what is asked of a valid image, and returns whether it is a warning.
fn write_sound<W: ByteWrite>(
    alloc: Global,
    image: &AnyImage,
    asked: Asked,
    w: &mut W,
) -> Result<bool, InfoError>
    requires shallow { IsShallow (any_view image.now).tree }
    requires checked { IsChecked image.now }
    requires fits { Fits asked (length (any_view image.now).bytes) }
    ensures text { WritesAll (W.output w.old) (W.output w.new) (sound_text asked image.now) result }
    ensures warns { IfOk result (λ b. b ≡ warns asked image.now) }
{
    match asked {
        Asked::Report => match write_ok_line(w, format_name(image), image.report()) {
            Ok(()) => Ok(false),
            Err(_) => Err(InfoError::WriteFault),
        },
        Asked::List => match list(image, w) {
            Ok(()) => Ok(false),
            Err(_) => Err(InfoError::WriteFault),
        },
        Asked::Map(base) => match map(image, base, w) {
            Ok(()) => Ok(false),
            Err(_) => Err(InfoError::WriteFault),
        },
        Asked::Misreads => misreads(alloc, image, w),
        Asked::Needs => write_missing(alloc, image, w),
        Asked::Programs(question) => match write_programs(alloc, image, &question, w) {
            Ok(warned) => Ok(warned),
            Err(_) => Err(InfoError::WriteFault),
        },
        Asked::Facts(file) => write_facts(alloc, image, file, w),
        Asked::Fit { file, limit } => write_fit(alloc, image, file, limit, w),
    }
}

/// Writes the line of a fault if it belongs in place of what is asked.
fn show_fault<W: ByteWrite>(fault: Fault, asked: Asked, w: &mut W) -> Ending<'static>
    ensures { ShowsFault (takes_fault asked) (FaultEnding fault None) (W.output w.old)
        (W.output w.new) result }
{
    let ending = Ending::Fault { fault, image: None };
    if takes_fault(asked) {
        match write_line(w, ending) {
            Ok(()) => ending,
            Err(_) => Ending::WriteFault,
        }
    } else {
        ending
    }
}

/// Writes the line of the fault that a check under the usual limits found, if it belongs in place
/// of what is asked.
fn show_error<W: ByteWrite>(error: CheckError, asked: Asked, w: &mut W) -> Ending<'static>
    ensures { (bytes : List ℕ) → IsAnswer bytes (Err error)
        → Ends bytes asked (W.output w.old) (W.output w.new) result }
{
    match error {
        CheckError::Fault { number, at } => show_fault(Fault { number, at }, asked, w),
        CheckError::OutOfMemory => Ending::Memory,
    }
}

/// Checks an image under the usual limits.
///
/// # Errors
///
/// The least fault of the image, and `OutOfMemory`.
pub fn check_usual<'a>(alloc: Global, bytes: &'a [u8]) -> Result<AnyImage<'a>, CheckError>
    ensures answer { IsAnswer bytes.now result }
    ensures shallow { IfOk result (λ v. IsShallow (any_view v).tree) }
    ensures checked { IfOk result IsChecked }
    ensures bytes { IfOk result (λ v. (any_view v).bytes ≡ bytes.now) }
{
    check(alloc, bytes, Limits::usual())
}

/// Writes what is asked of an image of which a check under the usual limits answered this, as
/// `show` does.
pub(crate) fn show_answer<W: ByteWrite>(
    alloc: Global,
    answer: &Result<AnyImage<'_>, CheckError>,
    asked: Asked,
    w: &mut W,
) -> Ending<'static>
    requires shallow { IfOk answer.now (λ v. IsShallow (any_view v).tree) }
    requires checked { IfOk answer.now IsChecked }
    requires fits { IfOk answer.now (λ v. Fits asked (length (any_view v).bytes)) }
    ensures { (bytes : List ℕ) → IsAnswer bytes answer.now
        → Ends bytes asked (W.output w.old) (W.output w.new) result }
{
    match answer {
        Ok(image) => match write_sound(alloc, image, asked, w) {
            Ok(warned) => { if warned { Ending::Warned } else { Ending::Done } }
            Err(InfoError::OutOfMemory) => Ending::Memory,
            Err(InfoError::WriteFault) => Ending::WriteFault,
        },
        Err(error) => show_error(*error, asked, w),
    }
}

/// Checks an image under the usual limits, and writes what is asked of it. If the image has a
/// fault, writes the line of the fault, or nothing, as `takes_fault` says. Returns `Done`,
/// `Warned`, `Fault`, `Memory` or `WriteFault`.
pub fn show<W: ByteWrite>(alloc: Global, bytes: &[u8], asked: Asked, w: &mut W) -> Ending<'static>
    requires { Fits asked (length bytes.now) }
    ensures { Ends bytes.now asked (W.output w.old) (W.output w.new) result }
{
    let answer = check_usual(alloc, bytes);
    show_answer(alloc, &answer, asked, w)
}
