//! The commands that print something about an image, or about two, and the one that takes it apart.
ghost use Rattle.std.specs.Prelude.{◌≤◌, length, IfOk};
ghost use Rattle.rom_tree.specs.Tree.{IsShallow};
ghost use Rattle.image_check.specs.Any.{any_view};
ghost use Rattle.image_info.specs.Gaps.{IsChecked};
ghost use Rattle.image_manifest.specs.Describable.{IsLawfulTree};
ghost use Rattle.rom_commands.specs.Asked.{Fits};

use crate::dump::DumpFile;
use crate::limit::limit_of;
use crate::output::{coloured_lines, errors, has_colours, lines, output, terminal};
use crate::patterns::{all_pieces, only};
use crate::question::asked_of;
use crate::reporter::Reporter;
use crate::stop::{FrontOf, Line, Stop, unread, usage};
use crate::words::Words;
use crate::{dump, extracting, totals};
use command_line::{Cat, Diff, Digest, Extract, Map, MapForm, Question, Verify, Which};
use image_check::{AnyImage, check};
use image_info::Numbers;
use map_forms::is_prefix;
use rom_commands::{
    Asked, Ending, Status, Verified, check_usual, has_addresses, print_answer, print_diff,
    print_digests, print_extents, print_file, print_header, print_image_digest, print_numbers,
    print_picture, print_places, print_script, verify_dump,
};
use rom_fields::{ByteWrite, CheckError, Fault, Plain, put};
use rom_tree::{Limits, TreeImage};
use sentences::image::range_seen;
use sentences::reasons::{MISREAD, NEEDED, NO_ADDRESS, NO_PREFIX, NOT_IN_PLACE, TERMINAL};
use sentences::words::escaped;
use sentences::{Noted, TextSeen};
use std::alloc::Global;
use std::io::IsTerminal;
use system_files::reading::Unread;
use system_files::{Found, Loaded, reading};

/// The prefix of the names in a header, if none is given.
const PREFIX: &str = "ROM";

/// Returns the image in a file, of which this is asked.
///
/// # Errors
///
/// `Front` if its first bytes refuse it: then its fault is the answer; `Usage` if it has no
/// addresses; `Unread`, `Changed`, `Memory`.
pub fn loaded(
    rt: &HostRuntime,
    most: Option<u64>,
    name: &str,
    question: Question,
) -> Result<Loaded, Stop> {
    match reading::image(rt, limit_of(rt, most), name) {
        Ok(Found::Image(image)) => Ok(image),
        Ok(Found::Refused(front)) => {
            let asked = asked_of(question, front.reach);
            if !has_addresses(asked, front.reach as usize) {
                return Err(usage(rt.alloc(), name, NO_ADDRESS));
            }
            let name = String::from_str(rt.alloc(), name)?;
            Err(Stop::Front(name, front, FrontOf::One(asked)))
        }
        Err(e) => Err(unread(rt.alloc(), name, e)),
    }
}

/// Returns the image in a file whose answer is data.
fn loaded_data(rt: &HostRuntime, most: Option<u64>, name: &str) -> Result<Loaded, Stop> {
    match reading::image(rt, limit_of(rt, most), name) {
        Ok(Found::Image(image)) => Ok(image),
        Ok(Found::Refused(front)) => {
            let name = String::from_str(rt.alloc(), name)?;
            Err(Stop::Front(name, front, FrontOf::Data))
        }
        Err(e) => Err(unread(rt.alloc(), name, e)),
    }
}

/// Returns the image in these bytes of the file of this name. Otherwise words say which fault it
/// has.
fn checked<'a>(name: &str, bytes: &'a [u8], mut words: Words) -> Result<AnyImage<'a>, Stop>
    ensures shallow { IfOk result (λ v. IsShallow (any_view v).tree) }
    ensures checked { IfOk result IsChecked }
    ensures lawful { IfOk result (λ v. IsLawfulTree (any_view v).tree) }
{
    headline::laws::accepted_is_lawful();
    match check(words.alloc(), bytes, Limits::usual()) {
        Ok(image) => Ok(image),
        Err(CheckError::OutOfMemory) => Err(Stop::Memory),
        Err(CheckError::Fault { number, at }) => {
            let fault = Fault { number, at };
            words.add_fault(name.as_bytes(), bytes, fault);
            Err(Stop::Told(Line::Of(Ending::Fault { fault, image: None }), words))
        }
    }
}

/// Adds by how many bytes an image is too large.
fn explain_size(words: &mut Words, name: &[u8], image: &AnyImage<'_>, limit: u64) {
    let size = u64::from(image.size());
    let more = size.saturating_sub(limit);
    if let Ok(what) = format!(in words.alloc(); "it has {size} bytes, {more} more than {limit}") {
        words.add(name, &what);
    }
}

/// Adds each thing once that the printed lines say of an image, and then why it was refused.
fn explain_lines(
    words: &mut Words,
    name: &[u8],
    answer: &Result<AnyImage<'_>, CheckError>,
    asked: Asked,
    why: &'static str,
)
    requires shallow { IfOk answer.now (λ v. IsShallow (any_view v).tree) }
    requires checked { IfOk answer.now IsChecked }
    requires fits { IfOk answer.now (λ v. Fits asked (length (any_view v).bytes)) }
{
    let alloc = words.alloc();
    let mut lines = Plain::new(Noted::new(alloc));
    let mut nothing = Plain::new(Vec::new(alloc));
    print_answer(alloc, answer, asked, &mut lines, &mut nothing);
    if let Ok(texts) = lines.into_inner().texts() {
        for text in &texts {
            words.add(name, text);
        }
    }
    words.add(name, &why);
}

/// Adds why a valid image was refused: Linux misreads it, or does not execute a program in place, a
/// program needs a file that it does not have, or it does not fit.
fn explain_warning(
    words: &mut Words,
    name: &[u8],
    answer: &Result<AnyImage<'_>, CheckError>,
    asked: Asked,
)
    requires shallow { IfOk answer.now (λ v. IsShallow (any_view v).tree) }
    requires checked { IfOk answer.now IsChecked }
    requires fits { IfOk answer.now (λ v. Fits asked (length (any_view v).bytes)) }
{
    match (asked, answer) {
        (Asked::Misreads, _) => explain_lines(words, name, answer, asked, MISREAD),
        (Asked::Needs, _) => words.add(name, &NEEDED),
        (Asked::Programs(_), _) => explain_lines(words, name, answer, asked, NOT_IN_PLACE),
        (Asked::Fit { limit, .. }, Ok(image)) => explain_size(words, name, image, limit),
        _ => {}
    }
}

/// Adds how long the output for an image will be, if it is long.
fn with_totals(
    mut words: Words,
    name: &[u8],
    answer: &Result<AnyImage<'_>, CheckError>,
    asked: Asked,
) -> Words
    requires { IfOk answer.now (λ v. IsShallow (any_view v).tree) }
{
    if let Ok(image) = answer {
        totals::explain(&mut words, name, image, asked);
    }
    words
}

/// Prints what is asked of the image in these bytes of the file of this name, which is checked
/// once.
pub fn show(
    reporter: &Reporter<'_>,
    name: &[u8],
    bytes: &[u8],
    asked: Asked,
) -> Result<Status, Stop>
    requires { Fits asked (length bytes.now) }
{
    let (rt, mut err) = (reporter.rt, errors(reporter.rt));
    let answer = check_usual(rt.alloc(), bytes);
    reporter.tell(&with_totals(reporter.words(), name, &answer, asked));
    let ending = if asked == Asked::Report && has_colours(rt) {
        print_answer(
            rt.alloc(),
            &answer,
            asked,
            &mut coloured_lines(rt),
            &mut err,
        )
    } else {
        print_answer(rt.alloc(), &answer, asked, &mut output(rt)?, &mut err)
    };
    reporter.finish_image(err, ending, name, bytes);
    if ending == Ending::Warned && reporter.is_explained() {
        let mut words = reporter.words();
        explain_warning(&mut words, name, &answer, asked);
        reporter.tell(&words);
    }
    Ok(ending.status())
}

/// Prints what is asked of the image in a file, if all its bytes have addresses.
///
/// # Errors
///
/// Those of `loaded`; `Usage` if some have none.
pub fn file(reporter: &Reporter<'_>, name: &str, question: Question) -> Result<Status, Stop> {
    let image = loaded(reporter.rt, reporter.most, name, question)?;
    let asked = asked_of(question, image.file);
    if !has_addresses(asked, image.bytes.len()) {
        return Err(usage(reporter.rt.alloc(), name, NO_ADDRESS));
    }
    show(reporter, name.as_bytes(), &image.bytes, asked)
}

/// Prints the line before the report of an image: the name of its file, escaped.
///
/// # Errors
///
/// `Memory`, `Unwritten`.
pub fn put_name(rt: &HostRuntime, name: &str) -> Result<(), Stop> {
    let name = escaped(rt.alloc(), name.as_bytes())?;
    let mut out = lines(rt);
    let mut failed = false;
    put(&mut out, &mut failed, b"image ");
    put(&mut out, &mut failed, name.as_bytes());
    put(&mut out, &mut failed, b"\n");
    if failed || out.flush().is_err() {
        return Err(Stop::unwritten());
    }
    Ok(())
}

/// Whether the file to which a path leads in an image has only characters that a terminal shows.
fn is_text(alloc: Global, bytes: &[u8], path: &[u8]) -> bool {
    let mut file = Plain::new(TextSeen::new());
    let mut nothing = Plain::new(Vec::new(alloc));
    print_file(alloc, bytes, path, &mut file, &mut nothing);
    file.into_inner().is_text()
}

/// Prints the bytes of the file to which a path leads in the image in a file.
///
/// # Errors
///
/// `Usage` if a terminal would not show them; any stop of an image that is not read.
#[inline(never)]
pub fn cat(reporter: &Reporter<'_>, asked: Cat<'_>) -> Result<Status, Stop> {
    let (rt, alloc, path) = (reporter.rt, reporter.rt.alloc(), asked.path.as_bytes());
    let bytes = loaded_data(rt, reporter.most, asked.image)?.bytes;
    if rt.stdout().is_terminal() && !is_text(alloc, &bytes, path) {
        return Err(usage(alloc, "stdout", TERMINAL));
    }
    let (mut out, mut err) = (output(rt)?, errors(rt));
    let ending = print_file(alloc, &bytes, path, &mut out, &mut err);
    reporter.finish(err, ending, path);
    reporter.explain_ending(ending, asked.image.as_bytes(), &bytes);
    Ok(ending.status())
}

/// Takes the image in a file apart.
///
/// # Errors
///
/// Those of `extracting::run`; `Usage` for a text that is not a pattern; any stop of an image that
/// is not valid.
#[inline(never)]
pub fn extract(reporter: &Reporter<'_>, asked: Extract<'_>) -> Result<Status, Stop> {
    let patterns = all_pieces(reporter.rt.alloc(), &asked.paths)?;
    let loaded = loaded_data(reporter.rt, reporter.most, asked.image)?;
    let image = checked(asked.image, &loaded.bytes, reporter.words())?;
    extracting::run(reporter, &image, &asked, &patterns)
}

/// Returns the number of bytes of an image's file, if each of them has an address of 64 bits.
fn addressed(alloc: Global, name: &str, loaded: &Loaded, base: u64) -> Result<u64, Stop> {
    let file = loaded.file.max(loaded.bytes.len() as u64);
    if file > 0 && base.checked_add(file - 1).is_none() {
        return Err(usage(alloc, name, NO_ADDRESS));
    }
    Ok(file)
}

/// Prints a map of the image in a file, in a form other than the lines of files.
///
/// # Errors
///
/// `Usage` for a prefix or a pattern that is none, or bytes without addresses; any stop of an image
/// that is not valid.
#[inline(never)]
pub fn map(reporter: &Reporter<'_>, asked: Map<'_>) -> Result<Status, Stop> {
    let alloc = reporter.rt.alloc();
    let prefix = match asked.form {
        MapForm::C(Some(prefix)) | MapForm::Script(Some(prefix)) => prefix,
        _ => PREFIX,
    };
    if !is_prefix(prefix.as_bytes()) {
        return Err(usage(alloc, prefix, NO_PREFIX));
    }
    let only = only(alloc, &asked.only)?;
    let loaded = loaded_data(reporter.rt, reporter.most, asked.image)?;
    let file = addressed(alloc, asked.image, &loaded, asked.base)?;
    let image = &checked(asked.image, &loaded.bytes, reporter.words())?;
    let (base, prefix) = (asked.base, prefix.as_bytes());
    let (mut out, mut err) = (output(reporter.rt)?, errors(reporter.rt));
    let ending = match asked.form {
        MapForm::C(_) => print_header(image, base, prefix, &only, &mut out, &mut err),
        MapForm::Script(_) => print_script(image, base, prefix, &only, &mut out, &mut err),
        MapForm::Svg => print_picture(alloc, image, base, file, &mut out, &mut err),
        MapForm::All => print_extents(alloc, image, base, file, &mut out, &mut err),
    };
    reporter.finish(err, ending, b"");
    Ok(ending.status())
}

/// Prints what is at some addresses of the image in a file.
///
/// # Errors
///
/// `Usage` for bytes without addresses; any stop of an image that is not valid.
#[inline(never)]
pub fn which(reporter: &Reporter<'_>, asked: &Which<'_>) -> Result<Status, Stop> {
    let alloc = reporter.rt.alloc();
    let loaded = loaded_data(reporter.rt, reporter.most, asked.image)?;
    let file = addressed(alloc, asked.image, &loaded, asked.base)?;
    let image = &checked(asked.image, &loaded.bytes, reporter.words())?;
    let (base, addresses) = (asked.base, asked.addresses.as_slice());
    let (mut out, mut err) = (output(reporter.rt)?, errors(reporter.rt));
    let ending = print_places(alloc, image, base, file, addresses, &mut out, &mut err);
    reporter.finish(err, ending, b"");
    if ending == Ending::Warned
        && let Ok(range) = range_seen(alloc, base, file)
    {
        reporter.explain(asked.image.as_bytes(), &range);
    }
    Ok(ending.status())
}

/// Prints the description of the image in a file.
///
/// # Errors
///
/// `Usage` if they are no text for a terminal; any stop of an image that is not valid.
pub fn numbers(reporter: &Reporter<'_>, asked: command_line::Numbers<'_>) -> Result<Status, Stop> {
    let loaded = loaded_data(reporter.rt, reporter.most, asked.image)?;
    let image = checked(asked.image, &loaded.bytes, reporter.words())?;
    if !asked.is_array && reporter.rt.stdout().is_terminal() {
        return Err(usage(reporter.rt.alloc(), "stdout", TERMINAL));
    }
    let (mut out, mut err) = (output(reporter.rt)?, errors(reporter.rt));
    let ending = print_numbers(Numbers::of(&image), asked.is_array, &mut out, &mut err);
    reporter.finish(err, ending, b"");
    Ok(ending.status())
}

/// Prints the digests of the files of the image in a file, or that of the image. At a terminal,
/// names are shown as in a list.
///
/// # Errors
///
/// Any stop of an image that is not valid.
#[inline(never)]
pub fn digest(reporter: &Reporter<'_>, asked: Digest<'_>) -> Result<Status, Stop> {
    let loaded = loaded_data(reporter.rt, reporter.most, asked.image)?;
    let image = checked(asked.image, &loaded.bytes, reporter.words())?;
    let alloc = reporter.rt.alloc();
    let (mut out, mut err) = (output(reporter.rt)?, errors(reporter.rt));
    let ending = if asked.whole {
        print_image_digest(image.bytes(), &mut out, &mut err)
    } else if reporter.rt.stdout().is_terminal() {
        print_digests(alloc, &image, &mut terminal(reporter.rt)?, &mut err)
    } else {
        print_digests(alloc, &image, &mut out, &mut err)
    };
    reporter.finish(err, ending, b"");
    Ok(ending.status())
}

/// Prints the differences of the images in two files.
///
/// # Errors
///
/// Any stop of the first image that is not valid.
#[inline(never)]
pub fn diff(reporter: &Reporter<'_>, asked: Diff<'_>) -> Result<Status, Stop> {
    let (alloc, places) = (reporter.rt.alloc(), !asked.tree);
    let old_loaded = loaded_data(reporter.rt, reporter.most, asked.old)?;
    let old = checked(asked.old, &old_loaded.bytes, reporter.words())?;
    let new_loaded = loaded_data(reporter.rt, reporter.most, asked.new)?;
    let new = checked(asked.new, &new_loaded.bytes, reporter.words())?;
    let (mut out, mut err) = (output(reporter.rt)?, errors(reporter.rt));
    let ending = print_diff(alloc, &old, &new, places, &mut out, &mut err);
    reporter.finish(err, ending, b"");
    Ok(ending.status())
}

/// Compares the image in a file with a dump, and prints the result.
///
/// # Errors
///
/// `Unread` for the dump; any stop of an image that is not valid.
#[inline(never)]
pub fn verify(reporter: &Reporter<'_>, asked: Verify<'_>) -> Result<Status, Stop> {
    let loaded = loaded_data(reporter.rt, reporter.most, asked.image)?;
    let image = checked(asked.image, &loaded.bytes, reporter.words())?;
    let (mut out, mut err) = (output(reporter.rt)?, errors(reporter.rt));
    let dump = DumpFile {
        rt: reporter.rt,
        name: asked.dump,
    };
    let Verified { ending, difference } = match verify_dump(
        image.bytes(),
        dump,
        asked.offset,
        &mut out,
        &mut err,
    ) {
        Ok(verified) => verified,
        Err(e) => return Err(unread(reporter.rt.alloc(), asked.dump, Unread::Refused(e.into()))),
    };
    reporter.finish(err, ending, b"");
    if reporter.is_explained()
        && ending == Ending::Warned
        && let Some(at) = difference
    {
        let _ = dump::explain(reporter, &image, asked, at);
    }
    Ok(ending.status())
}
