//! The commands that answer lines of standard input from images.
use crate::inspect::loaded;
use crate::limit::limit_of;
use crate::output::errors;
use crate::replies::Replies;
use crate::reporter::Reporter;
use crate::stop::{FrontOf, Line, Stop, unread};
use command_line::Question;
use image_check::check;
use program_streams::Ahead;
use rom_commands::{Ending, Status, serve_on, serve_several_on};
use rom_fields::{ByteRead, Plain};
use rom_tree::Limits;
use sentences::reasons::{SPACE_WAITS, WAITS};
use std::alloc::Global;
use std::io;
use system_files::{Found, reading};

/// Whether a file is an image without a fault.
fn is_valid(alloc: Global, bytes: &[u8]) -> bool {
    check(alloc, bytes, Limits::usual()).is_ok()
}

/// Serves the image in a file.
///
/// # Errors
///
/// Those of `inspect::loaded`.
#[inline(never)]
pub fn serve(reporter: &Reporter<'_>, name: &str) -> Result<Status, Stop> {
    let rt = reporter.rt;
    let bytes = loaded(rt, reporter.most, name, Question::Report)?.bytes;
    if reporter.is_typed() && is_valid(rt.alloc(), &bytes) {
        reporter.explain(b"stdin", &WAITS);
    }
    let mut err = errors(rt);
    let ending = serve_on(
        rt.alloc(),
        &bytes,
        &mut Plain::new(Ahead::new(rt.reader())),
        &mut Plain::new(Replies::new(*reporter, io::writer(rt))),
        &mut err,
    );
    reporter.finish_image(err, ending, name.as_bytes(), &bytes);
    Ok(ending.status())
}

/// Reads a file after those that were read.
fn read_one(
    rt: &HostRuntime,
    most: Option<u64>,
    name: &str,
    files: &mut Vec<Vec<u8>>,
) -> Result<(), Stop> {
    match reading::image(rt, limit_of(rt, most), name) {
        Ok(Found::Image(image)) => files.push(image.bytes)?,
        Ok(Found::Refused(front)) => {
            let number = u32::try_from(files.len()).unwrap_or(u32::MAX);
            let name = String::from_str(rt.alloc(), name)?;
            return Err(Stop::Front(name, front, FrontOf::Several(number)));
        }
        Err(e) => return Err(unread(rt.alloc(), name, e)),
    }
    Ok(())
}

/// Reads files after those that were read, in their order, up to the first that fails.
fn read_all(
    rt: &HostRuntime,
    most: Option<u64>,
    names: &[&str],
    files: &mut Vec<Vec<u8>>,
) -> Result<(), Stop> {
    for name in names {
        read_one(rt, most, name, files)?;
    }
    Ok(())
}

/// The name and the bytes of the file whose fault an ending has, if it has one.
fn refused_file<'a>(
    names: &[&'a str],
    files: &'a [Vec<u8>],
    ending: Ending<'_>,
) -> (&'a [u8], &'a [u8]) {
    if let Ending::Fault {
        image: Some(image),
        ..
    } = ending
        && let Some(name) = names.get(image as usize)
        && let Some(file) = files.get(image as usize)
    {
        return (name.as_bytes(), file.as_slice());
    }
    (b"", b"")
}

/// Answers lines from the images in one to eight files of these names, or reports their first
/// fault.
fn serve_files<R: ByteRead>(
    reporter: &Reporter<'_>,
    names: &[&str],
    files: &[Vec<u8>],
    lines: &mut R,
) -> Result<Status, Stop> {
    let rt = reporter.rt;
    if files.is_empty() || files.len() > 8 {
        return Err(Stop::Told(Line::Of(Ending::Usage), reporter.words()));
    }
    let mut err = errors(rt);
    let out = &mut Plain::new(Replies::new(*reporter, io::writer(rt)));
    let ending = serve_several_on(rt.alloc(), files, lines, out, &mut err);
    let (name, bytes) = refused_file(names, files, ending);
    reporter.finish_image(err, ending, name, bytes);
    Ok(ending.status())
}

/// Serves the images in one to eight files. If one cannot be read, a fault of an image before it is
/// reported first. To find it, the images before it are served with no lines.
///
/// # Errors
///
/// `Front`, `Unread` or `Changed` for the first file that is no image; `Told` for the number of
/// images; `Memory`.
#[inline(never)]
pub fn space(reporter: &Reporter<'_>, names: &[&str]) -> Result<Status, Stop> {
    let (rt, alloc) = (reporter.rt, reporter.rt.alloc());
    let mut files = Vec::new(alloc);
    match read_all(rt, reporter.most, names, &mut files) {
        Ok(()) => {
            if reporter.is_typed() && files.iter().all(|file| is_valid(alloc, file)) {
                reporter.explain(b"stdin", &SPACE_WAITS);
            }
            let lines = &mut Plain::new(Ahead::new(rt.reader()));
            serve_files(reporter, names, &files, lines)
        }
        Err(stop) => {
            let no_lines: &[u8] = &[];
            let status = if files.is_empty() {
                Status::Done
            } else {
                serve_files(reporter, names, &files, &mut Plain::new(no_lines))?
            };
            if status == Status::Done {
                Err(stop)
            } else {
                Ok(status)
            }
        }
    }
}
