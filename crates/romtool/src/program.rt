//! The program: each command, with its words and the standard streams.
ghost use Rattle.std.specs.Prelude.{◌≤◌};
ghost use Rattle.rom_commands.specs.Asked.{Fits};

use crate::arguments::words;
use crate::reporter::Reporter;
use crate::stop::Stop;
use crate::{building, inspect, packing, scan_all, scanning, serving, version};
use command_line::{Limited, Question, Request, read};
use rom_commands::{Asked, Status, hello};
use system_files::{hold_closed, settle_output};

/// The text after the list of the example image.
const EXAMPLE: &str =
    "no subcommand was given: this is the built-in example image; romtool --help says more";

/// Does what the words of the command line ask for, and returns the exit status.
pub fn run(rt: &HostRuntime) -> u8
    ensures { result ≤ 3 }
{
    let reporter = &Reporter::new(rt);
    let _held = match hold_closed(rt) {
        Ok(held) => held,
        Err(e) => return reporter.refused(b"/", e.into()).code(),
    };
    let words = match words(rt) {
        Ok(words) => words,
        Err(wrong) => return reporter.refused_word(wrong).code(),
    };
    match read(rt.alloc(), words.as_slice()) {
        Ok(Limited { request, most }) => {
            let reporter = &reporter.with_most(most);
            let wordy = match &request {
                Request::Pack(pack) => reporter.with_words(!pack.is_quiet),
                _ => *reporter,
            };
            let status = said(&wordy, done(&wordy, request));
            said(reporter, settled(rt, status)).code()
        }
        Err(error) => reporter.refused_words(error).code(),
    }
}

/// The status of a command. Reports why it stopped, if it did.
fn said(reporter: &Reporter<'_>, done: Result<Status, Stop>) -> Status {
    match done {
        Ok(status) => status,
        Err(stop) => reporter.stopped(stop),
    }
}

/// The final status of a command, after a check that standard output keeps what was written to it.
fn settled(rt: &HostRuntime, status: Status) -> Result<Status, Stop> {
    match status {
        Status::Done | Status::Refused if settle_output(rt).is_err() => Err(Stop::unwritten()),
        _ => Ok(status),
    }
}

/// Checks the images in files, one after the other, each after a line with its name. The status is
/// the greatest of all.
fn check_each(reporter: &Reporter<'_>, names: &[&str]) -> Result<Status, Stop> {
    let mut greatest = Status::Done;
    for name in names {
        inspect::put_name(reporter.rt, name)?;
        let status = said(reporter, inspect::file(reporter, name, Question::Report));
        if status.code() > greatest.code() {
            greatest = status;
        }
    }
    Ok(greatest)
}

/// Does what is asked for. Commands with large frames are not inlined, so none needs the stack of
/// another.
fn done(reporter: &Reporter<'_>, request: Request<'_>) -> Result<Status, Stop> {
    match request {
        Request::Example => example(reporter),
        Request::Version => version::run(reporter.rt),
        Request::CheckEach(images) => check_each(reporter, images.as_slice()),
        Request::Image(image, question) => inspect::file(reporter, image, question),
        Request::Map(map) => inspect::map(reporter, map),
        Request::Which(which) => inspect::which(reporter, &which),
        Request::Numbers(numbers) => inspect::numbers(reporter, numbers),
        Request::Cat(cat) => inspect::cat(reporter, cat),
        Request::Digest(digest) => inspect::digest(reporter, digest),
        Request::Verify(verify) => inspect::verify(reporter, verify),
        Request::Diff(diff) => inspect::diff(reporter, diff),
        Request::Extract(extract) => inspect::extract(reporter, extract),
        Request::Serve(image) => serving::serve(reporter, image),
        Request::Space(images) => serving::space(reporter, images.as_slice()),
        Request::Build(build) => building::run(reporter, build),
        Request::Scan(scan) => scanning::run(reporter, scan),
        Request::Pack(pack) => packing::run(reporter, &pack),
        Request::ScanAll(scan) => scan_all::run(reporter, &scan),
    }
}

/// Checks and lists the example image.
fn example(reporter: &Reporter<'_>) -> Result<Status, Stop> {
    let image = hello();
    let checked = inspect::show(reporter, b"hello", &image, Asked::Report)?;
    if checked != Status::Done {
        return Ok(checked);
    }
    let listed = inspect::show(reporter, b"hello", &image, Asked::List)?;
    if listed == Status::Done {
        reporter.explain(b"hello", &EXAMPLE);
    }
    Ok(listed)
}
