//! The warnings of a build in words, and its refusal if it is strict.
ghost use Rattle.std.specs.Prelude.{◌≡◌, length};
ghost use Rattle.manifest.specs.Lines.{sources_of};

use crate::origin::Origin;
use crate::reporter::Reporter;
use crate::several::Several;
use build_commands::programs::Unplaced;
use build_commands::{Warning, Warnings, last_blocks, warning_name};
use manifest::Line;
use program_report::Reason;
use sentences::words::shown;
use sentences::{misread_sentence, program_sentence};
use std::alloc::AllocError;

/// The number of the warning of files that end with a whole block.
const LAST_BLOCK: usize = 1;

/// How many further files that end with a whole block are named one by one.
const MOST_NAMED: u64 = 20;

/// Explains the warning of one number.
fn explain_one(
    reporter: &Reporter<'_>,
    origin: Origin<'_>,
    number: usize,
    warning: &Warning<'_>,
    word: &str,
) -> Result<(), AllocError> {
    let alloc = reporter.rt.alloc();
    let number = u32::try_from(number).unwrap_or(u32::MAX);
    let (name, sentence) = (warning_name(number), misread_sentence(number));
    let (count, line) = (warning.count, warning.line);
    let place = if line == 0 {
        String::from_str(alloc, origin.name)?
    } else {
        format!(in alloc; "{}:{line}", origin.name)?
    };
    let what = if number == 0 {
        format!(in alloc; "{word}{name} ({number}): {sentence}")?
    } else {
        let path = shown(alloc, warning.path)?;
        format!(in alloc; "{word}{name} ({number}): {sentence}; files: {count}, first {path}")?
    };
    if line > 0 && origin.scanned.is_some() {
        // the manifest of a scan is in no file
        reporter.explain(warning.path, &what);
    } else {
        reporter.explain(place.as_bytes(), &what);
    }
    Ok(())
}

/// Explains that the file of a line ends with a whole block, as others do.
fn explain_block(
    reporter: &Reporter<'_>,
    origin: Origin<'_>,
    line: &Line,
) -> Result<(), AllocError> {
    let what = "LastBlock, too";
    if origin.scanned.is_some() {
        // the manifest of a scan is in no file
        reporter.explain(line.path.as_bytes(), &what);
    } else {
        let place = format!(in reporter.rt.alloc(); "{}:{}", origin.name, line.number)?;
        reporter.explain(place.as_bytes(), &what);
    }
    Ok(())
}

/// Explains which files end with a whole block, except the first one: some of them one by one, and
/// then how many more.
fn explain_blocks(
    reporter: &Reporter<'_>,
    origin: Origin<'_>,
    sizes: &[u64],
) -> Result<(), AllocError>
    requires { length sizes.now ≡ length (sources_of origin.manifest.now.lines) }
{
    let alloc = reporter.rt.alloc();
    let Ok(all) = last_blocks(alloc, origin.manifest, sizes) else {
        return Err(AllocError);
    };
    let mut several = Several::new(MOST_NAMED);
    for line in all.iter().skip(1) {
        if several.says() {
            explain_block(reporter, origin, line)?;
        }
    }
    if let Some(more) = several.more() {
        let what = format!(in alloc; "{more} more files with LastBlock")?;
        reporter.explain(origin.name.as_bytes(), &what);
    }
    Ok(())
}

/// Explains the warnings of an image whose sources have these sizes, each after a word.
pub fn explain(
    reporter: &Reporter<'_>,
    origin: Origin<'_>,
    sizes: &[u64],
    warnings: &Warnings<'_>,
    word: &str,
)
    requires { length sizes.now ≡ length (sources_of origin.manifest.now.lines) }
{
    if !reporter.is_explained() {
        return;
    }
    for (number, warning) in warnings.all().iter().enumerate() {
        if warning.count > 0 {
            let _ = explain_one(reporter, origin, number, warning, word);
        }
        if warning.count > 1 && number == LAST_BLOCK {
            let _ = explain_blocks(reporter, origin, sizes);
        }
    }
}

/// Explains by how many bytes an image would be too large.
pub fn explain_size(reporter: &Reporter<'_>, out: &str, len: u64, most: u64) {
    let more = len.saturating_sub(most);
    if let Ok(what) = format!(in reporter.rt.alloc();
        "the image would have {len} bytes, {more} more than {most}"
    ) {
        reporter.explain(out.as_bytes(), &what);
    }
}

/// Returns why Linux does not execute a program in place, and what helps.
pub fn reason_sentence(reason: Reason) -> &'static str {
    program_sentence(reason.word()).unwrap_or("")
}

/// Explains why a program would not be executed in place.
pub fn explain_unplaced(reporter: &Reporter<'_>, origin: Origin<'_>, found: &Unplaced) {
    let (alloc, line) = (reporter.rt.alloc(), found.line);
    if origin.scanned.is_some() {
        // the manifest of a scan is in no file
        reporter.explain(&found.path, &reason_sentence(found.reason));
    } else if let Ok(place) = format!(in alloc; "{}:{line}", origin.name) {
        reporter.explain(place.as_bytes(), &reason_sentence(found.reason));
    }
}
