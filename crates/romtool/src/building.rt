//! Builds an image from a manifest and files.
ghost use Rattle.std.specs.Prelude.{◌≡◌, ◌≢◌, ◌≤◌, ◌%◌, length, map, option_map, IfOk, IfSome};
ghost use Rattle.std.specs.Prelude.{None, Ok, OnOk, Some, true};
ghost use Rattle.build_commands.specs.Built.{IsWithin};
ghost use Rattle.build_commands.specs.Limits.{most_of};
ghost use Rattle.build_commands.specs.Sources.{opened_as};
ghost use Rattle.formats.specs.Format.{format_of};
ghost use Rattle.manifest.specs.Grammar.{manifest_of};
ghost use Rattle.manifest.specs.Lines.{sources_of};
ghost use Rattle.manifest_layout.specs.Plans.{IsPlanOf};

use crate::asked::Asked;
use crate::contents::Shares;
use crate::files::{Files, INPUT, Kept, kept_names, kept_states, not_taken};
use crate::in_place::{Unknown, programs_planned};
use crate::needed::{self, Unmet, unmet_in};
use crate::origin::Origin;
use crate::output::{coloured_lines, lines};
use crate::placing::{self, FillError, KeptWith};
use crate::reporter::Reporter;
use crate::scan_all::ScannedText;
use crate::sources::{joined_names, names_of, sizes_of, stamps_of, texts_of, unusable_sources};
use crate::stop::{Line, Stop, changed, refused, unopened, unread};
use crate::unchanged::{Late, Unchanged};
use crate::words::Words;
use crate::{contents, depfile, explained, warned};
use build_commands::programs::Programs;
use build_commands::{
    Ended, Fate, Foreseen, Job, Misread, Rule, Tools, Unbuilt, Wanted, Warnings, foreseen,
    most_bytes, print_strict, print_xip,
};
use command_line::Build;
use image_build::Unwritten;
use layout_plan::{PlanError, plan};
use manifest::{Manifest, ManifestError, parse};
use manifest_layout::{Format, Plan};
use rom_commands::Status;
use sentences::reasons::{OWN_INPUT, OWN_OUTPUT, PART_REPLACED};
use std::alloc::{AllocError, Global};
use std::io;
use system_files::reading::TextFile;
use system_files::{
    Disk, Identity, KeepError, Outputs, Progress, Stamp, Target, Watched, let_rest, reading,
};

/// The number of bytes of a source that are read at once, if there is memory for them.
const LARGE: usize = 256 << 10;

/// The text of the manifest in a file.
fn text_of(rt: &HostRuntime, name: &str) -> Result<reading::Text, Stop> {
    let text = if name == INPUT {
        reading::manifest_of_input(rt)
    } else {
        reading::manifest(rt, name)
    };
    match text {
        Ok(text) => Ok(text),
        Err(e) => Err(unread(rt.alloc(), name, e)),
    }
}

/// The manifest of a text, which is in the file of this name. Otherwise words say which lines are
/// bad.
fn manifest_of(name: &str, text: &[u8], mut words: Words) -> Result<Manifest, Stop>
    ensures { IfOk result (λ m. manifest_of text.now ≡ Ok m) }
{
    match parse(words.alloc(), text) {
        Ok(manifest) => Ok(manifest),
        Err(ManifestError::OutOfMemory) => Err(Stop::Memory),
        Err(ManifestError::Bad { line, number }) => {
            explained::bad_manifest(&mut words, name, text, line, number);
            explained::other_bad_lines(&mut words, name, text);
            Err(Stop::Told(Line::BadManifest { line, number }, words))
        }
    }
}

/// The plan of a manifest whose sources have these sizes. Otherwise words say what does not fit.
fn planned(
    format: Format,
    origin: Origin<'_>,
    sizes: &[u64],
    mut words: Words,
) -> Result<Plan, Stop>
    requires { length sizes.now ≡ length (sources_of origin.manifest.now.lines) }
    ensures plan { IfOk result (IsPlanOf (format_of format) origin.entry.manifest.now sizes.now) }
    ensures sizes { IfOk result (λ plan. plan.sizes ≡ sizes.now) }
    ensures format { IfOk result (λ plan. plan.format ≡ format_of format) }
    ensures own { IfOk result (λ plan. IsPlanOf plan.format origin.entry.manifest.now plan.sizes
        plan) }
{
    match plan(words.alloc(), origin.manifest, sizes, format) {
        Ok(plan) => Ok(plan),
        Err(PlanError::OutOfMemory) => Err(Stop::Memory),
        Err(PlanError::Refused { line, number }) => {
            explained::misfit(&mut words, format, origin, sizes, (line, number));
            explained::other_misfits(&mut words, format, origin, sizes, line);
            Err(Stop::Told(Line::Misfit { line, number }, words))
        }
    }
}

/// The files that an image is made of: that of its manifest, if it has one, and its sources.
fn inputs_of(alloc: Global, files: Files<'_>) -> Result<Vec<Identity>, AllocError> {
    let mut all = Vec::new(alloc);
    if let Some(manifest) = files.manifest.identity {
        all.push(manifest)?;
    }
    for state in files.kept.states {
        all.push(state.identity())?;
    }
    Ok(all)
}

/// Opens the target of this name. It is none of the files that are read, nor standard output, nor
/// the other file that is written.
fn target_of(
    rt: &HostRuntime,
    name: &str,
    read: &[Identity],
    other: Option<&str>,
) -> Result<Target, Stop> {
    let outputs = Outputs {
        read,
        other,
        shares_streams: false,
    };
    match outputs.open(rt, name) {
        Ok(target) => Ok(target),
        Err(why) => Err(unopened(rt.alloc(), name, why, [OWN_INPUT, OWN_OUTPUT])),
    }
}

/// Writes the rule of a build, if one is asked for. The written part does not have its name yet.
fn rule_of(
    rt: &HostRuntime,
    files: Files<'_>,
    read: &[Identity],
    image: &Target,
) -> Result<Option<Target>, Stop> {
    let Some(name) = files.asked.depfile else {
        return Ok(None);
    };
    let target = target_of(rt, name, read, Some(files.asked.out))?;
    Ok(Some(depfile::written(rt, name, rule(files), target, image)?))
}

/// The rule of a build.
fn rule(files: Files<'_>) -> Rule<'_> {
    let asked = files.asked;
    Rule {
        out: asked.out,
        manifest: if asked.manifest == INPUT {
            None
        } else {
            Some(asked.manifest)
        },
        sources: files.kept.names.get(..files.kept.in_rule).unwrap_or(&[]),
        directories: files.origin.directories(),
    }
}

/// How often each source is read whole: once to be written, and once before for a checksum of all
/// bytes, if the superblock cannot be replaced at the end.
fn passes(format: Format, target: &Target) -> u64 {
    if format.capacity().sums_all_bytes && !target.is_part() {
        2
    } else {
        1
    }
}

/// A buffer of this number of bytes, if there is memory for it.
fn buffer_of(rt: &HostRuntime, len: usize) -> Option<Vec<u8>>
    ensures { IfSome result (λ buffer. length buffer.items ≡ len) }
{
    let mut buffer = Vec::new(rt.alloc());
    match buffer.resize(len, 0) {
        Ok(()) => Some(buffer),
        Err(_) => None,
    }
}

/// The image that is written: its plan, the files that it is made of, and what Linux would make of
/// it. It is as it is asked for (`files.asked`).
#[derive(Clone, Copy)]
struct Prepared<'a> {
    plan: &'a Plan,
    files: Files<'a>,
    foreseen: Foreseen,
    ghost planned: { IsPlanOf plan.now.format files.origin.manifest.now plan.now.sizes plan.now },
    ghost count: { length plan.now.sizes ≡ length (sources_of files.origin.manifest.now.lines) },
    ghost sizes: { plan.now.sizes ≡ map (λ s. s.len) files.stamps.now },
    ghost format: { plan.now.format ≡ format_of files.asked.wanted.format },
    ghost within: { IsWithin (most_of files.asked.wanted) plan.now.image_len },
    ghost strict: { files.asked.wanted.strict ≡ true → foreseen.misread ≡ None },
    ghost in_place: { files.asked.wanted.xip ≡ true → foreseen.programs ≢ None },
}

/// Returns the job of an image, and the files of the system. Their reading is shown as progress.
fn job_of<'a>(
    rt: &'a HostRuntime,
    prepared: Prepared<'a>,
    target: &Target,
) -> (Job<'a, Disk<'a>>, Disk<'a>) {
    let Prepared {
        plan,
        files,
        foreseen,
    } = prepared;
    let bytes = plan
        .sizes()
        .iter()
        .fold(0, |sum: u64, size| sum.saturating_add(*size));
    let progress = Progress::new(rt, bytes.saturating_mul(passes(plan.format(), target)));
    let job = Job {
        wanted: files.asked.wanted,
        text: files.origin.text,
        manifest: files.origin.manifest,
        names: files.names,
        states: files.stamps,
        plan,
        foreseen,
    };
    (job, Disk::new(rt, progress))
}

/// Why a build stops if a target did not get its name.
fn unkept(alloc: Global, e: KeepError, name: &str) -> Stop {
    match e {
        KeepError::Refused(e) => refused(alloc, name, e),
        KeepError::Changed => changed(alloc, name, PART_REPLACED),
    }
}

/// Where an image goes: the target, and the rule that is kept with it.
#[derive(Drop)]
struct Destination {
    target: Target,
    rule: Option<Target>,
}

/// Builds an image through a buffer, and prints that this is done.
fn put_image(
    rt: &HostRuntime,
    prepared: Prepared<'_>,
    destination: Destination,
    buffer: &mut [u8],
) -> Result<(), Stop>
    requires buffer { 4096 ≤ length buffer.old }
    requires words { length buffer.old % 4 ≡ 0 }
{
    let files = prepared.files;
    let Destination { target, rule } = destination;
    let (job, opener) = job_of(rt, prepared, &target);
    let tools = Tools {
        opener,
        last: Unchanged {
            rt,
            manifest: files.manifest_state(),
            names: files.kept.names,
            stamps: files.kept.states,
            seen: None,
        },
    };
    let mut companion = KeptWith {
        rt,
        target: rule,
        fate: Fate::Open,
    };
    let stdout = &mut coloured_lines(rt);
    let Ended {
        opener: _,
        last: _,
        unread,
        result,
    } = placing::build(
        rt,
        target.opened(rt),
        &job,
        tools,
        &mut companion,
        buffer,
        stdout,
    );
    match result {
        Ok(_) => Ok(()),
        Err(Unbuilt::NotMade(e)) => Err(unmade(rt, files, e, unread)),
        Err(Unbuilt::NotKept(e)) => Err(unkept(rt.alloc(), e, files.asked.depfile.unwrap_or(""))),
        Err(Unbuilt::NotReported) => Err(Stop::unwritten()),
    }
}

/// Why a build stops if its image was not made, for the system's reason if a source could not be
/// read.
fn unmade(
    rt: &HostRuntime,
    files: Files<'_>,
    e: FillError<Unwritten<Late>>,
    unread: Option<io::Error>,
) -> Stop {
    let (alloc, out) = (rt.alloc(), files.asked.out);
    match e {
        FillError::NotKept(e) => unkept(alloc, e, out),
        FillError::NotWritten(Unwritten::Late(late), _) => files.late(alloc, late),
        FillError::NotWritten(Unwritten::Padded, reason) => not_taken(alloc, reason, out),
        FillError::NotWritten(Unwritten::Stream(e), reason) => {
            files.unwritten(rt, e, (unread, reason), out)
        }
    }
}

/// Builds an image through a large buffer, if there is memory for it.
fn write_image(
    rt: &HostRuntime,
    prepared: Prepared<'_>,
    destination: Destination,
) -> Result<(), Stop> {
    match buffer_of(rt, LARGE) {
        Some(mut buffer) => put_image(rt, prepared, destination, buffer.as_mut_slice()),
        None => {
            let mut buffer: [u8; 4096] = [0; 4096];
            put_image(rt, prepared, destination, buffer.as_mut_slice())
        }
    }
}

/// Refuses a plan whose image is longer than it may be.
fn check_size(alloc: Global, asked: Asked<'_>, plan: &Plan) -> Result<(), Stop>
    ensures { OnOk result (IsWithin (most_of asked.entry.wanted) plan.now.image_len) }
{
    let len = plan.image_len() as u64;
    match most_bytes(&asked.wanted) {
        Some(most) if len > most => Err(Stop::TooLarge {
            out: String::from_str(alloc, asked.out)?,
            len,
            most,
        }),
        _ => Ok(()),
    }
}

/// Returns the warnings for the planned image if something is to be said of them, and the first one
/// if there is one. A strict build refuses the image then.
fn warnings_of<'m>(
    reporter: &Reporter<'_>,
    asked: Asked<'_>,
    origin: Origin<'m>,
    sizes: &[u64],
) -> Result<(Option<Warnings<'m>>, Option<Misread>), Stop>
    requires { length sizes.now ≡ length (sources_of origin.manifest.now.lines) }
    ensures { IfOk result (λ found. asked.entry.wanted.strict ≡ true → found.1 ≡ None) }
{
    if !asked.wanted.strict && !reporter.is_explained() {
        return Ok((None, None));
    }
    let alloc = reporter.rt.alloc();
    let warnings = foreseen(alloc, asked.wanted.format, origin.manifest, sizes)?;
    match warnings.least() {
        Some(Misread { line, number }) if asked.wanted.strict => {
            let status = reporter.printed(print_strict(&mut lines(reporter.rt), line, number));
            warned::explain(reporter, origin, sizes, &warnings, "");
            Err(Stop::Said(status))
        }
        least => Ok((Some(warnings), least)),
    }
}

/// Returns the programs of a planned image, if something is to be said of them: `--xip`, or the
/// table of a scan that is explained.
fn programs_in(
    rt: &HostRuntime,
    asked: Asked<'_>,
    plan: &Plan,
    files: Files<'_>,
    is_explained: bool,
) -> Result<Option<Programs>, Stop>
    ensures { IfOk result (λ programs. asked.entry.wanted.xip ≡ true → programs ≢ None) }
{
    let is_told = files.origin.scanned.is_some() && is_explained;
    if !asked.wanted.xip && !is_told {
        return Ok(None);
    }
    match programs_planned(rt, plan, files.origin, files.names, files.stamps) {
        Ok(programs) => Ok(Some(programs)),
        Err(Unknown::Memory) => Err(Stop::Memory),
        Err(Unknown::Source(file, e)) => Err(files.fault(rt, file, Some(e))),
    }
}

/// Refuses a planned image with a program that Linux would not execute in place, if that is asked
/// for. Returns the number of programs, if they were looked at.
fn check_programs(
    reporter: &Reporter<'_>,
    asked: Asked<'_>,
    origin: Origin<'_>,
    programs: &Option<Programs>,
) -> Result<Option<u64>, Stop>
    requires { asked.wanted.xip ≡ true → programs.now ≢ None }
    ensures { IfOk result (λ programs. asked.entry.wanted.xip ≡ true → programs ≢ None) }
{
    let programs = match programs {
        Some(programs) => programs,
        None => return Ok(None),
    };
    match programs.unplaced.first() {
        Some(first) if asked.wanted.xip => {
            let (out, word) = (&mut lines(reporter.rt), first.reason.word());
            let status = reporter.printed(print_xip(out, first.line, word, &first.path));
            warned::explain_unplaced(reporter, origin, first);
            Err(Stop::Said(status))
        }
        _ => Ok(Some(programs.count)),
    }
}

/// Returns what programs need that a planned image would not have, if something is to be said of
/// it: `--needs`, or the warnings of a scan that is explained.
fn needs_in(
    rt: &HostRuntime,
    asked: Asked<'_>,
    files: Files<'_>,
    words: &Words,
) -> Result<Vec<Unmet>, Stop> {
    let is_told = files.origin.scanned.is_some() && words.are_asked();
    if !asked.needs && !is_told {
        return Ok(Vec::new(rt.alloc()));
    }
    let format = asked.wanted.format;
    match unmet_in(rt, format, files.origin, files.names, files.stamps) {
        Ok(unmet) => Ok(unmet),
        Err(Unknown::Memory) => Err(Stop::Memory),
        Err(Unknown::Source(file, e)) => Err(files.fault(rt, file, Some(e))),
    }
}

/// Refuses programs that need files which the image would not have, if that is asked for. Returns
/// these words with what is only warned of.
#[inline(never)]
fn check_needs(
    rt: &HostRuntime,
    asked: Asked<'_>,
    files: Files<'_>,
    mut words: Words,
) -> Result<Words, Stop> {
    let (unmet, origin) = (needs_in(rt, asked, files, &words)?, files.origin);
    if !asked.needs {
        needed::explain(&mut words, origin, &unmet, "warning: ");
        return Ok(words);
    }
    needed::explain(&mut words, origin, &unmet, "");
    match unmet.into_iter().next() {
        Some(first) => Err(Stop::Told(Line::Needs(first), words)),
        None => Ok(words),
    }
}

/// Builds an image in the file that is asked for, and the rule if one is.
fn write_files(reporter: &Reporter<'_>, prepared: Prepared<'_>) -> Result<(), Stop> {
    let (rt, files) = (reporter.rt, prepared.files);
    let asked = files.asked;
    if let Some(name) = asked.depfile {
        depfile::check(rt, name, rule(files))?;
    }
    let read = inputs_of(rt.alloc(), files)?;
    let target = target_of(rt, asked.out, &read, asked.depfile)?;
    let mut words = reporter.words();
    explained::parts(&mut words, &target);
    reporter.tell(&words);
    let rule = match rule_of(rt, files, &read, &target) {
        Ok(rule) => rule,
        Err(stop) => {
            target.abandon(rt);
            return Err(stop);
        }
    };
    let_rest(rt, files.kept.states);
    write_image(rt, prepared, Destination { target, rule })
}

/// An image that was built: the numbers of bytes of the image and of each source.
#[derive(Drop)]
pub struct Built {
    pub len: u64,
    pub shares: Shares,
    pub sizes: Vec<u64>,
    /// Its programs, if they were looked at.
    pub programs: Option<Programs>,
}

impl Built {
    /// Returns the image of this plan, with the sizes of its sources, and its programs.
    fn of(plan: &Plan, sizes: Vec<u64>, programs: Option<Programs>) -> Built {
        Built {
            len: plan.image_len() as u64,
            shares: Shares::of(plan),
            sizes,
            programs,
        }
    }
}

/// Names as texts.
fn as_texts<'n>(alloc: Global, names: &'n [String]) -> Result<Vec<&'n str>, AllocError> {
    let mut texts = Vec::new(alloc);
    for name in names {
        texts.push(name.as_str())?;
    }
    Ok(texts)
}

/// The states of the sources, or why the build stops without them.
fn states_of(
    rt: &HostRuntime,
    origin: Origin<'_>,
    names: &[&str],
    words: Words,
) -> Result<Vec<Stamp>, Stop>
    ensures { IfOk result (λ stamps. length stamps.items ≡ length names.now) }
{
    match stamps_of(rt, origin, names) {
        Ok(stamps) => Ok(stamps),
        Err(e) => Err(unusable_sources(rt, origin, e, words)),
    }
}

/// Builds the image of a manifest, whose text is in this file, and whose sources have these names.
fn build_from<'a>(
    reporter: &Reporter<'_>,
    asked: Asked<'_>,
    origin: Origin<'a>,
    names: &'a [&'a str],
    manifest: TextFile,
) -> Result<Built, Stop>
    requires { map (λ n. n.now) names.now ≡ opened_as (option_map (λ d. d.now) asked.wanted.sources)
        (sources_of origin.manifest.now.lines) }
{
    let (rt, alloc) = (reporter.rt, reporter.rt.alloc());
    let stamps = states_of(rt, origin, names, reporter.words())?;
    let sizes = sizes_of(alloc, &stamps)?;
    let plan = planned(asked.wanted.format, origin, &sizes, reporter.words())?;
    check_size(alloc, asked, &plan)?;
    let (warnings, misread) = warnings_of(reporter, asked, origin, &sizes)?;
    let owned = kept_names(alloc, names, origin.watched())?;
    let states = kept_states(alloc, &stamps, origin.watched())?;
    let kept = as_texts(alloc, &owned)?;
    let others = origin.watched().iter().filter(|file| !file.is_source);
    let kept = Kept {
        names: &kept,
        states: &states,
        in_rule: names.len().saturating_add(others.count()),
    };
    let files = Files {
        asked,
        origin,
        manifest,
        names,
        stamps: &stamps,
        kept,
    };
    let found = programs_in(rt, asked, &plan, files, reporter.is_explained())?;
    let programs = check_programs(reporter, asked, origin, &found)?;
    let words = check_needs(rt, asked, files, reporter.words())?;
    let prepared = Prepared {
        plan: &plan,
        files,
        foreseen: Foreseen { misread, programs },
    };
    write_files(reporter, prepared)?;
    reporter.tell(&words);
    if let Some(warnings) = &warnings {
        warned::explain(reporter, origin, &sizes, warnings, "warning: ");
    }
    Ok(Built::of(&plan, sizes, found))
}

/// A manifest, its text, and the file of the text.
#[derive(Clone, Copy)]
struct Given<'a> {
    text: &'a [u8],
    manifest: &'a Manifest,
    file: TextFile,
    ghost says: { manifest_of text.now ≡ Ok manifest.now },
}

/// Builds the image of a manifest, whose sources are named as it names them, and were found by this
/// scan if there was one.
fn build_plain<'a>(
    reporter: &Reporter<'_>,
    asked: Asked<'a>,
    given: Given<'a>,
    scanned: Option<&'a ScannedText>,
) -> Result<Built, Stop>
    requires { asked.wanted.sources ≡ None }
{
    let Given {
        text,
        manifest,
        file,
    } = given;
    let origin = Origin {
        name: asked.manifest,
        text,
        manifest,
        joined: None,
        no_follow: asked.no_follow,
        scanned,
    };
    let names = match names_of(reporter.rt.alloc(), manifest.sources()) {
        Ok(names) => names,
        Err(e) => return Err(unusable_sources(reporter.rt, origin, e, reporter.words())),
    };
    build_from(reporter, asked, origin, &names, file)
}

/// Builds the image of a manifest, whose sources have these joined names.
fn build_joined<'a>(
    reporter: &Reporter<'_>,
    asked: Asked<'a>,
    joined: &'a [Vec<u8>],
    given: Given<'a>,
) -> Result<(), Stop>
    requires { map (λ j. j.items) joined.now ≡ opened_as
        (option_map (λ d. d.now) asked.wanted.sources) (sources_of given.manifest.now.lines) }
{
    let Given {
        text,
        manifest,
        file,
    } = given;
    let origin = Origin {
        name: asked.manifest,
        text,
        manifest,
        joined: Some(joined),
        no_follow: asked.no_follow,
        scanned: None,
    };
    let names = match texts_of(reporter.rt.alloc(), joined) {
        Ok(names) => names,
        Err(e) => return Err(unusable_sources(reporter.rt, origin, e, reporter.words())),
    };
    build_from(reporter, asked, origin, &names, file)?;
    Ok(())
}

/// Builds the image of a manifest, whose sources are in a directory.
fn build_in(
    reporter: &Reporter<'_>,
    asked: Asked<'_>,
    directory: &str,
    given: Given<'_>,
) -> Result<(), Stop>
    requires { option_map (λ d. d.now) asked.wanted.sources ≡ Some directory.now }
{
    let joined = joined_names(reporter.rt.alloc(), directory, given.manifest.sources())?;
    build_joined(reporter, asked, &joined, given)
}

/// Builds what is asked for, and prints the result. Explains warnings.
///
/// # Errors
///
/// Any stop.
#[inline(never)]
pub fn run(reporter: &Reporter<'_>, asked: Build<'_>) -> Result<Status, Stop> {
    let asked = Asked::by(asked);
    let text = text_of(reporter.rt, asked.manifest)?;
    let mut words = reporter.words();
    explained::returns(&mut words, asked.manifest, &text.bytes);
    reporter.tell(&words);
    let manifest = manifest_of(asked.manifest, &text.bytes, reporter.words())?;
    let given = Given {
        text: &text.bytes,
        manifest: &manifest,
        file: text.file,
    };
    match asked.wanted.sources {
        None => {
            build_plain(reporter, asked, given, None)?;
        }
        Some(directory) => build_in(reporter, asked, directory, given)?,
    }
    Ok(Status::Done)
}

/// Builds the image of directories that were scanned, prints the result, and explains what the
/// image has in it. The manifest's text may also be in this file.
///
/// # Errors
///
/// Any stop.
pub fn build_scanned(
    reporter: &Reporter<'_>,
    asked: Build<'_>,
    scanned: &ScannedText,
    file: Option<Identity>,
) -> Result<Status, Stop> {
    let asked = Asked::by(asked);
    let asked = Asked {
        wanted: Wanted {
            sources: None,
            ..asked.wanted
        },
        ..asked
    };
    let manifest = manifest_of(asked.manifest, &scanned.text, reporter.words())?;
    let given = Given {
        text: &scanned.text,
        manifest: &manifest,
        file: TextFile {
            identity: file,
            stamp: None,
        },
    };
    let built = build_plain(reporter, asked, given, Some(scanned))?;
    contents::explain(reporter, asked, &manifest, &built);
    Ok(Status::Done)
}
