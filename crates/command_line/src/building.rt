//! What `build`, `scan` and `pack` ask for, by the values that clap returns for their arguments.
ghost use Rattle.std.specs.Prelude.{◌≡◌, ◌≢◌, IfNone, IfOk, Some, codes, option_map};
ghost use Rattle.clap.specs.Words.{all_of, first_of, found_of, rows_of};
ghost use Rattle.command_line.specs.Numbers.{AreAligns, AreDevices, NotesDevice, IsAlignOf};
ghost use Rattle.command_line.specs.Numbers.{NotesAlign};
ghost use Rattle.formats.specs.Format.{name_of};
ghost use Rattle.command_line.specs.Words.{ArePlaces, HasNoValueForAll, IsAskedBy, IsDirectory};
ghost use Rattle.command_line.specs.Words.{IsFill, IsFlag, IsOwnerOf, IsPackedBuild, IsPackedScan};
ghost use Rattle.command_line.specs.Words.{IsPadding, IsPlainScan, IsSharedIn, texts_or_none};
ghost use Rattle.command_line.specs.Words.{word_of};
ghost use Rattle.command_line.specs.declared.request.Request.TheVariants as request;

use crate::error::{WordsError, Wrong};
use crate::numbers::{align_named, align_rule_named, device_named, owner_named, size_named};
use crate::request::{AlignRule, Build, DeviceWords, Owner, Pack, Padding, Request, Scan, ScanAll};
use crate::values::{is_given, size_of, texts_of, value_of, values_of, wanted};
use clap::ArgMatches;
use formats::Format;
use std::alloc::{AllocError, Global};

/// The most bytes of a partition that is filled: as many as the addresses of a flash.
const MOST_PARTITION: u64 = 1 << 32;

/// The alignment of regular files without an option, in bytes.
const USUAL_ALIGN: u32 = 4;

/// The manifest of a build that is not in a file.
const NO_FILE: &str = "-";

/// Returns the format that a word names.
fn format<'a>(word: &'a str) -> Result<Format, WordsError<'a>>
    ensures { IfOk result (λ f. word.now ≡ name_of f) }
{
    match Format::named(word) {
        Some(format) => Ok(format),
        None => Err(Wrong::Format(word).into()),
    }
}

/// Returns the directory of the sources, if one is given. An empty name, such as that of a variable
/// without a value, is none.
fn sources_of<'a>(values: &ArgMatches<'a>) -> Result<Option<&'a str>, WordsError<'a>>
    ensures { IfOk result (IsDirectory (rows_of (found_of values.now))) }
{
    match value_of(values, "directory") {
        Some(name) if name.is_empty() => Err(Wrong::NoDirectory.into()),
        directory => Ok(directory),
    }
}

/// Returns the value of the bytes after an image: 255 if none is given.
fn fill_of<'a>(values: &ArgMatches<'a>) -> Result<u8, WordsError<'a>>
    ensures { IfOk result (IsFill (first_of (codes "fill") (rows_of (found_of values.now)))) }
{
    let Some(word) = value_of(values, "fill") else {
        return Ok(255);
    };
    let Some(value) = size_named(word) else {
        return Err(Wrong::Byte(word).into());
    };
    match u8::try_from(value) {
        Ok(byte) => Ok(byte),
        Err(_) => Err(Wrong::Byte(word).into()),
    }
}

/// Returns what follows an image in its file, if a size is given.
fn padding_of<'a>(values: &ArgMatches<'a>) -> Result<Option<Padding>, WordsError<'a>>
    ensures { IfOk result (IsPadding (rows_of (found_of values.now))) }
{
    match size_of(values, "size")? {
        Some(size) if size > MOST_PARTITION => Err(Wrong::Partition(size).into()),
        Some(size) => Ok(Some(Padding {
            size,
            fill: fill_of(values)?,
        })),
        None if value_of(values, "fill").is_some() => Err(Wrong::FillWithoutSize.into()),
        None => Ok(None),
    }
}

/// Returns the build that is asked for.
pub(crate) fn build_of<'a>(values: &ArgMatches<'a>) -> Result<Build<'a>, WordsError<'a>>
    ensures { IfOk result (λ b. IsAskedBy (rows_of (found_of values.now)) (request.Build b)) }
{
    let format = format(wanted(values, "format")?)?;
    let manifest = wanted(values, "manifest")?;
    let out = wanted(values, "out")?;
    let max_size = size_of(values, "max-size")?;
    let padding = padding_of(values)?;
    let sources = sources_of(values)?;
    Ok(Build {
        format,
        manifest,
        out,
        no_follow: is_given(values, "no-follow"),
        strict: is_given(values, "strict"),
        xip: is_given(values, "xip"),
        needs: is_given(values, "needs"),
        max_size,
        padding,
        sources,
        depfile: value_of(values, "depfile"),
    })
}

/// Returns the format that a manifest has to fit, if one is named.
fn wished_format<'a>(values: &ArgMatches<'a>) -> Result<Option<Format>, WordsError<'a>>
    ensures { IfOk result (λ f. first_of (codes "for") (rows_of (found_of values.now))
        ≡ option_map name_of f) }
{
    match value_of(values, "for") {
        None => Ok(None),
        Some(word) => Ok(Some(format(word)?)),
    }
}

/// The alignments of regular files.
#[derive(Drop)]
struct Aligns<'a> {
    /// The alignment of files that may be executed and match no pattern.
    usual: u32,
    rules: Vec<AlignRule<'a>>,
}

/// Notes what a word says of alignments: a rule, or the alignment of files that match none.
fn note_align<'a>(word: &'a str, aligns: &mut Aligns<'a>) -> Result<(), WordsError<'a>>
    ensures { IfOk result (λ _. NotesAlign word.now
        (aligns.old.usual, aligns.old.rules.items) (aligns.new.usual, aligns.new.rules.items)) }
{
    if let Some(align) = align_named(word.as_bytes()) {
        aligns.usual = align;
        return Ok(());
    }
    match align_rule_named(word) {
        Some(rule) => match aligns.rules.push(rule) {
            Ok(()) => Ok(()),
            Err(e) => Err(AllocError::from(e).into()),
        },
        None => Err(Wrong::Align(word).into()),
    }
}

/// Notes the device that a word says.
fn note_device<'a>(word: &'a str, devices: &mut Vec<DeviceWords<'a>>) -> Result<(), WordsError<'a>>
    ensures { IfOk result (λ _. NotesDevice word.now devices.old.items devices.new.items) }
{
    match device_named(word) {
        Some(device) => match devices.push(device) {
            Ok(()) => Ok(()),
            Err(e) => Err(AllocError::from(e).into()),
        },
        None => Err(Wrong::Device(word).into()),
    }
}

/// Returns the alignments that are asked for.
fn aligns_of<'a>(alloc: Global, values: &ArgMatches<'a>) -> Result<Aligns<'a>, WordsError<'a>>
    ensures { IfOk result (λ a. AreAligns
        (texts_or_none (all_of (codes "align") (rows_of (found_of values.now))))
        (a.usual, a.rules.items)) }
{
    let words = texts_of(alloc, values, "align")?;
    let mut aligns = Aligns {
        usual: USUAL_ALIGN,
        rules: Vec::new(alloc),
    };
    for word in &words {
        note_align(word, &mut aligns)?;
    }
    Ok(aligns)
}

/// Returns the devices that are given one by one.
fn added_of<'a>(
    alloc: Global,
    values: &ArgMatches<'a>,
) -> Result<Vec<DeviceWords<'a>>, WordsError<'a>>
    ensures { IfOk result (λ v. AreDevices
        (texts_or_none (all_of (codes "device") (rows_of (found_of values.now)))) v.items) }
{
    let words = texts_of(alloc, values, "device")?;
    let mut devices = Vec::new(alloc);
    for word in &words {
        note_device(word, &mut devices)?;
    }
    Ok(devices)
}

/// Returns the owner of all files, if one is given.
fn wished_owner<'a>(values: &ArgMatches<'a>) -> Result<Option<Owner>, WordsError<'a>>
    ensures { IfOk result (IsOwnerOf (rows_of (found_of values.now))) }
{
    let root = is_given(values, "all-root");
    match value_of(values, "owner") {
        None if root => Ok(Some(Owner { uid: 0, gid: 0 })),
        None => Ok(None),
        Some(_) if root => Err(Wrong::Owners.into()),
        Some(word) => match owner_named(word) {
            Some(owner) => Ok(Some(owner)),
            None => Err(Wrong::Owner(word).into()),
        },
    }
}

/// Returns whether equal files share their contents, which only cramfs can store.
fn dedupe_of<'a>(values: &ArgMatches<'a>, format: Option<Format>) -> Result<bool, WordsError<'a>>
    ensures given { IfOk result (IsFlag (rows_of (found_of values.now)) (codes "dedupe")) }
    ensures shared { IfOk result (λ d. IsSharedIn d format) }
{
    let dedupe = is_given(values, "dedupe");
    match format {
        Some(Format::Cramfs) | Some(Format::CramfsBig) => Ok(dedupe),
        _ if dedupe => Err(Wrong::Dedupe.into()),
        _ => Ok(false),
    }
}

/// Returns the manifest of directories as they are, which `--all` asks for.
fn scan_all_of<'a>(alloc: Global, values: &ArgMatches<'a>) -> Result<ScanAll<'a>, WordsError<'a>>
    requires { first_of (codes "all") (rows_of (found_of values.now)) ≡ Some (codes "true") }
    ensures { IfOk result (λ s. IsAskedBy (rows_of (found_of values.now)) (request.ScanAll s)) }
{
    let directories = texts_of(alloc, values, "folder")?;
    let excludes = texts_of(alloc, values, "exclude")?;
    let format = wished_format(values)?;
    let strict = is_given(values, "strict");
    if strict && format.is_none() {
        return Err(Wrong::StrictWithoutFormat.into());
    }
    let (output, depfile) = (value_of(values, "output"), value_of(values, "depfile"));
    if depfile.is_some() && output.is_none() {
        return Err(Wrong::DepfileWithoutOutput.into());
    }
    let dedupe = dedupe_of(values, format)?;
    let aligns = aligns_of(alloc, values)?;
    let added = added_of(alloc, values)?;
    let owner = wished_owner(values)?;
    Ok(ScanAll {
        directories,
        format,
        align: aligns.usual,
        aligns: aligns.rules,
        owner,
        excludes,
        volume: value_of(values, "volume"),
        devices: value_of(values, "devices"),
        device_table: value_of(values, "device-table"),
        added,
        dedupe,
        output,
        depfile,
        one_file_system: is_given(values, "one-file-system"),
        strict,
    })
}

/// The directories that are packed, and the file of the image.
#[derive(Drop)]
struct Places<'a> {
    directories: Vec<&'a str>,
    out: &'a str,
}

/// Returns the directories that are packed, and the file of the image, which follows them.
fn places_of<'a>(alloc: Global, values: &ArgMatches<'a>) -> Result<Places<'a>, WordsError<'a>>
    ensures { IfOk result
        (λ p. ArePlaces (rows_of (found_of values.now)) p.directories.items p.out) }
{
    let mut directories = texts_of(alloc, values, "folder")?;
    match directories.pop() {
        Some(out) if !directories.is_empty() => Ok(Places { directories, out }),
        _ => Err(Wrong::NoOut.into()),
    }
}

/// Returns the build of a packed image.
fn packed_build<'a>(
    values: &ArgMatches<'a>,
    format: Format,
    out: &'a str,
) -> Result<Build<'a>, WordsError<'a>>
    ensures { IfOk result (λ b. (b.format ≡ format) × (b.out.now ≡ out.now)
        × IsPackedBuild (rows_of (found_of values.now)) b) }
{
    let max_size = size_of(values, "max-size")?;
    let padding = padding_of(values)?;
    let (xip, needs) = (is_given(values, "xip"), is_given(values, "needs"));
    Ok(Build {
        format,
        manifest: NO_FILE,
        out,
        no_follow: true,
        strict: is_given(values, "strict"),
        xip,
        needs,
        max_size,
        padding,
        sources: None,
        depfile: value_of(values, "depfile"),
    })
}

/// Returns the scan of a packed image.
fn packed_scan<'a>(
    alloc: Global,
    values: &ArgMatches<'a>,
    format: Format,
    directories: Vec<&'a str>,
) -> Result<ScanAll<'a>, WordsError<'a>>
    ensures { IfOk result (λ s. (s.format ≡ Some format) × (s.directories ≡ directories.entry)
        × IsPackedScan (rows_of (found_of values.now)) s) }
{
    let patterns = texts_of(alloc, values, "exclude")?;
    let dedupe = dedupe_of(values, Some(format))?;
    let aligns = aligns_of(alloc, values)?;
    let added = added_of(alloc, values)?;
    let owner = wished_owner(values)?;
    Ok(ScanAll {
        directories,
        format: Some(format),
        align: aligns.usual,
        aligns: aligns.rules,
        owner,
        excludes: patterns,
        volume: value_of(values, "volume"),
        devices: value_of(values, "devices"),
        device_table: value_of(values, "device-table"),
        added,
        dedupe,
        output: value_of(values, "manifest"),
        depfile: None,
        one_file_system: is_given(values, "one-file-system"),
        strict: is_given(values, "strict"),
    })
}

/// Returns the packing that is asked for.
pub(crate) fn pack_of<'a>(
    alloc: Global,
    values: &ArgMatches<'a>,
) -> Result<Pack<'a>, WordsError<'a>>
    ensures { IfOk result (λ p. IsAskedBy (rows_of (found_of values.now)) (request.Pack p)) }
{
    let format = format(wanted(values, "format")?)?;
    let Places { directories, out } = places_of(alloc, values)?;
    let build = packed_build(values, format, out)?;
    let scan = packed_scan(alloc, values, format, directories)?;
    let is_quiet = is_given(values, "quiet");
    Ok(Pack {
        scan,
        build,
        is_quiet,
    })
}

/// Returns the name of an option with a value that is given and is only allowed with `--all`.
fn value_with_all(values: &ArgMatches<'_>) -> Option<&'static str>
    ensures { IfNone result (HasNoValueForAll (rows_of (found_of values.now))) }
{
    if value_of(values, "for").is_some() {
        Some("for")
    } else if value_of(values, "align").is_some() {
        Some("align")
    } else if value_of(values, "owner").is_some() {
        Some("owner")
    } else if value_of(values, "exclude").is_some() {
        Some("exclude")
    } else if value_of(values, "volume").is_some() {
        Some("volume")
    } else if value_of(values, "devices").is_some() {
        Some("devices")
    } else if value_of(values, "device-table").is_some() {
        Some("device-table")
    } else if value_of(values, "device").is_some() {
        Some("device")
    } else if value_of(values, "output").is_some() {
        Some("output")
    } else if value_of(values, "depfile").is_some() {
        Some("depfile")
    } else {
        None
    }
}

/// Returns the name of an option that is given and is only allowed with `--all`.
fn option_with_all(values: &ArgMatches<'_>) -> Option<&'static str>
    ensures { IfNone result (IsPlainScan (rows_of (found_of values.now))) }
{
    if is_given(values, "all-root") {
        Some("all-root")
    } else if is_given(values, "strict") {
        Some("strict")
    } else if is_given(values, "dedupe") {
        Some("dedupe")
    } else {
        value_with_all(values)
    }
}

/// Returns the plain manifest of a directory that is asked for.
fn scan_of<'a>(values: &ArgMatches<'a>) -> Result<Scan<'a>, WordsError<'a>>
    requires { first_of (codes "all") (rows_of (found_of values.now)) ≢ Some (codes "true") }
    ensures { IfOk result (λ s. IsAskedBy (rows_of (found_of values.now)) (request.Scan s)) }
{
    if let Some(name) = option_with_all(values) {
        return Err(Wrong::WithoutAll(name).into());
    }
    match values_of(values, "folder") {
        Some([directory]) => Ok(Scan {
            directory: *directory,
            one_file_system: is_given(values, "one-file-system"),
        }),
        _ => Err(Wrong::Directories.into()),
    }
}

/// Returns the scan that is asked for.
pub(crate) fn either_scan<'a>(
    alloc: Global,
    values: &ArgMatches<'a>,
) -> Result<Request<'a>, WordsError<'a>>
    ensures asked { IfOk result (IsAskedBy (rows_of (found_of values.now))) }
    ensures word { IfOk result (λ r. word_of r ≡ codes "scan") }
{
    if is_given(values, "all") {
        Ok(Request::ScanAll(scan_all_of(alloc, values)?))
    } else {
        Ok(Request::Scan(scan_of(values)?))
    }
}

/// Returns the alignment that is asked for, or the usual one if none is given.
pub(crate) fn align_of<'a>(values: &ArgMatches<'a>) -> Result<u32, WordsError<'a>>
    ensures { IfOk result (IsAlignOf (first_of (codes "align") (rows_of (found_of values.now)))) }
{
    let Some(word) = value_of(values, "align") else {
        return Ok(USUAL_ALIGN);
    };
    match align_named(word.as_bytes()) {
        Some(align) => Ok(align),
        None => Err(Wrong::Align(word).into()),
    }
}
