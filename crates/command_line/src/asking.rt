//! What each subcommand asks for, by the values that clap returns for its arguments.
ghost use Rattle.std.specs.Prelude.{◌≡◌, ℕ, List, IfOk, IfSome, Some, codes, map};
ghost use Rattle.clap.specs.Words.{all_of, first_of, found_of, rows_of};
ghost use Rattle.command_line.specs.Numbers.{AreAddresses, IsAddress, IsBaseOf};
ghost use Rattle.command_line.specs.Words.{IsAskedBy, IsForm, IsOffsetOf, HasValue, IsAskedOfImage};
ghost use Rattle.command_line.specs.Words.{IsQuestion, question_word, texts_or_none, word_of};
ghost use Rattle.command_line.specs.declared.request.Question.TheVariants as question;
ghost use Rattle.command_line.specs.declared.request.Request.TheVariants as request;

use crate::building::{align_of, build_of, either_scan, pack_of};
use crate::error::{WordsError, Wrong};
use crate::numbers::address_named;
use crate::request::{
    Cat, Diff, Digest, Extract, InPlace, Map, MapForm, Numbers, Question, Request, Verify, Which,
};
use crate::values::{is_given, size_of, texts_of, value_of, values_of, wanted};
use arrayvec::ArrayVec;
use clap::ArgMatches;
use std::alloc::{AllocError, Global};

/// Returns the address that a word names.
fn address<'a>(word: &'a str) -> Result<u64, WordsError<'a>>
    ensures { IfOk result (IsAddress word.now) }
{
    match address_named(word) {
        Some(address) => Ok(address),
        None => Err(Wrong::Address(word).into()),
    }
}

/// Returns the address of an image's first byte, or 0 if none is given.
fn base_of<'a>(values: &ArgMatches<'a>) -> Result<u64, WordsError<'a>>
    ensures { IfOk result (IsBaseOf (first_of (codes "base") (rows_of (found_of values.now)))) }
{
    match value_of(values, "base") {
        None => Ok(0),
        Some(word) => address(word),
    }
}

/// Returns the check that is asked for: of one image, or of each of several.
fn check_of<'a>(alloc: Global, values: &ArgMatches<'a>) -> Result<Request<'a>, WordsError<'a>>
    ensures asked { IfOk result (IsAskedBy (rows_of (found_of values.now))) }
    ensures word { IfOk result (λ r. word_of r ≡ codes "check") }
{
    let Some(names) = values_of(values, "image") else {
        return Err(Wrong::Missing.into());
    };
    if is_given(values, "each") {
        let mut images = Vec::new(alloc);
        images.extend_from_slice(names)?;
        return Ok(Request::CheckEach(images));
    }
    match names {
        [image] => Ok(Request::Image(*image, Question::Report)),
        _ => Err(Wrong::Images.into()),
    }
}

/// Returns what is asked of the facts of an image.
fn facts_of<'a>(values: &ArgMatches<'a>) -> Result<Question, WordsError<'a>>
    ensures asked { IfOk result (IsQuestion (rows_of (found_of values.now))) }
    ensures word { IfOk result (λ q. question_word q ≡ codes "info") }
{
    match size_of(values, "size")? {
        None => Ok(Question::Facts),
        Some(limit) => Ok(Question::Fit(limit)),
    }
}

/// Returns the form of a map of all files, whose names have no prefix.
fn form_of_all<'a>(values: &ArgMatches<'a>) -> Result<Option<MapForm<'a>>, WordsError<'a>>
    ensures { IfOk result (IsForm (rows_of (found_of values.now))) }
{
    if is_given(values, "c") || is_given(values, "ld") {
        return Err(Wrong::Forms.into());
    }
    if value_of(values, "prefix").is_some() || value_of(values, "only").is_some() {
        return Err(Wrong::Forms.into());
    }
    match (is_given(values, "all"), is_given(values, "svg")) {
        (false, false) => Ok(None),
        (true, false) => Ok(Some(MapForm::All)),
        (false, true) => Ok(Some(MapForm::Svg)),
        (true, true) => Err(Wrong::Forms.into()),
    }
}

/// Returns the form of a map, or `None` for lines of runs.
fn form_of<'a>(values: &ArgMatches<'a>) -> Result<Option<MapForm<'a>>, WordsError<'a>>
    ensures { IfOk result (IsForm (rows_of (found_of values.now))) }
{
    let c = is_given(values, "c");
    let ld = is_given(values, "ld");
    let prefix = value_of(values, "prefix");
    if is_given(values, "all") || is_given(values, "svg") || !(c || ld) {
        return form_of_all(values);
    }
    match (c, ld) {
        (true, false) => Ok(Some(MapForm::C(prefix))),
        (false, true) => Ok(Some(MapForm::Script(prefix))),
        _ => Err(Wrong::Forms.into()),
    }
}

/// Returns the map that is asked for.
fn map_of<'a>(alloc: Global, values: &ArgMatches<'a>) -> Result<Request<'a>, WordsError<'a>>
    ensures asked { IfOk result (IsAskedBy (rows_of (found_of values.now))) }
    ensures word { IfOk result (λ r. word_of r ≡ codes "map") }
{
    let image = wanted(values, "image")?;
    let base = base_of(values)?;
    let Some(form) = form_of(values)? else {
        return Ok(Request::Image(image, Question::Runs(base)));
    };
    let only = texts_of(alloc, values, "only")?;
    Ok(Request::Map(Map {
        image,
        base,
        form,
        only,
    }))
}

/// Returns the addresses that are given.
fn addresses_of<'a>(alloc: Global, values: &ArgMatches<'a>) -> Result<Vec<u64>, WordsError<'a>>
    ensures { IfOk result (λ v. AreAddresses
        (texts_or_none (all_of (codes "address") (rows_of (found_of values.now)))) v.items) }
{
    let words = texts_of(alloc, values, "address")?;
    let mut addresses = Vec::new(alloc);
    for word in &words {
        let address = address(word)?;
        if let Err(e) = addresses.push(address) {
            return Err(AllocError::from(e).into());
        }
    }
    Ok(addresses)
}

/// Returns the addresses that are asked about.
fn which_of<'a>(alloc: Global, values: &ArgMatches<'a>) -> Result<Which<'a>, WordsError<'a>>
    ensures { IfOk result (λ w. IsAskedBy (rows_of (found_of values.now)) (request.Which w)) }
{
    let image = wanted(values, "image")?;
    let base = base_of(values)?;
    let addresses = addresses_of(alloc, values)?;
    Ok(Which {
        image,
        base,
        addresses,
    })
}

/// Returns the images that are compared.
fn diff_of<'a>(values: &ArgMatches<'a>) -> Result<Diff<'a>, WordsError<'a>>
    ensures { IfOk result (λ d. IsAskedBy (rows_of (found_of values.now)) (request.Diff d)) }
{
    let old = wanted(values, "old")?;
    let new = wanted(values, "new")?;
    let tree = is_given(values, "tree");
    Ok(Diff { old, new, tree })
}

/// Returns the digests that are asked for.
fn digest_of<'a>(values: &ArgMatches<'a>) -> Result<Digest<'a>, WordsError<'a>>
    ensures { IfOk result (λ d. IsAskedBy (rows_of (found_of values.now)) (request.Digest d)) }
{
    let image = wanted(values, "file")?;
    let whole = is_given(values, "image");
    Ok(Digest { image, whole })
}

/// Returns the offset in a dump that is given, or 0 if none is.
fn offset_of<'a>(values: &ArgMatches<'a>) -> Result<u64, WordsError<'a>>
    ensures { IfOk result (IsOffsetOf (first_of (codes "offset") (rows_of (found_of values.now)))) }
{
    Ok(size_of(values, "offset")?.unwrap_or(0))
}

/// Returns the image and the dump that are compared.
fn verify_of<'a>(values: &ArgMatches<'a>) -> Result<Verify<'a>, WordsError<'a>>
    ensures { IfOk result (λ v. IsAskedBy (rows_of (found_of values.now)) (request.Verify v)) }
{
    let image = wanted(values, "image")?;
    let dump = wanted(values, "dump")?;
    let offset = offset_of(values)?;
    Ok(Verify {
        image,
        dump,
        offset,
    })
}

/// Returns the image of which the description is asked for, and its form.
fn numbers_of<'a>(values: &ArgMatches<'a>) -> Result<Numbers<'a>, WordsError<'a>>
    ensures { IfOk result (λ n. IsAskedBy (rows_of (found_of values.now)) (request.Numbers n)) }
{
    let image = wanted(values, "image")?;
    let is_array = is_given(values, "c");
    Ok(Numbers { image, is_array })
}

/// Returns the file of an image that is asked for.
fn cat_of<'a>(values: &ArgMatches<'a>) -> Result<Cat<'a>, WordsError<'a>>
    ensures { IfOk result (λ c. IsAskedBy (rows_of (found_of values.now)) (request.Cat c)) }
{
    let image = wanted(values, "image")?;
    let path = wanted(values, "path")?;
    Ok(Cat { image, path })
}

/// Returns how programs are executed in place.
fn in_place_of<'a>(values: &ArgMatches<'a>) -> Result<InPlace, WordsError<'a>>
    ensures { IfOk result (λ x. IsQuestion (rows_of (found_of values.now)) (question.InPlace x)) }
{
    let base = base_of(values)?;
    Ok(InPlace {
        base,
        no_mmu: is_given(values, "no-mmu"),
        advice: is_given(values, "advice"),
    })
}

/// Returns what is asked about Linux.
fn linux_of(values: &ArgMatches<'_>) -> Question
    ensures asked { IsQuestion (rows_of (found_of values.now)) result }
    ensures word { question_word result ≡ codes "linux" }
{
    if is_given(values, "needs") {
        Question::Needs
    } else {
        Question::Misreads
    }
}

/// Returns what a subcommand of this name asks of one image, if it does.
fn question_of<'a>(name: &str, values: &ArgMatches<'a>) -> Result<Option<Question>, WordsError<'a>>
    ensures asked { IfOk result (λ o. IfSome o (λ q. (image : List ℕ)
        → HasValue (rows_of (found_of values.now)) (codes "image") image
        → IsAskedOfImage (rows_of (found_of values.now)) image q)) }
    ensures word { IfOk result (λ o. IfSome o (λ q. name.now ≡ question_word q)) }
{
    Ok(Some(match name {
        "list" => Question::List,
        "info" => facts_of(values)?,
        "linux" => linux_of(values),
        "xip" => Question::InPlace(in_place_of(values)?),
        _ => return Ok(None),
    }))
}

/// Returns the image that is to be taken apart, the directory, and the patterns of the paths.
fn extract_of<'a>(alloc: Global, values: &ArgMatches<'a>) -> Result<Extract<'a>, WordsError<'a>>
    ensures { IfOk result (λ x. IsAskedBy (rows_of (found_of values.now)) (request.Extract x)) }
{
    let image = wanted(values, "image")?;
    let directory = wanted(values, "folder")?;
    let align = align_of(values)?;
    let owners = is_given(values, "owners");
    let no_sync = is_given(values, "no-sync");
    let paths = texts_of(alloc, values, "path")?;
    Ok(Extract {
        image,
        directory,
        align,
        owners,
        no_sync,
        paths,
    })
}

/// Returns the images that are to be served together, at most eight.
fn images_of<'a>(values: &ArgMatches<'a>) -> Result<ArrayVec<&'a str, 8>, WordsError<'a>>
    ensures { IfOk result (λ v. all_of (codes "image") (rows_of (found_of values.now))
        ≡ Some (map (λ i. i.now) v.items)) }
{
    let Some(names) = values_of(values, "image") else {
        return Err(Wrong::Missing.into());
    };
    let mut images = ArrayVec::new();
    match images.try_extend_from_slice(names) {
        Ok(()) => Ok(images),
        Err(_) => Err(Wrong::Missing.into()),
    }
}

/// Returns what a subcommand of this name asks for with these values, if it reads one image or two.
fn reading<'a>(
    alloc: Global,
    name: &str,
    values: &ArgMatches<'a>,
) -> Result<Option<Request<'a>>, WordsError<'a>>
    ensures values { IfOk result (λ o. IfSome o (IsAskedBy (rows_of (found_of values.now)))) }
    ensures word { IfOk result (λ o. IfSome o (λ r. name.now ≡ word_of r)) }
{
    if let Some(question) = question_of(name, values)? {
        return Ok(Some(Request::Image(wanted(values, "image")?, question)));
    }
    Ok(Some(match name {
        "check" => check_of(alloc, values)?,
        "map" => map_of(alloc, values)?,
        "which" => Request::Which(which_of(alloc, values)?),
        "diff" => Request::Diff(diff_of(values)?),
        "digest" => Request::Digest(digest_of(values)?),
        "verify" => Request::Verify(verify_of(values)?),
        "numbers" => Request::Numbers(numbers_of(values)?),
        "cat" => Request::Cat(cat_of(values)?),
        _ => return Ok(None),
    }))
}

/// Returns what a subcommand of this name asks for with these values.
///
/// # Errors
///
/// `Taken` with the reason why the values are wrong, and `OutOfMemory`.
pub fn asked<'a>(
    alloc: Global,
    name: &str,
    values: &ArgMatches<'a>,
) -> Result<Request<'a>, WordsError<'a>>
    ensures values { IfOk result (IsAskedBy (rows_of (found_of values.now))) }
    ensures word { IfOk result (λ r. name.now ≡ word_of r) }
{
    if let Some(request) = reading(alloc, name, values)? {
        return Ok(request);
    }
    match name {
        "version" => Ok(Request::Version),
        "serve" => Ok(Request::Serve(wanted(values, "image")?)),
        "space" => Ok(Request::Space(images_of(values)?)),
        "build" => Ok(Request::Build(build_of(values)?)),
        "pack" => Ok(Request::Pack(pack_of(alloc, values)?)),
        "scan" => either_scan(alloc, values),
        "extract" => Ok(Request::Extract(extract_of(alloc, values)?)),
        _ => Err(Wrong::NoSubcommand.into()),
    }
}
