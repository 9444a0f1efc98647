//! The command `build`: an image takes the place of a file, and this is reported.
ghost use Rattle.std.specs.Prelude.{◌≡◌, ◌≢◌, ◌≤◌, ◌%◌, List, Ok, None, length, map, option_map};
ghost use Rattle.std.specs.Prelude.{ℕ, Option, IfOk, IfErr, OnOk, OnErr, true};
ghost use Rattle.atomic_file.specs.Log.{Event, Throughout};
ghost use Rattle.atomic_file.specs.Moments.{IsNoPart, IsBegun, IsOldOrNew, IsReplaced, IsDurable};
ghost use Rattle.atomic_file.specs.Moments.{IsKept};
ghost use Rattle.build_commands.specs.Built.{IsBuilt, IsMade, IsUnbuilt, IsReported, IsWithin};
ghost use Rattle.build_commands.specs.Built.{IsFateAfter, IsOf, IsOutputAfter};
ghost use Rattle.build_commands.specs.Limits.{most_of};
ghost use Rattle.build_commands.specs.Sources.{opened_as};
ghost use Rattle.build_commands.specs.declared.fate.Fate.TheVariants.{Open, Kept};
ghost use Rattle.formats.specs.Format.{format_of};
ghost use Rattle.image_build.specs.Images.{IsCheckedImage};
ghost use Rattle.manifest.specs.Grammar.{manifest_of};
ghost use Rattle.manifest.specs.Lines.{sources_of};
ghost use Rattle.manifest_layout.specs.Plans.{IsPlanOf};

use crate::building::print_built;
use crate::companion::Companion;
use crate::limits::{Foreseen, Wanted, padding_after};
use atomic_file::{Begun, Directory, Durability, Names, Unfinished};
use file_sources::{FileSources, Opener};
use image_build::{LastCheck, PlanImage, Unwritten, put};
use image_stream::Sources;
use manifest::Manifest;
use manifest_layout::Plan;
use rom_fields::{ByteWrite, Failed};
use std::io;

/// What is built: the plan of a manifest's text, and the files that are its sources. The image is
/// as it is asked for: it has the format, is not too long, and passed what may refuse it.
#[derive(Drop)]
pub struct Job<'a, O: Opener> {
    pub wanted: Wanted<'a>,
    /// The text of the manifest, and what it says.
    pub text: &'a [u8],
    pub manifest: &'a Manifest,
    /// The names by which the sources are opened, in the manifest's order, and the states that the
    /// files have to have then.
    pub names: &'a [O::Name],
    pub states: &'a [O::State],
    pub plan: &'a Plan,
    pub foreseen: Foreseen,
    ghost says: { manifest_of text.now ≡ Ok manifest.now },
    ghost named: { map O.spelled names.now ≡ opened_as (option_map (λ d. d.now) wanted.sources)
        (sources_of manifest.now.lines) },
    ghost planned: { IsPlanOf plan.now.format manifest.now plan.now.sizes plan.now },
    ghost count: { length plan.now.sizes ≡ length (sources_of manifest.now.lines) },
    ghost format: { plan.now.format ≡ format_of wanted.format },
    ghost within: { IsWithin (most_of wanted) plan.now.image_len },
    ghost strict: { wanted.strict ≡ true → foreseen.misread ≡ None },
    ghost in_place: { wanted.xip ≡ true → foreseen.programs ≢ None },
}

/// What a build uses: what opens the sources, and the check after all is written.
pub struct Tools<O: Opener, K: LastCheck> {
    pub opener: O,
    pub last: K,
}

/// The reason why a build is not done.
#[derive(Drop)]
pub enum Unbuilt<E: Drop, C: Drop> {
    /// The image did not get its place.
    NotMade(E),
    /// The image has its place, and what is beside it was not kept.
    NotKept(C),
    /// The image has its place, and its line could not be written.
    NotReported,
}

/// What closes a file that an image was written over, for example a device, and synchronizes it.
pub trait Closer {
    /// The file, to which the image is written.
    type File: ByteWrite + Drop;

    /// The reason why it could not be closed.
    type Error: Drop;

    // A file with these bytes, if they are known, was synchronized, if that can be done, and
    // closed, and neither failed.
    ghost closed: { Self → Option (List ℕ) → Type 0 };

    /// Synchronizes the file, if that can be done, and closes it.
    ///
    /// # Errors
    ///
    /// Those of the system.
    fn close(&mut self, file: Self::File) -> Result<(), Self::Error>
        ensures { OnOk result (closed self.new (Self.File.output file).contents) };
}

/// The reason why an image was not written over a file.
#[derive(Drop)]
pub enum Unplaced<E: Drop, F: Drop, C: Drop> {
    /// It was not written whole, for this reason; and the file, which may know more.
    NotWritten(E, F),
    /// The file could not be closed.
    NotClosed(C),
}

/// How a build ended.
pub struct Ended<O, K, R> {
    pub opener: O,
    pub last: K,
    /// Why the last read that failed did, if one did.
    pub unread: Option<io::Error>,
    pub result: R,
}

/// Keeps what is beside an image that has its place, and writes `ok LENGTH`; or gives it up.
fn report<C: Companion, A: Drop, E: Drop, W: ByteWrite>(
    plan: &Plan,
    made: Result<A, E>,
    companion: &mut C,
    out: &mut W,
) -> Result<A, Unbuilt<E, C::Error>>
    requires { C.fate companion.old ≡ Open }
    ensures ok { IfOk result (λ a. (made ≡ Ok a) × IsReported plan.now.image_len (W.output out.old)
        (W.output out.new)) }
    ensures kept { OnOk result (C.fate companion.new ≡ Kept) }
    ensures unkept { IfErr result (IsFateAfter (C.fate companion.new)) }
    ensures err { IfErr result (IsOf made) }
    ensures output { IfErr result (IsOutputAfter plan.now.image_len (W.output out.old)
        (W.output out.new)) }
{
    let made = match made {
        Ok(made) => made,
        Err(e) => {
            companion.give_up();
            return Err(Unbuilt::NotMade(e));
        }
    };
    if let Err(e) = companion.keep() {
        return Err(Unbuilt::NotKept(e));
    }
    match print_built(out, plan.image_len() as u64) {
        Ok(()) => Ok(made),
        Err(Failed) => Err(Unbuilt::NotReported),
    }
}

/// Fills a part with the image of a job, and gives it the name of a file, which it replaces.
fn replaced_by<D: Directory, O: Opener, K: LastCheck>(
    directory: &mut D,
    names: Names,
    begun: Begun<D::Part>,
    job: &Job<'_, O>,
    opener: O,
    last: K,
    buffer: &mut [u8],
) -> Ended<O, K, Result<Durability, Unfinished<Unwritten<K::Error>, D::Part>>>
    requires distinct { IsNoPart names names.out }
    requires room { 4 ≤ D.room directory.old }
    requires empty { (D.Part.output begun.part).contents ≡ D.fresh }
    requires buffer { 4096 ≤ length buffer.old }
    requires words { length buffer.old % 4 ≡ 0 }
    ensures any_moment { (old : List Event) → IsBegun names begun.name old (D.log directory.old)
        → Throughout (IsOldOrNew names (IsMade (K.passed result.last) job.now.wanted
        (O.contents opener) (O.IsLog opener) (O.IsLog result.opener)
        (map O.spelled job.now.names.now) job.now.plan.now D.fresh) old) (D.log directory.old)
        (D.log directory.new) }
    ensures ok { IfOk result.result (λ d. (old : List Event)
        → IsBegun names begun.name old (D.log directory.old)
        → IsReplaced names (IsMade (K.passed result.last) job.now.wanted (O.contents opener)
        (O.IsLog opener) (O.IsLog result.opener) (map O.spelled job.now.names.now)
        job.now.plan.now D.fresh) old (D.log directory.new)) }
    ensures durable { IfOk result.result (λ d. IsDurable d (D.log directory.new)) }
    ensures err { OnErr result.result ((old : List Event)
        → IsBegun names begun.name old (D.log directory.old)
        → IsKept names (IsMade (K.passed result.last) job.now.wanted (O.contents opener)
        (O.IsLog opener) (O.IsLog result.opener) (map O.spelled job.now.names.now)
        job.now.plan.now D.fresh) old (D.log directory.new)) }
{
    let mut image = PlanImage {
        plan: job.plan,
        sources: FileSources::new(opener, job.names, job.states),
        padding: padding_after(&job.wanted, job.plan),
        last,
        buffer,
    };
    let result = put(directory, names, begun, &mut image);
    let PlanImage {
        plan: _,
        sources,
        padding: _,
        last,
        buffer: _,
    } = image;
    let (mut opener, unread) = sources.into_parts();
    opener.end();
    Ended {
        opener,
        last,
        unread,
        result,
    }
}

/// Builds the image of a manifest in the place of a file, through a buffer of at least 4,096 bytes,
/// whose length is a multiple of 4, and then writes `ok LENGTH`.
///
/// `Ok`: the file is the image of the manifest's text, whole, with the contents that the opener's
/// reads told of the manifest's sources, the companion was kept, and exactly the line was written.
/// At each moment the file is what it was or this image, and a crash leaves it so.
///
/// # Errors
///
/// `NotMade`: the file is what it was, except if only the synchronization of the directory was
/// refused, the companion was given up, and nothing was written to `out`. `NotKept`: the file is
/// the image, the companion was not kept, and nothing was written to `out`. `NotReported`: the file
/// is the image, the companion was kept, and a prefix of the line was written.
pub fn build_file<D: Directory, O: Opener, K: LastCheck, C: Companion, W: ByteWrite>(
    directory: &mut D,
    names: Names,
    begun: Begun<D::Part>,
    job: &Job<'_, O>,
    tools: Tools<O, K>,
    companion: &mut C,
    buffer: &mut [u8],
    out: &mut W,
) -> Ended<O, K, Result<Durability, Unbuilt<Unfinished<Unwritten<K::Error>, D::Part>, C::Error>>>
    requires distinct { IsNoPart names names.out }
    requires room { 4 ≤ D.room directory.old }
    requires empty { (D.Part.output begun.part).contents ≡ D.fresh }
    requires buffer { 4096 ≤ length buffer.old }
    requires words { length buffer.old % 4 ≡ 0 }
    requires companion { C.fate companion.old ≡ Open }
    ensures any_moment { (old : List Event) → IsBegun names begun.name old (D.log directory.old)
        → Throughout (IsOldOrNew names (IsMade (K.passed result.last) job.now.wanted
        (O.contents tools.opener) (O.IsLog tools.opener) (O.IsLog result.opener)
        (map O.spelled job.now.names.now) job.now.plan.now D.fresh) old) (D.log directory.old)
        (D.log directory.new) }
    ensures ok { IfOk result.result (λ d. (old : List Event)
        → IsBegun names begun.name old (D.log directory.old)
        → IsBuilt job.now.wanted job.now.text.now job.now.foreseen
        (λ opened. IsReplaced names (IsMade (K.passed result.last) job.now.wanted
        (O.contents tools.opener) (O.IsLog tools.opener) (O.IsLog result.opener)
        opened job.now.plan.now D.fresh) old (D.log directory.new)) job.now.plan.now
        (W.output out.old) (W.output out.new)) }
    ensures durable { IfOk result.result (λ d. IsDurable d (D.log directory.new)) }
    ensures err { IfErr result.result (λ e. (old : List Event)
        → IsBegun names begun.name old (D.log directory.old)
        → IsUnbuilt names (IsMade (K.passed result.last) job.now.wanted
        (O.contents tools.opener) (O.IsLog tools.opener) (O.IsLog result.opener)
        (map O.spelled job.now.names.now) job.now.plan.now D.fresh) old (D.log directory.new) e) }
    ensures kept { OnOk result.result (C.fate companion.new ≡ Kept) }
    ensures unkept { IfErr result.result (IsFateAfter (C.fate companion.new)) }
    ensures output { IfErr result.result (IsOutputAfter job.now.plan.now.image_len
        (W.output out.old) (W.output out.new)) }
{
    let Tools { opener, last } = tools;
    let Ended {
        opener,
        last,
        unread,
        result,
    } = replaced_by(directory, names, begun, job, opener, last, buffer);
    let result = report(job.plan, result, companion, out);
    Ended {
        opener,
        last,
        unread,
        result,
    }
}

/// Fills a file with an image, and closes it.
fn fill_and_close<F: Closer, S: Sources, K: LastCheck>(
    closer: &mut F,
    mut file: F::File,
    image: &mut PlanImage<'_, S, K>,
) -> Result<(), Unplaced<Unwritten<K::Error>, F::File, F::Error>>
    requires files { S.files image.old.sources ≡ length image.old.plan.now.sizes }
    requires buffer { 4096 ≤ length image.old.buffer.now }
    requires words { length image.old.buffer.now % 4 ≡ 0 }
    ensures ok { IfOk result (λ _. (new : Option (List ℕ)) × F.closed closer.new new
        × IsCheckedImage (K.passed image.new.last) image.old.padding (S.known image.old.sources)
        (S.IsLog image.old.sources) (S.IsLog image.new.sources) image.old.plan.now
        (F.File.output file).contents new) }
    ensures names { S.names image.new.sources ≡ S.names image.old.sources }
{
    if let Err(e) = image.write_through(&mut file) {
        return Err(Unplaced::NotWritten(e, file));
    }
    match closer.close(file) {
        Ok(()) => Ok(()),
        Err(e) => Err(Unplaced::NotClosed(e)),
    }
}

/// Writes the image of a job over a file, and closes it.
fn written_over<F: Closer, O: Opener, K: LastCheck>(
    closer: &mut F,
    file: F::File,
    job: &Job<'_, O>,
    opener: O,
    last: K,
    buffer: &mut [u8],
) -> Ended<O, K, Result<(), Unplaced<Unwritten<K::Error>, F::File, F::Error>>>
    requires buffer { 4096 ≤ length buffer.old }
    requires words { length buffer.old % 4 ≡ 0 }
    ensures ok { IfOk result.result (λ _. (new : Option (List ℕ)) × F.closed closer.new new
        × IsMade (K.passed result.last) job.now.wanted (O.contents opener) (O.IsLog opener)
        (O.IsLog result.opener) (map O.spelled job.now.names.now) job.now.plan.now
        (F.File.output file).contents new) }
{
    let mut image = PlanImage {
        plan: job.plan,
        sources: FileSources::new(opener, job.names, job.states),
        padding: padding_after(&job.wanted, job.plan),
        last,
        buffer,
    };
    let result = fill_and_close(closer, file, &mut image);
    let PlanImage {
        plan: _,
        sources,
        padding: _,
        last,
        buffer: _,
    } = image;
    let (mut opener, unread) = sources.into_parts();
    opener.end();
    Ended {
        opener,
        last,
        unread,
        result,
    }
}

/// Builds the image of a manifest over a file that is not regular, for example a device, and then
/// writes `ok LENGTH`.
///
/// `Ok`: the file was closed with the image of the manifest's text behind what it had, whole, with
/// the contents that the opener's reads told of the manifest's sources, and with nothing behind it;
/// neither its synchronization nor its close failed. Then the companion was kept, and exactly the
/// line was written.
///
/// # Errors
///
/// `NotMade`: the file may have a part of the image, the companion was given up, and nothing was
/// written to `out`. The others are those of `build_file`.
pub fn build_over<F: Closer, O: Opener, K: LastCheck, C: Companion, W: ByteWrite>(
    closer: &mut F,
    file: F::File,
    job: &Job<'_, O>,
    tools: Tools<O, K>,
    companion: &mut C,
    buffer: &mut [u8],
    out: &mut W,
) -> Ended<O, K, Result<(), Unbuilt<Unplaced<Unwritten<K::Error>, F::File, F::Error>, C::Error>>>
    requires buffer { 4096 ≤ length buffer.old }
    requires words { length buffer.old % 4 ≡ 0 }
    requires companion { C.fate companion.old ≡ Open }
    ensures ok { IfOk result.result (λ _. IsBuilt job.now.wanted job.now.text.now
        job.now.foreseen
        (λ opened. (new : Option (List ℕ)) × F.closed closer.new new
        × IsMade (K.passed result.last) job.now.wanted (O.contents tools.opener)
        (O.IsLog tools.opener) (O.IsLog result.opener)
        opened job.now.plan.now (F.File.output file).contents new) job.now.plan.now
        (W.output out.old) (W.output out.new)) }
    ensures kept { OnOk result.result (C.fate companion.new ≡ Kept) }
    ensures unkept { IfErr result.result (IsFateAfter (C.fate companion.new)) }
    ensures output { IfErr result.result (IsOutputAfter job.now.plan.now.image_len
        (W.output out.old) (W.output out.new)) }
{
    let Tools { opener, last } = tools;
    let Ended {
        opener,
        last,
        unread,
        result,
    } = written_over(closer, file, job, opener, last, buffer);
    let result = report(job.plan, result, companion, out);
    Ended {
        opener,
        last,
        unread,
        result,
    }
}
