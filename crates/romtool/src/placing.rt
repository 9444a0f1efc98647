//! How a target gets an image: a part gets the name of the file, or the file is written in place.
ghost use Rattle.std.specs.Prelude.{◌≡◌, ◌≤◌, ◌%◌, [], ℕ, List, Option, None, length};
ghost use Rattle.std.specs.Prelude.{IfOk, IfErr, OnOk};
ghost use Rattle.atomic_file.specs.Moments.{IsReplaced};
ghost use Rattle.build_commands.specs.Built.{IsBuilt, IsFateAfter, IsMade};
ghost use Rattle.build_commands.specs.declared.fate.Fate.TheVariants.{Open, Kept};
ghost use Rattle.romtool.specs.Placed.{IsPlacedAs, IsRenamedAs, IsWrittenAs, is_part};
ghost use Rattle.system_files.specs.Parts.{part_names};

use crate::placed::Placed;
use atomic_file::{Durability, Unfinished};
use build_commands::{
    Closer, Companion, Ended, Fate, Job, Tools, Unbuilt, Unplaced, build_file, build_over,
};
use file_sources::Opener;
use image_build::{LastCheck, Unwritten};
use rom_fields::ByteWrite;
use std::io;
use system_files::{KeepError, NAMES, OpenPart, Opened, Target, Writer, close_straight};

/// The reason why a target was not filled and kept.
#[derive(Drop)]
pub enum FillError<E: Drop> {
    /// The source or the writer failed; and the reason that the system gave to the writer.
    NotWritten(E, Option<io::Error>),
    /// It did not get its name.
    NotKept(KeepError),
}

/// Fills a part with the image of a job, gives it its name, and reports this. `Ok`: by the account
/// of the calls that were made, the file is this image.
fn build_part<O: Opener, K: LastCheck, C: Companion, W: ByteWrite>(
    part: OpenPart<'_>,
    job: &Job<'_, O>,
    tools: Tools<O, K>,
    companion: &mut C,
    buffer: &mut [u8],
    out: &mut W,
) -> Ended<O, K, Result<Placed, Unbuilt<FillError<Unwritten<K::Error>>, C::Error>>>
    requires buffer { 4096 ≤ length buffer.old }
    requires words { length buffer.old % 4 ≡ 0 }
    requires companion { C.fate companion.old ≡ Open }
    ensures ok { IfOk result.result (IsRenamedAs (λ log. IsBuilt job.now.wanted job.now.text.now
        job.now.foreseen (λ opened. IsReplaced part_names (IsMade (K.passed result.last)
        job.now.wanted (O.contents tools.opener) (O.IsLog tools.opener) (O.IsLog result.opener)
        opened job.now.plan.now None) [] log) job.now.plan.now
        (W.output out.old) (W.output out.new))) }
    ensures kept { OnOk result.result (C.fate companion.new ≡ Kept) }
    ensures unkept { IfErr result.result (IsFateAfter (C.fate companion.new)) }
{
    let OpenPart { mut system, begun } = part;
    let Ended {
        opener,
        last,
        unread,
        result,
    } = build_file(
        &mut system,
        NAMES,
        begun,
        job,
        tools,
        companion,
        buffer,
        out,
    );
    let result = match result {
        Ok(_) => Ok(Placed::Renamed(system.into_account())),
        Err(Unbuilt::NotMade(Unfinished::NotWritten(e, part))) => {
            Err(Unbuilt::NotMade(FillError::NotWritten(e, part.error())))
        }
        Err(Unbuilt::NotMade(Unfinished::NotKept)) => {
            Err(Unbuilt::NotMade(FillError::NotKept(system.refusal())))
        }
        Err(Unbuilt::NotKept(e)) => Err(Unbuilt::NotKept(e)),
        Err(Unbuilt::NotReported) => Err(Unbuilt::NotReported),
    };
    Ended {
        opener,
        last,
        unread,
        result,
    }
}

/// What closes a file that is not regular, and what the system answered.
#[derive(Drop)]
struct StraightCloser<'a> {
    rt: &'a HostRuntime,
    // the answer to the synchronization, unless it was refused
    synced: Option<Durability>,
    // whether the close was answered without an error
    is_closed: bool,
}

impl Closer for StraightCloser<'_> {
    ghost use Rattle.std.specs.Prelude.{◌≡◌, Some, true};
    ghost use Rattle.atomic_file.specs.declared.directory.Durability.{Durability};

    type File = Writer;

    type Error = KeepError;

    // What the file has then is known by no proof.
    ghost closed = { λ c _. (d : Durability) × (c.synced ≡ Some d) × (c.is_closed ≡ true) };

    fn close(&mut self, file: Writer) -> Result<(), KeepError> {
        let durability = close_straight(self.rt, file)?;
        self.synced = Some(durability);
        self.is_closed = true;
        Ok(())
    }
}

/// Fills a file that is not regular with the image of a job, closes it, and reports this.
fn build_straight<O: Opener, K: LastCheck, C: Companion, W: ByteWrite>(
    rt: &HostRuntime,
    writer: Writer,
    job: &Job<'_, O>,
    tools: Tools<O, K>,
    companion: &mut C,
    buffer: &mut [u8],
    out: &mut W,
) -> Ended<O, K, Result<Placed, Unbuilt<FillError<Unwritten<K::Error>>, C::Error>>>
    requires buffer { 4096 ≤ length buffer.old }
    requires words { length buffer.old % 4 ≡ 0 }
    requires companion { C.fate companion.old ≡ Open }
    ensures ok { IfOk result.result (IsWrittenAs (IsBuilt job.now.wanted job.now.text.now
        job.now.foreseen (λ opened. (known new : Option (List ℕ)) × IsMade (K.passed result.last)
        job.now.wanted (O.contents tools.opener) (O.IsLog tools.opener) (O.IsLog result.opener)
        opened job.now.plan.now known new) job.now.plan.now
        (W.output out.old) (W.output out.new))) }
    ensures kept { OnOk result.result (C.fate companion.new ≡ Kept) }
    ensures unkept { IfErr result.result (IsFateAfter (C.fate companion.new)) }
{
    let mut closer = StraightCloser {
        rt,
        synced: None,
        is_closed: false,
    };
    let Ended {
        opener,
        last,
        unread,
        result,
    } = build_over(&mut closer, writer, job, tools, companion, buffer, out);
    let result = match result {
        Ok(()) => Ok(Placed::Written(closer.synced.unwrap_or(Durability::Unknown))),
        Err(Unbuilt::NotMade(Unplaced::NotWritten(e, writer))) => {
            Err(Unbuilt::NotMade(FillError::NotWritten(e, writer.error())))
        }
        Err(Unbuilt::NotMade(Unplaced::NotClosed(e))) => {
            Err(Unbuilt::NotMade(FillError::NotKept(e)))
        }
        Err(Unbuilt::NotKept(e)) => Err(Unbuilt::NotKept(e)),
        Err(Unbuilt::NotReported) => Err(Unbuilt::NotReported),
    };
    Ended {
        opener,
        last,
        unread,
        result,
    }
}

/// Fills what a target is written to with the image of a job, gives it its name as `Target::keep`
/// does, keeps the companion, and writes `ok LENGTH` to `out`. `Ok`: a part was renamed, by the
/// account of the calls that were made; another file was written in place.
///
/// # Errors
///
/// Those of `build_commands::build_file`. A file that is not regular has what was written.
pub fn build<O: Opener, K: LastCheck, C: Companion, W: ByteWrite>(
    rt: &HostRuntime,
    target: Opened<'_>,
    job: &Job<'_, O>,
    tools: Tools<O, K>,
    companion: &mut C,
    buffer: &mut [u8],
    out: &mut W,
) -> Ended<O, K, Result<Placed, Unbuilt<FillError<Unwritten<K::Error>>, C::Error>>>
    requires buffer { 4096 ≤ length buffer.old }
    requires words { length buffer.old % 4 ≡ 0 }
    requires companion { C.fate companion.old ≡ Open }
    ensures ok { IfOk result.result (IsPlacedAs (is_part target.entry) (λ log. IsBuilt
        job.now.wanted job.now.text.now job.now.foreseen (λ opened. IsReplaced part_names
        (IsMade (K.passed result.last) job.now.wanted (O.contents tools.opener)
        (O.IsLog tools.opener) (O.IsLog result.opener) opened job.now.plan.now None) [] log)
        job.now.plan.now (W.output out.old) (W.output out.new))
        (IsBuilt job.now.wanted job.now.text.now job.now.foreseen
        (λ opened. (known new : Option (List ℕ)) × IsMade (K.passed result.last) job.now.wanted
        (O.contents tools.opener) (O.IsLog tools.opener) (O.IsLog result.opener) opened
        job.now.plan.now known new) job.now.plan.now (W.output out.old) (W.output out.new))) }
    ensures kept { OnOk result.result (C.fate companion.new ≡ Kept) }
    ensures unkept { IfErr result.result (IsFateAfter (C.fate companion.new)) }
{
    match target {
        Opened::Part(part) => build_part(part, job, tools, companion, buffer, out),
        Opened::Straight(writer) => {
            build_straight(rt, writer, job, tools, companion, buffer, out)
        }
        Opened::Nothing => {
            let Tools { opener, last } = tools;
            companion.give_up();
            Ended {
                opener,
                last,
                unread: None,
                result: Err(Unbuilt::NotMade(FillError::NotKept(KeepError::Changed))),
            }
        }
    }
}

/// A target that is kept with an image, or given up with it.
#[derive(Drop)]
pub struct KeptWith<'a> {
    pub rt: &'a HostRuntime,
    pub target: Option<Target>,
    /// What became of it.
    pub fate: Fate,
}

impl Companion for KeptWith<'_> {
    type Error = KeepError;

    ghost fate = { λ k. k.fate };

    fn keep(&mut self) -> Result<(), KeepError> {
        let kept = match self.target.take() {
            Some(target) => target.keep(self.rt),
            None => Ok(()),
        };
        match kept {
            Ok(()) => {
                self.fate = Fate::Kept;
                Ok(())
            }
            Err(e) => {
                self.fate = Fate::Lost;
                Err(e)
            }
        }
    }

    fn give_up(&mut self) {
        if let Some(target) = self.target.take() {
            target.abandon(self.rt);
        }
        self.fate = Fate::GivenUp;
    }
}
