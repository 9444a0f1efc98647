//! The serving of lines.
ghost use Rattle.std.specs.Prelude.{◌≡◌, ℕ, List, ◌∷◌, [], ◌++◌, take, length, ◌<◌, Err, IfOk};
ghost use Rattle.std.specs.Prelude.{OnOk, OnErr};
ghost use Rattle.std.specs.Io.KnownBytes.{Appends};
ghost use Rattle.rom_fields.specs.Failures.{Rose, Counts, after_flush, after_flushes};
ghost use Rattle.rom_fields.specs.Written.{WritesText, AppendsPrefix};
ghost use Rattle.serve_lines.specs.Served.{Serves, Finishes, Breaks, ForgetsLong, ReadsUpTo};
ghost use Rattle.serve_lines.specs.Served.{last_line, last_reply};
ghost use Rattle.serve_lines.specs.declared.error.ServeError.TheVariants.{ReadFault, WriteFault};
ghost use Rattle.serve_lines.specs.declared.error.ServeError.TheVariants.{TooManyReads};

use crate::buffered::{Buffered, Lent, Reached};
use crate::error::ServeError;
use crate::machine::LineMachine;
use crate::one_byte::{Got, read_byte};
use arrayvec::ArrayVec;
use rom_fields::{ByteRead, ByteWrite, Failed};
use std::marker::{Brand, PhantomData};

/// The byte that ends a line.
const LINE_FEED: u8 = b'\n';

/// The front of a line whose end has not been read yet.
type Line = ArrayVec<u8, 8192>;

/// Adds one byte to a line, of which 8,192 bytes are kept.
fn keep(line: &mut Line, b: u8)
    ensures { line.new.items ≡ take 8192 (line.old.items ++ b ∷ []) }
{
    if line.is_full() {
        return;
    }
    line.push(b);
}

/// Writes the reply to a line through a buffer, and flushes it. `answered` then is whether the line
/// ends the serving, or that the writing failed.
fn answer_through<'w, M: LineMachine, W: ByteWrite, K: Lent>(
    m: &mut M,
    line: &Line,
    reached: Reached<'w, W>,
    answered: &mut Result<bool, Failed>,
) -> Reached<'w, W>
    requires loan { reached.w.ghost_name ≡ K.loan }
    requires start { (W.output reached.w.now).contents ≡ K.start }
    ensures loan { result.w.ghost_name ≡ reached.entry.w.ghost_name }
    ensures last { IfOk answered.new (λ last. last ≡ (M.machine m.old).ends line.now.items) }
    ensures text { WritesText (W.output reached.entry.w.now).contents
        (W.output result.w.now).contents answered.new
        ((M.machine m.old).reply (M.state m.old) line.now.items) }
    ensures count { Counts (W.output reached.entry.w.now).failures
        (W.output result.w.now).failures answered.new }
    ensures flushed { (W.output result.w.now).flushes
        ≡ after_flush (W.output reached.entry.w.now).flushes answered.new }
    ensures step { M.state m.new ≡ (M.machine m.old).next (M.state m.old) line.now.items }
    ensures stays { M.machine m.new ≡ M.machine m.old }
{
    let mut out: Buffered<'w, W, K> = Buffered {
        reached,
        held: ArrayVec::new(),
        sent: 0,
        lent: PhantomData,
    };
    let mut failed = false;
    let last = m.answer(line.as_slice(), &mut out, &mut failed);
    if failed {
        *answered = Err(Failed);
        let Buffered { reached, .. } = out;
        return reached;
    }
    *answered = match out.flush() {
        Ok(()) => Ok(last),
        Err(Failed) => Err(Failed),
    };
    let Buffered { reached, .. } = out;
    reached
}

/// Writes the reply to a line, and flushes it. Returns whether the line ends the serving.
fn answer_line<M: LineMachine, W: ByteWrite>(
    m: &mut M,
    line: &Line,
    w: &mut W,
) -> Result<bool, Failed>
    ensures last { IfOk result (λ last. last ≡ (M.machine m.old).ends line.now.items) }
    ensures text { WritesText (W.output w.old).contents (W.output w.new).contents result
        ((M.machine m.old).reply (M.state m.old) line.now.items) }
    ensures count { Counts (W.output w.old).failures (W.output w.new).failures result }
    ensures flushed { (W.output w.new).flushes ≡ after_flush (W.output w.old).flushes result }
    ensures step { M.state m.new ≡ (M.machine m.old).next (M.state m.old) line.now.items }
    ensures stays { M.machine m.new ≡ M.machine m.old }
{
    let mut reached = Reached { w };
    let mut answered = Ok(false);
    // The reference comes back, so it is known here what was written through it.
    reached = answer_through::<M, W, Brand>(m, line, reached, &mut answered);
    answered
}

/// Writes the reply to a last line without a line feed, if it has any bytes.
fn answer_last<M: LineMachine, W: ByteWrite>(
    m: &mut M,
    line: &Line,
    w: &mut W,
) -> Result<(), Failed>
    ensures ok { OnOk result (Appends (W.output w.old).contents (W.output w.new).contents
        (last_reply (M.machine m.old) (M.state m.old) line.now.items)) }
    ensures err { OnErr result (AppendsPrefix (W.output w.old).contents (W.output w.new).contents
        ((M.machine m.old).reply (M.state m.old) line.now.items)) }
    ensures some { OnErr result (0 < length line.now.items) }
    ensures count { Counts (W.output w.old).failures (W.output w.new).failures result }
    ensures flushed { OnOk result ((W.output w.new).flushes
        ≡ after_flushes (W.output w.old).flushes (length (last_line line.now.items))) }
    ensures unflushed { OnErr result ((W.output w.new).flushes ≡ (W.output w.old).flushes) }
{
    if line.is_empty() {
        return Ok(());
    }
    match answer_line(m, line, w) {
        Ok(_) => Ok(()),
        Err(Failed) => Err(Failed),
    }
}

/// Answers the lines of `r` on `w`, up to the end of the input or to the first line that ends the
/// serving. It reads one byte with each call, at most `reads` times, and keeps 8,192 bytes of a
/// line. Each reply is written whole and flushed before the next byte is read, with one write for
/// each 4,096 bytes of it. However it ends, at most `reads` bytes were read.
///
/// # Errors
///
/// `ReadFault` if a read failed, and `TooManyReads` if `reads` bytes were read and the input had
/// not ended. Exactly the replies to the lines that end with a line feed were then written.
/// `WriteFault` if a write or a flush failed. A prefix of the replies was then written, which holds
/// the replies to all lines except the last.
pub fn serve_lines<M: LineMachine, R: ByteRead, W: ByteWrite>(
    m: &mut M,
    r: &mut R,
    w: &mut W,
    reads: u64,
) -> Result<(), ServeError>
    requires { ForgetsLong (M.machine m.old) }
    ensures ok { OnOk result (Serves (M.machine m.old) (M.state m.old)
        (R.remaining r.old) (R.remaining r.new) (W.output w.old) (W.output w.new)) }
    ensures quiet { OnOk result ((R.failures r.new ≡ R.failures r.old)
        × ((W.output w.new).failures ≡ (W.output w.old).failures)) }
    ensures read_fault { result ≡ Err ReadFault → Rose (R.failures r.old) (R.failures r.new)
        × ((y : List ℕ) × Finishes (M.machine m.old) (M.state m.old)
        (R.remaining r.old) (R.remaining r.new) (W.output w.old) (W.output w.new) y) }
    ensures write_fault { result ≡ Err WriteFault
        → Rose (W.output w.old).failures (W.output w.new).failures
        × Breaks (M.machine m.old) (M.state m.old) (R.remaining r.old) (R.remaining r.new)
        (W.output w.old) (W.output w.new) }
    ensures too_many { result ≡ Err TooManyReads → (y : List ℕ) × (length y ≡ reads)
        × Finishes (M.machine m.old) (M.state m.old) (R.remaining r.old) (R.remaining r.new)
        (W.output w.old) (W.output w.new) y }
    ensures bounded { ReadsUpTo reads (R.remaining r.old) (R.remaining r.new) }
{
    let mut line: Line = ArrayVec::new();
    for _ in 0..reads {
        let b = match read_byte(r) {
            Got::Byte(b) => b,
            Got::End => {
                return match answer_last(m, &line, w) {
                    Ok(()) => Ok(()),
                    Err(Failed) => Err(ServeError::WriteFault),
                };
            }
            Got::Fault => return Err(ServeError::ReadFault),
        };
        if b != LINE_FEED {
            keep(&mut line, b);
            continue;
        }
        let last = match answer_line(m, &line, w) {
            Ok(last) => last,
            Err(Failed) => return Err(ServeError::WriteFault),
        };
        if last {
            return Ok(());
        }
        line.clear();
    }
    Err(ServeError::TooManyReads)
}
