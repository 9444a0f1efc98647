//! Calls that are repeated if a signal interrupted them.
ghost use Rattle.std.specs.Prelude.{◌≡◌, ◌≢◌, ◌↔◌, ◌<◌, IsTrue, OnErr, IfErr, IfOk, take, length};
ghost use Rattle.std.specs.IoError.{error_kind};
ghost use Rattle.std.specs.Io.{ReadsAtMost, WritesAtMost};
ghost use Rattle.std.specs.Io.KnownBytes.{Keeps, Appends, Consumes, IsAtEnd};

use std::io::{self, ErrorKind, Read, Write};

/// Returns whether a signal interrupted a call.
pub(crate) fn is_interrupted(e: &io::Error) -> bool
    ensures { IsTrue result ↔ (error_kind e.now ≡ ErrorKind.Interrupted) }
{
    e.kind() == ErrorKind::Interrupted
}

/// Returns the error for 2^64 - 1 interrupted calls.
pub(crate) fn gave_up() -> io::Error
    ensures { error_kind result ≡ ErrorKind.TimedOut }
{
    io::Error::from(ErrorKind::TimedOut)
}

/// Reads, and repeats an interrupted call.
pub(crate) fn read_again<R: Read>(reader: &mut R, buf: &mut [u8]) -> io::Result<usize>
    ensures bound { ReadsAtMost result buf.new }
    ensures ok { IfOk result (λ n. Consumes (R.remaining reader.old) (R.remaining reader.new)
        (take n buf.new)) }
    ensures end { IfOk result (λ n. n ≡ 0 → 0 < length buf.old → IsAtEnd (R.remaining reader.new)) }
    ensures err { OnErr result (Keeps (R.remaining reader.old) (R.remaining reader.new)) }
    ensures retried { IfErr result (λ e. error_kind e ≢ ErrorKind.Interrupted) }
{
    for _ in 0..u64::MAX {
        match reader.read(buf) {
            Ok(n) => return Ok(n),
            Err(e) => {
                if !is_interrupted(&e) {
                    return Err(e);
                }
            }
        }
    }
    Err(gave_up())
}

/// Writes, and repeats an interrupted call.
pub(crate) fn write_again<W: Write>(writer: &mut W, b: &[u8]) -> io::Result<usize>
    ensures bound { WritesAtMost result b.now }
    ensures ok { IfOk result (λ n. Appends (W.contents writer.old) (W.contents writer.new)
        (take n b.now)) }
    ensures err { OnErr result (Keeps (W.contents writer.old) (W.contents writer.new)) }
    ensures retried { IfErr result (λ e. error_kind e ≢ ErrorKind.Interrupted) }
{
    for _ in 0..u64::MAX {
        match writer.write(b) {
            Ok(n) => return Ok(n),
            Err(e) => {
                if !is_interrupted(&e) {
                    return Err(e);
                }
            }
        }
    }
    Err(gave_up())
}

/// Flushes, and repeats an interrupted call.
pub(crate) fn flush_again<W: Write>(writer: &mut W) -> io::Result<()>
    ensures bytes { Keeps (W.contents writer.old) (W.contents writer.new) }
    ensures retried { IfErr result (λ e. error_kind e ≢ ErrorKind.Interrupted) }
{
    for _ in 0..u64::MAX {
        match writer.flush() {
            Ok(()) => return Ok(()),
            Err(e) => {
                if !is_interrupted(&e) {
                    return Err(e);
                }
            }
        }
    }
    Err(gave_up())
}
