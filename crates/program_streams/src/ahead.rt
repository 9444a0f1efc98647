//! Readers of the bytes that another reader holds.
ghost use Rattle.std.specs.Prelude.{◌≡◌, ◌≢◌, ◌<◌, ◌↔◌, min, true, IfErr, IfOk, OnErr, length};
ghost use Rattle.std.specs.Prelude.{take};
ghost use Rattle.std.specs.IoError.{error_kind};
ghost use Rattle.std.specs.Io.{ReadsAtMost};
ghost use Rattle.std.specs.Io.KnownBytes.{Keeps, Consumes, IsAtEnd, ReadConsumes};
ghost use Rattle.program_streams.specs.Streams.{ahead_inner, ahead_remaining};

use crate::signals::{gave_up, is_interrupted};
use std::io::{self, BufRead, ErrorKind, Read};

/// A reader of the bytes that another reader holds. If the other reader is standard input and has a
/// position, it reads ahead in blocks. When it is dropped, it moves the position back to the first
/// unused byte. It reads a pipe or a terminal byte by byte. Interrupted calls are repeated. After
/// the end was read, nothing more is read.
#[derive(Drop)]
pub struct Ahead<X> {
    inner: X,
    has_ended: bool,
}

impl<X: BufRead> Ahead<X> {
    /// Returns a reader in front of this one.
    pub fn new(inner: X) -> Ahead<X>
        ensures inner { ahead_inner result ≡ inner }
        ensures bytes { ahead_remaining X.remaining result ≡ X.remaining inner }
    {
        Ahead {
            inner,
            has_ended: false,
        }
    }

    /// Returns the reader behind it.
    pub fn into_inner(self) -> X
        ensures { result ≡ ahead_inner self }
    {
        let Ahead {
            inner,
            has_ended: _,
        } = self;
        inner
    }
}

/// Copies as many bytes as both have to the front, and returns their number.
pub(crate) fn copy_front(from: &[u8], to: &mut [u8]) -> usize
    ensures count { result ≡ min (length from.now) (length to.old) }
    ensures copied { take result to.new ≡ take result from.now }
{
    let count = from.len().min(to.len());
    to[..count].copy_from_slice(&from[..count]);
    count
}

/// Returns whether a read of `count` bytes met the end.
fn is_end(count: usize, buf: &[u8]) -> bool
    ensures { (result ≡ true) ↔ ((count ≡ 0) × (0 < length buf.now)) }
{
    count == 0 && !buf.is_empty()
}

/// Reads the bytes that the reader holds, in one call.
fn read_held<X: BufRead>(reader: &mut X, buf: &mut [u8]) -> io::Result<usize>
    ensures bound { ReadsAtMost result buf.new }
    ensures ok { IfOk result (λ n. Consumes (X.remaining reader.old) (X.remaining reader.new)
        (take n buf.new)) }
    ensures end { IfOk result (λ n. n ≡ 0 → 0 < length buf.new → IsAtEnd (X.remaining reader.old)) }
    ensures err { OnErr result (Keeps (X.remaining reader.old) (X.remaining reader.new)) }
{
    let held = match reader.fill_buf() {
        Ok(held) => held,
        Err(e) => return Err(e),
    };
    let count = copy_front(held, buf);
    reader.consume(count);
    Ok(count)
}

/// Reads the bytes that the reader holds, and repeats the call if a signal interrupted it.
fn read_held_again<X: BufRead>(reader: &mut X, buf: &mut [u8]) -> io::Result<usize>
    ensures bound { ReadsAtMost result buf.new }
    ensures ok { IfOk result (λ n. Consumes (X.remaining reader.old) (X.remaining reader.new)
        (take n buf.new)) }
    ensures end { IfOk result (λ n. n ≡ 0 → 0 < length buf.new → IsAtEnd (X.remaining reader.old)) }
    ensures err { OnErr result (Keeps (X.remaining reader.old) (X.remaining reader.new)) }
    ensures retried { IfErr result (λ e. error_kind e ≢ ErrorKind.Interrupted) }
{
    for _ in 0..u64::MAX {
        match read_held(reader, buf) {
            Ok(n) => return Ok(n),
            Err(e) => {
                if !is_interrupted(&e) {
                    return Err(e);
                }
            }
        }
    }
    Err(gave_up())
}

impl<X: BufRead> Read for Ahead<X> {
    ghost remaining = { ahead_remaining X.remaining };

    fn read(&mut self, buf: &mut [u8]) -> io::Result<usize>
        ensures bound { ReadsAtMost result buf.new }
        ensures bytes { ReadConsumes (ahead_remaining X.remaining self.old)
            (ahead_remaining X.remaining self.new) result buf.new }
        ensures retried { IfErr result (λ e. error_kind e ≢ ErrorKind.Interrupted) }
    {
        if self.has_ended {
            return Ok(0);
        }
        let count = read_held_again(&mut self.inner, buf)?;
        self.has_ended = is_end(count, buf);
        Ok(count)
    }
}
