//! Lines that are held back until they are flushed.
ghost use Rattle.std.specs.Prelude.{◌≡◌, ◌≢◌, ◌-◌, ◌≤◌, ◌++◌, [], true, false, IfErr, IfOk, OnOk};
ghost use Rattle.std.specs.Prelude.{OnErr, length, take, drop, vec_len};
ghost use Rattle.std.specs.IoError.{error_kind};
ghost use Rattle.std.specs.Io.{WritesAtMost};
ghost use Rattle.std.specs.Io.KnownBytes.{Keeps, Appends, WriteAppends};
ghost use Rattle.program_streams.specs.Streams.{held_inner, held_back, held_contents};

use crate::signals::{flush_again, write_again};
use std::alloc::Global;
use std::io::{self, ErrorKind, Write};

/// The most bytes that are held back.
const MOST_HELD: usize = 64 << 10;

/// A writer that holds back what is written until it is flushed, so that a line is one write. If
/// memory is refused for that, it writes at once. Bytes that a failed call did not write stay held
/// back, and come first in the next call. Interrupted calls are repeated. Nothing is written when
/// it is dropped.
#[derive(Drop)]
pub struct Held<X> {
    inner: X,
    held: Vec<u8>,
}

/// Writes bytes until a call fails or accepts none of them, and returns the number of written
/// bytes.
fn write_out<W: Write>(writer: &mut W, b: &[u8]) -> (usize, io::Result<()>)
    ensures bound { result.0 ≤ length b.now }
    ensures all { OnOk result.1 (result.0 ≡ length b.now) }
    ensures bytes { Appends (W.contents writer.old) (W.contents writer.new) (take result.0 b.now) }
    ensures retried { IfErr result.1 (λ e. error_kind e ≢ ErrorKind.Interrupted) }
{
    let mut written = 0;
    while written < b.len() {
        match write_again(writer, &b[written..]) {
            Ok(0) => return (written, Err(io::Error::from(ErrorKind::WriteZero))),
            Ok(n) => written += n,
            Err(e) => return (written, Err(e)),
        }
    }
    (written, Ok(()))
}

/// Removes bytes from the front.
fn remove_front(held: &mut Vec<u8>, count: usize)
    requires { count ≤ vec_len held.old }
    ensures { held.new.items ≡ drop count held.old.items }
{
    let len = held.len();
    held.as_mut_slice().copy_within(count..len, 0);
    held.truncate(len - count);
}

impl<X> Held<X> {
    /// Returns a writer in front of this one. It allocates no memory.
    pub fn new(alloc: Global, inner: X) -> Held<X>
        ensures inner { held_inner result ≡ inner }
        ensures empty { held_back result ≡ [] }
    {
        Held {
            inner,
            held: Vec::new(alloc),
        }
    }

    /// Returns the writer behind it.
    pub fn behind(&self) -> &X
        ensures { result.now ≡ held_inner self.now }
    {
        &self.inner
    }

    /// Returns the writer behind it, and the bytes that were held back.
    pub fn into_parts(self) -> (X, Vec<u8>)
        ensures inner { result.0 ≡ held_inner self }
        ensures held { result.1.items ≡ held_back self }
    {
        let Held { inner, held } = self;
        (inner, held)
    }

    /// Holds back more bytes, and returns whether there was room and memory for them.
    fn hold(&mut self, b: &[u8]) -> bool
        ensures inner { held_inner self.new ≡ held_inner self.old }
        ensures held { result ≡ true → held_back self.new ≡ held_back self.old ++ b.now }
        ensures kept { result ≡ false → held_back self.new ≡ held_back self.old }
    {
        if b.len() > MOST_HELD {
            return false;
        }
        self.held.extend_from_slice(b).is_ok()
    }
}

impl<X: Write> Held<X> {
    /// Writes the bytes that are held back.
    fn hand_on(&mut self) -> io::Result<()>
        ensures empty { OnOk result (held_back self.new ≡ []) }
        ensures bytes { Keeps (held_contents X.contents self.old)
            (held_contents X.contents self.new) }
        ensures retried { IfErr result (λ e. error_kind e ≢ ErrorKind.Interrupted) }
    {
        let (written, result) = write_out(&mut self.inner, self.held.as_slice());
        remove_front(&mut self.held, written);
        result
    }

    /// Writes the bytes that are held back, if there is no room for `b` behind them.
    fn make_room(&mut self, b: &[u8]) -> io::Result<()>
        ensures bytes { Keeps (held_contents X.contents self.old)
            (held_contents X.contents self.new) }
        ensures retried { IfErr result (λ e. error_kind e ≢ ErrorKind.Interrupted) }
    {
        if MOST_HELD.saturating_sub(self.held.len()) < b.len() {
            return self.hand_on();
        }
        Ok(())
    }
}

impl<X: Write> Write for Held<X> {
    ghost contents = { held_contents X.contents };

    fn write(&mut self, b: &[u8]) -> io::Result<usize>
        ensures bound { WritesAtMost result b.now }
        ensures bytes { WriteAppends (held_contents X.contents self.old)
            (held_contents X.contents self.new) result b.now }
        ensures retried { IfErr result (λ e. error_kind e ≢ ErrorKind.Interrupted) }
    {
        self.make_room(b)?;
        if self.hold(b) {
            return Ok(b.len());
        }
        self.hand_on()?;
        write_again(&mut self.inner, b)
    }

    fn flush(&mut self) -> io::Result<()>
        ensures bytes { Keeps (held_contents X.contents self.old)
            (held_contents X.contents self.new) }
        ensures empty { OnOk result (held_back self.new ≡ []) }
        ensures retried { IfErr result (λ e. error_kind e ≢ ErrorKind.Interrupted) }
    {
        self.hand_on()?;
        flush_again(&mut self.inner)
    }
}
