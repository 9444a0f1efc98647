//! Readers and writers that fail after a number of calls, for tests.
ghost use Rattle.std.specs.Prelude.{◌≡◌, ◌-◌, ◌≤◌, length, IfOk, IsOk, IsErr};
ghost use Rattle.std.specs.Io.{ReadsAtMost, WritesAtMost};
ghost use Rattle.std.specs.Io.KnownBytes.{Keeps, ReadConsumes, WriteAppends};
ghost use Rattle.rom_fields.specs.Failures.{one_more, after_read, after_write, after_flush};
ghost use Rattle.rom_fields.specs.Written.{output_of};

use crate::bytes::{ByteRead, ByteWrite, Failed};

/// A reader or writer that passes on `calls` calls, each of at most `most` bytes, and fails each
/// later one. A read into a nonempty buffer fails too if `most` is 0.
#[derive(Drop)]
pub struct Faulty<X> {
    inner: X,
    calls: u64,
    most: usize,
    failures: u64,
    flushes: u64,
}

impl<X> Faulty<X> {
    /// Wraps a reader or writer. No call was made yet.
    pub fn new(inner: X, calls: u64, most: usize) -> Faulty<X>
        ensures inner { result.inner ≡ inner }
        ensures calls { result.calls ≡ calls }
        ensures most { result.most ≡ most }
        ensures failures { result.failures ≡ 0 }
        ensures flushes { result.flushes ≡ 0 }
    {
        Faulty {
            inner,
            calls,
            most,
            failures: 0,
            flushes: 0,
        }
    }

    /// Counts a failure.
    fn fail(&mut self) -> Failed
        ensures failures { self.new.failures ≡ one_more self.old.failures }
        ensures flushes { self.new.flushes ≡ self.old.flushes }
        ensures inner { self.new.inner ≡ self.old.inner }
        ensures calls { self.new.calls ≡ self.old.calls }
        ensures most { self.new.most ≡ self.old.most }
    {
        self.failures = self.failures.saturating_add(1);
        Failed
    }

    /// Returns the inner reader or writer.
    pub fn into_inner(self) -> X
        ensures { result ≡ self.inner }
    {
        let Faulty {
            inner,
            calls: _,
            most: _,
            failures: _,
            flushes: _,
        } = self;
        inner
    }
}

impl<X: ByteRead> ByteRead for Faulty<X> {
    ghost remaining = { λ s. X.remaining s.inner };

    ghost failures = { λ s. s.failures };

    fn read(&mut self, buf: &mut [u8]) -> Result<usize, Failed>
        ensures bound { ReadsAtMost result buf.new }
        ensures bytes { ReadConsumes (X.remaining self.old.inner)
            (X.remaining self.new.inner) result buf.new }
        ensures count { self.new.failures ≡ after_read self.old.failures result }
        ensures limit { IfOk result (λ n. n ≤ self.old.most) }
        ensures spent { self.old.calls ≡ 0 → IsErr result }
        ensures calls { IsOk result → self.new.calls ≡ self.old.calls - 1 }
        ensures most { self.new.most ≡ self.old.most }
    {
        let most = buf.len().min(self.most);
        if self.calls == 0 || (most == 0 && !buf.is_empty()) {
            return Err(self.fail());
        }
        self.calls -= 1;
        match self.inner.read(&mut buf[..most]) {
            Ok(n) => Ok(n),
            Err(_) => Err(self.fail()),
        }
    }
}

impl<X: ByteWrite> ByteWrite for Faulty<X> {
    ghost output = { λ s. output_of (X.output s.inner).contents s.failures s.flushes };

    fn write(&mut self, b: &[u8]) -> Result<usize, Failed>
        ensures bound { WritesAtMost result b.now }
        ensures bytes { WriteAppends (X.output self.old.inner).contents
            (X.output self.new.inner).contents result b.now }
        ensures count { self.new.failures ≡ after_write self.old.failures (length b.now) result }
        ensures unflushed { self.new.flushes ≡ self.old.flushes }
        ensures limit { IfOk result (λ n. n ≤ self.old.most) }
        ensures spent { self.old.calls ≡ 0 → IsErr result }
        ensures calls { self.new.calls ≡ self.old.calls - 1 }
        ensures most { self.new.most ≡ self.old.most }
    {
        let most = b.len().min(self.most);
        if self.calls == 0 {
            return Err(self.fail());
        }
        self.calls -= 1;
        match self.inner.write(&b[..most]) {
            Ok(n) => {
                if n == 0 && !b.is_empty() {
                    let _ = self.fail();
                }
                Ok(n)
            }
            Err(_) => Err(self.fail()),
        }
    }

    fn flush(&mut self) -> Result<(), Failed>
        ensures bytes { Keeps (X.output self.old.inner).contents
            (X.output self.new.inner).contents }
        ensures count { self.new.failures ≡ after_read self.old.failures result }
        ensures flushed { self.new.flushes ≡ after_flush self.old.flushes result }
        ensures spent { self.old.calls ≡ 0 → IsErr result }
        ensures calls { self.new.calls ≡ self.old.calls - 1 }
        ensures most { self.new.most ≡ self.old.most }
    {
        if self.calls == 0 {
            return Err(self.fail());
        }
        self.calls -= 1;
        match self.inner.flush() {
            Ok(()) => {
                self.flushes = self.flushes.saturating_add(1);
                Ok(())
            }
            Err(_) => Err(self.fail()),
        }
    }
}
