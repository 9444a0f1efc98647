//! Readers and writers that count their failures.
ghost use Rattle.std.specs.Prelude.{◌≡◌, ℕ, List, Option, length};
ghost use Rattle.std.specs.Io.{ReadsAtMost, WritesAtMost};
ghost use Rattle.std.specs.Io.KnownBytes.{Keeps, ReadConsumes, WriteAppends};
ghost use Rattle.rom_fields.specs.Failures.{after_read, after_write, after_flush};
ghost use Rattle.rom_fields.specs.Written.{Output, output_of};

use std::io::{Read, Write};

/// The error of a read, a write or a flush that failed.
#[derive(Debug, Clone, Copy, PartialEq, Eq)]
pub struct Failed;

/// A reader whose failed reads are counted.
pub trait ByteRead {
    // The bytes that later reads return, if they are known.
    ghost remaining: { Self → Option (List ℕ) };

    // The number of reads that failed, up to 2^64 - 1.
    ghost failures: { Self → ℕ };

    /// Reads the next bytes into a prefix of `buf`, and returns their number: 0 at the end.
    fn read(&mut self, buf: &mut [u8]) -> Result<usize, Failed>
        ensures bound { ReadsAtMost result buf.new }
        ensures bytes { ReadConsumes (remaining self.old) (remaining self.new) result buf.new }
        ensures count { failures self.new ≡ after_read (failures self.old) result };
}

/// A writer that counts its failures: writes and flushes that failed, and writes that accepted no
/// byte of a nonempty slice. It also counts the flushes that succeeded.
pub trait ByteWrite {
    // The bytes that the writer holds, if they are known; the number of its failures; and the
    // number of its flushes that succeeded. Both numbers stop at 2^64 - 1.
    ghost output: { Self → Output };

    /// Writes a prefix of the bytes, and returns its length.
    fn write(&mut self, b: &[u8]) -> Result<usize, Failed>
        ensures bound { WritesAtMost result b.now }
        ensures bytes { WriteAppends (output self.old).contents
            (output self.new).contents result b.now }
        ensures count { (output self.new).failures
            ≡ after_write (output self.old).failures (length b.now) result }
        ensures unflushed { (output self.new).flushes ≡ (output self.old).flushes };

    /// Passes on the bytes that were accepted and are still held back.
    fn flush(&mut self) -> Result<(), Failed>
        ensures bytes { Keeps (output self.old).contents (output self.new).contents }
        ensures count { (output self.new).failures ≡ after_read (output self.old).failures result }
        ensures flushed { (output self.new).flushes
            ≡ after_flush (output self.old).flushes result };
}

/// A reader or writer of std that counts its failures, and its flushes that succeeded.
#[derive(Drop)]
pub struct Plain<X> {
    inner: X,
    failures: u64,
    flushes: u64,
}

impl<X> Plain<X> {
    /// Wraps a reader or writer, with no failure and no flush counted yet.
    pub fn new(x: X) -> Plain<X>
        ensures inner { result.inner ≡ x }
        ensures failures { result.failures ≡ 0 }
        ensures flushes { result.flushes ≡ 0 }
    {
        Plain {
            inner: x,
            failures: 0,
            flushes: 0,
        }
    }

    /// Returns the number of failures that were counted.
    pub fn failures(&self) -> u64
        ensures { result ≡ self.now.failures }
    {
        self.failures
    }

    /// Returns the number of flushes that succeeded.
    pub fn flushes(&self) -> u64
        ensures { result ≡ self.now.flushes }
    {
        self.flushes
    }

    /// Returns the inner reader or writer.
    pub fn into_inner(self) -> X
        ensures { result ≡ self.inner }
    {
        let Plain {
            inner,
            failures: _,
            flushes: _,
        } = self;
        inner
    }
}

impl<X: Read> ByteRead for Plain<X> {
    ghost remaining = { λ s. X.remaining s.inner };

    ghost failures = { λ s. s.failures };

    fn read(&mut self, buf: &mut [u8]) -> Result<usize, Failed> {
        match self.inner.read(buf) {
            Ok(n) => Ok(n),
            Err(_) => {
                self.failures = self.failures.saturating_add(1);
                Err(Failed)
            }
        }
    }
}

impl<X: Write> ByteWrite for Plain<X> {
    ghost output = { λ s. output_of (X.contents s.inner) s.failures s.flushes };

    fn write(&mut self, b: &[u8]) -> Result<usize, Failed> {
        match self.inner.write(b) {
            Ok(n) => {
                if n == 0 && !b.is_empty() {
                    self.failures = self.failures.saturating_add(1);
                }
                Ok(n)
            }
            Err(_) => {
                self.failures = self.failures.saturating_add(1);
                Err(Failed)
            }
        }
    }

    fn flush(&mut self) -> Result<(), Failed> {
        match self.inner.flush() {
            Ok(()) => {
                self.flushes = self.flushes.saturating_add(1);
                Ok(())
            }
            Err(_) => {
                self.failures = self.failures.saturating_add(1);
                Err(Failed)
            }
        }
    }
}
