//! Writers that repeat interrupted calls.
ghost use Rattle.std.specs.Prelude.{◌≡◌, ◌≢◌, IfErr};
ghost use Rattle.std.specs.IoError.{error_kind};
ghost use Rattle.std.specs.Io.{WritesAtMost};
ghost use Rattle.std.specs.Io.KnownBytes.{Keeps, WriteAppends};
ghost use Rattle.program_streams.specs.Streams.{again_inner};

use crate::signals::{flush_again, write_again};
use std::io::{self, ErrorKind, Write};

/// A writer that repeats a call if a signal interrupted it.
#[derive(Drop)]
pub struct Again<X> {
    inner: X,
}

impl<X> Again<X> {
    /// Returns a writer in front of this one.
    pub fn new(inner: X) -> Again<X>
        ensures { again_inner result ≡ inner }
    {
        Again { inner }
    }

    /// Returns the writer behind it.
    pub fn into_inner(self) -> X
        ensures { result ≡ again_inner self }
    {
        let Again { inner } = self;
        inner
    }
}

impl<X: Write> Write for Again<X> {
    ghost contents = { λ s. X.contents (again_inner s) };

    fn write(&mut self, b: &[u8]) -> io::Result<usize>
        ensures bound { WritesAtMost result b.now }
        ensures bytes { WriteAppends (X.contents (again_inner self.old))
            (X.contents (again_inner self.new)) result b.now }
        ensures retried { IfErr result (λ e. error_kind e ≢ ErrorKind.Interrupted) }
    {
        write_again(&mut self.inner, b)
    }

    fn flush(&mut self) -> io::Result<()>
        ensures bytes { Keeps (X.contents (again_inner self.old))
            (X.contents (again_inner self.new)) }
        ensures retried { IfErr result (λ e. error_kind e ≢ ErrorKind.Interrupted) }
    {
        flush_again(&mut self.inner)
    }
}
