//! Writers that remember their first error.
ghost use Rattle.std.specs.Prelude.{◌≡◌, None};
ghost use Rattle.std.specs.IoError.{error_kind};
ghost use Rattle.std.specs.Io.{WritesAtMost};
ghost use Rattle.std.specs.Io.KnownBytes.{Keeps, WriteAppends};
ghost use Rattle.program_streams.specs.Streams.{Notes, Remembers, first_error, remembering_inner};

use std::io::{self, Write};

/// A writer that remembers its first error.
#[derive(Drop)]
pub struct Remembering<X> {
    inner: X,
    error: Option<io::Error>,
}

impl<X: Drop> Remembering<X> {
    /// Returns the first error, if a call failed.
    pub fn error(self) -> Option<io::Error>
        ensures { result ≡ first_error self }
    {
        self.error
    }
}

impl<X> Remembering<X> {
    /// Returns a writer in front of this one.
    pub fn new(inner: X) -> Remembering<X>
        ensures inner { remembering_inner result ≡ inner }
        ensures none { first_error result ≡ None }
    {
        Remembering { inner, error: None }
    }

    /// Returns the writer behind it.
    pub fn behind(&self) -> &X
        ensures { result.now ≡ remembering_inner self.now }
    {
        &self.inner
    }

    /// Returns the writer behind it, and the first error, if a call failed.
    pub fn into_parts(self) -> (X, Option<io::Error>)
        ensures inner { result.0 ≡ remembering_inner self }
        ensures error { result.1 ≡ first_error self }
    {
        let Remembering { inner, error } = self;
        (inner, error)
    }

    /// Remembers an error if it is the first, and returns one of its kind.
    fn note(&mut self, e: io::Error) -> io::Error
        ensures inner { remembering_inner self.new ≡ remembering_inner self.old }
        ensures noted { Notes (first_error self.old) (first_error self.new) result }
    {
        let kind = e.kind();
        if self.error.is_none() {
            self.error = Some(e);
        }
        io::Error::from(kind)
    }
}

impl<X: Write> Write for Remembering<X> {
    ghost contents = { λ s. X.contents (remembering_inner s) };

    fn write(&mut self, b: &[u8]) -> io::Result<usize>
        ensures bound { WritesAtMost result b.now }
        ensures bytes { WriteAppends (X.contents (remembering_inner self.old))
            (X.contents (remembering_inner self.new)) result b.now }
        ensures noted { Remembers (first_error self.old) (first_error self.new) result }
    {
        match self.inner.write(b) {
            Ok(count) => Ok(count),
            Err(e) => Err(self.note(e)),
        }
    }

    fn flush(&mut self) -> io::Result<()>
        ensures bytes { Keeps (X.contents (remembering_inner self.old))
            (X.contents (remembering_inner self.new)) }
        ensures noted { Remembers (first_error self.old) (first_error self.new) result }
    {
        match self.inner.flush() {
            Ok(()) => Ok(()),
            Err(e) => Err(self.note(e)),
        }
    }
}
