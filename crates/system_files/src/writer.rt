//! The writer of a file that is made.
ghost use Rattle.std.specs.Prelude.{◌≡◌, None};
ghost use Rattle.rom_fields.specs.Failures.{one_more};
ghost use Rattle.rom_fields.specs.Written.{output_of};

use program_streams::{Held, Remembering};
use rom_fields::{ByteWrite, Failed, Rewrite};
use std::alloc::Global;
use std::fs::File;
use std::io::{self, Write};
use std::os::unix::fs::FileExt;

/// A writer of a file, which holds back short pieces and remembers why the system refused a write.
/// It writes all of the file, from offset 0 on, so it knows at which offset the bytes are that it
/// is to replace.
#[derive(Drop)]
pub struct Writer {
    inner: Remembering<Held<File>>,
    // how many bytes it took
    taken: u64,
    failures: u64,
    flushes: u64,
    // why the system refused first to replace bytes
    error: Option<io::Error>,
}

impl Writer {
    /// Returns a writer of a file, to which nothing was written. It allocates no memory.
    pub fn new(alloc: Global, file: File) -> Writer {
        Writer {
            inner: Remembering::new(Held::new(alloc, file)),
            taken: 0,
            failures: 0,
            flushes: 0,
            error: None,
        }
    }

    /// Returns the file, and the first error, if a call failed. Bytes that are held back are lost.
    pub fn into_parts(self) -> (File, Option<io::Error>) {
        let Writer { inner, error, .. } = self;
        let (held, first) = inner.into_parts();
        let (file, _) = held.into_parts();
        match first {
            Some(e) => (file, Some(e)),
            None => (file, error),
        }
    }

    /// Returns the first error, if a call failed.
    pub fn error(self) -> Option<io::Error> {
        let (_, error) = self.into_parts();
        error
    }

    /// Counts a failure.
    fn fail(&mut self) -> Failed
        ensures failures { self.new.failures ≡ one_more self.old.failures }
        ensures flushes { self.new.flushes ≡ self.old.flushes }
    {
        self.failures = self.failures.saturating_add(1);
        Failed
    }

    /// Writes bytes at the offset that is so many bytes before the end of what it took.
    fn replaced(&mut self, back: u64, b: &[u8]) -> io::Result<()>
        ensures failures { self.new.failures ≡ self.old.failures }
    {
        self.inner.flush()?;
        let at = self.taken.saturating_sub(back);
        self.inner.behind().behind().write_all_at(b, at)
    }
}

/// What a file holds is known by no proof. So `rewrite` is trusted: that it writes the bytes at
/// their offset.
impl ByteWrite for Writer {
    ghost output = { λ s. output_of None s.failures s.flushes };

    fn write(&mut self, b: &[u8]) -> Result<usize, Failed> {
        match self.inner.write(b) {
            Ok(n) => {
                if n == 0 && !b.is_empty() {
                    let _ = self.fail();
                }
                self.taken = self.taken.saturating_add(n as u64);
                Ok(n)
            }
            Err(_) => Err(self.fail()),
        }
    }

    fn flush(&mut self) -> Result<(), Failed> {
        match self.inner.flush() {
            Ok(()) => {
                self.flushes = self.flushes.saturating_add(1);
                Ok(())
            }
            Err(_) => Err(self.fail()),
        }
    }
}

#[tactic(auto, using(rom_fields::proofs::Unknown::rewrites_text_unknown))]
impl Rewrite for Writer {
    fn rewrite(&mut self, back: u64, b: &[u8]) -> Result<(), Failed> {
        match self.replaced(back, b) {
            Ok(()) => Ok(()),
            Err(e) => {
                if self.error.is_none() {
                    self.error = Some(e);
                }
                Err(self.fail())
            }
        }
    }
}
