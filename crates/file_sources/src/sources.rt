//! Files as the sources of an image.
ghost use Rattle.std.specs.Prelude.{◌≡◌, ◌↔◌, ℕ, List, length, map};
ghost use Rattle.std.specs.Option.{ForSome, is_some};
ghost use Rattle.image_stream.specs.Answers.{Answer};
ghost use Rattle.file_sources.specs.Told.{name_at, contents_of_all};
ghost use Rattle.file_sources.specs.Told.{IsLogOf};

use crate::opener::Opener;
use crate::reading::{Opened, read_part};
use image_stream::{SourceFailed, Sources};
use std::io;

/// Files, of which one is open at a time. A file's bytes are those that each read of the opener
/// tells.
#[derive(Drop)]
pub struct FileSources<'a, O: Opener> {
    opener: O,
    names: &'a [O::Name],
    states: &'a [O::State],
    opened: Option<Opened<O::File>>,
    failures: u64,
    failed: Option<usize>,
    reason: Option<io::Error>,
    ghost open: { ForSome opened (λ o. O.name_of o.file
        ≡ name_at (map O.spelled names.now) o.number) },
    ghost reasons: { is_some reason ≡ is_some failed },
}

impl<'a, O: Opener> FileSources<'a, O> {
    /// Returns the files of these names, which have to have these states when they are opened.
    pub fn new(opener: O, names: &'a [O::Name], states: &'a [O::State]) -> FileSources<'a, O>
        ensures files { ⟦<FileSources<'a, O> as Sources>⟧.files result ≡ length names.now }
        ensures names { ⟦<FileSources<'a, O> as Sources>⟧.names result ≡ map O.spelled names.now }
        ensures known { ⟦<FileSources<'a, O> as Sources>⟧.known result
            ≡ contents_of_all (O.contents opener) (map O.spelled names.now) }
        ensures log { (log : List Answer) → ⟦<FileSources<'a, O> as Sources>⟧.IsLog result log
            ↔ IsLogOf (map O.spelled names.now) (O.IsLog opener) log }
    {
        FileSources {
            opener,
            names,
            states,
            opened: None,
            failures: 0,
            failed: None,
            reason: None,
        }
    }

    /// Returns the opener, and the reason of the last read that failed, if one did.
    pub fn into_parts(self) -> (O, Option<io::Error>)
        ensures files { ⟦<FileSources<'a, O> as Sources>⟧.files self.entry
            ≡ length (⟦<FileSources<'a, O> as Sources>⟧.names self.entry) }
        ensures known { ⟦<FileSources<'a, O> as Sources>⟧.known self.entry
            ≡ contents_of_all (O.contents result.0)
            (⟦<FileSources<'a, O> as Sources>⟧.names self.entry) }
        ensures log { (log : List Answer) → ⟦<FileSources<'a, O> as Sources>⟧.IsLog self.entry log
            ↔ IsLogOf (⟦<FileSources<'a, O> as Sources>⟧.names self.entry) (O.IsLog result.0) log }
        ensures reason { is_some result.1
            ≡ is_some (⟦<FileSources<'a, O> as Sources>⟧.reads self.entry).failed }
    {
        let FileSources {
            opener,
            names: _,
            states: _,
            opened: _,
            failures: _,
            failed: _,
            reason,
        } = self;
        (opener, reason)
    }
}

impl<'a, O: Opener> Sources for FileSources<'a, O> {
    ghost known = { λ s. contents_of_all (O.contents s.opener) (map O.spelled s.names.now) };

    ghost files = { λ s. length s.names.now };

    ghost names = { λ s. map O.spelled s.names.now };

    ghost reads = { λ s. record { failures = s.failures; failed = s.failed } };

    ghost IsLog = { λ s. IsLogOf (map O.spelled s.names.now) (O.IsLog s.opener) };

    fn count(&self) -> usize {
        self.names.len()
    }

    fn read_at(&mut self, file: usize, at: u64, buf: &mut [u8]) -> Result<usize, SourceFailed> {
        let from = (self.names, self.states);
        match read_part(&mut self.opener, from, &mut self.opened, file, at, buf) {
            Ok(n) => Ok(n),
            Err(e) => {
                self.failures = self.failures.saturating_add(1);
                self.failed = Some(file);
                self.reason = Some(e);
                Err(SourceFailed)
            }
        }
    }
}
