//! Sources that are in memory.
ghost use Rattle.std.specs.Prelude.{◌≡◌, [], Some, length};
ghost use Rattle.image_stream.specs.Answers.{AreOf};
ghost use Rattle.image_stream.specs.Sources.{contents_in, no_failures};

use crate::sources::{SourceFailed, Sources};
use rom_fields::Contents;

/// The contents of files in memory, as sources that never fail.
#[derive(Clone, Copy)]
pub struct Slices<'c> {
    contents: &'c Contents<'c>,
}

impl<'c> Slices<'c> {
    /// Returns sources with these contents.
    pub fn new(contents: &'c Contents<'c>) -> Slices<'c>
        ensures { contents_in result ≡ contents.now }
    {
        Slices { contents }
    }
}

impl<'c> Sources for Slices<'c> {
    ghost known = { λ s. Some (contents_in s) };

    ghost files = { λ s. length (contents_in s) };

    ghost names = { λ _. [] };

    ghost reads = { λ _. no_failures };

    ghost IsLog = { λ s log. AreOf (contents_in s) log };

    fn count(&self) -> usize {
        self.contents.len()
    }

    fn read_at(&mut self, file: usize, at: u64, buf: &mut [u8]) -> Result<usize, SourceFailed> {
        let Some(content) = self.contents.get(file) else {
            return Err(SourceFailed);
        };
        let len = content.len() as u64;
        if len <= at {
            return Ok(0);
        }
        let rest = &content[at as usize..];
        let n = rest.len().min(buf.len());
        buf[..n].copy_from_slice(&rest[..n]);
        Ok(n)
    }
}
