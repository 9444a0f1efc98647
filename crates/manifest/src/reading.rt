//! A manifest that was read, and `parse`, which reads one.
ghost use Rattle.std.specs.Prelude.{◌≡◌};
ghost use Rattle.manifest.specs.Grammar.{manifest_of, IsManifest};
ghost use Rattle.manifest.specs.Lines.{sources_of};
ghost use Rattle.manifest.specs.Reading.{Gives};

use crate::error::ManifestError;
use crate::line::Line;
use crate::names::Name;
use crate::reader::Reader;
use crate::text::{cut, is_skipped};
use std::alloc::Global;
use std::marker::Model;

/// The lines of a text in order, and the name of the volume. Contracts see both, and the number of
/// the `volume` line.
#[derive(Drop)]
pub struct Manifest {
    lines: Vec<Line>,
    sources: Vec<Name>,
    volume: Name,
    volume_line: u64,
}

impl Model for Manifest {
    ghost use Rattle.std.specs.Prelude.{◌≡◌};
    ghost use Rattle.manifest.specs.Lines.{ManifestLines, sources_of};
    ghost use Rattle.manifest.specs.Grammar.{IsManifest};

    ghost Value = { ManifestLines };

    ghost view = { λ m. record { lines = m.lines.items; volume = m.volume; volume_line = m.volume_line } };

    ghost invariant = { λ m. (m.sources.items ≡ sources_of m.lines.items)
        × IsManifest (record {
          lines = m.lines.items;
          volume = m.volume;
          volume_line = m.volume_line;
        }) };
}

impl Manifest {
    /// Returns the lines, in the order of the text. They are those of some text. So each path is
    /// valid, and the line of its directory and of the path that `hard` or `same` names comes
    /// before it.
    pub fn lines(&self) -> &[Line]
        ensures lines { result.now ≡ self.now.lines }
        ensures of_text { IsManifest self.now }
    {
        self.lines.as_slice()
    }

    /// Returns the name of the volume, or an empty name if no line names it.
    pub fn volume(&self) -> &[u8]
        ensures { result.now ≡ self.now.volume }
    {
        self.volume.as_bytes()
    }

    /// Returns the number of the `volume` line, or 0 if there is none.
    pub fn volume_line(&self) -> u64
        ensures { result ≡ self.now.volume_line }
    {
        self.volume_line
    }

    /// Returns the source of each `file` line, in the order of the lines. A source that two lines
    /// name occurs twice.
    pub fn sources(&self) -> &[Name]
        ensures { result.now ≡ sources_of self.now.lines }
    {
        self.sources.as_slice()
    }
}

/// Reads a manifest. For an invalid manifest, the answer is its first faulty line, with the least
/// number of that line's faults. The text seeds the hash map of its paths, so the time is expected
/// to grow with the text's length.
///
/// # Errors
///
/// `Bad` exactly if the grammar has that fault, unless memory was refused first; `OutOfMemory` if
/// memory was refused.
#[tactic(auto, unfolding(crate::specs::Grammar::manifest_of))]
pub fn parse(alloc: Global, text: &[u8]) -> Result<Manifest, ManifestError>
    ensures { Gives result (manifest_of text.now) }
{
    let mut reader = Reader::new(alloc, text);
    let mut rest = Some(text);
    let mut number = 0u64;
    while let Some(bytes) = rest {
        let (line, more) = cut(bytes, b'\n');
        number += 1;
        if !is_skipped(line) {
            reader.read(alloc, number, line)?;
        }
        rest = more;
    }
    Ok(Manifest {
        lines: reader.lines,
        sources: reader.sources,
        volume: reader.volume,
        volume_line: reader.volume_line,
    })
}
