//! What the bytes of an image go to: a checksum, or a checksum and a writer.
ghost use Rattle.std.specs.Prelude.{◌≡◌, ◌++◌, ℕ, List, None};
ghost use Rattle.std.specs.Bool.{OnTrue};
ghost use Rattle.std.specs.Io.KnownBytes.{Appends};
ghost use Rattle.rom_fields.specs.Failures.{Counts};
ghost use Rattle.rom_fields.specs.Written.{Output, WritesText, output_of};
ghost use base.Fml.{GName};

use crate::checksum::Checksum;
use rom_fields::{ByteWrite, Failed, write_whole};

/// What the bytes of an image go to, one after the other.
pub trait Sink {
    // What is known of the writer behind it, and the reference that lends the writer.
    ghost output: { Self → Output };

    ghost loan: { Self → GName };

    // Its checksum is that of these bytes.
    ghost Is: { Self → List ℕ → Type 0 };

    // It needs every byte, so it is never full.
    ghost NeedsAll: { Type 0 };

    /// Adds bytes to the checksum, and writes them if there is a writer.
    fn put(&mut self, bytes: &[u8]) -> Result<(), Failed>
        ensures text { WritesText (output self.old).contents (output self.new).contents result
            bytes.now }
        ensures count { Counts (output self.old).failures (output self.new).failures result }
        ensures sum { (xs : List ℕ) → Is self.old xs → Is self.new (xs ++ bytes.now) }
        ensures loan { loan self.new ≡ loan self.old };

    /// Returns whether no further byte makes a difference.
    fn is_full(&self) -> bool
        ensures unneeded { OnTrue result (NeedsAll → ⊥) }
        ensures unwritten { OnTrue result ((ys : List ℕ)
            → Appends (output self.now).contents (output self.now).contents ys) }
        ensures full { OnTrue result ((xs ys : List ℕ) → Is self.now xs → Is self.now (xs ++ ys)) };
}

/// A sink with only a checksum. It is full if its checksum is.
#[derive(Drop)]
pub struct SumSink<C> {
    pub check: C,
}

impl<C: Checksum> Sink for SumSink<C> {
    ghost output = { λ _. output_of None 0 0 };

    ghost loan = { λ _. 0 };

    ghost Is = { λ s. C.Is s.check };

    ghost NeedsAll = { ⊥ };

    fn put(&mut self, bytes: &[u8]) -> Result<(), Failed> {
        self.check.add(bytes);
        Ok(())
    }

    fn is_full(&self) -> bool {
        self.check.is_full()
    }
}

/// A sink with a writer. Its checksum is that of what is written.
#[derive(Drop)]
pub struct WriteSink<'w, W, C> {
    pub w: &'w mut W,
    pub check: C,
}

impl<'w, W: ByteWrite, C: Checksum> Sink for WriteSink<'w, W, C> {
    ghost output = { λ s. W.output s.w.now };

    ghost loan = { λ s. s.w.ghost_name };

    ghost Is = { λ s. C.Is s.check };

    ghost NeedsAll = { Unit {0} };

    fn put(&mut self, bytes: &[u8]) -> Result<(), Failed> {
        self.check.add(bytes);
        write_whole(self.w, bytes)
    }

    fn is_full(&self) -> bool {
        false
    }
}
