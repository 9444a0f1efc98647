//! The trait of the writers that can replace bytes.
ghost use Rattle.std.specs.Prelude.{◌≡◌, ◌≤◌, length};
ghost use Rattle.rom_fields.specs.Failures.{Counts};
ghost use Rattle.rom_fields.specs.Rewritten.{RewritesText};

use crate::bytes::{ByteWrite, Failed};

/// A writer that can replace bytes that it took.
pub trait Rewrite: ByteWrite {
    /// Replaces the bytes from `back` bytes before the end on by these. After an error, a prefix of
    /// these was written there.
    fn rewrite(&mut self, back: u64, b: &[u8]) -> Result<(), Failed>
        requires { length b.now ≤ back }
        ensures text { RewritesText (Self.output self.old).contents
            (Self.output self.new).contents result back b.now }
        ensures count { Counts (Self.output self.old).failures
            (Self.output self.new).failures result };
}
