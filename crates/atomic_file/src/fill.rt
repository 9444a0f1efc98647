//! What writes the bytes of a file.
ghost use Rattle.std.specs.Prelude.{◌≡◌, ℕ, List, Option, ⊤, OnOk, IfErr};
ghost use Rattle.std.specs.Io.KnownBytes.{Appends};
ghost use Rattle.rom_fields.specs.Failures.{Rose};
ghost use Rattle.rom_fields.specs.Written.{Output};

use rom_fields::{Failed, Rewrite, write_whole};

/// What writes the bytes of a file.
pub trait Fill {
    /// The reason why they were not written.
    type Error: Drop;

    // The bytes, of the source before and after, are between what the file holds before and after,
    // if that is known.
    ghost writes: { Self → Self → Option (List ℕ) → Option (List ℕ) → Type 0 };

    // What an error means, by the source and the file before and after.
    ghost fails: { Self → Self → Output → Output → Self.Error → Type 0 };

    // What does not change of a source, before and after.
    ghost stays: { Self → Self → Type 0 };

    // What the source needs to be called.
    ghost ready: { Self → Type 0 };

    /// Writes all of the bytes.
    fn fill<W: Rewrite>(&mut self, w: &mut W) -> Result<(), Self::Error>
        requires { ready self.old }
        ensures stays { stays self.old self.new }
        ensures ok { OnOk result (writes self.old self.new (W.output w.old).contents
            (W.output w.new).contents) }
        ensures err { IfErr result (λ e. fails self.old self.new (W.output w.old)
            (W.output w.new) e) };
}

/// Bytes in memory.
#[derive(Clone, Copy)]
pub struct Bytes<'a>(pub &'a [u8]);

impl<'a> Fill for Bytes<'a> {
    type Error = Failed;

    ghost writes = { λ s _ old new. Appends old new s.0.now };

    ghost fails = { λ _ _ old new _. Rose old.failures new.failures };

    ghost stays = { λ _ _. ⊤ };

    ghost ready = { λ _. ⊤ };

    fn fill<W: Rewrite>(&mut self, w: &mut W) -> Result<(), Failed> {
        write_whole(w, self.0)
    }
}
