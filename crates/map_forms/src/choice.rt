//! Which files of an image a map has.
ghost use Rattle.std.specs.Prelude.{◌≡◌, ℕ, Bool, List, IfOk, OnErr};

use rom_fields::OutOfMemory;

/// A choice of files by their paths.
pub trait Choice {
    // Whether the file with this path is chosen.
    ghost chosen: { Self → List ℕ → Bool };

    // Memory may be refused.
    ghost refuses: { Self → Type 0 };

    /// Returns whether the file with this path is chosen.
    ///
    /// # Errors
    ///
    /// `OutOfMemory` if memory was refused.
    fn chooses(&self, path: &[u8]) -> Result<bool, OutOfMemory>
        ensures ok { IfOk result (λ b. b ≡ chosen self.now path.now) }
        ensures err { OnErr result (refuses self.now) };
}

/// The choice of all files.
#[derive(Clone, Copy)]
pub struct AllFiles;

impl Choice for AllFiles {
    ghost use Rattle.std.specs.Prelude.{true};

    ghost chosen = { λ _ _. true };

    ghost refuses = { λ _. ⊥ };

    fn chooses(&self, path: &[u8]) -> Result<bool, OutOfMemory> {
        Ok(true)
    }
}
