//! The files that a map has, chosen by patterns.
ghost use Rattle.std.specs.Prelude.{map, ⊤};
ghost use Rattle.rom_commands.specs.Chosen.{is_chosen};

use map_forms::Choice;
use path_patterns::{Piece, any_matches};
use rom_fields::OutOfMemory;
use std::alloc::Global;

/// A choice of the files whose paths match one of some patterns; without patterns, of all files.
/// The patterns are compared with a path without its first slash.
#[derive(Drop)]
pub struct Only {
    pub alloc: Global,
    pub patterns: Vec<Vec<Piece>>,
}

impl Choice for Only {
    ghost chosen = { λ s path. is_chosen (map (λ p. p.items) s.patterns.items) path };

    ghost refuses = { λ _. ⊤ };

    fn chooses(&self, path: &[u8]) -> Result<bool, OutOfMemory> {
        if self.patterns.is_empty() {
            return Ok(true);
        }
        let is_matched = any_matches(self.alloc, &self.patterns, path)?;
        Ok(is_matched)
    }
}
