//! Hashes of paths that nobody can choose to be equal.
//!
//! A manifest may come from a stranger. Its paths are hashed by SipHash-1-3 behind the text itself,
//! so a change of one path changes all hashes.
ghost use Rattle.std.specs.Prelude.{◌≡◌};
ghost use Rattle.std.specs.Hash.DefaultHasher.{initial, write};
ghost use Rattle.manifest.specs.Seeds.{behind, seed_of};

use crate::line::Line;
use std::hash::{BuildHasher, DefaultHasher, Hasher};

/// The state of a hash after some texts, which seeds the hashes of what follows.
#[derive(Clone, Copy)]
pub struct Seeded {
    begun: DefaultHasher,
}

impl Seeded {
    /// Returns the state after no text.
    pub fn new() -> Seeded
        ensures { seed_of result ≡ initial }
    {
        Seeded {
            begun: DefaultHasher::new(),
        }
    }

    /// Adds one more text.
    pub fn add(&mut self, text: &[u8])
        ensures { seed_of self.new ≡ write (seed_of self.old) text.now }
    {
        self.begun.write(text);
    }
}

/// Returns the state after the paths of these lines.
pub fn seeded_by(lines: &[Line]) -> Seeded
    ensures { seed_of result ≡ behind lines.now }
{
    let mut seeded = Seeded::new();
    for line in lines {
        seeded.add(line.path.as_bytes());
    }
    seeded
}

impl BuildHasher for Seeded {
    type Hasher = DefaultHasher;

    ghost build_hasher = { λ s. seed_of s };

    fn build_hasher(&self) -> DefaultHasher {
        self.begun
    }
}
