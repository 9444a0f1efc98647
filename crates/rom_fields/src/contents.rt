//! The contents of files, in memory.
use crate::memory::OutOfMemory;
use std::alloc::Global;
use std::marker::Model;

/// The bytes of files, each a slice, in the order in which they were added.
#[derive(Drop)]
pub struct Contents<'c> {
    slices: Vec<&'c [u8]>,
}

impl<'c> Model for Contents<'c> {
    ghost use Rattle.std.specs.Prelude.{List, ℕ, map};

    ghost Value = { List (List ℕ) };

    ghost view = { λ s. map (λ c. c.now) s.slices.items };
}

impl<'c> Contents<'c> {
    ghost use Rattle.std.specs.Prelude.{◌≡◌, ◌<◌, [], ◌∷◌, ◌++◌, OnOk, OnErr, SomeIff, length};
    ghost use Rattle.std.specs.Prelude.{get_or, option_copied};

    /// Makes an empty list. Allocates no memory.
    pub fn new(alloc: Global) -> Contents<'c>
        ensures { result ≡ [] }
    {
        Contents {
            slices: Vec::new(alloc),
        }
    }

    /// Adds the contents of one more file at the end. If memory is refused, the list is unchanged.
    pub fn add(&mut self, c: &'c [u8]) -> Result<(), OutOfMemory>
        ensures ok { OnOk result (self.new ≡ self.old ++ c.now ∷ []) }
        ensures err { OnErr result (self.new ≡ self.old) }
    {
        self.slices.push(c)?;
        Ok(())
    }

    /// Returns the number of files.
    pub fn len(&self) -> usize
        ensures { result ≡ length self.now }
    {
        self.slices.len()
    }

    /// Returns the contents of the file of this index, or `None` if there are fewer files.
    pub fn get(&self, i: usize) -> Option<&'c [u8]>
        ensures { SomeIff (option_copied result) (i < length self.now) (get_or self.now i []) }
    {
        if i < self.slices.len() {
            Some(self.slices[i])
        } else {
            None
        }
    }
}
