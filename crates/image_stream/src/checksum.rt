//! The trait of the checksums that images store: the checksum word of romfs, the CRC of cramfs.
ghost use Rattle.std.specs.Prelude.{◌≡◌, [], ◌++◌, ℕ, List};
ghost use Rattle.std.specs.Bool.{OnTrue};

/// A checksum over bytes in order.
pub trait Checksum: Copy {
    // It is the checksum of these bytes.
    ghost Is: { Self → List ℕ → Type 0 };

    // The number that an image stores for the bytes.
    ghost stored: { List ℕ → ℕ };

    /// Returns the checksum of no bytes.
    fn start() -> Self
        ensures { Is result [] };

    /// Adds more bytes.
    fn add(&mut self, bytes: &[u8])
        ensures { (xs : List ℕ) → Is self.old xs → Is self.new (xs ++ bytes.now) };

    /// Returns whether no further byte changes the checksum.
    fn is_full(&self) -> bool
        ensures { OnTrue result
            ((xs ys : List ℕ) → Is self.now xs → Is self.now (xs ++ ys)) };

    /// Returns the number that an image stores.
    fn value(&self) -> u32
        ensures { (xs : List ℕ) → Is self.now xs → result ≡ stored xs };
}
