//! Bytes that are read at any position.
ghost use Rattle.std.specs.Prelude.{ℕ, List, Option, None, Some};
ghost use Rattle.std.specs.Io.{ReadsAtMost};
ghost use Rattle.program_streams.specs.Streams.{ReadsFrom};

use crate::ahead::copy_front;
use std::io;

/// A thing that can be read at any position, such as a file.
pub trait ReadAt {
    // All the bytes, if they are known.
    ghost stored: { Self → Option (List ℕ) } = { λ _. None };

    /// Puts bytes from a position on into a prefix of `buf`, and returns their number. It is 0 at
    /// the end.
    ///
    /// # Errors
    ///
    /// Those of the thing that is read.
    fn read_at(&self, buf: &mut [u8], at: u64) -> io::Result<usize>
        ensures bound { ReadsAtMost result buf.new }
        ensures bytes { ReadsFrom (stored self.now) at result buf.new };
}

impl ReadAt for &[u8] {
    ghost stored = { λ s. Some s.now };

    fn read_at(&self, buf: &mut [u8], at: u64) -> io::Result<usize> {
        let all: &[u8] = *self;
        let from = if at < all.len() as u64 {
            at as usize
        } else {
            all.len()
        };
        Ok(copy_front(&all[from..], buf))
    }
}
