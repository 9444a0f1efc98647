//! The checksum word of romfs, which brings the sum of the words of the first 512 bytes to 0.
ghost use Rattle.std.specs.Prelude.{◌≡◌, ◌∷◌, [], ◌++◌, ◌+◌, ◌*◌, ◌%◌, ◌^◌, ◌<◌, ◌≤◌, ℕ, List};
ghost use Rattle.std.specs.Prelude.{length, true};
ghost use Rattle.std.specs.Bool.{OnTrue};
ghost use Rattle.image_stream.specs.Checksums.{IsSumOf};
ghost use Rattle.image_stream.specs.WordSums.{balance_of, weight};

use crate::checksum::Checksum;

/// How many of the first 512 bytes were added, and the sum of their words so far.
#[derive(Clone, Copy)]
pub struct WordSum {
    place: u32,
    sum: u32,
}

/// Returns the value of a byte's unit, by its index in its word.
fn weight_at(place: u32) -> u32
    ensures { result ≡ weight place }
{
    if place % 4 == 0 {
        16_777_216
    } else if place % 4 == 1 {
        65_536
    } else if place % 4 == 2 {
        256
    } else {
        1
    }
}

/// Returns the sum after one more byte.
fn with_byte(s: WordSum, x: u8) -> WordSum
    ensures { (xs : List ℕ) → IsSumOf s xs → IsSumOf result (xs ++ x ∷ []) }
{
    if s.place < 512 {
        let part = u32::from(x).wrapping_mul(weight_at(s.place));
        WordSum {
            place: s.place + 1,
            sum: s.sum.wrapping_add(part),
        }
    } else {
        s
    }
}

/// Returns the sum after more bytes.
fn with_bytes(s: WordSum, bytes: &[u8]) -> WordSum
    ensures { (xs : List ℕ) → IsSumOf s xs → IsSumOf result (xs ++ bytes.now) }
{
    let mut sum = s;
    'bytes: for x in bytes {
        sum = with_byte(sum, *x);
    }
    sum
}

impl Checksum for WordSum {
    ghost Is = { IsSumOf };

    ghost stored = { balance_of };

    #[tactic(auto, unfolding(crate::specs::WordSums::IsSum))]
    fn start() -> WordSum {
        WordSum { place: 0, sum: 0 }
    }

    fn add(&mut self, bytes: &[u8]) {
        // bytes behind the first 512 do not count
        let left = 512u32.saturating_sub(self.place) as usize;
        let counted = bytes.len().min(left);
        *self = with_bytes(*self, &bytes[..counted]);
    }

    fn is_full(&self) -> bool
        ensures full { OnTrue result
            ((xs ys : List ℕ) → IsSumOf self.now xs → IsSumOf self.now (xs ++ ys)) }
        ensures after_512_bytes { (xs : List ℕ) → IsSumOf self.now xs → 512 ≤ length xs
            → result ≡ true }
    {
        self.place >= 512
    }

    fn value(&self) -> u32 {
        0u32.wrapping_sub(self.sum)
    }
}
