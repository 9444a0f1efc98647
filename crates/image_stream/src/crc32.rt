//! The CRC-32 that cramfs stores as its checksum.
ghost use Rattle.crc.specs.Crc.{crc_of};
ghost use Rattle.image_stream.specs.Checksums.{IsCrcOf};

use crate::checksum::Checksum;
use crc::crc32_more;

/// The CRC-32 of the bytes so far.
#[derive(Clone, Copy)]
pub struct Crc32 {
    value: u32,
}

impl Checksum for Crc32 {
    ghost Is = { IsCrcOf };

    ghost stored = { crc_of };

    #[tactic(auto, unfolding(crc::specs::Crc::crc_of))]
    fn start() -> Crc32 {
        Crc32 { value: 0 }
    }

    fn add(&mut self, bytes: &[u8]) {
        self.value = crc32_more(self.value, bytes);
    }

    fn is_full(&self) -> bool {
        false
    }

    fn value(&self) -> u32 {
        self.value
    }
}
