//! The bytes of an image.
ghost use Rattle.std.specs.Prelude.{IfOk, IfSome};
ghost use Rattle.system_files.specs.Loads.{Loads};

use formats::{HEAD, SUMMED, is_sum_refused, reach_of};
use program_streams::read_until;
use rom_fields::{Fault, fault};
use std::alloc::Global;
use std::io::{self, Read};

/// The fault of a romfs image whose first bytes have a wrong checksum.
const WRONG_SUM: Fault = Fault {
    number: fault::SUM,
    at: 12,
};

/// An image, and the length of its file in bytes.
#[derive(Drop)]
pub struct Loaded {
    pub bytes: Vec<u8>,
    /// The reported length of the file; or the number of bytes that were read, if that is more, as
    /// for a device or a pipe.
    pub file: u64,
}

/// The first bytes of a file that these bytes refuse, their fault, and the number of bytes that a
/// check of the whole file would read.
#[derive(Drop)]
pub struct Front {
    pub bytes: Vec<u8>,
    pub fault: Fault,
    pub reach: u64,
}

/// The contents of a file.
#[derive(Drop)]
pub enum Found {
    /// The bytes of an image that a check reads.
    Image(Loaded),
    /// An image that is refused by its first bytes.
    Refused(Front),
}

/// Reads the image in a file, up to the length that a check reads. A check of these bytes returns
/// the same as one of the whole file (`image_check::laws::no_further`). `length` is the reported
/// length of the file, which is 0 for a device or a pipe.
///
/// Only the first 512 bytes are read if the image is romfs, their checksum is wrong, and the file
/// has the size that the image states. The checksum is then the image's fault
/// (`image_check::laws::refused`).
///
/// # Errors
///
/// Those of `program_streams::read_until`.
pub fn load<R: Read>(alloc: Global, reader: &mut R, length: u64) -> io::Result<Found>
    ensures { IfOk result (λ found. IfSome (R.remaining reader.old) (λ xs. Loads xs length found)) }
{
    let mut bytes = Vec::new(alloc);
    read_until(reader, &mut bytes, HEAD as u64, length)?;
    let reach = reach_of(&bytes);
    read_until(reader, &mut bytes, reach.min(SUMMED as u64), length)?;
    if is_sum_refused(&bytes, length) {
        return Ok(Found::Refused(Front {
            bytes,
            fault: WRONG_SUM,
            reach,
        }));
    }
    read_until(reader, &mut bytes, reach, length)?;
    let file = length.max(bytes.len() as u64);
    Ok(Found::Image(Loaded { bytes, file }))
}
