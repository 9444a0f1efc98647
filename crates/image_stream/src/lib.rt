//! Images that are written section by section, into memory or to a writer, through a buffer of the
//! caller's or one of 4,096 bytes, whatever the image's length.
//!
//! An image is a superblock, which stores a checksum of the whole, and segments at their offsets:
//! bytes that are known, or the contents of a file (`specs/Segments.antt`). Every other byte is
//! zero. `specs/Outcomes.antt` has the meaning of each error.
//!
//! Proved:
//!
//! - `write`, `stream_through`, `stream`: an image that is planned as a superblock and segments is
//!   written into memory, or to a writer through one buffer (the caller's, or one of 4,096 bytes).
//!   At an `Ok` exactly that image was written, with the contents that the sources answered. At an
//!   error a prefix was written, and the error names the first file with another size, the file of
//!   a failed read, or a change between two passes.
//! - `stream_through`, `stream`, `Slices`: the contents of each segment are what the last reads of
//!   its file answered, one after the other, from offset 0 on, in the order of the segments; none
//!   is from an earlier pass. For sources in memory, the log of the reads has the bytes of their
//!   contents.
//! - `stream_once`: if the writer can replace its superblock, the contents are read whole only
//!   once. At an `Ok` the same image was written, with what these reads answered; an error is never
//!   a change between two passes, and says nothing of what was written.
//! - `Checksum::is_full`, `walk`: if `is_full` returns true, no further byte changes the checksum,
//!   so the pass may stop there and has that of the whole image. The sum of words is full exactly
//!   if 512 bytes were added. (Only a test shows that no more bytes are then read.)
//! - `measure_all`: all sources have their planned sizes, or the first that has not, or cannot be
//!   read, is reported.
//! - `laws::image_is_laid`: an image of a superblock and segments is these parts, laid at their
//!   offsets.
#![tactic(auto)]

mod checksum;
mod crc32;
mod error;
pub mod laws;
mod measure;
mod outline;
mod pieces;
mod segmented;
mod sink;
mod slices;
mod sources;
mod streaming;
mod word_sum;
mod writing;

pub use checksum::Checksum;
pub use crc32::Crc32;
pub use error::{SizeDiffers, StreamError};
pub use outline::Outline;
pub use segmented::Segmented;
pub use slices::Slices;
pub use sources::{SourceFailed, Sources};
pub use streaming::{stream, stream_once, stream_through};
pub use word_sum::WordSum;
pub use writing::write;
