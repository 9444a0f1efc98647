//! Images that can be written segment by segment.
ghost use Rattle.std.specs.Prelude.{◌≡◌, ◌+◌, ◌%◌, ◌<◌, ◌≤◌, ℕ, List, length, take, drop, get_or};
ghost use Rattle.image_stream.specs.Segments.{Form, fixed, outline, len, segment_at};

use crate::outline::Outline;

/// An image whose offsets are all known: a superblock, which stores a checksum of the whole, and
/// segments behind it. The bytes of a segment are known, or are the contents of a file.
pub trait Segmented {
    // The superblock, the segments and the sizes of the image.
    ghost form: { Self → Form };

    /// Returns the number of files.
    fn files(&self) -> usize
        ensures { result ≡ length (form self.now).sizes };

    /// Returns the size of a file in bytes.
    fn size(&self, file: usize) -> u64
        requires { file < length (form self.now).sizes }
        ensures { result ≡ get_or (form self.now).sizes file 0 };

    /// Returns the length of the superblock in bytes.
    fn head_len(&self) -> usize
        ensures { result ≡ (form self.now).start };

    /// Returns the length of the image in bytes.
    fn image_len(&self) -> usize
        ensures { result ≡ (form self.now).end };

    /// Fills `out` with the superblock that stores this checksum.
    fn fill_head(&self, stored: u32, out: &mut [u8])
        requires { length out.old ≡ (form self.now).start }
        ensures { out.new ≡ (form self.now).head stored };

    /// Returns the number of segments.
    fn count(&self) -> usize
        ensures { result ≡ length (form self.now).segments };

    /// Returns the segment at an index, without its bytes.
    fn segment(&self, i: usize) -> Outline
        requires { i < length (form self.now).segments }
        ensures { result ≡ outline (segment_at (form self.now).segments i) };

    /// Fills `out` with the bytes from `from` on of a segment that is not a file's contents. A
    /// segment of whole words is filled by whole words.
    fn fill(&self, i: usize, from: usize, out: &mut [u8])
        requires index { i < length (form self.now).segments }
        requires within { from + length out.old ≤ len (segment_at (form self.now).segments i) }
        requires from_word { from % 4 ≡ 0 }
        requires words { len (segment_at (form self.now).segments i) % 4 ≡ 0
            → length out.old % 4 ≡ 0 }
        ensures { (place : ℕ) (bytes : List ℕ)
            → segment_at (form self.now).segments i ≡ fixed place bytes
            → out.new ≡ take (length out.new) (drop from bytes) };
}
