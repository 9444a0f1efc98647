//! Compares an image with the bytes of a dump, which are read piece by piece.
ghost use Rattle.std.specs.Prelude.{◌≡◌, ◌<◌, ◌≤◌, ◌++◌, length, codes, decimal};
ghost use Rattle.std.specs.Prelude.{ℕ, List, Option, None, drop, IfOk, IfSome, OnOk};
ghost use Rattle.rom_fields.specs.Failures.{Counts};
ghost use Rattle.rom_fields.specs.Written.{WritesText, Puts, sink};
ghost use Rattle.image_compare.specs.Differences.{Begins, Compares, Passes, StepPrints};
ghost use Rattle.image_compare.specs.Differences.{verdict_text};

use crate::comparing::first_difference;
use rom_fields::{ByteWrite, Failed, put, put_long_decimal};
use std::io::{self, Read};

/// The number of bytes that are read at once.
const PART: usize = 16_384;

/// What one read reports about the rest of an image.
enum Step {
    /// This number of its next bytes are those of the dump.
    Same(usize),
    /// The dump differs here for the first time, or has ended.
    Differs(usize),
}

/// Compares the front of the rest of an image with what one read puts into `part`.
fn compare_part<R: Read>(rest: &[u8], dump: &mut R, part: &mut [u8]) -> io::Result<Step>
    requires some { 0 < length part.old }
    requires within { length part.old ≤ length rest.now }
    ensures { IfOk result (StepPrints rest.now (R.remaining dump.old) (R.remaining dump.new)) }
{
    let count = dump.read(part)?;
    if count == 0 {
        return Ok(Step::Differs(0));
    }
    match first_difference(&rest[..count], &part[..count]) {
        None => Ok(Step::Same(count)),
        Some(at) => Ok(Step::Differs(at)),
    }
}

/// Compares an image with the bytes of a reader, which is not read further than the image's length.
/// Returns the offset of the first byte of the image that the reader does not have at the same
/// offset: they differ there, or the reader has ended. Returns `None` if the reader's bytes begin
/// with the image.
///
/// # Errors
///
/// Those of the reader.
pub fn compare<R: Read>(image: &[u8], dump: &mut R) -> io::Result<Option<usize>>
    ensures { IfOk result (λ r. IfSome (R.remaining dump.old)
        (λ xs. Compares image.now xs r)) }
{
    let mut part = [0; PART];
    let mut at = 0;
    while at < image.len() {
        let most = PART.min(image.len() - at);
        match compare_part(&image[at..], dump, &mut part[..most])? {
            Step::Same(count) => at += count,
            Step::Differs(i) => return Ok(Some(at + i)),
        }
    }
    Ok(None)
}

/// Passes over this number of bytes of a reader, or over all if it has fewer.
///
/// # Errors
///
/// Those of the reader.
pub(crate) fn pass_over<R: Read>(dump: &mut R, count: u64) -> io::Result<()>
    ensures { OnOk result (Passes (R.remaining dump.old) (R.remaining dump.new) count) }
{
    let mut part = [0; PART];
    let mut left = count;
    while left > 0 {
        let most = left.min(PART as u64) as usize;
        let passed = dump.read(&mut part[..most])?;
        if passed == 0 {
            return Ok(());
        }
        left -= passed as u64;
    }
    Ok(())
}

/// A dump of a flash, for example a file.
pub trait Dump {
    /// What reads its bytes.
    type Reader: Read + Drop;

    // All of its bytes, if they are known.
    ghost stored: { Self → Option (List ℕ) } = { λ _. None };

    /// Returns what reads the bytes from a place at or before `offset` on, and the number of bytes
    /// that are between the two. It is 0 if the dump can be read at any place.
    ///
    /// # Errors
    ///
    /// Those of the dump.
    fn open(self, offset: u64) -> io::Result<(Self::Reader, u64)>
        ensures { IfOk result (λ r. Begins (stored self) (Self.Reader.remaining r.0) r.1 offset) };
}

/// Compares an image with the bytes of a dump from `offset` on, as `compare` does.
///
/// # Errors
///
/// Those of the dump and of its reader.
pub fn compare_from<D: Dump>(image: &[u8], dump: D, offset: u64) -> io::Result<Option<usize>>
    ensures { IfOk result (λ r. IfSome (D.stored dump)
        (λ xs. Compares image.now (drop offset xs) r)) }
{
    let (mut reader, before) = dump.open(offset)?;
    pass_over(&mut reader, before)?;
    compare(image, &mut reader)
}

/// Puts a word, a number and a line feed.
fn put_number<W: ByteWrite>(w: &mut W, failed: &mut bool, word: &[u8], number: usize)
    ensures { Puts (sink (W.output w.old) failed.old) (sink (W.output w.new) failed.new)
        (word.now ++ (decimal number ++ codes "\n")) }
{
    put(w, failed, word);
    put_long_decimal(w, failed, number as u64);
    put(w, failed, b"\n");
}

/// Puts the line with the result of a comparison.
fn put_verdict<W: ByteWrite>(w: &mut W, failed: &mut bool, size: usize, difference: Option<usize>)
    ensures { Puts (sink (W.output w.old) failed.old) (sink (W.output w.new) failed.new)
        (verdict_text size difference) }
{
    match difference {
        None => put_number(w, failed, b"ok ", size),
        Some(at) => put_number(w, failed, b"differ ", at),
    }
}

/// Writes the result of a comparison with an image of `size` bytes: `ok SIZE` or `differ OFFSET`.
///
/// # Errors
///
/// `Failed` if a write failed. Then a prefix of the line was written.
pub fn write_verdict<W: ByteWrite>(
    size: usize,
    difference: Option<usize>,
    w: &mut W,
) -> Result<(), Failed>
    ensures text { WritesText (W.output w.old).contents (W.output w.new).contents result
        (verdict_text size difference) }
    ensures count { Counts (W.output w.old).failures (W.output w.new).failures result }
{
    let mut failed = false;
    put_verdict(w, &mut failed, size, difference);
    if failed { Err(Failed) } else { Ok(()) }
}
