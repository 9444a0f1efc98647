//! An image through one buffer, in three passes, or in two if the superblock can be replaced.
ghost use Rattle.std.specs.Prelude.{◌≡◌, ◌≢◌, ◌+◌, ◌%◌, ◌<◌, ◌≤◌, ◌++◌, ℕ, List, length};
ghost use Rattle.std.specs.Prelude.{OnOk, IfErr};
ghost use Rattle.rom_fields.specs.Failures.{Counts};
ghost use Rattle.rom_fields.specs.Written.{WritesText};
ghost use Rattle.rom_fields.specs.Rewritten.{RewritesText};
ghost use Rattle.image_stream.specs.declared.error.StreamError.TheVariants.{Changed};
ghost use Rattle.image_stream.specs.Segments.{IsLaidOut};
ghost use Rattle.image_stream.specs.Outcomes.{Streams, StreamsOnce, state};

use crate::checksum::Checksum;
use crate::error::StreamError;
use crate::measure::measure_all;
use crate::pieces::walk;
use crate::segmented::Segmented;
use crate::sink::{SumSink, WriteSink};
use crate::sources::Sources;
use rom_fields::{ByteWrite, Failed, Rewrite, write_whole};

/// Adds the superblock, with 0 as its stored checksum, to the checksum.
fn add_head<L: Segmented, C: Checksum>(layout: &L, check: &mut C, buffer: &mut [u8])
    requires { (L.form layout.now).start ≤ length buffer.old }
    ensures { (xs : List ℕ) → C.Is check.old xs
        → C.Is check.new (xs ++ (L.form layout.now).head 0) }
{
    let head = &mut buffer[..layout.head_len()];
    layout.fill_head(0, head);
    check.add(head);
}

/// Writes the superblock.
fn write_head<L: Segmented, W: ByteWrite>(
    layout: &L,
    stored: u32,
    w: &mut W,
    buffer: &mut [u8],
) -> Result<(), Failed>
    requires { (L.form layout.now).start ≤ length buffer.old }
    ensures text { WritesText (W.output w.old).contents (W.output w.new).contents result
        ((L.form layout.now).head stored) }
    ensures length { length ((L.form layout.now).head stored) ≡ (L.form layout.now).start }
    ensures count { Counts (W.output w.old).failures (W.output w.new).failures result }
{
    let head = &mut buffer[..layout.head_len()];
    layout.fill_head(stored, head);
    write_whole(w, head)
}

/// Replaces the superblock at the start of an image that was written with 0 as its checksum.
fn rewrite_head<L: Segmented, W: Rewrite>(
    layout: &L,
    stored: u32,
    w: &mut W,
    buffer: &mut [u8],
) -> Result<(), Failed>
    requires within { (L.form layout.now).start ≤ (L.form layout.now).end }
    requires room { (L.form layout.now).start ≤ length buffer.old }
    ensures text { RewritesText (W.output w.old).contents (W.output w.new).contents result
        (L.form layout.now).end ((L.form layout.now).head stored) }
    ensures length { length ((L.form layout.now).head stored) ≡ (L.form layout.now).start }
    ensures count { Counts (W.output w.old).failures (W.output w.new).failures result }
{
    let head = &mut buffer[..layout.head_len()];
    layout.fill_head(stored, head);
    w.rewrite(layout.image_len() as u64, head)
}

/// Compares the checksum that was stored with that of what was written.
fn confirm<C: Checksum>(written: &C, stored: u32) -> Result<(), StreamError>
    ensures ok { OnOk result ((xs : List ℕ) → C.Is written.now xs → stored ≡ C.stored xs) }
    ensures err { IfErr result (λ e. (e ≡ Changed)
        × ((xs : List ℕ) → C.Is written.now xs → stored ≢ C.stored xs)) }
{
    if written.value() != stored {
        return Err(StreamError::Changed);
    }
    Ok(())
}

/// Writes an image through a buffer of the caller's, without taking memory, and flushes the writer.
/// There are three passes over the sources:
///
/// - for their sizes, in order, each source at its last byte and one byte further;
/// - for the checksum, in the order of their offsets, as far as it covers them. The checksum word
///   of romfs covers the first 512 bytes of the image, the CRC of cramfs covers all of it;
/// - whole, for what is written. Nothing is written before this pass.
///
/// At `Ok`, exactly the image was written, whatever the sources are. The contents of its files are
/// what the reads answered last, one after the other. After an error, a prefix of the image was
/// written, if the contents of the sources are known.
///
/// # Errors
///
/// `StreamError` has the reasons. `specs/Outcomes.antt` has their exact meaning.
pub fn stream_through<L: Segmented, S: Sources, W: ByteWrite, C: Checksum>(
    layout: &L,
    sources: &mut S,
    w: &mut W,
    buffer: &mut [u8],
) -> Result<(), StreamError>
    requires laid { IsLaidOut (L.form layout.now) }
    requires files { S.files sources.old ≡ length (L.form layout.now).sizes }
    requires room { 4096 ≤ length buffer.old }
    requires words { length buffer.old % 4 ≡ 0 }
    ensures { Streams (L.form layout.now) C.stored
        (state (S.known sources.old) (S.files sources.old) (S.names sources.old)
        (S.reads sources.old))
        (state (S.known sources.new) (S.files sources.new) (S.names sources.new)
        (S.reads sources.new))
        (S.IsLog sources.old) (S.IsLog sources.new) (W.output w.old) (W.output w.new) result }
{
    match measure_all(layout, sources, buffer) {
        Ok(()) => {}
        Err(e) => return Err(e),
    }
    let mut first = C::start();
    add_head(layout, &mut first, buffer);
    let mut summed = SumSink { check: first };
    match walk(layout, sources, &mut summed, buffer) {
        Ok(()) => {}
        Err(e) => return Err(e),
    }
    let stored = summed.check.value();
    match write_head(layout, stored, w, buffer) {
        Ok(()) => {}
        Err(Failed) => return Err(StreamError::WriteFault),
    }
    let mut written = WriteSink { w, check: first };
    let sent = walk(layout, sources, &mut written, buffer);
    // The reference comes back, so it is known here what was written through it.
    let WriteSink { w, check } = written;
    match sent {
        Ok(()) => {}
        Err(e) => return Err(e),
    }
    match w.flush() {
        Ok(()) => {}
        Err(Failed) => return Err(StreamError::WriteFault),
    }
    match confirm(&check, stored) {
        Ok(()) => {}
        Err(e) => return Err(e),
    }
    Ok(())
}

/// Writes an image as `stream_through` does, through one buffer of 4,096 bytes.
pub fn stream<L: Segmented, S: Sources, W: ByteWrite, C: Checksum>(
    layout: &L,
    sources: &mut S,
    w: &mut W,
) -> Result<(), StreamError>
    requires laid { IsLaidOut (L.form layout.now) }
    requires files { S.files sources.old ≡ length (L.form layout.now).sizes }
    ensures { Streams (L.form layout.now) C.stored
        (state (S.known sources.old) (S.files sources.old) (S.names sources.old)
        (S.reads sources.old))
        (state (S.known sources.new) (S.files sources.new) (S.names sources.new)
        (S.reads sources.new))
        (S.IsLog sources.old) (S.IsLog sources.new) (W.output w.old) (W.output w.new) result }
{
    let mut space: [u8; 4096] = [0; 4096];
    stream_through::<L, S, W, C>(layout, sources, w, space.as_mut_slice())
}

/// Writes an image through a buffer of the caller's, without taking memory, and flushes the writer.
/// The sources are read once for their sizes, as by `stream_through`, and once whole, for what is
/// written. The superblock is written with 0 as its checksum, and replaced at the end.
///
/// At `Ok`, exactly the image was written, whatever the sources are. The contents of its files are
/// what the reads answered last, one after the other. After an error, what was written is mostly no
/// image: the checksum that it stores is 0.
///
/// # Errors
///
/// `StreamError` has the reasons. It is never `Changed`.
pub fn stream_once<L: Segmented, S: Sources, W: Rewrite, C: Checksum>(
    layout: &L,
    sources: &mut S,
    w: &mut W,
    buffer: &mut [u8],
) -> Result<(), StreamError>
    requires laid { IsLaidOut (L.form layout.now) }
    requires files { S.files sources.old ≡ length (L.form layout.now).sizes }
    requires room { 4096 ≤ length buffer.old }
    requires words { length buffer.old % 4 ≡ 0 }
    ensures { StreamsOnce (L.form layout.now) C.stored
        (state (S.known sources.old) (S.files sources.old) (S.names sources.old)
        (S.reads sources.old))
        (state (S.known sources.new) (S.files sources.new) (S.names sources.new)
        (S.reads sources.new))
        (S.IsLog sources.old) (S.IsLog sources.new) (W.output w.old) (W.output w.new) result }
{
    match measure_all(layout, sources, buffer) {
        Ok(()) => {}
        Err(e) => return Err(e),
    }
    let mut first = C::start();
    add_head(layout, &mut first, buffer);
    match write_head(layout, 0, w, buffer) {
        Ok(()) => {}
        Err(Failed) => return Err(StreamError::WriteFault),
    }
    let mut written = WriteSink { w, check: first };
    let sent = walk(layout, sources, &mut written, buffer);
    // The reference comes back, so it is known here what was written through it.
    let WriteSink { w, check } = written;
    match sent {
        Ok(()) => {}
        Err(e) => return Err(e),
    }
    let stored = check.value();
    match rewrite_head(layout, stored, w, buffer) {
        Ok(()) => {}
        Err(Failed) => return Err(StreamError::WriteFault),
    }
    match w.flush() {
        Ok(()) => {}
        Err(Failed) => return Err(StreamError::WriteFault),
    }
    Ok(())
}
