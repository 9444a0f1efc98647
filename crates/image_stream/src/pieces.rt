//! Parts of segments, through one buffer.
ghost use Rattle.std.specs.Prelude.{◌≡◌, ◌+◌, ◌%◌, ◌<◌, ◌≤◌, ◌^◌, ◌++◌, ℕ, List, length, take};
ghost use Rattle.std.specs.Prelude.{drop, replicate, OnOk, OnErr, IfErr, IfOk, MatchResult};
ghost use Rattle.rom_fields.specs.Failures.{Rose};
ghost use Rattle.rom_fields.specs.Written.{AppendsPrefix};
ghost use Rattle.image_stream.specs.Answers.{AreReads, IsBodyRead, IsImageRead};
ghost use Rattle.image_stream.specs.Sources.{IfKnown, content_of};
ghost use Rattle.image_stream.specs.Segments.{Segment, place, len, segment_at, outline, IsBody};
ghost use Rattle.image_stream.specs.Segments.{HasSource, bytes_of, zeros, IsLaidOut, IsImage};
ghost use Rattle.image_stream.specs.Segments.{image_from};
ghost use Rattle.image_stream.specs.Outcomes.{AreSized};
ghost use Rattle.image_stream.specs.Steps.{IsPiece, IsPieceRead, IsNext, IsNextRead, next_bytes};
ghost use Rattle.image_stream.specs.Steps.{IsReadFault, IsFault, Gone, Read, Sent};

use crate::error::StreamError;
use crate::outline::Outline;
use crate::segmented::Segmented;
use crate::sink::Sink;
use crate::sources::{SourceFailed, Sources};
use rom_fields::Failed;

/// Fills the buffer with the bytes of a file from `at` on.
fn read_exactly<S: Sources>(
    sources: &mut S,
    file: usize,
    at: u64,
    buffer: &mut [u8],
) -> Result<(), StreamError>
    requires file { file < S.files sources.old }
    requires small { at + length buffer.old < 2 ^ 64 }
    ensures known { S.known sources.new ≡ S.known sources.old }
    ensures files { S.files sources.new ≡ S.files sources.old }
    ensures names { S.names sources.new ≡ S.names sources.old }
    ensures ok { OnOk result (IfKnown (S.known sources.old)
        (λ cs. buffer.new ≡ take (length buffer.new) (drop at (content_of cs file)))) }
    ensures read { OnOk result (Read (λ answers xs. AreReads file at answers xs)
        (S.IsLog sources.old) (S.IsLog sources.new) buffer.new) }
    ensures quiet { OnOk result (S.reads sources.new ≡ S.reads sources.old) }
    ensures fault { IfErr result (IsReadFault (S.known sources.old) file (at + length buffer.old)
        (S.reads sources.old) (S.reads sources.new)) }
{
    let mut done = 0;
    while done < buffer.len() {
        match sources.read_at(file, at + done as u64, &mut buffer[done..]) {
            Ok(0) => return Err(StreamError::SizeDiffers { file }),
            Ok(n) => done += n,
            Err(SourceFailed) => return Err(StreamError::SourceFault { file }),
        }
    }
    Ok(())
}

/// Fills the buffer with the bytes of a segment from `from` on.
fn piece<L: Segmented, S: Sources>(
    layout: &L,
    sources: &mut S,
    i: usize,
    segment: Outline,
    from: usize,
    out: &mut [u8],
) -> Result<(), StreamError>
    requires index { i < length (L.form layout.now).segments }
    requires is { segment ≡ outline (segment_at (L.form layout.now).segments i) }
    requires within { from + length out.old ≤ len (segment_at (L.form layout.now).segments i) }
    requires from_word { from % 4 ≡ 0 }
    requires words { len (segment_at (L.form layout.now).segments i) % 4 ≡ 0
        → length out.old % 4 ≡ 0 }
    requires small { len (segment_at (L.form layout.now).segments i) < 2 ^ 32 }
    requires file { HasSource (L.form layout.now).sizes
        (segment_at (L.form layout.now).segments i) }
    requires files { S.files sources.old ≡ length (L.form layout.now).sizes }
    ensures known { S.known sources.new ≡ S.known sources.old }
    ensures files { S.files sources.new ≡ S.files sources.old }
    ensures names { S.names sources.new ≡ S.names sources.old }
    ensures ok { OnOk result (IsPiece (S.known sources.old)
        (segment_at (L.form layout.now).segments i) from out.new) }
    ensures read { OnOk result (Read
        (λ answers xs. IsPieceRead (segment_at (L.form layout.now).segments i) from answers xs)
        (S.IsLog sources.old) (S.IsLog sources.new) out.new) }
    ensures quiet { OnOk result (S.reads sources.new ≡ S.reads sources.old) }
    ensures fault { IfErr result (IsFault (S.known sources.old) (L.form layout.now).sizes
        (S.reads sources.old) (S.reads sources.new) 0 0) }
{
    match segment.source {
        Some(file) => read_exactly(sources, file, from as u64, out),
        None => {
            layout.fill(i, from, out);
            Ok(())
        }
    }
}

/// Sends a segment to a sink, piece by piece, until no further byte makes a difference to it.
fn copy_segment<L: Segmented, S: Sources, K: Sink>(
    layout: &L,
    sources: &mut S,
    i: usize,
    sink: &mut K,
    buffer: &mut [u8],
) -> Result<(), StreamError>
    requires index { i < length (L.form layout.now).segments }
    requires small { len (segment_at (L.form layout.now).segments i) < 2 ^ 32 }
    requires file { HasSource (L.form layout.now).sizes
        (segment_at (L.form layout.now).segments i) }
    requires files { S.files sources.old ≡ length (L.form layout.now).sizes }
    requires sized { IfKnown (S.known sources.old) (AreSized (L.form layout.now).sizes) }
    requires room { 0 < length buffer.old }
    requires words { length buffer.old % 4 ≡ 0 }
    ensures known { S.known sources.new ≡ S.known sources.old }
    ensures files { S.files sources.new ≡ S.files sources.old }
    ensures names { S.names sources.new ≡ S.names sources.old }
    ensures ok { OnOk result (Sent K.NeedsAll
        (IsBody (S.known sources.old) (segment_at (L.form layout.now).segments i))
        (λ answers. IsBodyRead answers (segment_at (L.form layout.now).segments i))
        (S.IsLog sources.old) (S.IsLog sources.new)
        (K.output sink.old).contents (K.output sink.new).contents
        (K.Is sink.old) (K.Is sink.new)) }
    ensures loan { K.loan sink.new ≡ K.loan sink.old }
    ensures quiet { OnOk result ((S.reads sources.new ≡ S.reads sources.old)
        × ((K.output sink.new).failures ≡ (K.output sink.old).failures)) }
    ensures front { OnErr result (IfKnown (S.known sources.old) (λ cs. AppendsPrefix
        (K.output sink.old).contents (K.output sink.new).contents
        (bytes_of cs (segment_at (L.form layout.now).segments i)))) }
    ensures fault { IfErr result (IsFault (S.known sources.old) (L.form layout.now).sizes
        (S.reads sources.old) (S.reads sources.new)
        (K.output sink.old).failures (K.output sink.new).failures) }
{
    let segment = layout.segment(i);
    let len = segment.len as usize;
    let mut from = 0;
    while from < len {
        if sink.is_full() {
            return Ok(());
        }
        let n = (len - from).min(buffer.len());
        let part = &mut buffer[..n];
        match piece(layout, sources, i, segment, from, part) {
            Ok(()) => {}
            Err(e) => return Err(e),
        }
        match sink.put(part) {
            Ok(()) => {}
            Err(Failed) => return Err(StreamError::WriteFault),
        }
        from += n;
    }
    Ok(())
}

/// Sets all bytes to zero.
fn clear(out: &mut [u8])
    ensures { out.new ≡ zeros (length out.old) }
{
    out.fill(0);
}

/// Sends zeros to a sink.
fn emit_zeros<K: Sink>(sink: &mut K, count: usize, buffer: &mut [u8]) -> Result<(), Failed>
    requires room { 0 < length buffer.old }
    ensures ok { OnOk result (Gone (λ xs. xs ≡ zeros count)
        (K.output sink.old).contents (K.output sink.new).contents
        (K.Is sink.old) (K.Is sink.new)) }
    ensures loan { K.loan sink.new ≡ K.loan sink.old }
    ensures quiet { OnOk result ((K.output sink.new).failures ≡ (K.output sink.old).failures) }
    ensures front { OnErr result (AppendsPrefix
        (K.output sink.old).contents (K.output sink.new).contents (zeros count)) }
    ensures fault { OnErr result (Rose (K.output sink.old).failures (K.output sink.new).failures) }
{
    let most = count.min(buffer.len());
    let gap = &mut buffer[..most];
    clear(gap);
    let mut left = count;
    while left > 0 {
        let n = left.min(most);
        match sink.put(&gap[..n]) {
            Ok(()) => {}
            Err(Failed) => return Err(Failed),
        }
        left -= n;
    }
    Ok(())
}

/// Sends the zeros before a segment, and the segment, to a sink. Returns the segment's end.
fn next_segment<L: Segmented, S: Sources, K: Sink>(
    layout: &L,
    sources: &mut S,
    i: usize,
    at: usize,
    sink: &mut K,
    buffer: &mut [u8],
) -> Result<usize, StreamError>
    requires index { i < length (L.form layout.now).segments }
    requires after { at ≤ place (segment_at (L.form layout.now).segments i) }
    requires small { place (segment_at (L.form layout.now).segments i)
        + len (segment_at (L.form layout.now).segments i) < 2 ^ 32 }
    requires file { HasSource (L.form layout.now).sizes
        (segment_at (L.form layout.now).segments i) }
    requires files { S.files sources.old ≡ length (L.form layout.now).sizes }
    requires sized { IfKnown (S.known sources.old) (AreSized (L.form layout.now).sizes) }
    requires room { 0 < length buffer.old }
    requires words { length buffer.old % 4 ≡ 0 }
    ensures known { S.known sources.new ≡ S.known sources.old }
    ensures files { S.files sources.new ≡ S.files sources.old }
    ensures names { S.names sources.new ≡ S.names sources.old }
    ensures end { IfOk result (λ n. n ≡ place (segment_at (L.form layout.now).segments i)
        + len (segment_at (L.form layout.now).segments i)) }
    ensures ok { OnOk result (Sent K.NeedsAll
        (IsNext (S.known sources.old) at (segment_at (L.form layout.now).segments i))
        (IsNextRead at (segment_at (L.form layout.now).segments i))
        (S.IsLog sources.old) (S.IsLog sources.new)
        (K.output sink.old).contents (K.output sink.new).contents
        (K.Is sink.old) (K.Is sink.new)) }
    ensures loan { K.loan sink.new ≡ K.loan sink.old }
    ensures quiet { OnOk result ((S.reads sources.new ≡ S.reads sources.old)
        × ((K.output sink.new).failures ≡ (K.output sink.old).failures)) }
    ensures front { OnErr result (IfKnown (S.known sources.old) (λ cs. AppendsPrefix
        (K.output sink.old).contents (K.output sink.new).contents
        (next_bytes cs at (segment_at (L.form layout.now).segments i)))) }
    ensures fault { IfErr result (IsFault (S.known sources.old) (L.form layout.now).sizes
        (S.reads sources.old) (S.reads sources.new)
        (K.output sink.old).failures (K.output sink.new).failures) }
{
    let segment = layout.segment(i);
    let place = segment.place as usize;
    match emit_zeros(sink, place - at, buffer) {
        Ok(()) => {}
        Err(Failed) => return Err(StreamError::WriteFault),
    }
    match copy_segment(layout, sources, i, sink, buffer) {
        Ok(()) => {}
        Err(e) => return Err(e),
    }
    Ok(place + segment.len as usize)
}

/// Sends all that follows the superblock to a sink. Segments that make no difference to it are not
/// read.
pub fn walk<L: Segmented, S: Sources, K: Sink>(
    layout: &L,
    sources: &mut S,
    sink: &mut K,
    buffer: &mut [u8],
) -> Result<(), StreamError>
    requires laid { IsLaidOut (L.form layout.now) }
    requires files { S.files sources.old ≡ length (L.form layout.now).sizes }
    requires sized { IfKnown (S.known sources.old) (AreSized (L.form layout.now).sizes) }
    requires room { 0 < length buffer.old }
    requires words { length buffer.old % 4 ≡ 0 }
    ensures known { S.known sources.new ≡ S.known sources.old }
    ensures files { S.files sources.new ≡ S.files sources.old }
    ensures names { S.names sources.new ≡ S.names sources.old }
    ensures ok { OnOk result (Sent K.NeedsAll
        (IsImage (S.known sources.old)
        (L.form layout.now).start (L.form layout.now).segments (L.form layout.now).end)
        (λ answers. IsImageRead answers
        (L.form layout.now).start (L.form layout.now).segments (L.form layout.now).end)
        (S.IsLog sources.old) (S.IsLog sources.new)
        (K.output sink.old).contents (K.output sink.new).contents
        (K.Is sink.old) (K.Is sink.new)) }
    ensures loan { K.loan sink.new ≡ K.loan sink.old }
    ensures quiet { OnOk result ((S.reads sources.new ≡ S.reads sources.old)
        × ((K.output sink.new).failures ≡ (K.output sink.old).failures)) }
    ensures front { OnErr result (IfKnown (S.known sources.old) (λ cs. AppendsPrefix
        (K.output sink.old).contents (K.output sink.new).contents
        (image_from cs (L.form layout.now).start (L.form layout.now).segments
        (L.form layout.now).end))) }
    ensures fault { IfErr result (IsFault (S.known sources.old) (L.form layout.now).sizes
        (S.reads sources.old) (S.reads sources.new)
        (K.output sink.old).failures (K.output sink.new).failures) }
{
    let mut at = layout.head_len();
    for i in 0..layout.count() {
        match next_segment(layout, sources, i, at, sink, buffer) {
            Ok(end) => at = end,
            Err(e) => return Err(e),
        }
    }
    match emit_zeros(sink, layout.image_len() - at, buffer) {
        Ok(()) => Ok(()),
        Err(Failed) => Err(StreamError::WriteFault),
    }
}
