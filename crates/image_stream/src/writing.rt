//! The writing of an image into a buffer of its length.
ghost use Rattle.std.specs.Prelude.{◌≡◌, ◌+◌, ◌<◌, ◌≤◌, ◌^◌, ◌++◌, ℕ, List, ◌-◌, length, take};
ghost use Rattle.std.specs.Prelude.{drop, get_or, OnOk, IfErr};
ghost use Rattle.image_stream.specs.Segments.{place, len, segment_at, outline, HasSource, bytes_of};
ghost use Rattle.image_stream.specs.Segments.{zeros, IsLaidOut, image_of};
ghost use Rattle.image_stream.specs.Outcomes.{FrontSized, AreSized, IsLeastWrong};
ghost use Rattle.image_stream.specs.Steps.{next_bytes};

use crate::checksum::Checksum;
use crate::error::SizeDiffers;
use crate::outline::Outline;
use crate::segmented::Segmented;
use rom_fields::Contents;

/// Checks that all contents have the planned sizes.
fn sizes_agree<L: Segmented>(layout: &L, contents: &Contents<'_>) -> Result<(), SizeDiffers>
    requires { length contents.now ≡ length (L.form layout.now).sizes }
    ensures ok { OnOk result (AreSized (L.form layout.now).sizes contents.now) }
    ensures err { IfErr result
        (λ e. IsLeastWrong (L.form layout.now).sizes e.file contents.now) }
{
    for file in 0..layout.files() {
        match contents.get(file) {
            Some(content) => {
                if content.len() as u64 != layout.size(file) {
                    return Err(SizeDiffers { file });
                }
            }
            None => return Err(SizeDiffers { file }),
        }
    }
    Ok(())
}

/// Fills a window with a segment.
fn fill_segment<L: Segmented>(layout: &L, contents: &Contents<'_>, i: usize, out: &mut [u8])
    requires index { i < length (L.form layout.now).segments }
    requires room { length out.old ≡ len (segment_at (L.form layout.now).segments i) }
    requires count { length contents.now ≡ length (L.form layout.now).sizes }
    requires file { HasSource (L.form layout.now).sizes
        (segment_at (L.form layout.now).segments i) }
    requires sized { AreSized (L.form layout.now).sizes contents.now }
    ensures { out.new ≡ bytes_of contents.now (segment_at (L.form layout.now).segments i) }
{
    match layout.segment(i).source {
        Some(file) => {
            if let Some(content) = contents.get(file) {
                let n = out.len();
                out.copy_from_slice(&content[..n]);
            }
        }
        None => layout.fill(i, 0, out),
    }
}

/// Sets the bytes from `from` to `to` to zero.
fn zero(out: &mut [u8], from: usize, to: usize)
    requires order { from ≤ to }
    requires within { to ≤ length out.old }
    ensures { out.new ≡ take from out.old ++ (zeros (to - from) ++ drop to out.old) }
{
    out[from..to].fill(0);
}

/// Puts a segment at its offset.
fn put_segment<L: Segmented>(
    layout: &L,
    contents: &Contents<'_>,
    i: usize,
    segment: Outline,
    out: &mut [u8],
)
    requires index { i < length (L.form layout.now).segments }
    requires is { segment ≡ outline (segment_at (L.form layout.now).segments i) }
    requires room { segment.place + segment.len ≤ length out.old }
    requires count { length contents.now ≡ length (L.form layout.now).sizes }
    requires file { HasSource (L.form layout.now).sizes
        (segment_at (L.form layout.now).segments i) }
    requires sized { AreSized (L.form layout.now).sizes contents.now }
    ensures { out.new ≡ take segment.place out.old ++ (bytes_of contents.now
        (segment_at (L.form layout.now).segments i) ++ drop (segment.place + segment.len) out.old) }
{
    let place = segment.place as usize;
    let end = place + segment.len as usize;
    fill_segment(layout, contents, i, &mut out[place..end]);
}

/// Puts the superblock.
fn put_head<L: Segmented>(layout: &L, stored: u32, out: &mut [u8])
    requires { (L.form layout.now).start ≤ length out.old }
    ensures put { out.new ≡ (L.form layout.now).head stored
        ++ drop (L.form layout.now).start out.old }
    ensures length { length ((L.form layout.now).head stored) ≡ (L.form layout.now).start }
{
    let start = layout.head_len();
    layout.fill_head(stored, &mut out[..start]);
}

/// Puts the zeros before a segment, and the segment. Returns the segment's end.
fn put_next<L: Segmented>(
    layout: &L,
    contents: &Contents<'_>,
    i: usize,
    at: usize,
    out: &mut [u8],
) -> usize
    requires index { i < length (L.form layout.now).segments }
    requires after { at ≤ place (segment_at (L.form layout.now).segments i) }
    requires room { place (segment_at (L.form layout.now).segments i)
        + len (segment_at (L.form layout.now).segments i) ≤ length out.old }
    requires count { length contents.now ≡ length (L.form layout.now).sizes }
    requires file { HasSource (L.form layout.now).sizes
        (segment_at (L.form layout.now).segments i) }
    requires sized { AreSized (L.form layout.now).sizes contents.now }
    ensures end { result ≡ place (segment_at (L.form layout.now).segments i)
        + len (segment_at (L.form layout.now).segments i) }
    ensures put { take result out.new ≡ take at out.old
        ++ next_bytes contents.now at (segment_at (L.form layout.now).segments i) }
{
    let segment = layout.segment(i);
    zero(out, at, segment.place as usize);
    put_segment(layout, contents, i, segment, out);
    segment.place as usize + segment.len as usize
}

/// Writes an image into a buffer of its length.
///
/// # Errors
///
/// `SizeDiffers` has the first file with another size. The buffer is then as it was.
pub fn write<L: Segmented, C: Checksum>(
    layout: &L,
    contents: &Contents<'_>,
    out: &mut [u8],
) -> Result<(), SizeDiffers>
    requires laid { IsLaidOut (L.form layout.now) }
    requires count { length contents.now ≡ length (L.form layout.now).sizes }
    requires room { length out.old ≡ (L.form layout.now).end }
    ensures ok { OnOk result (AreSized (L.form layout.now).sizes contents.now
        × (out.new ≡ image_of (L.form layout.now) C.stored contents.now)) }
    ensures err { IfErr result (λ e. IsLeastWrong (L.form layout.now).sizes e.file contents.now
        × (out.new ≡ out.old)) }
{
    match sizes_agree(layout, contents) {
        Ok(()) => {}
        Err(e) => return Err(e),
    }
    put_head(layout, 0, out);
    let mut at = layout.head_len();
    for i in 0..layout.count() {
        at = put_next(layout, contents, i, at, out);
    }
    zero(out, at, out.len());
    let mut check = C::start();
    check.add(out);
    put_head(layout, check.value(), out);
    Ok(())
}
