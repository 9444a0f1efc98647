//! What is at an address.
ghost use Rattle.std.specs.Prelude.{◌≡◌, ◌<◌, ◌≤◌, ◌^◌, length, max, nat_lt, slice_index_or, IfOk};
ghost use Rattle.std.specs.List.Sorted.{IsNonDecreasingBy};
ghost use Rattle.rom_fields.specs.Failures.{Counts};
ghost use Rattle.rom_fields.specs.Written.{Puts, WritesText, sink};
ghost use Rattle.image_extents.specs.Apart.{AreApart};
ghost use Rattle.image_extents.specs.Sorted.{start_of};
ghost use Rattle.image_extents.specs.Which.{at_text, inside_text, is_inside, which_text};
ghost use Rattle.image_extents.specs.declared.extent.Extent.{Extent};

use crate::extent::{Extent, Extents, end};
use crate::lines::{put_between, put_beyond, put_run};
use crate::search::{begun, run_at};
use rom_fields::{ByteWrite, Failed, put};

/// Where the extent of this number begins, or `size` if there is none.
fn start_at(extents: &[Extent], number: usize, size: u64) -> u64
    ensures there { (d : Extent) → number < length extents.now
        → result ≡ (slice_index_or extents.now number d).start }
    ensures none { length extents.now ≤ number → result ≡ size }
{
    if number < extents.len() {
        u64::from(extents[number].start)
    } else {
        size
    }
}

/// Puts the lines of the byte at the offset `at` of the accessible bytes.
fn put_among<W: ByteWrite>(
    w: &mut W,
    failed: &mut bool,
    base: u64,
    found: &Extents<'_>,
    extents: &[Extent],
    at: u64,
)
    requires sorted { IsNonDecreasingBy start_of extents.now }
    requires apart { AreApart extents.now }
    requires small { at < 2 ^ 63 }
    ensures { Puts (sink (W.output w.old) failed.old) (sink (W.output w.new) failed.new)
        (at_text base found.now at extents.now) }
{
    let next = begun(extents, at + 1);
    let to = start_at(extents, next, found.bytes.len() as u64);
    if next == 0 {
        return put_between(w, failed, base, found.bytes, 0, to);
    }
    let last = extents[next - 1];
    if end(last) <= at {
        return put_between(w, failed, base, found.bytes, end(last), to);
    }
    put_run(
        w,
        failed,
        base,
        found,
        run_at(extents, last.start),
        Some(at),
    );
}

/// Puts what is at the offset `at` of a file of so many bytes, if it has a byte there.
fn put_inside<W: ByteWrite>(
    w: &mut W,
    failed: &mut bool,
    base: u64,
    file: u64,
    found: &Extents<'_>,
    at: u64,
)
    requires sorted { IsNonDecreasingBy start_of found.now.extents.items }
    requires apart { AreApart found.now.extents.items }
    ensures { Puts (sink (W.output w.old) failed.old) (sink (W.output w.new) failed.new)
        (inside_text base file found.now at) }
{
    let size = found.bytes.len() as u64;
    if at < size {
        put_among(w, failed, base, found, found.extents.as_slice(), at);
    } else {
        put_beyond(w, failed, base, size, file);
    }
}

/// Whether a file of so many bytes has a byte at the offset `at`.
fn has_byte(found: &Extents<'_>, file: u64, at: u64) -> bool
    ensures { result ≡ nat_lt at (max (length found.now.bytes.now) file) }
{
    at < (found.bytes.len() as u64).max(file)
}

/// Puts what is at an address, and returns whether the file has a byte there.
fn put_which<W: ByteWrite>(
    w: &mut W,
    failed: &mut bool,
    base: u64,
    file: u64,
    found: &Extents<'_>,
    address: u64,
) -> bool
    requires sorted { IsNonDecreasingBy start_of found.now.extents.items }
    requires apart { AreApart found.now.extents.items }
    ensures text { Puts (sink (W.output w.old) failed.old) (sink (W.output w.new) failed.new)
        (which_text base file found.now address) }
    ensures inside { result ≡ is_inside base file found.now address }
{
    let at = address.wrapping_sub(base);
    let inside = has_byte(found, file, at);
    if inside {
        put_inside(w, failed, base, file, found, at);
    } else {
        put(w, failed, b"err ERANGE\n");
    }
    inside
}

/// Writes the lines of the extents that contain the byte of an address, in the image whose first
/// byte has the address `base`: those that `write_extents` writes. If the extent is data, the line
/// has a last field with the offset of the byte in the contents. Bytes in no extent have the line
/// of their range. The result is whether the file has a byte of this address. If not, `err ERANGE`
/// is written.
///
/// # Errors
///
/// `Failed` if a write failed. Then a prefix of the lines was written.
pub fn write_which<W: ByteWrite>(
    found: &Extents<'_>,
    base: u64,
    file: u64,
    address: u64,
    w: &mut W,
) -> Result<bool, Failed>
    requires sorted { IsNonDecreasingBy start_of found.now.extents.items }
    requires apart { AreApart found.now.extents.items }
    ensures text { WritesText (W.output w.old).contents (W.output w.new).contents result
        (which_text base file found.now address) }
    ensures count { Counts (W.output w.old).failures (W.output w.new).failures result }
    ensures inside { IfOk result (λ b. b ≡ is_inside base file found.now address) }
{
    let mut failed = false;
    let inside = put_which(w, &mut failed, base, file, found, address);
    if failed { Err(Failed) } else { Ok(inside) }
}
