//! The lines of extents.
ghost use Rattle.std.specs.Prelude.{◌≡◌, ◌<◌, ◌^◌, ◌∷◌, [], Some, length, slice_get};
ghost use Rattle.std.specs.List.{flat_map};
ghost use Rattle.std.specs.List.Sorted.{IsNonDecreasingBy};
ghost use Rattle.std.specs.Option.{ForSome};
ghost use Rattle.rom_fields.specs.Failures.{Counts};
ghost use Rattle.rom_fields.specs.Written.{Puts, sink, WritesText};
ghost use Rattle.image_info.specs.Map.{address_text};
ghost use Rattle.image_extents.specs.Lines.{range_text, word_of, owner_text, extent_text};
ghost use Rattle.image_extents.specs.Lines.{all_zero, is_super, rest_word, between, beyond};
ghost use Rattle.image_extents.specs.Lines.{byte_text, extents_text, have_owner, is_start, line_of};
ghost use Rattle.image_extents.specs.Lines.{lines_as, lines_by, piece, run_text};
ghost use Rattle.image_extents.specs.Found.{is_data};
ghost use Rattle.image_extents.specs.Sorted.{start_of};
ghost use Rattle.image_extents.specs.Tables.{inner, led};

use crate::extent::{Extent, Extents, Kind, end};
use crate::path::{bytes_at, put_path};
use crate::search::run_at;
use image_info::put_eight_digits;
use rom_fields::{ByteWrite, Failed, put, put_long_decimal};

/// Puts an address: `0x`, and eight digits, or sixteen from 2^32 on.
fn put_address<W: ByteWrite>(w: &mut W, failed: &mut bool, address: u64)
    ensures { Puts (sink (W.output w.old) failed.old) (sink (W.output w.new) failed.new)
        (address_text address) }
{
    put(w, failed, b"0x");
    if address < 4_294_967_296 {
        put_eight_digits(w, failed, address);
    } else {
        put_eight_digits(w, failed, address / 4_294_967_296);
        put_eight_digits(w, failed, address);
    }
}

/// The word of a kind.
pub(crate) fn word_of(kind: Kind) -> &'static [u8]
    ensures { result.now ≡ word_of kind }
{
    match kind {
        Kind::Super => b"super",
        Kind::Header => b"header",
        Kind::List => b"list",
        Kind::Table => b"table",
        Kind::Data => b"data",
    }
}

/// Puts an address, a length and the word of a kind, with a space after each.
fn put_range<W: ByteWrite>(w: &mut W, failed: &mut bool, address: u64, len: u64, word: &[u8])
    ensures { Puts (sink (W.output w.old) failed.old) (sink (W.output w.new) failed.new)
        (range_text address len word.now) }
{
    put_address(w, failed, address);
    put(w, failed, b" ");
    put_long_decimal(w, failed, len);
    put(w, failed, b" ");
    put(w, failed, word);
    put(w, failed, b" ");
}

/// Whether an extent is the superblock, which has no path.
fn is_super(kind: Kind) -> bool
    ensures { result ≡ is_super kind }
{
    match kind {
        Kind::Super => true,
        Kind::Header | Kind::List | Kind::Table | Kind::Data => false,
    }
}

/// Puts the path of an extent's record, and `-` for the superblock.
fn put_owner<W: ByteWrite>(w: &mut W, failed: &mut bool, found: &Extents<'_>, x: Extent)
    ensures { Puts (sink (W.output w.old) failed.old) (sink (W.output w.new) failed.new)
        (owner_text found.now x) }
{
    if is_super(x.kind) {
        put(w, failed, b"-");
    } else {
        put_path(w, failed, found.bytes, &found.records, x.owner);
    }
}

/// Puts the line of an extent without its line feed.
fn put_extent<W: ByteWrite>(w: &mut W, failed: &mut bool, base: u64, found: &Extents<'_>, x: Extent)
    ensures { Puts (sink (W.output w.old) failed.old) (sink (W.output w.new) failed.new)
        (extent_text base found.now x) }
{
    let address = base.wrapping_add(u64::from(x.start));
    put_range(w, failed, address, u64::from(x.len), word_of(x.kind));
    put_owner(w, failed, found, x);
}

/// Whether an extent has bytes of contents.
fn is_contents(kind: Kind) -> bool
    ensures { result ≡ is_data kind }
{
    match kind {
        Kind::Data => true,
        Kind::Super | Kind::Header | Kind::List | Kind::Table => false,
    }
}

/// Puts which byte of the contents an extent has at an offset, if it is data.
fn put_byte<W: ByteWrite>(w: &mut W, failed: &mut bool, x: Extent, at: u64)
    requires { at < 2 ^ 63 }
    ensures { Puts (sink (W.output w.old) failed.old) (sink (W.output w.new) failed.new)
        (byte_text (Some at) x) }
{
    if is_contents(x.kind) {
        let number = at.saturating_sub(u64::from(x.start));
        put(w, failed, b" ");
        put_long_decimal(w, failed, u64::from(x.offset) + number);
    }
}

/// Puts the line of an extent, and with an offset, which byte of the contents it has there.
fn put_line<W: ByteWrite>(
    w: &mut W,
    failed: &mut bool,
    base: u64,
    found: &Extents<'_>,
    x: Extent,
    at: Option<u64>,
    owner: usize,
)
    requires { ForSome at (λ a. a < 2 ^ 63) }
    ensures { Puts (sink (W.output w.old) failed.old) (sink (W.output w.new) failed.new)
        (line_of base found.now at x owner) }
{
    put_extent(w, failed, base, found, Extent { owner, ..x });
    if let Some(at) = at {
        put_byte(w, failed, x, at);
    }
    put(w, failed, b"\n");
}

/// The number of the next record with the block pointers of a record, if there is one.
fn next_of(found: &Extents<'_>, number: usize) -> Option<usize>
    ensures { result ≡ inner (slice_get found.now.next.items number) }
{
    match found.next.get(number) {
        Some(next) => *next,
        None => None,
    }
}

/// Puts the lines of some extents as bytes of the record of this number. With an offset, a line of
/// data has a last field: which byte of the contents is there.
fn put_as<W: ByteWrite>(
    w: &mut W,
    failed: &mut bool,
    base: u64,
    found: &Extents<'_>,
    run: &[Extent],
    at: Option<u64>,
    number: usize,
)
    requires { ForSome at (λ a. a < 2 ^ 63) }
    ensures { Puts (sink (W.output w.old) failed.old) (sink (W.output w.new) failed.new)
        (lines_as base found.now at run.now number) }
{
    for x in run {
        put_line(w, failed, base, found, *x, at, number);
    }
}

/// Puts the lines of some extents for a record, and for each one to which `next` leads from it.
fn put_by<W: ByteWrite>(
    w: &mut W,
    failed: &mut bool,
    base: u64,
    found: &Extents<'_>,
    run: &[Extent],
    at: Option<u64>,
    first: usize,
)
    requires { ForSome at (λ a. a < 2 ^ 63) }
    ensures { Puts (sink (W.output w.old) failed.old) (sink (W.output w.new) failed.new)
        (flat_map (lines_as base found.now at run.now)
        (led found.now.next.items (length found.now.records.items) (Some first))) }
{
    let mut owner = Some(first);
    for _ in 0..found.records.len() {
        let Some(number) = owner else {
            return;
        };
        put_as(w, failed, base, found, run, at, number);
        owner = next_of(found, number);
    }
}

/// Puts the lines of some extents one after the other.
fn put_each<W: ByteWrite>(
    w: &mut W,
    failed: &mut bool,
    base: u64,
    found: &Extents<'_>,
    run: &[Extent],
    at: Option<u64>,
)
    requires { ForSome at (λ a. a < 2 ^ 63) }
    ensures { Puts (sink (W.output w.old) failed.old) (sink (W.output w.new) failed.new)
        (flat_map (λ y. lines_by base found.now at (y ∷ []) y) run.now) }
{
    for number in 0..run.len() {
        let one = &run[number..number + 1];
        put_by(w, failed, base, found, one, at, run[number].owner);
    }
}

/// Whether all extents have this owner.
fn have_owner(run: &[Extent], owner: usize) -> bool
    ensures { result ≡ have_owner owner run.now }
{
    for x in run {
        if x.owner != owner {
            return false;
        }
    }
    true
}

/// Puts the lines of the extents that begin at one offset: record by record if they are of one
/// record, otherwise extent by extent.
pub(crate) fn put_run<W: ByteWrite>(
    w: &mut W,
    failed: &mut bool,
    base: u64,
    found: &Extents<'_>,
    run: &[Extent],
    at: Option<u64>,
)
    requires { ForSome at (λ a. a < 2 ^ 63) }
    ensures { Puts (sink (W.output w.old) failed.old) (sink (W.output w.new) failed.new)
        (run_text base found.now at run.now) }
{
    if run.is_empty() {
        return;
    }
    let owner = run[0].owner;
    if have_owner(run, owner) {
        put_by(w, failed, base, found, run, at, owner);
    } else {
        put_each(w, failed, base, found, run, at);
    }
}

/// Whether all of the bytes are zero.
fn is_zero(bytes: &[u8]) -> bool
    ensures { result ≡ all_zero bytes.now }
{
    for byte in bytes {
        if *byte != 0 {
            return false;
        }
    }
    true
}

/// The word of bytes that are in no extent.
fn rest_word(bytes: &[u8]) -> &'static [u8]
    ensures { result.now ≡ rest_word bytes.now }
{
    if is_zero(bytes) { b"pad" } else { b"gap" }
}

/// Puts the line of the bytes from `from` up to `to` that are in no extent, if there are any.
pub(crate) fn put_between<W: ByteWrite>(
    w: &mut W,
    failed: &mut bool,
    base: u64,
    bytes: &[u8],
    from: u64,
    to: u64,
)
    ensures { Puts (sink (W.output w.old) failed.old) (sink (W.output w.new) failed.new)
        (between base bytes.now from to) }
{
    if from < to {
        let word = rest_word(bytes_at(bytes, from as usize, (to - from) as usize));
        put_range(w, failed, base.wrapping_add(from), to - from, word);
        put(w, failed, b"-\n");
    }
}

/// Puts the line of the bytes that a file has after the accessible ones, if it has any.
pub(crate) fn put_beyond<W: ByteWrite>(
    w: &mut W,
    failed: &mut bool,
    base: u64,
    size: u64,
    file: u64,
)
    ensures { Puts (sink (W.output w.old) failed.old) (sink (W.output w.new) failed.new)
        (beyond base size file) }
{
    if size < file {
        put_range(w, failed, base.wrapping_add(size), file - size, b"beyond");
        put(w, failed, b"-\n");
    }
}

/// Whether the extent before begins at this offset.
fn is_start(before: Option<u32>, start: u32) -> bool
    ensures { result ≡ is_start before start }
{
    match before {
        Some(before) => before == start,
        None => false,
    }
}

/// Puts the lines of the bytes from `reach` up to an extent, and of all extents that begin with it,
/// except if the one before it begins there, too.
fn put_piece<W: ByteWrite>(
    w: &mut W,
    failed: &mut bool,
    base: u64,
    found: &Extents<'_>,
    reach: u64,
    before: Option<u32>,
    x: Extent,
)
    requires { IsNonDecreasingBy start_of found.now.extents.items }
    ensures { Puts (sink (W.output w.old) failed.old) (sink (W.output w.new) failed.new)
        (piece base found.now reach before x) }
{
    if is_start(before, x.start) {
        return;
    }
    put_between(w, failed, base, found.bytes, reach, u64::from(x.start));
    put_run(
        w,
        failed,
        base,
        found,
        run_at(&found.extents, x.start),
        None,
    );
}

/// Writes the lines of the extents of an image whose first byte has the address `base`, in the
/// order of offset: `ADDRESS LENGTH KIND PATH`. The superblock and bytes of no record have `-`
/// instead of a path. Bytes between two extents, and from the last one up to the end of the
/// accessible bytes, have a line `pad` if all of them are zero, and otherwise a line `gap`. If the
/// file has more than the accessible bytes, the last line is `beyond`. Addresses are modulo 2^64.
///
/// # Errors
///
/// `Failed` if a write failed. Then a prefix of the lines was written.
pub fn write_extents<W: ByteWrite>(
    found: &Extents<'_>,
    base: u64,
    file: u64,
    w: &mut W,
) -> Result<(), Failed>
    requires { IsNonDecreasingBy start_of found.now.extents.items }
    ensures text { WritesText (W.output w.old).contents (W.output w.new).contents result
        (extents_text base file found.now) }
    ensures count { Counts (W.output w.old).failures (W.output w.new).failures result }
{
    let mut failed = false;
    let mut reach: u64 = 0;
    let mut before = None;
    for x in &found.extents {
        put_piece(w, &mut failed, base, found, reach, before, *x);
        reach = reach.max(end(*x));
        before = Some(x.start);
    }
    let size = found.bytes.len() as u64;
    put_between(w, &mut failed, base, found.bytes, reach, size);
    put_beyond(w, &mut failed, base, size, file);
    if failed { Err(Failed) } else { Ok(()) }
}
