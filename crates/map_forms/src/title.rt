//! The texts that a picture shows of an extent.

use crate::xml::put_xml;
use image_extents::{Extents, put_path};
use image_info::put_eight_digits;
use rom_fields::{ByteWrite, OutOfMemory, Plain, put, put_long_decimal};
use std::alloc::Global;

/// The most bytes that are shown of a path.
const MOST_SHOWN: usize = 120;

/// What a bar shows.
#[derive(Clone, Copy)]
pub(crate) struct Bar {
    /// The class of its colour.
    pub class: &'static [u8],
    /// The number of the record whose path is shown, if there is one.
    pub owner: Option<usize>,
    /// The number of its extents and ranges.
    pub count: u32,
    pub start: u64,
    pub end: u64,
}

/// Puts an address.
pub(crate) fn put_address<W: ByteWrite>(w: &mut W, failed: &mut bool, address: u64) {
    put(w, failed, b"0x");
    if address >= 4_294_967_296 {
        put_eight_digits(w, failed, address / 4_294_967_296);
    }
    put_eight_digits(w, failed, address);
}

/// Puts the end of a path: all of it, or its last bytes.
fn put_end<W: ByteWrite>(w: &mut W, failed: &mut bool, path: &[u8]) {
    if path.len() > MOST_SHOWN {
        put(w, failed, b"...");
        put_xml(w, failed, &path[path.len() - MOST_SHOWN..]);
    } else {
        put_xml(w, failed, path);
    }
}

/// Puts the path of a record.
fn put_owner<W: ByteWrite>(
    alloc: Global,
    w: &mut W,
    failed: &mut bool,
    found: &Extents<'_>,
    owner: usize,
) -> Result<(), OutOfMemory> {
    let mut path = Plain::new(Vec::new(alloc));
    let mut refused = false;
    put_path(&mut path, &mut refused, found.bytes, &found.records, owner);
    if refused {
        return Err(OutOfMemory);
    }
    put_end(w, failed, &path.into_inner());
    put(w, failed, b" ");
    Ok(())
}

/// Puts the title of a bar: a path, a kind or a count, an address and a length.
pub(crate) fn put_title<W: ByteWrite>(
    alloc: Global,
    w: &mut W,
    failed: &mut bool,
    found: &Extents<'_>,
    base: u64,
    bar: Bar,
) -> Result<(), OutOfMemory> {
    put(w, failed, b"<title>");
    if let Some(owner) = bar.owner {
        put_owner(alloc, w, failed, found, owner)?;
    }
    if bar.count > 1 {
        put_long_decimal(w, failed, u64::from(bar.count));
        put(w, failed, b" ranges");
    } else {
        put(w, failed, bar.class);
    }
    put(w, failed, b" ");
    put_address(w, failed, base.wrapping_add(bar.start));
    put(w, failed, b" ");
    put_long_decimal(w, failed, bar.end.saturating_sub(bar.start));
    put(w, failed, b"</title>");
    Ok(())
}
