//! The picture as a whole.

use crate::bars::Bars;
use crate::scale::{HEIGHT, LEFT, Scale, WIDTH};
use crate::title::put_address;
use image_extents::Extents;
use rom_fields::{ByteWrite, OutOfMemory, put, put_long_decimal};
use std::alloc::Global;
use thiserror::Error;

/// The reason why not all of a picture was written.
#[derive(Clone, Copy, Debug, PartialEq, Eq, Error)]
pub enum PictureError {
    /// Memory was refused.
    #[error("out of memory")]
    OutOfMemory,
    /// A write failed.
    #[error("write fault")]
    WriteFault,
}

impl From<OutOfMemory> for PictureError {
    fn from(_error: OutOfMemory) -> Self {
        PictureError::OutOfMemory
    }
}

/// The words of the legend, which are classes.
const KINDS: [&[u8]; 9] = [
    b"super", b"header", b"list", b"table", b"data", b"small", b"pad", b"gap", b"beyond",
];

/// The colours in light, in dark and in print.
const STYLE: &[u8] = b"<style>
svg{background:#fff;color:#111}
text{font:110px monospace;fill:currentColor}
.super{fill:#7b3fa0}.header{fill:#1b7f79}.list{fill:#2f9e44}.table{fill:#e8890c}
.data{fill:#3b6fd4}.small{fill:#7d8794}.pad{fill:url(#pad)}.gap{fill:url(#gap)}
.beyond{fill:url(#beyond)}
g>rect{stroke:#fff;stroke-width:4}
.mark{stroke:#111;stroke-opacity:.45;stroke-width:6;fill:none}
@media screen and (prefers-color-scheme:dark){svg{background:#16181c;color:#e8e8e8}
g>rect{stroke:#16181c}.mark{stroke:#fff}}
@media print{svg{background:none;color:#000}g>rect{print-color-adjust:exact;
-webkit-print-color-adjust:exact}}
</style>
<defs>
<pattern id=\"pad\" width=\"60\" height=\"60\" patternUnits=\"userSpaceOnUse\">
<rect width=\"60\" height=\"60\" fill=\"#c9ced6\"/></pattern>
<pattern id=\"gap\" width=\"60\" height=\"60\" patternUnits=\"userSpaceOnUse\">
<rect width=\"60\" height=\"60\" fill=\"#f4d3d3\"/>
<path d=\"M0 60L60 0\" stroke=\"#c92a2a\" stroke-width=\"12\"/></pattern>
<pattern id=\"beyond\" width=\"60\" height=\"60\" patternUnits=\"userSpaceOnUse\">
<rect width=\"60\" height=\"60\" fill=\"#e3e6ea\"/>
<path d=\"M0 0L60 60\" stroke=\"#8b949e\" stroke-width=\"10\"/></pattern>
</defs>
";

/// Puts a number and the text after it.
fn put_with<W: ByteWrite>(w: &mut W, failed: &mut bool, number: u64, text: &[u8]) {
    put_long_decimal(w, failed, number);
    put(w, failed, text);
}

/// Puts the front of the picture, up to the style.
fn put_front<W: ByteWrite>(w: &mut W, failed: &mut bool, scale: Scale) {
    let height = scale.y(scale.rows);
    put(
        w,
        failed,
        b"<svg xmlns=\"http://www.w3.org/2000/svg\" viewBox=\"0 0 ",
    );
    put_with(w, failed, LEFT + WIDTH + 200, b" ");
    put_with(w, failed, height, b"\" width=\"");
    put_with(w, failed, (LEFT + WIDTH + 200) / 10, b"\" height=\"");
    put_with(w, failed, height / 10, b"\">\n");
    put(w, failed, STYLE);
}

/// Puts the legend: the kinds, and what a row and a mark are.
fn put_legend<W: ByteWrite>(w: &mut W, failed: &mut bool, scale: Scale) {
    let mut x: u64 = LEFT;
    for kind in &KINDS {
        put(w, failed, b"<g class=\"");
        put(w, failed, *kind);
        put(w, failed, b"\"><rect x=\"");
        put_with(
            w,
            failed,
            x,
            b"\" y=\"150\" width=\"150\" height=\"150\"/></g><text x=\"",
        );
        put_with(w, failed, x.saturating_add(190), b"\" y=\"265\">");
        put(w, failed, *kind);
        put(w, failed, b"</text>\n");
        x = x.saturating_add(1_060);
    }
    put(w, failed, b"<text x=\"");
    put_with(w, failed, LEFT, b"\" y=\"560\">A row is ");
    put_with(w, failed, scale.row, b" bytes, a mark each ");
    put_with(
        w,
        failed,
        scale.mark(),
        b". A grey bar has several ranges.</text>\n",
    );
}

/// Puts the address of each row.
fn put_addresses<W: ByteWrite>(w: &mut W, failed: &mut bool, base: u64, scale: Scale) {
    for number in 0..scale.rows {
        put(w, failed, b"<text x=\"100\" y=\"");
        put_with(
            w,
            failed,
            scale.y(number).saturating_add(HEIGHT - 50),
            b"\">",
        );
        put_address(
            w,
            failed,
            base.wrapping_add(number.saturating_mul(scale.row)),
        );
        put(w, failed, b"</text>\n");
    }
}

/// Puts the marks of one row, up to the end of the last bar.
fn put_marks_of<W: ByteWrite>(w: &mut W, failed: &mut bool, scale: Scale, number: u64, size: u64) {
    let mark = scale.mark().max(1);
    let begin = number.saturating_mul(scale.row);
    let within = size.saturating_sub(begin).min(scale.row);
    for k in 0..(within / mark).saturating_add(1) {
        put(w, failed, b"M");
        put_with(w, failed, scale.x(k.saturating_mul(mark)), b" ");
        put_with(w, failed, scale.y(number), b"v");
        put_with(w, failed, HEIGHT, b"");
    }
}

/// Puts the marks at multiples of 4,096 bytes of a file of so many bytes.
fn put_marks<W: ByteWrite>(w: &mut W, failed: &mut bool, scale: Scale, size: u64) {
    put(w, failed, b"<path class=\"mark\" d=\"");
    for number in 0..scale.rows {
        put_marks_of(w, failed, scale, number, size);
    }
    put(w, failed, b"\"/>\n</svg>\n");
}

/// Writes a picture of the extents of an image whose first byte has the address `base`, in a file
/// of this number of bytes. It is SVG that needs no other file, with at most about 6,000 bars.
///
/// # Errors
///
/// `WriteFault` if a write failed, `OutOfMemory` if memory was refused. In both cases a prefix of
/// the picture was written.
pub fn write_picture<W: ByteWrite>(
    alloc: Global,
    found: &Extents<'_>,
    base: u64,
    file: u64,
    w: &mut W,
) -> Result<(), PictureError> {
    let mut failed = false;
    let size = file.max(found.bytes.len() as u64);
    let scale = Scale::of(size.saturating_sub(1));
    put_front(w, &mut failed, scale);
    put_legend(w, &mut failed, scale);
    put_addresses(w, &mut failed, base, scale);
    let mut bars = Bars {
        alloc,
        found,
        base,
        scale,
        small: None,
    };
    bars.all(w, &mut failed, file)?;
    put_marks(w, &mut failed, scale, size);
    if failed {
        Err(PictureError::WriteFault)
    } else {
        Ok(())
    }
}
