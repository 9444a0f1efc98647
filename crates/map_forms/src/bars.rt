//! The bars of a picture.

use crate::scale::{HEIGHT, Scale};
use crate::title::{Bar, put_title};
use image_extents::{Extents, Kind};
use rom_fields::{ByteWrite, OutOfMemory, put, put_long_decimal};
use std::alloc::Global;

/// The class of bars of several small extents.
const SMALL: &[u8] = b"small";

/// The class of a kind.
fn class_of(kind: Kind) -> &'static [u8] {
    match kind {
        Kind::Super => b"super",
        Kind::Header => b"header",
        Kind::List => b"list",
        Kind::Table => b"table",
        Kind::Data => b"data",
    }
}

/// Bars that are drawn one after the other. Small ones that follow one another become one.
#[derive(Drop)]
pub(crate) struct Bars<'a> {
    pub alloc: Global,
    pub found: &'a Extents<'a>,
    pub base: u64,
    pub scale: Scale,
    /// Small bars that were not drawn yet.
    pub small: Option<Bar>,
}

/// Puts a number and the text after it.
fn put_with<W: ByteWrite>(w: &mut W, failed: &mut bool, number: u64, text: &[u8]) {
    put_long_decimal(w, failed, number);
    put(w, failed, text);
}

impl<'a> Bars<'a> {
    /// Draws the part of a bar that is in one row.
    fn put_part<W: ByteWrite>(
        &self,
        w: &mut W,
        failed: &mut bool,
        number: u64,
        from: u64,
        to: u64,
    ) {
        let (left, right) = (self.scale.x(from), self.scale.x(to));
        put(w, failed, b"<rect x=\"");
        put_with(w, failed, left, b"\" y=\"");
        put_with(w, failed, self.scale.y(number), b"\" width=\"");
        put_with(
            w,
            failed,
            right.saturating_sub(left).max(1),
            b"\" height=\"",
        );
        put_with(w, failed, HEIGHT, b"\"/>");
    }

    /// Draws a bar.
    fn draw<W: ByteWrite>(
        &self,
        w: &mut W,
        failed: &mut bool,
        bar: Bar,
    ) -> Result<(), OutOfMemory> {
        put(w, failed, b"<g class=\"");
        put(w, failed, bar.class);
        put(w, failed, b"\">");
        put_title(self.alloc, w, failed, self.found, self.base, bar)?;
        let row = self.scale.row.max(1);
        let (first, last) = (bar.start / row, bar.end.saturating_sub(1) / row);
        for number in first..last.saturating_add(1) {
            let begin = number.saturating_mul(row);
            let from = bar.start.saturating_sub(begin);
            let to = bar.end.saturating_sub(begin).min(row);
            self.put_part(w, failed, number, from, to);
        }
        put(w, failed, b"</g>\n");
        Ok(())
    }

    /// Draws the small bars that were not drawn yet.
    pub fn flush<W: ByteWrite>(&mut self, w: &mut W, failed: &mut bool) -> Result<(), OutOfMemory> {
        if let Some(bar) = self.small {
            self.small = None;
            self.draw(w, failed, bar)?;
        }
        Ok(())
    }

    /// Draws a bar, or keeps it if it is small.
    pub fn add<W: ByteWrite>(
        &mut self,
        w: &mut W,
        failed: &mut bool,
        bar: Bar,
    ) -> Result<(), OutOfMemory> {
        if bar.start >= bar.end {
            return Ok(());
        }
        if bar.end - bar.start >= self.scale.least() {
            self.flush(w, failed)?;
            return self.draw(w, failed, bar);
        }
        let Some(small) = self.small else {
            self.small = Some(bar);
            return Ok(());
        };
        let joined = Bar {
            class: SMALL,
            owner: None,
            count: small.count.saturating_add(bar.count),
            start: small.start,
            end: bar.end,
        };
        self.small = Some(joined);
        if joined.end.saturating_sub(joined.start) >= self.scale.least() {
            self.flush(w, failed)?;
        }
        Ok(())
    }

    /// Draws the bytes between two extents, if there are any.
    pub fn between<W: ByteWrite>(
        &mut self,
        w: &mut W,
        failed: &mut bool,
        start: u64,
        end: u64,
    ) -> Result<(), OutOfMemory> {
        let bytes = self.found.bytes;
        let to = (end as usize).min(bytes.len());
        let from = (start as usize).min(to);
        let class: &'static [u8] = if bytes[from..to].iter().all(|byte| *byte == 0) {
            b"pad"
        } else {
            b"gap"
        };
        self.add(
            w,
            failed,
            Bar {
                class,
                owner: None,
                count: 1,
                start,
                end,
            },
        )
    }

    /// Draws all extents, and the bytes between and after them.
    pub fn all<W: ByteWrite>(
        &mut self,
        w: &mut W,
        failed: &mut bool,
        file: u64,
    ) -> Result<(), OutOfMemory> {
        let found = self.found;
        let mut reach: u64 = 0;
        for x in &found.extents {
            let end = u64::from(x.start) + u64::from(x.len);
            if end <= reach {
                continue;
            }
            self.between(w, failed, reach, u64::from(x.start))?;
            let owner = if x.kind == Kind::Super {
                None
            } else {
                Some(x.owner)
            };
            self.add(
                w,
                failed,
                Bar {
                    class: class_of(x.kind),
                    owner,
                    count: 1,
                    start: u64::from(x.start),
                    end,
                },
            )?;
            reach = end;
        }
        let size = found.bytes.len() as u64;
        self.between(w, failed, reach, size)?;
        self.add(
            w,
            failed,
            Bar {
                class: b"beyond",
                owner: None,
                count: 1,
                start: size,
                end: file,
            },
        )?;
        self.flush(w, failed)
    }
}
