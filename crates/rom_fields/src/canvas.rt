//! Windows into a buffer that do not overlap, for callers that lay an image out in memory of their
//! own. The writers of this project stream, and do not use it.
ghost use Rattle.std.specs.Prelude.{◌≡◌, ◌+◌, ◌≤◌, length, take, drop};

use std::marker::Model;
use std::mem;

/// Cuts a slice into its first `gap` bytes, the `len` bytes behind them, and the rest.
fn cut(whole: &mut [u8], gap: usize, len: usize) -> (&mut [u8], &mut [u8], &mut [u8])
    requires { gap + len ≤ length whole.old }
    ensures gap { result.0.now ≡ take gap whole.old }
    ensures window { result.1.now ≡ take len (drop gap whole.old) }
    ensures rest { result.2.now ≡ drop (gap + len) whole.old }
{
    let (before, from_gap) = whole.split_at_mut(gap);
    let (window, rest) = from_gap.split_at_mut(len);
    (before, window, rest)
}

/// A buffer from which windows are taken, each behind the one before.
#[derive(Drop)]
pub struct Canvas<'b> {
    rest: &'b mut [u8],
    at: usize,
    end: usize,
}

impl<'b> Model for Canvas<'b> {
    ghost use Rattle.std.specs.Prelude.{◌≡◌, ◌+◌, length};
    ghost use Rattle.rom_fields.specs.Canvases.{Left};

    ghost Value = { Left };

    ghost view = { λ c. record { at = c.at; bytes = c.rest.now } };

    ghost invariant = { λ c. c.at + length c.rest.now ≡ c.end };
}

impl<'b> Canvas<'b> {
    ghost use Rattle.std.specs.Prelude.{◌≡◌, ◌↔◌, IsSome, IfSome, IfNone};
    ghost use Rattle.rom_fields.specs.Canvases.{LiesIn, window, behind};

    /// Makes a canvas of the whole buffer, from which nothing was taken.
    pub fn new(buffer: &'b mut [u8]) -> Canvas<'b>
        ensures at { result.at ≡ 0 }
        ensures bytes { result.bytes ≡ buffer.old }
    {
        let end = buffer.len();
        Canvas {
            rest: buffer,
            at: 0,
            end,
        }
    }

    /// Takes the `len` bytes from `start` on. Returns `None`, and changes nothing, if some of them
    /// are before the end of the last window or behind the end of the buffer.
    pub fn take(&mut self, start: usize, len: usize) -> Option<&'b mut [u8]>
        ensures some { IsSome result ↔ LiesIn self.old start len }
        ensures window { IfSome result (λ w. w.now ≡ window self.old start len) }
        ensures behind { IfSome result (λ w. self.new ≡ behind self.old start len) }
        ensures none { IfNone result (self.new ≡ self.old) }
    {
        if start < self.at || self.end < start || self.end - start < len {
            return None;
        }
        let gap = start - self.at;
        let rest = mem::take(&mut self.rest);
        let (_, window, rest) = cut(rest, gap, len);
        self.rest = rest;
        self.at = start + len;
        Some(window)
    }
}
