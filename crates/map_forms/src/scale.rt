//! Where bytes are drawn.

/// The width of a row, in units.
pub(crate) const WIDTH: u64 = 9_600;

/// The distance of rows, and the height of their bars, in units.
pub(crate) const STEP: u64 = 260;

pub(crate) const HEIGHT: u64 = 180;

/// Where the rows begin. Their addresses are to the left, and the legend is above.
pub(crate) const LEFT: u64 = 1_700;

pub(crate) const TOP: u64 = 900;

/// The most rows, and the fewest bytes in one.
const MOST_ROWS: u64 = 32;

const LEAST_ROW: u64 = 4_096;

/// The number of bars of the least width that fit into a row.
const BARS: u64 = 96;

/// The bytes of a row, and the number of rows.
#[derive(Clone, Copy)]
pub(crate) struct Scale {
    pub row: u64,
    pub rows: u64,
}

impl Scale {
    /// Returns the scale for this number of bytes. A row has the least power of two of bytes with
    /// which there are not too many rows.
    pub fn of(size: u64) -> Scale {
        let mut row = LEAST_ROW;
        for _ in 0..50 {
            if row.saturating_mul(MOST_ROWS) < size {
                row = row.saturating_mul(2);
            }
        }
        let row = row.max(1);
        Scale {
            row,
            rows: (size / row).saturating_add(1),
        }
    }

    /// Returns the number of bytes of the least bar.
    pub fn least(&self) -> u64 {
        (self.row / BARS).max(1)
    }

    /// Returns where in its row the byte at an offset is drawn, in units.
    pub fn x(&self, within: u64) -> u64 {
        LEFT + within.min(self.row).saturating_mul(WIDTH) / self.row.max(1)
    }

    /// Returns where the row of this number is drawn, in units.
    pub fn y(&self, number: u64) -> u64 {
        TOP.saturating_add(number.saturating_mul(STEP))
    }

    /// Returns the distance of the marks at multiples of 4,096 bytes: 4,096, or the least multiple
    /// of it at which a mark has enough room.
    pub fn mark(&self) -> u64 {
        let mut mark: u64 = 4_096;
        for _ in 0..50 {
            if mark.saturating_mul(WIDTH) < self.row.saturating_mul(48) {
                mark = mark.saturating_mul(2);
            }
        }
        mark
    }
}
