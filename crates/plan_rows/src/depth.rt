//! The depth of rows.
ghost use Rattle.std.specs.Prelude.{◌≡◌, map};
ghost use Rattle.plan_rows.specs.Rows.{deepest, row_view};

use crate::row::Row;
use std::cmp::max;

/// Returns the greatest depth of a row, or 0 if there is no row.
pub fn deepest(rows: &[Row<'_>]) -> usize
    ensures { result ≡ deepest (map row_view rows.now) }
{
    let mut depth = 0;
    for row in rows {
        depth = max(depth, row.depth);
    }
    depth
}
