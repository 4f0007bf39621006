//! Whether arguments are in the ranges of the ops' fields.
ghost use Rattle.std.specs.Prelude.{◌≡◌, ◌≤◌, ◌<◌, ◌&&◌, nat_le, nat_lt, IsTrue, pos};
ghost use Rattle.rd_base.specs.declared.limits.TheConstants.{SCROLL_ROWS};
ghost use Rattle.rd_script.specs.Numbers.{is_near_zero};
ghost use Rattle.rd_embed.specs.Asked.{are_margins, is_frame, is_place, is_scrolling};

use rd_base::limits::{
    FRAME_COLUMNS, FRAME_ROWS, LEAST_FRAME_COLUMNS, LEAST_FRAME_ROWS, NUMBER_COLUMNS, PRIORITY,
    SCROLL_CONSERVATIVELY, SCROLL_MARGIN, SCROLL_ROWS, STRING_COLUMNS,
};

/// Whether a frame may have so many columns and rows.
pub(crate) fn is_frame(width: u32, height: u32) -> bool
    ensures value { result ≡ is_frame width height }
    ensures form { IsTrue result → (LEAST_FRAME_COLUMNS ≤ width) × (width ≤ FRAME_COLUMNS) × (LEAST_FRAME_ROWS ≤ height) × (height ≤ FRAME_ROWS) }
{
    is_between(LEAST_FRAME_COLUMNS, FRAME_COLUMNS, width)
        && is_between(LEAST_FRAME_ROWS, FRAME_ROWS, height)
}

/// Whether a number lies between two others, both included.
fn is_between(least: u32, most: u32, number: u32) -> bool
    ensures { result ≡ (nat_le least number && nat_le number most) }
{
    least <= number && number <= most
}

/// Whether a frame may have a cell at this row and column.
pub(crate) fn is_place(row: u32, column: u32) -> bool
    ensures value { result ≡ is_place row column }
    ensures form { IsTrue result → (row < FRAME_ROWS) × (column < FRAME_COLUMNS) }
{
    row < FRAME_ROWS && column < FRAME_COLUMNS
}

/// Whether a window may have margins of so many columns.
pub(crate) fn are_margins(numbers: u32, strings: u32) -> bool
    ensures value { result ≡ are_margins numbers strings }
    ensures form { IsTrue result → (numbers ≤ NUMBER_COLUMNS) × (strings ≤ STRING_COLUMNS) }
{
    numbers <= NUMBER_COLUMNS && strings <= STRING_COLUMNS
}

/// Whether these may be the scroll margin and the rows up to which a view is scrolled.
pub(crate) fn is_scrolling(margin: u32, conservatively: u32) -> bool
    ensures value { result ≡ is_scrolling margin conservatively }
    ensures form { IsTrue result → (margin ≤ SCROLL_MARGIN) × (conservatively ≤ SCROLL_CONSERVATIVELY) }
{
    margin <= SCROLL_MARGIN && conservatively <= SCROLL_CONSERVATIVELY
}

/// Whether an op may scroll by so many rows.
pub(crate) fn is_scroll(rows: i32) -> bool
    ensures { result ≡ is_near_zero (pos SCROLL_ROWS) rows }
{
    -(SCROLL_ROWS as i32) <= rows && rows <= SCROLL_ROWS as i32
}

/// Whether an overlay may have this priority.
pub(crate) fn is_priority(priority: i32) -> bool
    ensures { result ≡ is_near_zero PRIORITY priority }
{
    -PRIORITY <= priority && priority <= PRIORITY
}
