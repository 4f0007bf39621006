//! A window with its place.
ghost use Rattle.std.specs.Prelude.{◌≡◌, ◌&&◌, nat_le};
ghost use Rattle.rd_tree.specs.Windows.{Window, Split, columns_for, rows_for, fits};

use crate::rect::Rect;
use crate::side::Side;
use rd_base::limits::LEAST_WINDOW_COLUMNS;

/// A window that lives: its number, whether it shows a mode line, the columns of its margins, and its rectangle.
#[derive(Clone, Copy, Debug, PartialEq, Eq)]
pub struct Placed {
    pub number: u32,
    pub mode: bool,
    pub margins: u32,
    pub rect: Rect,
}

/// How many rows a window needs: one of text, and one more for a mode line.
pub(crate) fn rows_for(mode: bool) -> u32
    ensures { result ≡ rows_for mode }
{
    if mode { 2 } else { 1 }
}

/// Whether so many columns are enough for a window and its margins.
fn takes_margins(margins: u32, columns: u32) -> bool
    ensures { result ≡ nat_le (columns_for margins) columns }
{
    LEAST_WINDOW_COLUMNS <= columns && margins <= columns - LEAST_WINDOW_COLUMNS
}

impl Placed {
    /// Whether so many columns and rows are enough for the window.
    fn is_enough(&self, columns: u32, rows: u32) -> bool
        ensures { result ≡ (nat_le (columns_for self.now.margins) columns && nat_le (rows_for self.now.mode) rows) }
    {
        takes_margins(self.margins, columns) && rows_for(self.mode) <= rows
    }

    /// Whether the window has room in its rectangle.
    pub(crate) fn has_room(&self) -> bool
        ensures { result ≡ fits (Window self.now.number self.now.mode self.now.margins) self.now.rect }
    {
        self.is_enough(self.rect.width, self.rect.height)
    }

    /// Whether this window and a new one have room where it is split.
    pub(crate) fn takes_split(&self, side: Side, size: u32) -> bool
        ensures { result ≡ fits (Split side size (Window self.now.number self.now.mode self.now.margins) (Window 0 self.now.mode self.now.margins)) self.now.rect }
    {
        let Rect { width, height, .. } = self.rect;
        match side {
            Side::Below => {
                self.is_enough(width, size) && self.is_enough(width, height.saturating_sub(size))
            }
            Side::Right => {
                self.is_enough(size, height) && self.is_enough(width.saturating_sub(size), height)
            }
        }
    }
}
