//! The last layout of a window.
ghost use Rattle.std.specs.Prelude.{◌≡◌};
ghost use Rattle.rd_matrix.specs.Entries.{shown_entries};
ghost use Rattle.rd_window.specs.Views.{shows_at, starts_at};

use rd_base::Pos;
use rd_matrix::Matrix;
use rd_reuse::Change;
use rd_rows::Shape;

/// Where a text begins and ends: its first position, and that of its end.
#[derive(Clone, Copy)]
pub struct TextEnds {
    pub begin: Pos,
    pub end: Pos,
}

/// The rows that a window showed at its last redisplay; by which shape, in how many rows, and with which margin and distance of
/// scrolling they were laid out; and what changed since.
#[derive(Drop)]
pub struct Layout {
    pub matrix: Matrix,
    pub shape: Shape,
    pub height: u32,
    pub margin: u32,
    pub conservatively: u32,
    pub change: Change,
}

impl Layout {
    /// Whether it has the first row of a text that begins at a position: whether its rows begin with row 0 of the block that starts there.
    pub fn has_first_row(&self, begin: Pos) -> bool
        ensures { result ≡ starts_at begin (shown_entries self.now.matrix) }
    {
        match self.matrix.as_slice() {
            [] => false,
            [first, ..] => first.start == begin && first.number == 0,
        }
    }

    /// Whether it has the last row of a text that ends at a position: whether the item that covers that position begins in one of its rows.
    pub fn has_last_row(&self, end: Pos) -> bool
        ensures { result ≡ shows_at end (shown_entries self.now.matrix) }
    {
        self.matrix.shows(end)
    }
}
