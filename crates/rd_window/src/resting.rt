//! Whether the last layout of a window is still right.
ghost use Rattle.std.specs.Prelude.{◌≡◌, if◌then◌else◌};
ghost use Rattle.rd_start.specs.Starts.{margin_of};

use crate::layout::{Layout, TextEnds};
use rd_base::Anchor;
use rd_matrix::Matrix;
use rd_rows::Shape;
use rd_start::{Chosen, Wanted, is_inside, margin_of};

impl Layout {
    ghost use Rattle.std.specs.Prelude.{◌≡◌, ◌<◌, Some, [], length};
    ghost use Rattle.rd_matrix.specs.Blocks.{IsWithin};
    ghost use Rattle.rd_matrix.specs.Entries.{shown_entries};
    ghost use Rattle.rd_matrix.specs.Sources.{SourceValues};
    ghost use Rattle.rd_rows.specs.Shapes.{IsShape};
    ghost use Rattle.rd_start.specs.Chosen.{anchor_at, places_of};
    ghost use Rattle.rd_start.specs.Starts.{suits};
    ghost use Rattle.rd_window.specs.Layouts.{IsSourceOf, Stands, StandsUnchanged, is_current, older_rows, rests};

    /// Whether this is still a window's layout, whose start suits point: then the cursor alone moves. It reads no source,
    /// takes no step and no memory.
    pub(crate) fn rests(&self, ends: TextEnds, shape: Shape, wanted: Wanted) -> bool
        ensures { (m : SourceValues) → IsSourceOf ends m → IsWithin wanted.point m.blocks → StandsUnchanged (Some self.now) m wanted.forced wanted.anchor
            → result ≡ rests (Some self.now) m shape wanted }
    {
        if !self.is_current(shape, wanted) {
            return false;
        }
        self.suits(ends, wanted)
    }

    /// Whether nothing changed since, the start was not set by command, and the window has the layout's shape, height and ways of
    /// scrolling.
    fn is_current(&self, shape: Shape, wanted: Wanted) -> bool
        ensures { result ≡ is_current self.now shape wanted }
    {
        self.change.is_none()
            && !wanted.forced
            && self.shape.is_same(shape)
            && self.height == wanted.height
            && self.margin == wanted.margin
            && self.conservatively == wanted.conservatively
    }

    /// Whether point is in view, and as far from the view's edges as is wanted.
    fn suits(&self, ends: TextEnds, wanted: Wanted) -> bool
        ensures { (m : SourceValues) → IsSourceOf ends m → IsShape self.now.shape → IsWithin wanted.point m.blocks → self.now.height ≡ wanted.height → Stands m wanted.anchor self.now
            → result ≡ suits wanted (places_of m self.now.shape wanted) (places_of m self.now.shape wanted).old }
    {
        let Some((row, _)) = self.matrix.cursor(wanted.point) else {
            return false;
        };
        let above = wanted_beside(self.has_first_row(ends.begin), wanted);
        let below = wanted_beside(self.has_last_row(ends.end), wanted);
        is_inside(
            wanted.height as usize,
            above as usize,
            below as usize,
            0,
            row as usize,
        )
    }

    /// The layout's rows, where it has this shape, and else those of another matrix, which has none.
    pub(crate) fn rows_at<'a>(&'a self, none: &'a Matrix, shape: Shape) -> &'a Matrix
        requires { none.now ≡ [] }
        ensures { result.now ≡ older_rows (Some self.now) shape }
    {
        if self.shape.is_same(shape) {
            &self.matrix
        } else {
            none
        }
    }

    /// The layout's start, and point as it is wanted.
    pub(crate) fn chosen(&self, wanted: Wanted) -> Chosen
        requires { 0 < length self.now.matrix }
        ensures { result ≡ record { anchor = anchor_at (shown_entries self.now.matrix) 0; point = wanted.point } }
    {
        let first = self.matrix.entry(0);
        Chosen {
            anchor: Anchor {
                pos: first.start,
                row: first.number,
            },
            point: wanted.point,
        }
    }
}

/// The rows that are wanted between point's and an edge of the view: none where the text goes no further there.
fn wanted_beside(all: bool, wanted: Wanted) -> u32
    ensures { result ≡ (if all then 0 else margin_of wanted) }
{
    if all { 0 } else { margin_of(wanted) }
}
