//! What holds of all frames.
ghost use Rattle.std.specs.Prelude.{ℕ, ◌≡◌, ◌+◌, ◌≤◌, ◌∷◌, [], List, All, Option, Some, None, length, map, slice_get};
ghost use Rattle.rd_base.specs.Cells.{AreColoured, IsColoured};
ghost use Rattle.rd_base.specs.Glyphs.{IsRowAfter};
ghost use Rattle.rd_base.specs.declared.cell.Cell.{Cell};
ghost use Rattle.rd_base.specs.declared.cell.Glyph.{Glyph};
ghost use Rattle.rd_matrix.specs.Entries.{EntryMeaning, shown_entries};
ghost use Rattle.rd_matrix.specs.declared.matrix.Entry.{Entry};
ghost use Rattle.rd_rows.specs.Whole.{IsMark};
ghost use Rattle.rd_term.specs.Pictures.{IsGrid, IsOfSize, IsWellFormed};
ghost use Rattle.rd_tree.specs.Calls.{frame_of};
ghost use Rattle.rd_tree.specs.Compositions.{composed, HasSize, FillTheirRectangles};
ghost use Rattle.rd_tree.specs.Windows.{Windows, HasRoom, placed, window_at, columns_for, rows_for};
ghost use Rattle.rd_tree.specs.declared.placed.Placed.{Placed};
ghost use Rattle.rd_tree.specs.declared.rect.Rect.{Rect};
ghost use Rattle.rd_frame.specs.Panes.{PaneValues, border_cell, window_rows};
ghost use Rattle.rd_frame.specs.Frames.{FrameValues, rows_of, frame_rows, frame_picture};
ghost use Rattle.rd_frame.specs.Held.{glyph_rows, glyph_row};
ghost use Rattle.rd_frame.specs.Fits.{FitsWindow, FitsFrame, EachPart, IsWholeFrame, IsColouredFrame};
ghost use Rattle.rd_frame.specs.Paints.{with_rectangle, painted, with_echo};
ghost use Rattle.rd_frame.specs.OneByOne.{IsPaintedNext};

/// The rows of a window fill its rectangle, where what it shows has the rectangle's sizes. In each row each glyph stands whole where
/// each does in the parts, and each colour is in its range where each is in the parts. The call does nothing.
pub fn windows_fill_their_rectangles()
    ensures size { (width : ℕ) (pane : PaneValues) (window : Placed) → columns_for window.margins ≤ window.rect.width → rows_for window.mode ≤ window.rect.height → FitsWindow width pane window → HasSize window.rect.width window.rect.height (window_rows width pane window) }
    ensures whole { (width : ℕ) (pane : PaneValues) (window : Placed) → EachPart (IsRowAfter 0) pane window → All (IsRowAfter 0) (window_rows width pane window) }
    ensures coloured { (width : ℕ) (pane : PaneValues) (window : Placed) → EachPart (All IsColoured) pane window → AreColoured (window_rows width pane window) }
{}

/// The cell of a border stands whole where the slot is a mark of one column, as a vertical bar is, and its colours are in their range.
/// The call does nothing.
pub fn borders_are_whole()
    ensures bar { IsRowAfter 0 (border_cell None ∷ []) }
    ensures slot { (slot : Glyph) → IsMark slot → IsRowAfter 0 (border_cell (Some slot) ∷ []) }
    ensures coloured { (slot : Option Glyph) → All IsColoured (border_cell slot ∷ []) }
{}

/// The target screen of a frame has the frame's columns and rows, with its cursor on it. It is well formed where each glyph stands
/// whole in each part that the frame shows, and coloured where each of these is. The call does nothing.
pub fn frames_are_pictures()
    ensures size { (f : FrameValues) → FitsFrame f → IsOfSize f.tree.width (f.tree.height + 1) (frame_picture f) }
    ensures whole { (f : FrameValues) → FitsFrame f → IsWholeFrame f → IsWellFormed (frame_picture f) }
    ensures coloured { (f : FrameValues) → IsColouredFrame f → AreColoured (frame_rows f) }
{}

/// Windows that are painted one after the other, in their order, over the rows of a screen show there what they compose. Where they
/// fill all of its rows but the last, and the echo area is painted too, the screen is that of the frame, whatever it was before. The
/// call does nothing.
pub fn windows_are_painted_in_order()
    ensures composed { (rows_of : Placed → List (List Cell)) (windows : Windows) (rect : Rect) (width : ℕ) (rows : List (List Cell)) → HasRoom windows rect → FillTheirRectangles rows_of (placed windows rect) → IsGrid width rows → rect.x + rect.width ≤ width → painted rows_of (placed windows rect) rows ≡ with_rectangle rect (composed rows_of windows rect) rows }
    ensures rows { (f : FrameValues) (rows : List (List Cell)) → FitsFrame f → HasSize f.tree.width (f.tree.height + 1) rows → with_echo f.echo (painted (rows_of f) (placed f.tree.windows (frame_of f.tree)) rows) ≡ frame_rows f }
{}

/// Where some windows of a frame are still to be painted over the rows of a screen, from a place of their order on, the window at that
/// place can be painted, and leaves those behind it. The call does nothing.
pub fn windows_are_painted_one_by_one()
    ensures { (f : FrameValues) (i number : ℕ) (window : Placed) (rows : List (List Cell)) → FitsFrame f → HasSize f.tree.width (f.tree.height + 1) rows → window_at number f.tree.windows (frame_of f.tree) ≡ Some window → slice_get (placed f.tree.windows (frame_of f.tree)) i ≡ Some window → IsPaintedNext f i window rows }
{}

/// The glyph rows of a matrix are those of what is seen of its rows, where a list has the margins of each, and where the rows have no
/// margins and there is no list. The call does nothing.
pub fn panes_show_their_matrix()
    ensures margins { (margin_of : EntryMeaning → List Cell) (es : List Entry) → glyph_rows (map margin_of (shown_entries es)) es ≡ map (glyph_row margin_of) (shown_entries es) }
    ensures none { (margin_of : EntryMeaning → List Cell) (es : List Entry) → All (λ e. length (margin_of e) ≡ 0) (shown_entries es) → glyph_rows [] es ≡ map (glyph_row margin_of) (shown_entries es) }
{}
