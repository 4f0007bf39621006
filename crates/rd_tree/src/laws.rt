//! Laws of the definitions, for the layers above.
ghost use Rattle.std.specs.Prelude.{ℕ, ◌≡◌, ◌==◌, ◌≤◌, Bool, true, false, ◌-◌, map, is_some, slice_get, Some, List, All};
ghost use Rattle.std.specs.Int.{from_bool};
ghost use Rattle.rd_base.specs.Cells.{AreColoured};
ghost use Rattle.rd_base.specs.Glyphs.{IsRowAfter};
ghost use Rattle.rd_base.specs.declared.cell.Cell.{Cell};
ghost use Rattle.rd_tree.specs.declared.placed.Placed.{Placed};
ghost use Rattle.rd_tree.specs.declared.rect.Rect.{Rect};
ghost use Rattle.rd_tree.specs.declared.side.Side.{Side};
ghost use Rattle.rd_tree.specs.Windows.{Windows, Window, HasRoom, NeedsMet, fits, placed, leaves, window_at, holds, halves, split_at, with_mode, with_margins, is_single, sibling, removed, resized, times};
ghost use Rattle.rd_tree.specs.Calls.{TreeLaws};
ghost use Rattle.rd_tree.specs.Compositions.{composed, cell_at, HasSize, FillTheirRectangles, IsHeld};
ghost use Rattle.rd_tree.specs.Places.{lies_in, windows_with, AllHaveRoom, StandsIn, in_place_of, without, is_among, shared_place};

/// The opening is a valid tree, and each call that is not refused leaves a valid tree valid. The call does nothing.
pub fn calls_keep_trees()
    ensures { TreeLaws }
{}

/// Where each window has room, each cell of the rectangle that they share lies in exactly one of them, and no other cell in any.
/// Each window lies in the rectangle and has the columns and rows that it needs. The leaves are the windows' numbers in order, a window is
/// found exactly where its number is among them, and it is the one in its leaf's place. The call does nothing.
pub fn windows_tile_their_rectangle()
    ensures cells { (windows : Windows) (rect : Rect) → HasRoom windows rect → (column row : ℕ) → windows_with column row (placed windows rect) ≡ from_bool (lies_in column row rect) }
    ensures room { (windows : Windows) (rect : Rect) → HasRoom windows rect → AllHaveRoom (placed windows rect) }
    ensures inside { (number : ℕ) (windows : Windows) (rect : Rect) (window : Placed) → HasRoom windows rect → window_at number windows rect ≡ Some window → StandsIn window rect }
    ensures listed { (windows : Windows) (rect : Rect) → map (λ window. window.number) (placed windows rect) ≡ leaves windows }
    ensures in_order { (windows : Windows) (rect : Rect) (i number : ℕ) → ((n : ℕ) → times n windows ≤ 1) → slice_get (leaves windows) i ≡ Some number → window_at number windows rect ≡ slice_get (placed windows rect) i }
    ensures found { (number : ℕ) (windows : Windows) (rect : Rect) → is_some (window_at number windows rect) ≡ is_among number (leaves windows) }
{}

/// Windows have room in a rectangle only where it meets their needs, and where it does they can share it. Sharing the same
/// rectangle anew changes nothing, and the order stays. Whether a split, a mode line or margins leave room is a matter of the window's
/// own rectangle alone. The call does nothing.
pub fn needs_are_exact()
    ensures true_of_room { (windows : Windows) (rect : Rect) → HasRoom windows rect → fits windows rect ≡ true }
    ensures room_of_true { (windows : Windows) (rect : Rect) → fits windows rect ≡ true → HasRoom windows rect }
    ensures split { (number : ℕ) (side : Side) (size new : ℕ) (windows : Windows) (rect : Rect) (window : Placed) → HasRoom windows rect → window_at number windows rect ≡ Some window → fits (split_at number side size new windows) rect ≡ fits (halves number side size new window.mode window.margins) window.rect }
    ensures mode { (number : ℕ) (shown : Bool) (windows : Windows) (rect : Rect) (window : Placed) → HasRoom windows rect → window_at number windows rect ≡ Some window → fits (with_mode number shown windows) rect ≡ fits (Window number shown window.margins) window.rect }
    ensures margins { (number columns : ℕ) (windows : Windows) (rect : Rect) (window : Placed) → HasRoom windows rect → window_at number windows rect ≡ Some window → fits (with_margins number columns windows) rect ≡ fits (Window number window.mode columns) window.rect }
    ensures needed { (windows : Windows) (rect : Rect) → HasRoom windows rect → NeedsMet windows rect }
    ensures enough { (windows : Windows) (old rect : Rect) → HasRoom windows old → NeedsMet windows rect → HasRoom (resized windows rect) rect }
    ensures same { (windows : Windows) (rect : Rect) → HasRoom windows rect → resized windows rect ≡ windows }
    ensures order { (windows : Windows) (rect : Rect) → leaves (resized windows rect) ≡ leaves windows }
{}

/// A split, a mode line and margins leave each other window where it is. A removal takes one number away, leaves each window that is not in
/// the sibling where it is, and lets the sibling share the rectangle that it had with the removed window. The call does nothing.
pub fn other_windows_stay()
    ensures split { (number : ℕ) (side : Side) (size new : ℕ) (windows : Windows) (rect : Rect) → placed (split_at number side size new windows) rect ≡ in_place_of number (λ window. placed (halves number side size new window.mode window.margins) window.rect) (placed windows rect) }
    ensures mode { (number : ℕ) (shown : Bool) (windows : Windows) (rect : Rect) → placed (with_mode number shown windows) rect ≡ in_place_of number (λ window. placed (Window number shown window.margins) window.rect) (placed windows rect) }
    ensures margins { (number columns : ℕ) (windows : Windows) (rect : Rect) → placed (with_margins number columns windows) rect ≡ in_place_of number (λ window. placed (Window number window.mode columns) window.rect) (placed windows rect) }
    ensures removed { (number : ℕ) (windows : Windows) (rect : Rect) → times number windows ≤ 1 → holds number windows ≡ true → is_single windows ≡ false → leaves (removed number windows rect) ≡ without number (leaves windows) }
    ensures others { (other number : ℕ) (windows : Windows) (rect : Rect) → (other == number) ≡ false → holds other (sibling number windows) ≡ false → window_at other (removed number windows rect) rect ≡ window_at other windows rect }
    ensures sibling { (other number : ℕ) (windows : Windows) (rect : Rect) → times other windows ≤ 1 → holds other (sibling number windows) ≡ true → window_at other (removed number windows rect) rect ≡ window_at other (resized (sibling number windows) (shared_place number windows rect)) (shared_place number windows rect) }
{}

/// The rows of a frame are those of its windows: each cell is that of the window that holds it, at its place in the window's rectangle.
/// They fill the rectangle where each window's rows fill the window's, each glyph stands whole and each colour is in its range where
/// they are in each window's rows, and nothing but the rows of the windows counts. The call does nothing.
pub fn frames_are_composed()
    ensures size { (rows_of : Placed → List (List Cell)) (windows : Windows) (rect : Rect) → HasRoom windows rect → FillTheirRectangles rows_of (placed windows rect) → HasSize rect.width rect.height (composed rows_of windows rect) }
    ensures cell { (rows_of : Placed → List (List Cell)) (windows : Windows) (rect : Rect) (column row i : ℕ) (window : Placed) → HasRoom windows rect → FillTheirRectangles rows_of (placed windows rect) → slice_get (placed windows rect) i ≡ Some window → lies_in column row window.rect ≡ true → cell_at (column - rect.x) (row - rect.y) (composed rows_of windows rect) ≡ cell_at (column - window.rect.x) (row - window.rect.y) (rows_of window) }
    ensures held { (windows : Windows) (rect : Rect) (column row : ℕ) → HasRoom windows rect → lies_in column row rect ≡ true → IsHeld column row (placed windows rect) }
    ensures whole { (rows_of : Placed → List (List Cell)) (windows : Windows) (rect : Rect) → All (λ window. All (IsRowAfter 0) (rows_of window)) (placed windows rect) → All (IsRowAfter 0) (composed rows_of windows rect) }
    ensures coloured { (rows_of : Placed → List (List Cell)) (windows : Windows) (rect : Rect) → All (λ window. AreColoured (rows_of window)) (placed windows rect) → AreColoured (composed rows_of windows rect) }
    ensures same { (rows_of others : Placed → List (List Cell)) (windows : Windows) (rect : Rect) → All (λ window. rows_of window ≡ others window) (placed windows rect) → composed rows_of windows rect ≡ composed others windows rect }
{}
