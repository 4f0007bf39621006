//! Worked examples. They have no body: what they promise is computed from the definitions.
ghost use Rattle.std.specs.Prelude.{◌≡◌, ◌∷◌, [], true, false, map, None, Some};
ghost use Rattle.rd_reuse.specs.Changes.{edit, none};
ghost use Rattle.rd_rows.specs.Examples.{twelve_truncated};
ghost use Rattle.rd_start.specs.Examples.{window};
ghost use Rattle.rd_window.specs.Examples.{copies_kept, two_lines_and, three_rows};
ghost use Rattle.rd_window.specs.Layouts.{allowance, older_rows, rests};

/// The lines `a`, `b` and `c` in a window of three rows: at first each is laid out, then none is, and after `x` was put before `c` the
/// third one alone is.
fn three_lines_laid_out_again()
    ensures first { allowance None (two_lines_and 2) twelve_truncated (window 3 1 1) ≡ 18 }
    ensures again { allowance (Some (three_rows none)) (two_lines_and 2) twelve_truncated (window 3 1 1) ≡ 0 }
    ensures longer { allowance (Some (three_rows (edit 5 0 1))) (two_lines_and 3) twelve_truncated (window 3 1 1) ≡ 9 }
{}

/// The cursor moves alone while nothing changed and its row is in view, and not with another margin, after an edit, or where the start
/// was set.
fn when_the_cursor_moves_alone()
    ensures stays { rests (Some (three_rows none)) (two_lines_and 2) twelve_truncated (window 3 1 5) ≡ true }
    ensures margin { rests (Some (three_rows none)) (two_lines_and 2) twelve_truncated (record (window 3 1 5) { margin = 1 }) ≡ false }
    ensures edited { rests (Some (three_rows (edit 5 0 1))) (two_lines_and 3) twelve_truncated (window 3 1 5) ≡ false }
    ensures forced { rests (Some (three_rows none)) (two_lines_and 2) twelve_truncated (record (window 3 1 5) { forced = true }) ≡ false }
{}

/// The rows of the three lines are copied by no window that rests. Once the third line changed, the other two keep theirs, which were
/// then copied once, and the third one is laid out anew.
fn how_often_rows_were_copied()
    ensures resting { map (λ e. e.row.copies) (older_rows (Some (three_rows none)) twelve_truncated) ≡ 0 ∷ 0 ∷ 0 ∷ [] }
    ensures edited { map (copies_kept (edit 5 0 1)) (two_lines_and 3).blocks ≡ (1 ∷ []) ∷ (1 ∷ []) ∷ [] ∷ [] }
{}

/// A window with another margin, or that may be scrolled farther, does not rest, and yet no row is laid out: each block keeps its own.
fn another_margin_costs_nothing()
    ensures margin { allowance (Some (three_rows none)) (two_lines_and 2) twelve_truncated (record (window 3 1 5) { margin = 1 }) ≡ 0 }
    ensures conservatively { allowance (Some (three_rows none)) (two_lines_and 2) twelve_truncated (record (window 3 1 5) { conservatively = 1 }) ≡ 0 }
{}
