//! The definitions on worked examples.
ghost use Rattle.std.specs.Prelude.{◌≡◌, true, false, ◌∷◌, [], map, pos, negsuc};
ghost use Rattle.rd_base.specs.Lists.{is_between};
ghost use Rattle.rd_matrix.specs.Rows.{blocks_with};
ghost use Rattle.rd_reuse.specs.Changes.{none, all, edit, join};
ghost use Rattle.rd_reuse.specs.Examples.{block, row, older, older_lines, longer_lines, two_letters_and, three_letters};
ghost use Rattle.rd_reuse.specs.Keeping.{fresh_cost, is_kept, kept_source, taken};
ghost use Rattle.rd_reuse.specs.Views.{fresh_costs};
ghost use Rattle.rd_rows.specs.Examples.{twelve_continued};

/// Two characters are put at a position, three removed, and a range changes its properties. Behind the last position no tail
/// stands.
fn edits()
    ensures put { edit 1 0 2 ≡ record { head = 1; tail = 4; added = pos 2 } }
    ensures removed { edit 5 3 0 ≡ record { head = 5; tail = 6; added = negsuc 2 } }
    ensures changed { edit 7 4 4 ≡ record { head = 7; tail = 12; added = pos 0 } }
    ensures behind { edit 4294967294 0 1 ≡ all }
{}

/// A character put at 9, and later one at 3: what ends before 3 stands, and what starts at 12 or later. The other way round it
/// starts at 11 or later.
fn combined_edits()
    ensures before { join (edit 9 0 1) (edit 3 0 1) ≡ record { head = 3; tail = 12; added = pos 2 } }
    ensures behind { join (edit 3 0 1) (edit 9 0 1) ≡ record { head = 3; tail = 11; added = pos 2 } }
    ensures inside { join (edit 9 0 1) (edit 3 20 0) ≡ record { head = 3; tail = 4; added = negsuc 18 } }
    ensures none_first { join none (edit 5 3 0) ≡ edit 5 3 0 }
    ensures none_last { join (edit 5 3 0) none ≡ edit 5 3 0 }
    ensures all_first { join all (edit 5 3 0) ≡ all }
    ensures all_last { join (edit 5 3 0) all ≡ all }
    ensures behind_all { join (edit 4294967290 0 1) (edit 1 0 5) ≡ all }
{}

/// A character was put into the second of three lines: the first keeps its row, and so does the third, which was moved.
fn an_edit_in_a_middle_line()
    ensures kept { map (is_kept older_lines (edit 6 0 1)) longer_lines.blocks ≡ true ∷ false ∷ true ∷ [] }
    ensures taken { taken older_lines (edit 6 0 1) 22 ≡ record { shown = row false true; copies = 3 } ∷ [] }
    ensures costs { map (fresh_cost longer_lines older_lines (edit 6 0 1) twelve_continued) longer_lines.blocks ≡ 0 ∷ 17 ∷ 0 ∷ [] }
    ensures view { fresh_costs longer_lines older_lines (edit 6 0 1) twelve_continued 0 4 ≡ 17 }
    ensures last { fresh_costs longer_lines older_lines (edit 6 0 1) twelve_continued 3 4 ≡ 0 }
{}

/// With no change all three lines keep their rows, after a change of the first character the two behind it, after one of the last
/// line the two before, and where anything may have changed none.
fn edits_before_and_behind()
    ensures none { map (is_kept older_lines none) (block 1 5 0 ∷ block 5 21 0 ∷ block 21 24 0 ∷ []) ≡ true ∷ true ∷ true ∷ [] }
    ensures first { map (is_kept older_lines (edit 1 1 1)) (block 1 5 0 ∷ block 5 21 0 ∷ block 21 24 0 ∷ []) ≡ false ∷ true ∷ true ∷ [] }
    ensures last { map (is_kept older_lines (edit 22 0 1)) (block 1 5 0 ∷ block 5 21 0 ∷ block 21 25 0 ∷ []) ≡ true ∷ true ∷ false ∷ [] }
    ensures all { map (is_kept older_lines all) (block 1 5 0 ∷ block 5 21 0 ∷ block 21 24 0 ∷ []) ≡ false ∷ false ∷ false ∷ [] }
{}

/// A line whose newline stands just before the edit keeps its rows, and one whose newline was edited does not. A line that starts
/// one position before the tail does not, since a string could have moved to its first position; one that starts at the tail does.
fn lines_at_the_edges_of_a_change()
    ensures head { is_kept older_lines (edit 5 0 0) (block 1 5 0) ≡ true }
    ensures before { is_kept older_lines (edit 4 1 1) (block 1 5 0) ≡ false }
    ensures one_short { is_kept older_lines (edit 20 1 1) (block 21 24 0) ≡ false }
    ensures tail { is_kept older_lines (edit 19 1 1) (block 21 24 0) ≡ true }
{}

/// The base level of a line turned by an edit in a line before it, so its rows are read from the other edge.
fn a_base_level_that_turns()
    ensures turned { is_kept older_lines (edit 1 1 1) (block 21 24 1) ≡ false }
    ensures same { is_kept (older 21 0 (row true true) 0 ∷ []) (edit 1 1 1) (block 21 24 1) ≡ true }
    ensures mixed { is_kept (older 21 0 (row true false) 0 ∷ older 21 1 (row false true) 0 ∷ []) (edit 1 1 1) (block 21 24 1) ≡ false }
{}

/// Of two rows with one number the first counts, the rows stop at the first that ends the block, and a block whose last row is not
/// there, or one between, is laid out anew.
fn rows_that_are_taken()
    ensures first { taken (older 5 0 (row false true) 7 ∷ older 5 0 (row true true) 8 ∷ []) none 5 ≡ record { shown = row false true; copies = 7 } ∷ [] }
    ensures stops { taken (older 5 0 (row false true) 7 ∷ older 5 1 (row false true) 8 ∷ []) none 5 ≡ record { shown = row false true; copies = 7 } ∷ [] }
    ensures cut { is_kept (older 5 0 (row false false) 0 ∷ []) none (block 5 21 0) ≡ false }
    ensures headless { is_kept (older 5 1 (row false true) 0 ∷ []) none (block 5 21 0) ≡ false }
    ensures order { is_kept (older 5 1 (row false true) 0 ∷ older 5 0 (row false false) 0 ∷ []) none (block 5 21 0) ≡ true }
{}

/// At the shape of the older rows a block that keeps them costs nothing; at another one it costs what it costs its source.
fn costs_of_a_source_with_kept_rows()
    ensures same { map (λ b. (kept_source longer_lines older_lines (edit 6 0 1) twelve_continued).cost_of b twelve_continued) longer_lines.blocks ≡ 0 ∷ 17 ∷ 0 ∷ [] }
    ensures other { map (λ b. (kept_source longer_lines older_lines (edit 6 0 1) twelve_continued).cost_of b (record twelve_continued { hscroll = 1 })) longer_lines.blocks ≡ 3 ∷ 17 ∷ 3 ∷ [] }
{}

/// The lines `a`, `b` and `c`: all of them are laid out at first, none where nothing changed, and the last one after `x` was put
/// before its letter.
fn an_edit_in_a_short_line()
    ensures first { fresh_costs (two_letters_and 2) [] all twelve_continued 0 3 ≡ 6 }
    ensures again { fresh_costs (two_letters_and 2) (three_letters 0) none twelve_continued 0 3 ≡ 0 }
    ensures edited { fresh_costs (two_letters_and 3) (three_letters 0) (edit 5 0 1) twelve_continued 0 3 ≡ 3 }
{}

/// The lines that have a row in view: from the second row of the second line on, the first row, and none.
fn blocks_in_view_of_a_window()
    ensures from_second { blocks_with (is_between 2 4) (λ b. longer_lines.rows_of b twelve_continued) 0 longer_lines.blocks ≡ block 5 22 0 ∷ block 22 25 0 ∷ [] }
    ensures first { blocks_with (is_between 0 1) (λ b. longer_lines.rows_of b twelve_continued) 0 longer_lines.blocks ≡ block 1 5 0 ∷ [] }
    ensures empty { blocks_with (is_between 2 2) (λ b. longer_lines.rows_of b twelve_continued) 0 longer_lines.blocks ≡ [] }
{}
