//! The rows of worked lines. These functions have no body: what they promise is computed from the definitions.
ghost use Rattle.std.specs.Prelude.{◌≡◌, ◌∷◌, ◌++◌, []};
ghost use Rattle.rd_base.specs.Faces.{plain};
ghost use Rattle.rd_base.specs.Cells.{single};
ghost use Rattle.rd_base.specs.Glyphs.{glyph_cells, blanks};
ghost use Rattle.rd_rows.specs.Examples.{letter, letters, wide, tab, line_end, row_end, stretch, spaces, twelve_continued, twelve_truncated, cut_at, by_words, rows, rows_with, rows_reversed, text, cells, weights, begins, at};

/// Eleven letters fill the room without a mark; a twelfth goes to the next row. (The codes of `a` to `l` are 97 to 108.)
fn letters_of_a_continued_line()
    ensures eleven { cells (rows twelve_continued (letters 0 (97 ∷ 98 ∷ 99 ∷ 100 ∷ 101 ∷ 102 ∷ 103 ∷ 104 ∷ 105 ∷ 106 ∷ 107 ∷ []) ++ line_end 11)) ≡ text (97 ∷ 98 ∷ 99 ∷ 100 ∷ 101 ∷ 102 ∷ 103 ∷ 104 ∷ 105 ∷ 106 ∷ 107 ∷ 32 ∷ []) ∷ [] }
    ensures twelve { cells (rows twelve_continued (letters 0 (97 ∷ 98 ∷ 99 ∷ 100 ∷ 101 ∷ 102 ∷ 103 ∷ 104 ∷ 105 ∷ 106 ∷ 107 ∷ 108 ∷ []) ++ line_end 12)) ≡ text (97 ∷ 98 ∷ 99 ∷ 100 ∷ 101 ∷ 102 ∷ 103 ∷ 104 ∷ 105 ∷ 106 ∷ 107 ∷ 92 ∷ []) ∷ (text (108 ∷ []) ++ blanks 11 plain) ∷ [] }
    ensures weights { weights (rows twelve_continued (letters 0 (97 ∷ 98 ∷ 99 ∷ 100 ∷ 101 ∷ 102 ∷ 103 ∷ 104 ∷ 105 ∷ 106 ∷ 107 ∷ 108 ∷ []) ++ line_end 12)) ≡ 11 ∷ 2 ∷ [] }
    ensures begins { begins (rows twelve_continued (letters 0 (97 ∷ 98 ∷ 99 ∷ 100 ∷ 101 ∷ 102 ∷ 103 ∷ 104 ∷ 105 ∷ 106 ∷ 107 ∷ 108 ∷ []) ++ line_end 12)) ≡ (at 0 0 ∷ at 1 1 ∷ at 2 2 ∷ at 3 3 ∷ at 4 4 ∷ at 5 5 ∷ at 6 6 ∷ at 7 7 ∷ at 8 8 ∷ at 9 9 ∷ at 10 10 ∷ []) ∷ (at 11 0 ∷ at 12 1 ∷ []) ∷ [] }
{}

/// A character of two columns that does not fit leaves a blank before the mark.
fn a_wide_character_at_the_edge()
    ensures two { cells (rows twelve_continued (letters 0 (97 ∷ 98 ∷ 99 ∷ 100 ∷ 101 ∷ 102 ∷ 103 ∷ 104 ∷ 105 ∷ 106 ∷ []) ++ wide 10 20013 2 ∷ line_end 11)) ≡ text (97 ∷ 98 ∷ 99 ∷ 100 ∷ 101 ∷ 102 ∷ 103 ∷ 104 ∷ 105 ∷ 106 ∷ 32 ∷ 92 ∷ []) ∷ (glyph_cells 2 (single 20013 2) plain ++ blanks 10 plain) ∷ [] }
    ensures three { cells (rows twelve_continued (letters 0 (97 ∷ 98 ∷ 99 ∷ 100 ∷ 101 ∷ 102 ∷ 103 ∷ 104 ∷ 105 ∷ []) ++ wide 9 20013 3 ∷ line_end 10)) ≡ text (97 ∷ 98 ∷ 99 ∷ 100 ∷ 101 ∷ 102 ∷ 103 ∷ 104 ∷ 105 ∷ 32 ∷ 32 ∷ 92 ∷ []) ∷ (glyph_cells 3 (single 20013 3) plain ++ blanks 9 plain) ∷ [] }
{}

/// A tab reaches to its stop, or is cut at the room; behind a full row it begins the next. Behind one that ends the room the cursor is
/// in the last column.
fn tabs_of_a_continued_line()
    ensures stop { cells (rows twelve_continued (letters 0 (97 ∷ 98 ∷ 99 ∷ 100 ∷ 101 ∷ 102 ∷ 103 ∷ []) ++ tab 7 ∷ letter 8 120 ∷ line_end 9)) ≡ text (97 ∷ 98 ∷ 99 ∷ 100 ∷ 101 ∷ 102 ∷ 103 ∷ 32 ∷ 120 ∷ 32 ∷ 32 ∷ 32 ∷ []) ∷ [] }
    ensures cut { cells (rows twelve_continued (letters 0 (97 ∷ 98 ∷ 99 ∷ 100 ∷ 101 ∷ 102 ∷ 103 ∷ 104 ∷ []) ++ tab 8 ∷ letter 9 120 ∷ line_end 10)) ≡ text (97 ∷ 98 ∷ 99 ∷ 100 ∷ 101 ∷ 102 ∷ 103 ∷ 104 ∷ 32 ∷ 32 ∷ 32 ∷ 92 ∷ []) ∷ text (120 ∷ 32 ∷ 32 ∷ 32 ∷ 32 ∷ 32 ∷ 32 ∷ 32 ∷ 32 ∷ 32 ∷ 32 ∷ 32 ∷ []) ∷ [] }
    ensures last { cells (rows twelve_continued (letters 0 (97 ∷ 98 ∷ 99 ∷ 100 ∷ 101 ∷ 102 ∷ 103 ∷ 104 ∷ 105 ∷ 106 ∷ []) ++ tab 10 ∷ line_end 11)) ≡ text (97 ∷ 98 ∷ 99 ∷ 100 ∷ 101 ∷ 102 ∷ 103 ∷ 104 ∷ 105 ∷ 106 ∷ 32 ∷ 32 ∷ []) ∷ [] }
    ensures next { cells (rows twelve_continued (letters 0 (97 ∷ 98 ∷ 99 ∷ 100 ∷ 101 ∷ 102 ∷ 103 ∷ 104 ∷ 105 ∷ 106 ∷ 107 ∷ []) ++ tab 11 ∷ letter 12 120 ∷ line_end 13)) ≡ text (97 ∷ 98 ∷ 99 ∷ 100 ∷ 101 ∷ 102 ∷ 103 ∷ 104 ∷ 105 ∷ 106 ∷ 107 ∷ 92 ∷ []) ∷ text (32 ∷ 32 ∷ 32 ∷ 32 ∷ 32 ∷ 120 ∷ 32 ∷ 32 ∷ 32 ∷ 32 ∷ 32 ∷ 32 ∷ []) ∷ [] }
    ensures end { begins (rows twelve_continued (letters 0 (97 ∷ 98 ∷ 99 ∷ 100 ∷ 101 ∷ 102 ∷ 103 ∷ 104 ∷ 105 ∷ 106 ∷ []) ++ tab 10 ∷ line_end 11)) ≡ (at 0 0 ∷ at 1 1 ∷ at 2 2 ∷ at 3 3 ∷ at 4 4 ∷ at 5 5 ∷ at 6 6 ∷ at 7 7 ∷ at 8 8 ∷ at 9 9 ∷ at 10 10 ∷ at 11 11 ∷ []) ∷ [] }
{}

/// A truncated row ends with its mark, at a wide character with blanks before it, and places the elements that are not seen.
fn a_truncated_line()
    ensures mark { cells (rows twelve_truncated (letters 0 (97 ∷ 98 ∷ 99 ∷ 100 ∷ 101 ∷ 102 ∷ 103 ∷ 104 ∷ 105 ∷ 106 ∷ 107 ∷ 108 ∷ []) ++ line_end 12)) ≡ text (97 ∷ 98 ∷ 99 ∷ 100 ∷ 101 ∷ 102 ∷ 103 ∷ 104 ∷ 105 ∷ 106 ∷ 107 ∷ 36 ∷ []) ∷ [] }
    ensures weight { weights (rows twelve_truncated (letters 0 (97 ∷ 98 ∷ 99 ∷ 100 ∷ 101 ∷ 102 ∷ 103 ∷ 104 ∷ 105 ∷ 106 ∷ 107 ∷ 108 ∷ []) ++ line_end 12)) ≡ 13 ∷ [] }
    ensures wide { cells (rows twelve_truncated (letters 0 (97 ∷ 98 ∷ 99 ∷ 100 ∷ 101 ∷ 102 ∷ 103 ∷ 104 ∷ 105 ∷ 106 ∷ []) ++ wide 10 20013 2 ∷ line_end 11)) ≡ text (97 ∷ 98 ∷ 99 ∷ 100 ∷ 101 ∷ 102 ∷ 103 ∷ 104 ∷ 105 ∷ 106 ∷ 32 ∷ 36 ∷ []) ∷ [] }
    ensures scrolled { cells (rows (cut_at 1) (letters 0 (97 ∷ 98 ∷ 99 ∷ 100 ∷ 101 ∷ 102 ∷ []) ++ line_end 6)) ≡ text (36 ∷ 99 ∷ 100 ∷ 101 ∷ 36 ∷ []) ∷ [] }
    ensures halves { cells (rows (cut_at 1) (wide 0 20013 3 ∷ wide 1 20014 3 ∷ line_end 2)) ≡ text (36 ∷ 32 ∷ 32 ∷ 32 ∷ 36 ∷ []) ∷ [] }
{}

/// A string that is cut: the row end ends a row without a mark, and the item begins in its first row alone.
fn a_row_end_in_a_string()
    ensures cells { cells (rows twelve_continued (letter 0 97 ∷ row_end 0 ∷ letter 0 98 ∷ line_end 1)) ≡ (text (97 ∷ []) ++ blanks 11 plain) ∷ (text (98 ∷ []) ++ blanks 11 plain) ∷ [] }
    ensures begins { begins (rows twelve_continued (letter 0 97 ∷ row_end 0 ∷ letter 0 98 ∷ line_end 1)) ≡ (at 0 0 ∷ []) ∷ (at 1 1 ∷ []) ∷ [] }
    ensures weights { weights (rows twelve_continued (letter 0 97 ∷ row_end 0 ∷ letter 0 98 ∷ line_end 1)) ≡ 2 ∷ 2 ∷ [] }
{}

/// A stretch up to a column, and one that the line has passed.
fn stretches_up_to_a_column()
    ensures before { cells (rows twelve_continued (letters 0 (97 ∷ 98 ∷ 99 ∷ []) ++ stretch 3 8 ∷ letter 4 100 ∷ line_end 5)) ≡ text (97 ∷ 98 ∷ 99 ∷ 32 ∷ 32 ∷ 32 ∷ 32 ∷ 32 ∷ 100 ∷ 32 ∷ 32 ∷ 32 ∷ []) ∷ [] }
    ensures passed { cells (rows twelve_continued (letters 0 (97 ∷ 98 ∷ 99 ∷ []) ++ stretch 3 2 ∷ letter 4 100 ∷ line_end 5)) ≡ text (97 ∷ 98 ∷ 99 ∷ 100 ∷ 32 ∷ 32 ∷ 32 ∷ 32 ∷ 32 ∷ 32 ∷ 32 ∷ 32 ∷ []) ∷ [] }
{}

/// A stretch of set columns fits whole, is cut at the room, or begins the next row.
fn stretches_of_set_columns()
    ensures whole { cells (rows twelve_continued (letters 0 (97 ∷ 98 ∷ 99 ∷ 100 ∷ 101 ∷ 102 ∷ 103 ∷ 104 ∷ 105 ∷ []) ++ spaces 9 2 ∷ line_end 10)) ≡ text (97 ∷ 98 ∷ 99 ∷ 100 ∷ 101 ∷ 102 ∷ 103 ∷ 104 ∷ 105 ∷ 32 ∷ 32 ∷ 32 ∷ []) ∷ [] }
    ensures cut { cells (rows twelve_continued (letters 0 (97 ∷ 98 ∷ 99 ∷ 100 ∷ 101 ∷ 102 ∷ 103 ∷ 104 ∷ 105 ∷ []) ++ spaces 9 3 ∷ letter 10 120 ∷ line_end 11)) ≡ text (97 ∷ 98 ∷ 99 ∷ 100 ∷ 101 ∷ 102 ∷ 103 ∷ 104 ∷ 105 ∷ 32 ∷ 32 ∷ 92 ∷ []) ∷ (text (120 ∷ []) ++ blanks 11 plain) ∷ [] }
    ensures next { cells (rows twelve_continued (letters 0 (97 ∷ 98 ∷ 99 ∷ 100 ∷ 101 ∷ 102 ∷ 103 ∷ 104 ∷ 105 ∷ 106 ∷ 107 ∷ []) ++ spaces 11 1 ∷ line_end 12)) ≡ text (97 ∷ 98 ∷ 99 ∷ 100 ∷ 101 ∷ 102 ∷ 103 ∷ 104 ∷ 105 ∷ 106 ∷ 107 ∷ 92 ∷ []) ∷ blanks 12 plain ∷ [] }
{}

/// The prefix of the first row and that of the other rows, of which the line behind a row end has the first again; a prefix is
/// cut to half of the columns, and a tab is measured from the line's beginning.
fn rows_behind_prefixes()
    ensures cells { cells (rows_with twelve_continued (62 ∷ 32 ∷ []) (43 ∷ 32 ∷ []) (letters 0 (97 ∷ 98 ∷ 99 ∷ 100 ∷ 101 ∷ 102 ∷ 103 ∷ 104 ∷ 105 ∷ 106 ∷ 107 ∷ 108 ∷ []) ++ line_end 12)) ≡ text (62 ∷ 32 ∷ 97 ∷ 98 ∷ 99 ∷ 100 ∷ 101 ∷ 102 ∷ 103 ∷ 104 ∷ 105 ∷ 92 ∷ []) ∷ (text (43 ∷ 32 ∷ 106 ∷ 107 ∷ 108 ∷ []) ++ blanks 7 plain) ∷ [] }
    ensures weights { weights (rows_with twelve_continued (62 ∷ 32 ∷ []) (43 ∷ 32 ∷ []) (letters 0 (97 ∷ 98 ∷ 99 ∷ 100 ∷ 101 ∷ 102 ∷ 103 ∷ 104 ∷ 105 ∷ 106 ∷ 107 ∷ 108 ∷ []) ++ line_end 12)) ≡ 11 ∷ 6 ∷ [] }
    ensures begins { begins (rows_with twelve_continued (62 ∷ 32 ∷ []) (43 ∷ 32 ∷ []) (letter 0 97 ∷ line_end 1)) ≡ (at 0 2 ∷ at 1 3 ∷ []) ∷ [] }
    ensures row_end { cells (rows_with twelve_continued (62 ∷ []) (43 ∷ []) (letter 0 97 ∷ row_end 0 ∷ letter 0 98 ∷ line_end 1)) ≡ (text (62 ∷ 97 ∷ []) ++ blanks 10 plain) ∷ (text (62 ∷ 98 ∷ []) ++ blanks 10 plain) ∷ [] }
    ensures cut { cells (rows_with twelve_continued (49 ∷ 50 ∷ 51 ∷ 52 ∷ 53 ∷ 54 ∷ 55 ∷ []) [] (letter 0 97 ∷ line_end 1)) ≡ (text (49 ∷ 50 ∷ 51 ∷ 52 ∷ 53 ∷ 54 ∷ 97 ∷ []) ++ blanks 5 plain) ∷ [] }
    ensures tab { cells (rows_with twelve_continued (62 ∷ 32 ∷ []) [] (letter 0 97 ∷ tab 1 ∷ letter 2 98 ∷ line_end 3)) ≡ (text (62 ∷ 32 ∷ 97 ∷ []) ++ blanks 7 plain ++ text (98 ∷ 32 ∷ [])) ∷ [] }
{}

/// A row that is scrolled sideways has a mark at each end, and its prefix is scrolled with it.
fn rows_scrolled_sideways()
    ensures marks { cells (rows (record twelve_continued { hscroll = 3 }) (spaces 0 4 ∷ letters 1 (101 ∷ 102 ∷ 103 ∷ 104 ∷ 105 ∷ 106 ∷ 107 ∷ 108 ∷ 109 ∷ 110 ∷ []) ++ spaces 11 2 ∷ line_end 12)) ≡ text (36 ∷ 101 ∷ 102 ∷ 103 ∷ 104 ∷ 105 ∷ 106 ∷ 107 ∷ 108 ∷ 109 ∷ 110 ∷ 36 ∷ []) ∷ [] }
    ensures begins { begins (rows (record twelve_continued { hscroll = 3 }) (letters 0 (97 ∷ 98 ∷ 99 ∷ 100 ∷ 101 ∷ []) ++ line_end 5)) ≡ (at 0 0 ∷ at 1 0 ∷ at 2 0 ∷ at 3 0 ∷ at 4 1 ∷ at 5 2 ∷ []) ∷ [] }
    ensures empty { cells (rows (record twelve_continued { hscroll = 3 }) (line_end 0)) ≡ blanks 12 plain ∷ [] }
    ensures prefix { cells (rows_with (record twelve_truncated { hscroll = 1 }) (62 ∷ 32 ∷ []) [] (letters 0 (97 ∷ 98 ∷ []) ++ line_end 2)) ≡ (text (36 ∷ 97 ∷ 98 ∷ []) ++ blanks 9 plain) ∷ [] }
{}

/// A row that is read from its right edge has its first element in the last column and its mark in the first, and a wide
/// character keeps its columns.
fn rows_from_right_to_left()
    ensures continued { cells (rows_reversed twelve_continued (letters 0 (108 ∷ 107 ∷ 106 ∷ 105 ∷ 104 ∷ 103 ∷ 102 ∷ 101 ∷ 100 ∷ 99 ∷ 98 ∷ 97 ∷ []) ++ line_end 12)) ≡ text (47 ∷ 98 ∷ 99 ∷ 100 ∷ 101 ∷ 102 ∷ 103 ∷ 104 ∷ 105 ∷ 106 ∷ 107 ∷ 108 ∷ []) ∷ (blanks 11 plain ++ text (97 ∷ [])) ∷ [] }
    ensures begins { begins (rows_reversed twelve_continued (letters 0 (98 ∷ 97 ∷ []) ++ line_end 2)) ≡ (at 0 0 ∷ at 1 1 ∷ at 2 2 ∷ []) ∷ [] }
    ensures wide { cells (rows_reversed twelve_continued (letter 0 97 ∷ wide 1 20013 2 ∷ line_end 2)) ≡ (blanks 9 plain ++ glyph_cells 2 (single 20013 2) plain ++ text (97 ∷ [])) ∷ [] }
    ensures scrolled { cells (rows_reversed (record twelve_truncated { hscroll = 1 }) (letters 0 (97 ∷ 98 ∷ 99 ∷ []) ++ line_end 3)) ≡ (blanks 10 plain ++ text (99 ∷ 36 ∷ [])) ∷ [] }
{}

/// A row is left behind its last break, without a mark, and the elements behind it begin the next row.
fn words_of_a_line()
    ensures cells { cells (rows by_words (letters 0 (111 ∷ 110 ∷ 101 ∷ 32 ∷ 116 ∷ 119 ∷ 111 ∷ 32 ∷ 116 ∷ 104 ∷ 114 ∷ 101 ∷ 101 ∷ 32 ∷ 102 ∷ 111 ∷ 117 ∷ 114 ∷ []) ++ line_end 18)) ≡ (text (111 ∷ 110 ∷ 101 ∷ 32 ∷ 116 ∷ 119 ∷ 111 ∷ []) ++ blanks 5 plain) ∷ (text (116 ∷ 104 ∷ 114 ∷ 101 ∷ 101 ∷ 32 ∷ 102 ∷ 111 ∷ 117 ∷ 114 ∷ []) ++ blanks 2 plain) ∷ [] }
    ensures weights { weights (rows by_words (letters 0 (111 ∷ 110 ∷ 101 ∷ 32 ∷ 116 ∷ 119 ∷ 111 ∷ 32 ∷ 116 ∷ 104 ∷ 114 ∷ 101 ∷ 101 ∷ 32 ∷ 102 ∷ 111 ∷ 117 ∷ 114 ∷ []) ++ line_end 18)) ≡ 8 ∷ 11 ∷ [] }
    ensures begins { begins (rows by_words (letters 0 (111 ∷ 110 ∷ 101 ∷ 32 ∷ 116 ∷ 119 ∷ 111 ∷ 32 ∷ 116 ∷ 104 ∷ 114 ∷ 101 ∷ 101 ∷ 32 ∷ 102 ∷ 111 ∷ 117 ∷ 114 ∷ []) ++ line_end 18)) ≡ (at 0 0 ∷ at 1 1 ∷ at 2 2 ∷ at 3 3 ∷ at 4 4 ∷ at 5 5 ∷ at 6 6 ∷ at 7 7 ∷ []) ∷ (at 8 0 ∷ at 9 1 ∷ at 10 2 ∷ at 11 3 ∷ at 12 4 ∷ at 13 5 ∷ at 14 6 ∷ at 15 7 ∷ at 16 8 ∷ at 17 9 ∷ at 18 10 ∷ []) ∷ [] }
{}

/// A word for which no row has room is cut with the mark, as where lines are continued at any character.
fn a_word_of_more_than_a_row()
    ensures { cells (rows by_words (letters 0 (97 ∷ 98 ∷ 99 ∷ 100 ∷ 101 ∷ 102 ∷ 103 ∷ 104 ∷ 105 ∷ 106 ∷ 107 ∷ 108 ∷ 109 ∷ 32 ∷ 110 ∷ []) ++ line_end 15)) ≡ text (97 ∷ 98 ∷ 99 ∷ 100 ∷ 101 ∷ 102 ∷ 103 ∷ 104 ∷ 105 ∷ 106 ∷ 107 ∷ 92 ∷ []) ∷ (text (108 ∷ 109 ∷ 32 ∷ 110 ∷ []) ++ blanks 8 plain) ∷ [] }
{}

/// A tab that is cut at the room is a break, and so is a stretch of no columns in a full row. A space that has no room is none: it
/// begins the next row.
fn breaks_at_the_edge()
    ensures tab { cells (rows by_words (letters 0 (97 ∷ 98 ∷ 99 ∷ 100 ∷ 101 ∷ 102 ∷ 103 ∷ 104 ∷ []) ++ tab 8 ∷ letter 9 120 ∷ line_end 10)) ≡ (text (97 ∷ 98 ∷ 99 ∷ 100 ∷ 101 ∷ 102 ∷ 103 ∷ 104 ∷ []) ++ blanks 4 plain) ∷ (text (120 ∷ []) ++ blanks 11 plain) ∷ [] }
    ensures nothing { cells (rows by_words (letters 0 (97 ∷ 98 ∷ 99 ∷ 100 ∷ 101 ∷ 102 ∷ 103 ∷ 104 ∷ 105 ∷ 106 ∷ 107 ∷ []) ++ stretch 11 2 ∷ letter 12 120 ∷ line_end 13)) ≡ (text (97 ∷ 98 ∷ 99 ∷ 100 ∷ 101 ∷ 102 ∷ 103 ∷ 104 ∷ 105 ∷ 106 ∷ 107 ∷ []) ++ blanks 1 plain) ∷ (text (120 ∷ []) ++ blanks 11 plain) ∷ [] }
    ensures space { cells (rows by_words (letters 0 (97 ∷ 98 ∷ 99 ∷ 100 ∷ 101 ∷ 102 ∷ 103 ∷ 104 ∷ 105 ∷ 106 ∷ 107 ∷ 32 ∷ 120 ∷ []) ++ line_end 13)) ≡ text (97 ∷ 98 ∷ 99 ∷ 100 ∷ 101 ∷ 102 ∷ 103 ∷ 104 ∷ 105 ∷ 106 ∷ 107 ∷ 92 ∷ []) ∷ (text (32 ∷ 120 ∷ []) ++ blanks 10 plain) ∷ [] }
{}

/// A prefix has no break. What waits behind a break may have no room behind a wrap prefix, and is then cut again; each element is
/// counted in the row where it stands.
fn words_behind_prefixes()
    ensures none { cells (rows_with by_words (62 ∷ 32 ∷ []) (62 ∷ 32 ∷ []) (letters 0 (97 ∷ 98 ∷ 99 ∷ 100 ∷ 101 ∷ 102 ∷ 103 ∷ 104 ∷ 105 ∷ 106 ∷ 107 ∷ 108 ∷ 109 ∷ []) ++ line_end 13)) ≡ text (62 ∷ 32 ∷ 97 ∷ 98 ∷ 99 ∷ 100 ∷ 101 ∷ 102 ∷ 103 ∷ 104 ∷ 105 ∷ 92 ∷ []) ∷ (text (62 ∷ 32 ∷ 106 ∷ 107 ∷ 108 ∷ 109 ∷ []) ++ blanks 6 plain) ∷ [] }
    ensures again { cells (rows_with by_words [] (49 ∷ 50 ∷ 51 ∷ 52 ∷ 53 ∷ 54 ∷ []) (letters 0 (97 ∷ 98 ∷ 32 ∷ 99 ∷ 100 ∷ 101 ∷ 102 ∷ 103 ∷ 104 ∷ 105 ∷ 106 ∷ 107 ∷ 32 ∷ 108 ∷ 109 ∷ 110 ∷ []) ++ line_end 16)) ≡ (text (97 ∷ 98 ∷ []) ++ blanks 10 plain) ∷ text (49 ∷ 50 ∷ 51 ∷ 52 ∷ 53 ∷ 54 ∷ 99 ∷ 100 ∷ 101 ∷ 102 ∷ 103 ∷ 92 ∷ []) ∷ (text (49 ∷ 50 ∷ 51 ∷ 52 ∷ 53 ∷ 54 ∷ 104 ∷ 105 ∷ 106 ∷ 107 ∷ []) ++ blanks 2 plain) ∷ (text (49 ∷ 50 ∷ 51 ∷ 52 ∷ 53 ∷ 54 ∷ 108 ∷ 109 ∷ 110 ∷ []) ++ blanks 3 plain) ∷ [] }
    ensures weights { weights (rows_with by_words [] (49 ∷ 50 ∷ 51 ∷ 52 ∷ 53 ∷ 54 ∷ []) (letters 0 (97 ∷ 98 ∷ 32 ∷ 99 ∷ 100 ∷ 101 ∷ 102 ∷ 103 ∷ 104 ∷ 105 ∷ 106 ∷ 107 ∷ 32 ∷ 108 ∷ 109 ∷ 110 ∷ []) ++ line_end 16)) ≡ 3 ∷ 11 ∷ 11 ∷ 10 ∷ [] }
{}

/// Text that is aligned at the eighth of sixteen columns, and text that has passed it: the stretch begins in the column of the
/// character behind it.
fn aligned_text()
    ensures before { cells (rows (record twelve_continued { width = 16 }) (letters 0 (97 ∷ 98 ∷ 99 ∷ []) ++ stretch 3 8 ∷ letter 4 100 ∷ line_end 5)) ≡ (text (97 ∷ 98 ∷ 99 ∷ 32 ∷ 32 ∷ 32 ∷ 32 ∷ 32 ∷ 100 ∷ []) ++ blanks 7 plain) ∷ [] }
    ensures passed { cells (rows (record twelve_continued { width = 16 }) (letters 0 (97 ∷ 98 ∷ 99 ∷ 100 ∷ 101 ∷ 102 ∷ 103 ∷ 104 ∷ 105 ∷ []) ++ stretch 9 8 ∷ letter 10 106 ∷ line_end 11)) ≡ (text (97 ∷ 98 ∷ 99 ∷ 100 ∷ 101 ∷ 102 ∷ 103 ∷ 104 ∷ 105 ∷ 106 ∷ []) ++ blanks 6 plain) ∷ [] }
    ensures begun { begins (rows (record twelve_continued { width = 16 }) (letters 0 (97 ∷ 98 ∷ 99 ∷ 100 ∷ 101 ∷ 102 ∷ 103 ∷ 104 ∷ 105 ∷ []) ++ stretch 9 8 ∷ letter 10 106 ∷ line_end 11)) ≡ (at 0 0 ∷ at 1 1 ∷ at 2 2 ∷ at 3 3 ∷ at 4 4 ∷ at 5 5 ∷ at 6 6 ∷ at 7 7 ∷ at 8 8 ∷ at 9 9 ∷ at 10 9 ∷ at 11 10 ∷ []) ∷ [] }
{}

/// Sixteen letters, scrolled by three columns and not scrolled.
fn a_row_scrolled_by_three()
    ensures scrolled { cells (rows (record twelve_truncated { hscroll = 3 }) (letters 0 (97 ∷ 98 ∷ 99 ∷ 100 ∷ 101 ∷ 102 ∷ 103 ∷ 104 ∷ 105 ∷ 106 ∷ 107 ∷ 108 ∷ 109 ∷ 110 ∷ 111 ∷ 112 ∷ []) ++ line_end 16)) ≡ text (36 ∷ 101 ∷ 102 ∷ 103 ∷ 104 ∷ 105 ∷ 106 ∷ 107 ∷ 108 ∷ 109 ∷ 110 ∷ 36 ∷ []) ∷ [] }
    ensures unscrolled { cells (rows twelve_truncated (letters 0 (97 ∷ 98 ∷ 99 ∷ 100 ∷ 101 ∷ 102 ∷ 103 ∷ 104 ∷ 105 ∷ 106 ∷ 107 ∷ 108 ∷ 109 ∷ 110 ∷ 111 ∷ 112 ∷ []) ++ line_end 16)) ≡ text (97 ∷ 98 ∷ 99 ∷ 100 ∷ 101 ∷ 102 ∷ 103 ∷ 104 ∷ 105 ∷ 106 ∷ 107 ∷ 36 ∷ []) ∷ [] }
{}
