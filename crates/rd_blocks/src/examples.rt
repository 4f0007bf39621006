//! The definitions on worked examples. These functions have no body: what they promise is computed from the definitions.
ghost use Rattle.std.specs.Prelude.{◌≡◌, ◌∷◌, ◌++◌, [], true, false};
ghost use Rattle.rd_base.specs.Faces.{plain};
ghost use Rattle.rd_base.specs.Glyphs.{blanks};
ghost use Rattle.rd_base.specs.declared.settings.Direction.TheVariants.{Auto, Right};
ghost use Rattle.rd_objects.specs.Things.{nothing_made};
ghost use Rattle.rd_rows.specs.Examples.{text, twelve_continued, twelve_truncated};
ghost use Rattle.rd_reuse.specs.Changes.{all, edit, none};
ghost use Rattle.rd_blocks.specs.Examples.{buffer, two_lines, hidden_at, narrowed_to, with_prefixes, prefixed, with_marks, arrows, marks, bases_of, cells_of, keeping};

/// Two blocks of which the second has a letter that is read from the right, by each setting of the direction.
fn blocks_with_their_bases()
    ensures text { bases_of (two_lines true Auto) ≡ record { start = 1; end = 3; base = 0 } ∷ record { start = 3; end = 5; base = 0 } ∷ [] }
    ensures right { bases_of (two_lines true Right) ≡ record { start = 1; end = 3; base = 1 } ∷ record { start = 3; end = 5; base = 1 } ∷ [] }
    ensures off { bases_of (two_lines false Right) ≡ record { start = 1; end = 3; base = 0 } ∷ record { start = 3; end = 5; base = 0 } ∷ [] }
    ensures empty { bases_of (buffer []) ≡ record { start = 1; end = 2; base = 0 } ∷ [] }
    ensures last { bases_of (buffer (97 ∷ 10 ∷ [])) ≡ record { start = 1; end = 3; base = 0 } ∷ record { start = 3; end = 4; base = 0 } ∷ [] }
{}

/// Lines whose direction the text decides: 12 and r in one paragraph, a line without characters behind it, and an a in the next. A
/// newline that is hidden ends no block, and of a text of which only a part is accessible there are the blocks of that part.
fn blocks_of_paragraphs()
    ensures levels { bases_of (buffer (49 ∷ 50 ∷ 10 ∷ 114 ∷ 10 ∷ 10 ∷ 97 ∷ [])) ≡ record { start = 1; end = 4; base = 1 } ∷ record { start = 4; end = 6; base = 1 } ∷ record { start = 6; end = 7; base = 1 } ∷ record { start = 7; end = 9; base = 0 } ∷ [] }
    ensures hidden { bases_of (hidden_at 2 (114 ∷ 10 ∷ 97 ∷ 10 ∷ 97 ∷ [])) ≡ record { start = 1; end = 5; base = 1 } ∷ record { start = 5; end = 7; base = 1 } ∷ [] }
    ensures narrowed { bases_of (narrowed_to 3 4 (114 ∷ 10 ∷ 97 ∷ 10 ∷ 97 ∷ [])) ≡ record { start = 3; end = 5; base = 0 } ∷ [] }
{}

/// A line that is read from the right edge: two letters, a blank and 12.
fn a_row_from_the_right_edge()
    ensures { cells_of twelve_truncated (buffer (114 ∷ 116 ∷ 32 ∷ 49 ∷ 50 ∷ [])) nothing_made (record { start = 1; end = 7; base = 1 }) ≡ (blanks 7 plain ++ text (49 ∷ 50 ∷ 32 ∷ 116 ∷ 114 ∷ [])) ∷ [] }
{}

/// Sixteen letters that are scrolled by three columns, and by none.
fn a_row_scrolled_sideways()
    ensures scrolled { cells_of (record twelve_truncated { hscroll = 3 }) (buffer (97 ∷ 98 ∷ 99 ∷ 100 ∷ 101 ∷ 102 ∷ 103 ∷ 104 ∷ 105 ∷ 106 ∷ 107 ∷ 108 ∷ 109 ∷ 110 ∷ 111 ∷ 112 ∷ [])) nothing_made (record { start = 1; end = 18; base = 0 }) ≡ text (36 ∷ 101 ∷ 102 ∷ 103 ∷ 104 ∷ 105 ∷ 106 ∷ 107 ∷ 108 ∷ 109 ∷ 110 ∷ 36 ∷ []) ∷ [] }
    ensures whole { cells_of twelve_truncated (buffer (97 ∷ 98 ∷ 99 ∷ 100 ∷ 101 ∷ 102 ∷ 103 ∷ 104 ∷ 105 ∷ 106 ∷ 107 ∷ 108 ∷ 109 ∷ 110 ∷ 111 ∷ 112 ∷ [])) nothing_made (record { start = 1; end = 18; base = 0 }) ≡ text (97 ∷ 98 ∷ 99 ∷ 100 ∷ 101 ∷ 102 ∷ 103 ∷ 104 ∷ 105 ∷ 106 ∷ 107 ∷ 36 ∷ []) ∷ [] }
{}

/// Twelve letters behind the settings' prefixes; letters of which the first has a line prefix of its own; and an empty block,
/// which has the setting's prefix alone.
fn rows_behind_prefixes()
    ensures settings { cells_of twelve_continued (with_prefixes (97 ∷ 98 ∷ 99 ∷ 100 ∷ 101 ∷ 102 ∷ 103 ∷ 104 ∷ 105 ∷ 106 ∷ 107 ∷ 108 ∷ [])) arrows (record { start = 1; end = 14; base = 0 }) ≡ text (62 ∷ 32 ∷ 97 ∷ 98 ∷ 99 ∷ 100 ∷ 101 ∷ 102 ∷ 103 ∷ 104 ∷ 105 ∷ 92 ∷ []) ∷ (text (43 ∷ 32 ∷ 106 ∷ 107 ∷ 108 ∷ []) ++ blanks 7 plain) ∷ [] }
    ensures first { cells_of twelve_continued (prefixed 1) arrows (record { start = 1; end = 4; base = 0 }) ≡ (text (43 ∷ 32 ∷ 97 ∷ 98 ∷ []) ++ blanks 8 plain) ∷ [] }
    ensures second { cells_of twelve_continued (prefixed 2) arrows (record { start = 1; end = 4; base = 0 }) ≡ (text (62 ∷ 32 ∷ 97 ∷ 98 ∷ []) ++ blanks 8 plain) ∷ [] }
    ensures empty { cells_of twelve_continued (with_prefixes []) arrows (record { start = 1; end = 2; base = 0 }) ≡ (text (62 ∷ 32 ∷ []) ++ blanks 10 plain) ∷ [] }
{}

/// Twelve letters of a line that goes on, from either edge, with a backslash, a slash and the mark of a table.
fn marks_of_rows_that_go_on()
    ensures left { cells_of twelve_continued (buffer (97 ∷ 98 ∷ 99 ∷ 100 ∷ 101 ∷ 102 ∷ 103 ∷ 104 ∷ 105 ∷ 106 ∷ 107 ∷ 108 ∷ [])) nothing_made (record { start = 1; end = 14; base = 0 }) ≡ text (97 ∷ 98 ∷ 99 ∷ 100 ∷ 101 ∷ 102 ∷ 103 ∷ 104 ∷ 105 ∷ 106 ∷ 107 ∷ 92 ∷ []) ∷ (text (108 ∷ []) ++ blanks 11 plain) ∷ [] }
    ensures right { cells_of twelve_continued (buffer (114 ∷ 114 ∷ 114 ∷ 114 ∷ 114 ∷ 114 ∷ 114 ∷ 114 ∷ 114 ∷ 114 ∷ 114 ∷ 114 ∷ [])) nothing_made (record { start = 1; end = 14; base = 1 }) ≡ text (47 ∷ 114 ∷ 114 ∷ 114 ∷ 114 ∷ 114 ∷ 114 ∷ 114 ∷ 114 ∷ 114 ∷ 114 ∷ 114 ∷ []) ∷ (blanks 11 plain ++ text (114 ∷ [])) ∷ [] }
    ensures table { cells_of twelve_continued (with_marks (97 ∷ 98 ∷ 99 ∷ 100 ∷ 101 ∷ 102 ∷ 103 ∷ 104 ∷ 105 ∷ 106 ∷ 107 ∷ 108 ∷ [])) marks (record { start = 1; end = 14; base = 0 }) ≡ text (97 ∷ 98 ∷ 99 ∷ 100 ∷ 101 ∷ 102 ∷ 103 ∷ 104 ∷ 105 ∷ 106 ∷ 107 ∷ 38 ∷ []) ∷ (text (108 ∷ []) ++ blanks 11 plain) ∷ [] }
    ensures cut { cells_of twelve_truncated (with_marks (97 ∷ 98 ∷ 99 ∷ 100 ∷ 101 ∷ 102 ∷ 103 ∷ 104 ∷ 105 ∷ 106 ∷ 107 ∷ 108 ∷ [])) marks (record { start = 1; end = 14; base = 0 }) ≡ text (97 ∷ 98 ∷ 99 ∷ 100 ∷ 101 ∷ 102 ∷ 103 ∷ 104 ∷ 105 ∷ 106 ∷ 107 ∷ 43 ∷ []) ∷ [] }
{}

/// The lines a, b and c. A letter that is put into the second leaves the first and the third. Where the newline behind the first is
/// taken away or the second is cut in two, the lines that join and those that split are laid out again.
fn rows_that_edits_leave()
    ensures typed { keeping (buffer (97 ∷ 10 ∷ 98 ∷ 10 ∷ 99 ∷ [])) (buffer (97 ∷ 10 ∷ 120 ∷ 98 ∷ 10 ∷ 99 ∷ [])) (edit 3 0 1) ≡ true ∷ false ∷ true ∷ [] }
    ensures united { keeping (buffer (97 ∷ 10 ∷ 98 ∷ 10 ∷ 99 ∷ [])) (buffer (97 ∷ 98 ∷ 10 ∷ 99 ∷ [])) (edit 2 1 0) ≡ false ∷ true ∷ [] }
    ensures split { keeping (buffer (97 ∷ 10 ∷ 98 ∷ 98 ∷ 10 ∷ 99 ∷ [])) (buffer (97 ∷ 10 ∷ 98 ∷ 10 ∷ 98 ∷ 10 ∷ 99 ∷ [])) (edit 4 0 1) ≡ true ∷ false ∷ false ∷ true ∷ [] }
    ensures untouched { keeping (buffer (97 ∷ 10 ∷ 98 ∷ [])) (buffer (97 ∷ 10 ∷ 98 ∷ [])) none ≡ true ∷ true ∷ [] }
    ensures forgotten { keeping (buffer (97 ∷ 10 ∷ 98 ∷ [])) (buffer (97 ∷ 10 ∷ 98 ∷ [])) all ≡ false ∷ false ∷ [] }
{}

/// A letter that is read from the right before the digit of a paragraph's first line: the second line, which no edit touched, has
/// another base level, so that its rows are laid out again.
fn base_levels_that_flip()
    ensures { keeping (buffer (49 ∷ 10 ∷ 97 ∷ [])) (buffer (114 ∷ 49 ∷ 10 ∷ 97 ∷ [])) (edit 1 0 1) ≡ false ∷ false ∷ [] }
{}
