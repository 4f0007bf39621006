//! Worked examples. They have no body: what they promise is computed from the definitions.
ghost use Rattle.std.specs.Prelude.{◌≡◌, ◌∷◌, [], true, Some, None};
ghost use Rattle.rd_base.specs.Faces.{plain};
ghost use Rattle.rd_base.specs.Glyphs.{blanks};
ghost use Rattle.rd_matrix.specs.Blocks.{first_start, end_from, block_before};
ghost use Rattle.rd_matrix.specs.Cursors.{cursor_in};
ghost use Rattle.rd_matrix.specs.Entries.{all_rows};
ghost use Rattle.rd_rows.specs.Copies.{blank_row};

/// In the second row of twelve columns, which is read from the right edge, an item begins in the reading column 1.
fn a_cursor_in_a_row_from_the_right_edge()
    ensures { cursor_in 13 (record { start = 1; number = 0; row = blank_row 12 }
        ∷ record {
          start = 1;
          number = 1;
          row = record { cells = blanks 12 plain; begins = record { from = 12; to = 13; column = 1 } ∷ []; reversed = true; ends_block = true };
        } ∷ []) ≡ Some (1, 10) }
{}

/// Two blocks of three and of two positions, with two rows each.
fn rows_of_two_blocks()
    ensures rows { all_rows (λ b. blank_row 3 ∷ blank_row 4 ∷ []) (record { start = 1; end = 4; base = 0 } ∷ record { start = 4; end = 6; base = 1 } ∷ [])
        ≡ record { start = 1; number = 0; row = blank_row 3 } ∷ record { start = 1; number = 1; row = blank_row 4 }
        ∷ record { start = 4; number = 0; row = blank_row 3 } ∷ record { start = 4; number = 1; row = blank_row 4 } ∷ [] }
    ensures first { first_start (record { start = 1; end = 4; base = 0 } ∷ record { start = 4; end = 6; base = 1 } ∷ []) ≡ 1 }
    ensures end { end_from 0 (record { start = 1; end = 4; base = 0 } ∷ record { start = 4; end = 6; base = 1 } ∷ []) ≡ 6 }
    ensures before { block_before (record { start = 1; end = 4; base = 0 } ∷ record { start = 4; end = 6; base = 1 } ∷ []) 1 ≡ Some (record { start = 1; end = 4; base = 0 }) }
    ensures none { block_before (record { start = 1; end = 4; base = 0 } ∷ []) 0 ≡ None }
{}
