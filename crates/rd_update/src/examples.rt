//! What an update sends in worked cases.
ghost use Rattle.std.specs.Prelude.{◌≡◌, [], ◌∷◌, ◌++◌, codes, None, Some, true, false};
ghost use Rattle.rd_base.specs.Cells.{single};
ghost use Rattle.rd_base.specs.Faces.{plain};
ghost use Rattle.rd_base.specs.declared.cell.Cell.TheVariants.{First, Rest};
ghost use Rattle.rd_term.specs.Pictures.{blank_row};
ghost use Rattle.rd_term.specs.Terminals.{cell_of, plain_row};
ghost use Rattle.rd_update.specs.Updates.{update};

/// An unknown screen of 12 columns and 3 rows is repainted: a full row, a row of one character, a blank row.
fn an_unknown_screen_is_repainted()
    ensures { (update None (record { rows = plain_row (codes "abcdefghijk$") ∷ plain_row (codes "x           ") ∷ blank_row 12 ∷ []; row = 0; column = 0 }) None).bytes
        ≡ 27 ∷ codes "[0m" ++ 27 ∷ codes "[2J" ++ 27 ∷ codes "[1;1Habcdefghijk$" ++ 27 ∷ codes "[2;1Hx" ++ 27 ∷ codes "[1;1H" }
{}

/// A row moves down by one: the first row is erased in one.
fn a_row_moves_down()
    ensures { update (Some (record { rows = plain_row (codes "abc         ") ∷ blank_row 12 ∷ blank_row 12 ∷ []; row = 0; column = 0 }))
        (record { rows = blank_row 12 ∷ plain_row (codes "abc         ") ∷ blank_row 12 ∷ []; row = 0; column = 0 }) None
        ≡ record {
          bytes = 27 ∷ codes "[1;1H" ++ 27 ∷ codes "[K" ++ 27 ∷ codes "[2;1Habc" ++ 27 ∷ codes "[1;1H";
          rows = 2;
          done = true;
          screen = record { rows = blank_row 12 ∷ plain_row (codes "abc         ") ∷ blank_row 12 ∷ []; row = 0; column = 0 };
        } }
{}

/// Two rows of five are sent and the update stops; the next one starts from what then stands.
fn an_update_stops_and_goes_on()
    ensures stops { update None (record { rows = plain_row (codes "a  ") ∷ plain_row (codes "b  ") ∷ plain_row (codes "c  ") ∷ plain_row (codes "d  ") ∷ plain_row (codes "e  ") ∷ []; row = 0; column = 0 }) (Some 2)
        ≡ record {
          bytes = 27 ∷ codes "[0m" ++ 27 ∷ codes "[2J" ++ 27 ∷ codes "[1;1Ha" ++ 27 ∷ codes "[2;1Hb";
          rows = 2;
          done = false;
          screen = record { rows = plain_row (codes "a  ") ∷ plain_row (codes "b  ") ∷ blank_row 3 ∷ blank_row 3 ∷ blank_row 3 ∷ []; row = 0; column = 0 };
        } }
    ensures goes_on { (update (Some (record { rows = plain_row (codes "a  ") ∷ plain_row (codes "b  ") ∷ blank_row 3 ∷ blank_row 3 ∷ blank_row 3 ∷ []; row = 0; column = 0 }))
        (record { rows = plain_row (codes "Xa ") ∷ plain_row (codes "b  ") ∷ plain_row (codes "c  ") ∷ plain_row (codes "d  ") ∷ plain_row (codes "e  ") ∷ []; row = 0; column = 0 }) None).bytes
        ≡ 27 ∷ codes "[1;1HXa" ++ 27 ∷ codes "[3;1Hc" ++ 27 ∷ codes "[4;1Hd" ++ 27 ∷ codes "[5;1He" ++ 27 ∷ codes "[1;1H" }
{}

/// The mark of a continued row and the next row are sent, from the first column at which each differs.
fn a_row_is_continued()
    ensures { (update (Some (record { rows = plain_row (codes "abcdefghijk ") ∷ blank_row 12 ∷ []; row = 0; column = 11 }))
        (record { rows = plain_row (codes "abcdefghijk\\") ∷ plain_row (codes "l           ") ∷ []; row = 1; column = 1 }) None).bytes
        ≡ 27 ∷ codes "[1;12H\\" ++ 27 ∷ codes "[2;1Hl" ++ 27 ∷ codes "[2;2H" }
{}

/// Faces: each cell whose face is not the pen's is dressed from nothing, and the row ends with a plain pen.
fn faces_are_dressed()
    ensures bold { (update None (record { rows = (cell_of 97 plain ∷ cell_of 98 (record plain { fg = 1; bold = true }) ∷ cell_of 99 plain ∷ blank_row 9) ∷ blank_row 12 ∷ []; row = 0; column = 0 }) None).bytes
        ≡ 27 ∷ codes "[0m" ++ 27 ∷ codes "[2J" ++ 27 ∷ codes "[1;1Ha" ++ 27 ∷ codes "[0;1;31mb" ++ 27 ∷ codes "[0mc" ++ 27 ∷ codes "[1;1H" }
    ensures colours { (update None (record { rows = (cell_of 97 (record plain { fg = 1 }) ∷ cell_of 98 (record plain { fg = 1; bg = 2 }) ∷ cell_of 99 (record plain { fg = 1 }) ∷ blank_row 9) ∷ []; row = 0; column = 0 }) None).bytes
        ≡ 27 ∷ codes "[0m" ++ 27 ∷ codes "[2J" ++ 27 ∷ codes "[1;1H" ++ 27 ∷ codes "[0;31ma" ++ 27 ∷ codes "[0;31;42mb" ++ 27 ∷ codes "[0;31mc" ++ 27 ∷ codes "[0m" ++ 27 ∷ codes "[1;1H" }
{}

/// A character with a mark, and characters of two columns: one that gives way to two letters, and one to another, of which both
/// columns are sent although the second does not differ.
fn characters_are_sent_whole()
    ensures mark { (update (Some (record { rows = blank_row 3 ∷ []; row = 0; column = 0 }))
        (record { rows = (First (record { base = 101; marks = 769 ∷ 0 ∷ 0 ∷ 0 ∷ 0 ∷ 0 ∷ []; count = 1; width = 1 }) plain ∷ cell_of 120 plain ∷ blank_row 1) ∷ []; row = 0; column = 0 }) None).bytes
        ≡ 27 ∷ codes "[1;1He" ++ 204 ∷ 129 ∷ 120 ∷ 27 ∷ codes "[1;1H" }
    ensures letters { (update (Some (record { rows = (cell_of 97 plain ∷ First (single 20013 2) plain ∷ Rest ∷ cell_of 98 plain ∷ []) ∷ []; row = 0; column = 0 }))
        (record { rows = plain_row (codes "axyb") ∷ []; row = 0; column = 0 }) None).bytes
        ≡ 27 ∷ codes "[1;2Hxy" ++ 27 ∷ codes "[1;1H" }
    ensures back { (update (Some (record { rows = plain_row (codes "axyb") ∷ []; row = 0; column = 0 }))
        (record { rows = (cell_of 97 plain ∷ First (single 20013 2) plain ∷ Rest ∷ cell_of 98 plain ∷ []) ∷ []; row = 0; column = 0 }) None).bytes
        ≡ 27 ∷ codes "[1;2H" ++ 228 ∷ 184 ∷ 173 ∷ 27 ∷ codes "[1;1H" }
    ensures other { (update (Some (record { rows = (cell_of 97 plain ∷ First (single 20013 2) plain ∷ Rest ∷ cell_of 98 plain ∷ []) ∷ []; row = 0; column = 0 }))
        (record { rows = (cell_of 97 plain ∷ First (single 26085 2) plain ∷ Rest ∷ cell_of 98 plain ∷ []) ∷ []; row = 0; column = 0 }) None).bytes
        ≡ 27 ∷ codes "[1;2H" ++ 230 ∷ 151 ∷ 165 ∷ 27 ∷ codes "[1;1H" }
{}
