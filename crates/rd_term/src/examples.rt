//! What the terminal shows in worked cases.
ghost use Rattle.std.specs.Prelude.{◌≡◌, [], ◌∷◌, ◌++◌, codes, Some, None, true, false};
ghost use Rattle.rd_base.specs.Cells.{single};
ghost use Rattle.rd_base.specs.declared.cell.Cell.TheVariants.{First, Rest};
ghost use Rattle.rd_base.specs.Faces.{plain};
ghost use Rattle.rd_term.specs.Pictures.{blank, blank_row};
ghost use Rattle.rd_term.specs.Terminals.{unknown, feed_bytes, show, cell_of, plain_row, Shows};

/// A screen of 12 columns and 3 rows after a clear, two rows and a move: the first row is full, the third is blank.
fn two_rows_are_written()
    ensures { Shows
        (feed_bytes (unknown 12 3) (27 ∷ codes "[0m" ++ 27 ∷ codes "[2J" ++ 27 ∷ codes "[1;1Habcdefghijk$" ++ 27 ∷ codes "[2;1Hx" ++ 27 ∷ codes "[1;1H"))
        (record {
          rows =
              plain_row (codes "abcdefghijk$")
              ∷ plain_row (codes "x           ")
              ∷ blank_row 12
              ∷ [];
          row = 0;
          column = 0;
        }) }
{}

/// After `abc` in the first row, that row is erased and `abc` stands in the second.
fn a_row_moves_down()
    ensures { Shows
        (feed_bytes (unknown 12 3) (27 ∷ codes "[0m" ++ 27 ∷ codes "[2J" ++ 27 ∷ codes "[1;1Habc" ++ 27 ∷ codes "[1;1H" ++ 27 ∷ codes "[K" ++ 27 ∷ codes "[2;1Habc" ++ 27 ∷ codes "[1;1H"))
        (record {
          rows = blank_row 12 ∷ plain_row (codes "abc         ") ∷ blank_row 12 ∷ [];
          row = 0;
          column = 0;
        }) }
{}

/// What makes a terminal confused: a character with no pen, one where a wait stands, an erasure where a wait stands, a
/// number with a leading zero, an empty number, a place that is off the screen, an unknown byte.
fn what_confuses()
    ensures pen { (feed_bytes (unknown 12 3) (27 ∷ codes "[1;1Ha")).confused ≡ true }
    ensures wait { (feed_bytes (unknown 12 3) (27 ∷ codes "[0m" ++ 27 ∷ codes "[1;12Hab")).confused ≡ true }
    ensures erasure { (feed_bytes (unknown 12 3) (27 ∷ codes "[0m" ++ 27 ∷ codes "[1;12Ha" ++ 27 ∷ codes "[K")).confused ≡ true }
    ensures zero { (feed_bytes (unknown 12 3) (27 ∷ codes "[01")).confused ≡ true }
    ensures empty { (feed_bytes (unknown 12 3) (27 ∷ codes "[1;H")).confused ≡ true }
    ensures place { (feed_bytes (unknown 12 3) (27 ∷ codes "[1;13H")).confused ≡ true }
    ensures byte { (feed_bytes (unknown 12 3) (10 ∷ [])).confused ≡ true }
{}

/// The numbers of a sequence change the pen one after another. One that is not known stays so until a 0. The wait stays.
fn pens_are_changed()
    ensures two { (feed_bytes (unknown 3 1) (27 ∷ codes "[0;1;31m")).pen ≡ Some (record plain { fg = 1; bold = true }) }
    ensures plain_again { (feed_bytes (unknown 3 1) (27 ∷ codes "[1;0;4;7;42m")).pen ≡ Some (record plain { bg = 2; underline = true; inverse = true }) }
    ensures not_known { (feed_bytes (unknown 3 1) (27 ∷ codes "[1;31m")).pen ≡ None }
    ensures obeyed { (feed_bytes (unknown 3 1) (27 ∷ codes "[1;31m")).confused ≡ false }
    ensures wait { (feed_bytes (unknown 3 1) (27 ∷ codes "[0m" ++ 27 ∷ codes "[1;3Ha" ++ 27 ∷ codes "[7m")).wait ≡ true }
    ensures no_number { (feed_bytes (unknown 3 1) (27 ∷ codes "[m")).confused ≡ true }
    ensures other { (feed_bytes (unknown 3 1) (27 ∷ codes "[0;38m")).confused ≡ true }
    ensures dressed { (feed_bytes (unknown 3 1) (27 ∷ codes "[0;1m" ++ 27 ∷ codes "[2J")).confused ≡ true }
{}

/// A character of two columns on a row of three: what is put over one of its columns, or erased from its second on, leaves the
/// other unknown. It needs its columns, and at the row's end the cursor stays in the last one.
fn wide_characters_are_cut()
    ensures put { (show 20013 (Some 2) (feed_bytes (unknown 3 1) (27 ∷ codes "[0m" ++ 27 ∷ codes "[2J" ++ 27 ∷ codes "[1;1H"))).rows
        ≡ (Some (First (single 20013 2) plain) ∷ Some Rest ∷ Some blank ∷ []) ∷ [] }
    ensures over_first { (feed_bytes (show 20013 (Some 2) (feed_bytes (unknown 3 1) (27 ∷ codes "[0m" ++ 27 ∷ codes "[2J" ++ 27 ∷ codes "[1;1H"))) (27 ∷ codes "[1;1Hx")).rows
        ≡ (Some (cell_of 120 plain) ∷ None ∷ Some blank ∷ []) ∷ [] }
    ensures over_second { (feed_bytes (show 20013 (Some 2) (feed_bytes (unknown 3 1) (27 ∷ codes "[0m" ++ 27 ∷ codes "[2J" ++ 27 ∷ codes "[1;1H"))) (27 ∷ codes "[1;2Hx")).rows
        ≡ (None ∷ Some (cell_of 120 plain) ∷ Some blank ∷ []) ∷ [] }
    ensures erased { (feed_bytes (show 20013 (Some 2) (feed_bytes (unknown 3 1) (27 ∷ codes "[0m" ++ 27 ∷ codes "[2J" ++ 27 ∷ codes "[1;1H"))) (27 ∷ codes "[1;2H" ++ 27 ∷ codes "[K")).rows
        ≡ (None ∷ Some blank ∷ Some blank ∷ []) ∷ [] }
    ensures room { (show 20013 (Some 2) (feed_bytes (unknown 3 1) (27 ∷ codes "[0m" ++ 27 ∷ codes "[1;3H"))).confused ≡ true }
    ensures cursor { (show 20013 (Some 2) (feed_bytes (unknown 3 1) (27 ∷ codes "[0m" ++ 27 ∷ codes "[1;2H"))).cursor ≡ Some (0, 2) }
    ensures wait { (show 20013 (Some 2) (feed_bytes (unknown 3 1) (27 ∷ codes "[0m" ++ 27 ∷ codes "[1;2H"))).wait ≡ true }
{}

/// A character of no column joins the one directly before it, a space too, and up to six join. One after a sequence, one at the
/// beginning and a seventh confuse.
fn marks_join()
    ensures letter { (show 769 (Some 0) (feed_bytes (unknown 2 1) (27 ∷ codes "[0m" ++ 27 ∷ codes "[1;1He"))).rows
        ≡ (Some (First (record { base = 101; marks = 769 ∷ 0 ∷ 0 ∷ 0 ∷ 0 ∷ 0 ∷ []; count = 1; width = 1 }) plain) ∷ None ∷ []) ∷ [] }
    ensures space { (show 777 (Some 0) (show 769 (Some 0) (feed_bytes (unknown 2 1) (27 ∷ codes "[0m" ++ 27 ∷ codes "[1;1H ")))).rows
        ≡ (Some (First (record { base = 32; marks = 769 ∷ 777 ∷ 0 ∷ 0 ∷ 0 ∷ 0 ∷ []; count = 2; width = 1 }) plain) ∷ None ∷ []) ∷ [] }
    ensures sequence { (show 769 (Some 0) (feed_bytes (unknown 2 1) (27 ∷ codes "[0m" ++ 27 ∷ codes "[1;1He" ++ 27 ∷ codes "[0m"))).confused ≡ true }
    ensures beginning { (show 769 (Some 0) (unknown 2 1)).confused ≡ true }
    ensures six { (show 769 (Some 0) (show 769 (Some 0) (show 769 (Some 0) (show 769 (Some 0) (show 769 (Some 0) (show 769 (Some 0)
        (feed_bytes (unknown 2 1) (27 ∷ codes "[0m" ++ 27 ∷ codes "[1;1He")))))))).confused ≡ false }
    ensures seventh { (show 769 (Some 0) (show 769 (Some 0) (show 769 (Some 0) (show 769 (Some 0) (show 769 (Some 0) (show 769 (Some 0) (show 769 (Some 0)
        (feed_bytes (unknown 2 1) (27 ∷ codes "[0m" ++ 27 ∷ codes "[1;1He"))))))))).confused ≡ true }
{}

/// Bytes that can't begin or go on a character confuse, and those that can do not.
fn bytes_of_no_character()
    ensures first { (feed_bytes (unknown 2 1) (128 ∷ [])).confused ≡ true }
    ensures overlong { (feed_bytes (unknown 2 1) (193 ∷ [])).confused ≡ true }
    ensures overlong_three { (feed_bytes (unknown 2 1) (224 ∷ 159 ∷ [])).confused ≡ true }
    ensures surrogate { (feed_bytes (unknown 2 1) (237 ∷ 160 ∷ [])).confused ≡ true }
    ensures overlong_four { (feed_bytes (unknown 2 1) (240 ∷ 143 ∷ [])).confused ≡ true }
    ensures past { (feed_bytes (unknown 2 1) (244 ∷ 144 ∷ [])).confused ≡ true }
    ensures last { (feed_bytes (unknown 2 1) (245 ∷ [])).confused ≡ true }
    ensures letter { (feed_bytes (unknown 2 1) (228 ∷ 184 ∷ 97 ∷ [])).confused ≡ true }
    ensures begun { (feed_bytes (unknown 2 1) (228 ∷ 184 ∷ [])).confused ≡ false }
{}

/// After ten letters in five rows, the region of the five, a move to the first and one row deleted, the row of `f` is sent: the
/// rows have moved up by one, the letter stands in the fifth, and the sixth was never moved.
fn a_region_moves_up()
    ensures { Shows
        (feed_bytes (unknown 3 6) (27 ∷ codes "[0m" ++ 27 ∷ codes "[2J" ++ 27 ∷ codes "[1;1Ha" ++ 27 ∷ codes "[2;1Hb" ++ 27 ∷ codes "[3;1Hc" ++ 27 ∷ codes "[4;1Hd" ++ 27 ∷ codes "[5;1He" ++ 27 ∷ codes "[6;1H!"
        ++ 27 ∷ codes "[1;5r" ++ 27 ∷ codes "[1;1H" ++ 27 ∷ codes "[1M" ++ 27 ∷ codes "[1;6r" ++ 27 ∷ codes "[5;1Hf" ++ 27 ∷ codes "[1;1H"))
        (record {
          rows =
              plain_row (codes "b  ")
              ∷ plain_row (codes "c  ")
              ∷ plain_row (codes "d  ")
              ∷ plain_row (codes "e  ")
              ∷ plain_row (codes "f  ")
              ∷ plain_row (codes "!  ")
              ∷ [];
          row = 0;
          column = 0;
        }) }
{}

/// An update of five rows that stopped after two of them, and the next one, which goes on.
fn an_update_that_stopped_is_gone_on_with()
    ensures { Shows
        (feed_bytes (unknown 3 6) (27 ∷ codes "[0m" ++ 27 ∷ codes "[2J" ++ 27 ∷ codes "[1;1Ha" ++ 27 ∷ codes "[2;1Hb"
        ++ 27 ∷ codes "[1;1HXa" ++ 27 ∷ codes "[3;1Hc" ++ 27 ∷ codes "[4;1Hd" ++ 27 ∷ codes "[5;1He" ++ 27 ∷ codes "[1;1H"))
        (record {
          rows =
              plain_row (codes "Xa ")
              ∷ plain_row (codes "b  ")
              ∷ plain_row (codes "c  ")
              ∷ plain_row (codes "d  ")
              ∷ plain_row (codes "e  ")
              ∷ blank_row 3
              ∷ [];
          row = 0;
          column = 0;
        }) }
{}

/// Rows that are inserted and deleted from the cursor's row to the region's last. Where fewer rows are left, all of them are
/// freed. Rows keep the cells that are not known.
fn rows_are_moved()
    ensures inserted { (feed_bytes (unknown 1 3) (27 ∷ codes "[0m" ++ 27 ∷ codes "[1;1Ha" ++ 27 ∷ codes "[3;1Hc" ++ 27 ∷ codes "[1;3r" ++ 27 ∷ codes "[1;1H" ++ 27 ∷ codes "[1L")).rows
        ≡ (Some blank ∷ []) ∷ (Some (cell_of 97 plain) ∷ []) ∷ (None ∷ []) ∷ [] }
    ensures deleted { (feed_bytes (unknown 1 3) (27 ∷ codes "[0m" ++ 27 ∷ codes "[1;1Ha" ++ 27 ∷ codes "[3;1Hc" ++ 27 ∷ codes "[1;3r" ++ 27 ∷ codes "[2;1H" ++ 27 ∷ codes "[1M")).rows
        ≡ (Some (cell_of 97 plain) ∷ []) ∷ (Some (cell_of 99 plain) ∷ []) ∷ (Some blank ∷ []) ∷ [] }
    ensures many { (feed_bytes (unknown 1 3) (27 ∷ codes "[0m" ++ 27 ∷ codes "[1;1Ha" ++ 27 ∷ codes "[3;1Hc" ++ 27 ∷ codes "[1;3r" ++ 27 ∷ codes "[2;1H" ++ 27 ∷ codes "[9L")).rows
        ≡ (Some (cell_of 97 plain) ∷ []) ∷ (Some blank ∷ []) ∷ (Some blank ∷ []) ∷ [] }
    ensures below { (feed_bytes (unknown 1 3) (27 ∷ codes "[0m" ++ 27 ∷ codes "[1;1Ha" ++ 27 ∷ codes "[3;1Hc" ++ 27 ∷ codes "[1;2r" ++ 27 ∷ codes "[1;1H" ++ 27 ∷ codes "[1M")).rows
        ≡ (None ∷ []) ∷ (Some blank ∷ []) ∷ (Some (cell_of 99 plain) ∷ []) ∷ [] }
    ensures cursor { (feed_bytes (unknown 1 3) (27 ∷ codes "[0m" ++ 27 ∷ codes "[1;3r" ++ 27 ∷ codes "[1;1H" ++ 27 ∷ codes "[1M")).cursor ≡ None }
    ensures mark { (show 769 (Some 0) (feed_bytes (unknown 2 2) (27 ∷ codes "[0m" ++ 27 ∷ codes "[1;2r" ++ 27 ∷ codes "[1;1He" ++ 27 ∷ codes "[1M"))).confused ≡ true }
{}

/// A region goes from one row to a lower one, both on the screen. It ends the wait and makes the cursor unknown.
fn regions_are_set()
    ensures region { (feed_bytes (unknown 2 3) (27 ∷ codes "[2;3r")).region ≡ Some (1, 2) }
    ensures cursor { (feed_bytes (unknown 2 3) (27 ∷ codes "[1;1H" ++ 27 ∷ codes "[1;2r")).cursor ≡ None }
    ensures wait { (feed_bytes (unknown 2 3) (27 ∷ codes "[0m" ++ 27 ∷ codes "[1;2Ha" ++ 27 ∷ codes "[1;2r")).wait ≡ false }
    ensures one_row { (feed_bytes (unknown 2 3) (27 ∷ codes "[2;2r")).confused ≡ true }
    ensures upward { (feed_bytes (unknown 2 3) (27 ∷ codes "[3;2r")).confused ≡ true }
    ensures zero { (feed_bytes (unknown 2 3) (27 ∷ codes "[0;2r")).confused ≡ true }
    ensures off { (feed_bytes (unknown 2 3) (27 ∷ codes "[1;4r")).confused ≡ true }
    ensures none { (feed_bytes (unknown 2 3) (27 ∷ codes "[r")).confused ≡ true }
{}

/// What rows need to be moved: a region, a cursor in it, a plain pen, no wait, and a number of at least 1.
fn what_moving_needs()
    ensures no_region { (feed_bytes (unknown 2 3) (27 ∷ codes "[0m" ++ 27 ∷ codes "[1;1H" ++ 27 ∷ codes "[1M")).confused ≡ true }
    ensures no_cursor { (feed_bytes (unknown 2 3) (27 ∷ codes "[0m" ++ 27 ∷ codes "[1;3r" ++ 27 ∷ codes "[1M")).confused ≡ true }
    ensures above { (feed_bytes (unknown 2 3) (27 ∷ codes "[0m" ++ 27 ∷ codes "[2;3r" ++ 27 ∷ codes "[1;1H" ++ 27 ∷ codes "[1M")).confused ≡ true }
    ensures below { (feed_bytes (unknown 2 3) (27 ∷ codes "[0m" ++ 27 ∷ codes "[1;2r" ++ 27 ∷ codes "[3;1H" ++ 27 ∷ codes "[1L")).confused ≡ true }
    ensures pen { (feed_bytes (unknown 2 3) (27 ∷ codes "[0;1m" ++ 27 ∷ codes "[1;3r" ++ 27 ∷ codes "[1;1H" ++ 27 ∷ codes "[1L")).confused ≡ true }
    ensures wait { (feed_bytes (unknown 2 3) (27 ∷ codes "[0m" ++ 27 ∷ codes "[1;3r" ++ 27 ∷ codes "[1;2Ha" ++ 27 ∷ codes "[1L")).confused ≡ true }
    ensures zero { (feed_bytes (unknown 2 3) (27 ∷ codes "[0m" ++ 27 ∷ codes "[1;3r" ++ 27 ∷ codes "[1;1H" ++ 27 ∷ codes "[0M")).confused ≡ true }
    ensures no_number { (feed_bytes (unknown 2 3) (27 ∷ codes "[0m" ++ 27 ∷ codes "[1;3r" ++ 27 ∷ codes "[1;1H" ++ 27 ∷ codes "[M")).confused ≡ true }
    ensures obeyed { (feed_bytes (unknown 2 3) (27 ∷ codes "[0m" ++ 27 ∷ codes "[1;3r" ++ 27 ∷ codes "[1;1H" ++ 27 ∷ codes "[1M")).confused ≡ false }
{}
