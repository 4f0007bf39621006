//! The definitions on worked examples.
ghost use Rattle.std.specs.Prelude.{◌≡◌, true, false, ◌∷◌, [], map, pos, negsuc};
ghost use Rattle.std.specs.List.{range_with_len};
ghost use Rattle.rd_rows.specs.Examples.{twelve_truncated};
ghost use Rattle.rd_start.specs.Chosen.{chosen_of, places_of};
ghost use Rattle.rd_start.specs.Examples.{one_letter_lines, two_and_one, seven_rows, window};
ghost use Rattle.rd_start.specs.Near.{is_near, near_costs};

/// Of ten lines the fifth is one row below the view: the start moves by one row. The last one is farther away: its row comes to
/// the middle.
fn a_start_follows_point()
    ensures near { chosen_of (one_letter_lines 10) twelve_truncated (record (window 4 1 9) { conservatively = 1 }) ≡ record { anchor = record { pos = 3; row = 0 }; point = 9 } }
    ensures far { chosen_of (one_letter_lines 10) twelve_truncated (record (window 4 3 19) { conservatively = 1 }) ≡ record { anchor = record { pos = 15; row = 0 }; point = 19 } }
    ensures at_once { chosen_of (one_letter_lines 10) twelve_truncated (window 4 1 19) ≡ record { anchor = record { pos = 15; row = 0 }; point = 19 } }
    ensures stays { chosen_of (one_letter_lines 10) twelve_truncated (window 4 5 11) ≡ record { anchor = record { pos = 5; row = 0 }; point = 11 } }
{}

/// A row is wanted below point's, but not at the text's end, and one above it, but not at the text's beginning.
fn a_margin_ends_with_the_text()
    ensures below { chosen_of (one_letter_lines 10) twelve_truncated (record (window 4 1 7) { margin = 3; conservatively = 1 }) ≡ record { anchor = record { pos = 3; row = 0 }; point = 7 } }
    ensures last { chosen_of (one_letter_lines 10) twelve_truncated (record (window 4 13 19) { margin = 3; conservatively = 1 }) ≡ record { anchor = record { pos = 13; row = 0 }; point = 19 } }
    ensures above { chosen_of (one_letter_lines 10) twelve_truncated (record (window 4 5 5) { margin = 3; conservatively = 1 }) ≡ record { anchor = record { pos = 3; row = 0 }; point = 5 } }
    ensures first { chosen_of (one_letter_lines 10) twelve_truncated (record (window 4 3 1) { margin = 3; conservatively = 1 }) ≡ record { anchor = record { pos = 1; row = 0 }; point = 1 } }
{}

/// Point moves to the first or the last position in view, and stays where no item begins there.
fn a_forced_start_moves_point()
    ensures down { chosen_of (one_letter_lines 3) twelve_truncated (record (window 3 3 1) { forced = true }) ≡ record { anchor = record { pos = 3; row = 0 }; point = 3 } }
    ensures up { chosen_of (one_letter_lines 10) twelve_truncated (record (window 4 1 19) { forced = true }) ≡ record { anchor = record { pos = 1; row = 0 }; point = 8 } }
    ensures none { chosen_of seven_rows twelve_truncated (record (window 2 1 1) { forced = true; anchor = record { pos = 1; row = 2 } }) ≡ record { anchor = record { pos = 1; row = 2 }; point = 1 } }
{}

/// Rows that are pending scroll a forced start, from row 0 to the last one.
fn a_forced_start_is_scrolled()
    ensures down { chosen_of (one_letter_lines 10) twelve_truncated (record (window 4 5 9) { forced = true; pending = pos 2 }) ≡ record { anchor = record { pos = 9; row = 0 }; point = 9 } }
    ensures up { chosen_of (one_letter_lines 10) twelve_truncated (record (window 4 5 5) { forced = true; pending = negsuc 0 }) ≡ record { anchor = record { pos = 3; row = 0 }; point = 5 } }
    ensures first { chosen_of (one_letter_lines 10) twelve_truncated (record (window 4 5 5) { forced = true; pending = negsuc 99 }) ≡ record { anchor = record { pos = 1; row = 0 }; point = 5 } }
    ensures last { chosen_of (one_letter_lines 10) twelve_truncated (record (window 4 5 5) { forced = true; pending = pos 100 }) ≡ record { anchor = record { pos = 19; row = 0 }; point = 19 } }
{}

/// An anchor that is no block's start, after the lines before it were joined, and one whose row is gone.
fn anchors_that_name_no_row()
    ensures inside { chosen_of two_and_one twelve_truncated (window 3 2 2) ≡ record { anchor = record { pos = 1; row = 0 }; point = 2 } }
    ensures gone { chosen_of (one_letter_lines 10) twelve_truncated (record (window 4 3 3) { anchor = record { pos = 3; row = 7 } }) ≡ record { anchor = record { pos = 3; row = 0 }; point = 3 } }
{}

/// Where the old start suits the rows in view are near; else also those round both the old start and point.
fn near_rows()
    ensures suits { map (is_near (window 3 7 7) (places_of (one_letter_lines 9) twelve_truncated (window 3 7 7))) (range_with_len 0 9)
        ≡ false ∷ false ∷ false ∷ true ∷ true ∷ true ∷ false ∷ false ∷ false ∷ [] }
    ensures seeks { map (is_near (window 1 3 13) (places_of (one_letter_lines 9) twelve_truncated (window 1 3 13))) (range_with_len 0 9)
        ≡ false ∷ true ∷ true ∷ false ∷ false ∷ true ∷ true ∷ true ∷ false ∷ [] }
    ensures costs { near_costs (one_letter_lines 9) twelve_truncated (window 1 3 13) ≡ 10 }
{}
