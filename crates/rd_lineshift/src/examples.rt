//! Shifts, choices and updates in worked cases.
ghost use Rattle.std.specs.Prelude.{◌≡◌, ℕ, [], ◌∷◌, ◌++◌, codes, None, Some, true, false, pos, negsuc};
ghost use Rattle.rd_term.specs.Pictures.{Picture, blank_row};
ghost use Rattle.rd_term.specs.Terminals.{plain_row};
ghost use Rattle.rd_lineshift.specs.Shifts.{moved, shifted_rows, shift_bytes};
ghost use Rattle.rd_lineshift.specs.Choices.{shifts_of, choice};
ghost use Rattle.rd_lineshift.specs.Plans.{shifted_update};

/// Five rows that scroll up by one, above a row that stays: with their band the terminal moves them and one row is sent, and without
/// a band all five are sent.
fn a_band_moves_up()
    ensures { let old : Picture = record { rows = plain_row (codes "a           ") ∷ plain_row (codes "b           ") ∷ plain_row (codes "c           ") ∷ plain_row (codes "d           ") ∷ plain_row (codes "e           ") ∷ blank_row 12 ∷ []; row = 0; column = 0 } in
        let new : Picture = record { rows = plain_row (codes "b           ") ∷ plain_row (codes "c           ") ∷ plain_row (codes "d           ") ∷ plain_row (codes "e           ") ∷ plain_row (codes "f           ") ∷ blank_row 12 ∷ []; row = 0; column = 0 } in
        (shifted_update (Some old) new ((record { top = 0; height = 5 }) ∷ []) None
        ≡ record {
          bytes = 27 ∷ codes "[1;5r" ++ 27 ∷ codes "[1;1H" ++ 27 ∷ codes "[1M" ++ 27 ∷ codes "[1;6r" ++ 27 ∷ codes "[5;1Hf" ++ 27 ∷ codes "[1;1H";
          rows = 1;
          done = true;
          screen = new;
        })
        × (shifted_update (Some old) new [] None
        ≡ record {
          bytes = 27 ∷ codes "[1;1Hb" ++ 27 ∷ codes "[2;1Hc" ++ 27 ∷ codes "[3;1Hd" ++ 27 ∷ codes "[4;1He" ++ 27 ∷ codes "[5;1Hf" ++ 27 ∷ codes "[1;1H";
          rows = 5;
          done = true;
          screen = new;
        }) }
{}

/// The bytes of the shift go out where no row may be sent, and the shifted screen is then the current one, with the old cursor.
/// An unknown screen is not shifted.
fn a_stopped_update_is_shifted()
    ensures stopped { shifted_update (Some (record { rows = plain_row (codes "a") ∷ plain_row (codes "b") ∷ plain_row (codes "c") ∷ plain_row (codes "d") ∷ []; row = 2; column = 0 }))
        (record { rows = plain_row (codes "b") ∷ plain_row (codes "c") ∷ plain_row (codes "d") ∷ plain_row (codes "e") ∷ []; row = 1; column = 0 })
        ((record { top = 0; height = 4 }) ∷ []) (Some 0)
        ≡ record {
          bytes = 27 ∷ codes "[1;4r" ++ 27 ∷ codes "[1;1H" ++ 27 ∷ codes "[1M" ++ 27 ∷ codes "[1;4r";
          rows = 0;
          done = false;
          screen = record { rows = plain_row (codes "b") ∷ plain_row (codes "c") ∷ plain_row (codes "d") ∷ blank_row 1 ∷ []; row = 2; column = 0 };
        } }
    ensures unknown { choice None (record { rows = plain_row (codes "b") ∷ plain_row (codes "c") ∷ plain_row (codes "d") ∷ plain_row (codes "e") ∷ []; row = 0; column = 0 })
        ((record { top = 0; height = 4 }) ∷ []) ≡ None }
{}

/// Rows that are moved up or down by one or two, and a band within a screen.
fn rows_are_moved()
    ensures up { moved {A = ℕ} (pos 1) 0 (1 ∷ 2 ∷ 3 ∷ 4 ∷ []) ≡ 2 ∷ 3 ∷ 4 ∷ 0 ∷ [] }
    ensures down { moved {A = ℕ} (negsuc 1) 0 (1 ∷ 2 ∷ 3 ∷ 4 ∷ []) ≡ 0 ∷ 0 ∷ 1 ∷ 2 ∷ [] }
    ensures within { shifted_rows {A = ℕ} (record { top = 1; height = 3; by = pos 2 }) 0 (1 ∷ 2 ∷ 3 ∷ 4 ∷ 5 ∷ []) ≡ 1 ∷ 4 ∷ 0 ∷ 0 ∷ 5 ∷ [] }
    ensures bytes { shift_bytes 24 (record { top = 1; height = 3; by = negsuc 1 }) ≡ 27 ∷ codes "[2;4r" ++ 27 ∷ codes "[2;1H" ++ 27 ∷ codes "[2L" ++ 27 ∷ codes "[1;24r" }
{}

/// The shifts of a band, in the order in which they are tried. A band of one row has none.
fn shifts_of_a_band()
    ensures three { shifts_of (record { top = 2; height = 3 })
        ≡ record { top = 2; height = 3; by = pos 1 } ∷ record { top = 2; height = 3; by = negsuc 0 } ∷ record { top = 2; height = 3; by = pos 2 } ∷ record { top = 2; height = 3; by = negsuc 1 } ∷ [] }
    ensures one { shifts_of (record { top = 2; height = 1 }) ≡ [] }
    ensures none { shifts_of (record { top = 2; height = 0 }) ≡ [] }
{}

/// Of shifts of one cost the one of the first band is taken, of one band the one by the fewest rows, and of those the one
/// upward.
fn ties_are_broken()
    ensures bands { choice (Some (record { rows = plain_row (codes "a") ∷ plain_row (codes "b") ∷ plain_row (codes "c") ∷ plain_row (codes "d") ∷ plain_row (codes "a") ∷ plain_row (codes "b") ∷ plain_row (codes "c") ∷ plain_row (codes "d") ∷ []; row = 0; column = 0 }))
        (record { rows = plain_row (codes "b") ∷ plain_row (codes "c") ∷ plain_row (codes "d") ∷ plain_row (codes " ") ∷ plain_row (codes "b") ∷ plain_row (codes "c") ∷ plain_row (codes "d") ∷ plain_row (codes " ") ∷ []; row = 0; column = 0 })
        ((record { top = 4; height = 4 }) ∷ (record { top = 0; height = 4 }) ∷ [])
        ≡ Some (record { top = 4; height = 4; by = pos 1 }) }
    ensures fewest { choice (Some (record { rows = plain_row (codes "a") ∷ plain_row (codes "b") ∷ plain_row (codes "a") ∷ plain_row (codes "b") ∷ plain_row (codes "a") ∷ plain_row (codes "b") ∷ plain_row (codes "a") ∷ plain_row (codes "b") ∷ []; row = 0; column = 0 }))
        (record { rows = plain_row (codes "b") ∷ plain_row (codes "a") ∷ plain_row (codes "b") ∷ plain_row (codes "a") ∷ plain_row (codes "b") ∷ plain_row (codes "x") ∷ plain_row (codes "y") ∷ plain_row (codes "z") ∷ []; row = 0; column = 0 })
        ((record { top = 0; height = 8 }) ∷ [])
        ≡ Some (record { top = 0; height = 8; by = pos 1 }) }
    ensures upward { choice (Some (record { rows = plain_row (codes "a") ∷ plain_row (codes "b") ∷ plain_row (codes "a") ∷ plain_row (codes "b") ∷ plain_row (codes "a") ∷ plain_row (codes "b") ∷ []; row = 0; column = 0 }))
        (record { rows = plain_row (codes "x") ∷ plain_row (codes "a") ∷ plain_row (codes "b") ∷ plain_row (codes "a") ∷ plain_row (codes "b") ∷ plain_row (codes "y") ∷ []; row = 0; column = 0 })
        ((record { top = 0; height = 6 }) ∷ [])
        ≡ Some (record { top = 0; height = 6; by = pos 1 }) }
{}

/// A shift must leave at least three rows fewer to send.
fn a_shift_gains_three_rows()
    ensures three { choice (Some (record { rows = plain_row (codes "a") ∷ plain_row (codes "b") ∷ plain_row (codes "c") ∷ []; row = 0; column = 0 }))
        (record { rows = blank_row 1 ∷ plain_row (codes "a") ∷ plain_row (codes "b") ∷ []; row = 0; column = 0 })
        ((record { top = 0; height = 3 }) ∷ []) ≡ Some (record { top = 0; height = 3; by = negsuc 0 }) }
    ensures two { choice (Some (record { rows = plain_row (codes "a") ∷ plain_row (codes "b") ∷ plain_row (codes "c") ∷ []; row = 0; column = 0 }))
        (record { rows = plain_row (codes "x") ∷ plain_row (codes "a") ∷ plain_row (codes "b") ∷ []; row = 0; column = 0 })
        ((record { top = 0; height = 3 }) ∷ []) ≡ None }
{}
