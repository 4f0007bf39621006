//! The definitions on worked examples. They have no body: what they promise is computed from the definitions.
#![tactic(auto, unfolding(crate::specs::Screens::laid_out, rd_state::specs::Steps::step, rd_state::specs::Effects::effect_of, rd_tree::specs::Calls::split_tree, rd_tree::specs::Calls::remove_tree, rd_tree::specs::Calls::resize_tree, rd_tree::specs::Calls::mode_tree, rd_tree::specs::Calls::margins_tree))]

ghost use Rattle.std.specs.Prelude.{◌≡◌, ◌∷◌, ◌++◌, [], true, false, None, Some, Ok, Err, pos, codes};
ghost use Rattle.rd_base.specs.Faces.{plain};
ghost use Rattle.rd_script.specs.declared.op.Op.TheVariants.{Frame, Buffer, Insert, TypeText, Overlay, OverlayDrop, AddString, AddFace, Split, Remove, Show, Point, Start, Scroll, ModeLine, Echo, Redisplay, Shift, Go, Hit, Margin};
ghost use Rattle.rd_frame.specs.Examples.{inverted};
ghost use Rattle.rd_props.specs.Examples.{whole_text};
ghost use Rattle.rd_term.specs.Terminals.{plain_row};
ghost use Rattle.rd_tree.specs.declared.side.Side.TheVariants.{Below, Right};
ghost use Rattle.rd_state.specs.Examples.{told};
ghost use Rattle.rd_state.specs.States.{main_name};
ghost use Rattle.rd_state.specs.declared.refused.Refused.TheVariants.{NoWindow, NotShown};
ghost use Rattle.rd_layout.specs.Examples.{after, bytes_of, each_in_a_line, point_and_cursor, row_of, side_by_side, turned, turning, unscreened};
ghost use Rattle.rd_layout.specs.Numbers.{number_made};
ghost use Rattle.rd_layout.specs.Readings.{buffer_shown, text_named};
ghost use Rattle.rd_layout.specs.Redisplays.{allowed, update_of};
ghost use Rattle.rd_layout.specs.Spots.{spot_at};
ghost use Rattle.rd_layout.specs.declared.spot.Shows.TheVariants.{Position, NoPosition, Unknown};
ghost use Rattle.rd_layout.specs.declared.spot.Spot.TheVariants.{Text, Margin as MarginSpot, Border, ModeLine as ModeSpot, EchoArea};

/// Three lines: all of them are new at the first redisplay, nothing is laid out at the second, and at the third only the changed line.
fn what_is_kept_costs_nothing()
    ensures first { told allowed (after (Frame 12 4 ∷ Insert main_name 1 (each_in_a_line (codes "abc")) ∷ [])) ≡ Ok 18 }
    ensures second { told allowed (after (Frame 12 4 ∷ Insert main_name 1 (each_in_a_line (codes "abc")) ∷ Redisplay None ∷ [])) ≡ Ok 0 }
    ensures third { told allowed (after (Frame 12 4 ∷ Insert main_name 1 (each_in_a_line (codes "abc")) ∷ Redisplay None ∷ Redisplay None ∷ Insert main_name 5 (codes "x") ∷ [])) ≡ Ok 9 }
{}

/// Seven lines: with a letter before the first that is read from the right its paragraph turns, so that none of the first six lines keeps
/// its rows, though only one of them was edited; the last line, behind an empty one, keeps its own. Three times twelve elements may be
/// placed: three of the first line, two of each of the next four and one of the empty line.
fn a_paragraph_that_turns_is_laid_out_anew()
    ensures session { told unscreened (after turning) ≡ Ok turned }
    ensures cost { told allowed (after turning) ≡ Ok 36 }
{}

/// A redisplay that may send no row clears the screen, and the next one sends what is missing.
fn a_stopped_redisplay_is_made_good()
    ensures stopped { told (bytes_of (Some 0)) (after (Frame 12 2 ∷ Insert main_name 1 (codes "abc") ∷ [])) ≡ Ok (27 ∷ codes "[0m" ++ 27 ∷ codes "[2J") }
    ensures rows { told (λ v. (update_of v (Some 0)).rows) (after (Frame 12 2 ∷ Insert main_name 1 (codes "abc") ∷ [])) ≡ Ok 0 }
    ensures next { told (bytes_of None) (after (Frame 12 2 ∷ Insert main_name 1 (codes "abc") ∷ Redisplay (Some 0) ∷ [])) ≡ Ok (27 ∷ codes "[1;1Habc" ++ 27 ∷ codes "[1;1H") }
{}

/// The echo area is the frame's last row.
fn the_echo_area_is_shown()
    ensures { told (bytes_of None) (after (Frame 12 2 ∷ Echo (codes "hi") ∷ [])) ≡ Ok (27 ∷ codes "[0m" ++ 27 ∷ codes "[2J" ++ 27 ∷ codes "[2;1Hhi" ++ 27 ∷ codes "[1;1H") }
{}

/// Ten lines in five rows, scrolled by one: where the terminal may shift rows it moves four of them, and the fifth is sent.
fn rows_are_shifted()
    ensures { told (bytes_of None) (after (Frame 12 6 ∷ Insert main_name 1 (each_in_a_line (codes "abcdefghij")) ∷ Shift true ∷ Redisplay None ∷ Scroll 0 (pos 1) ∷ [])) ≡ Ok (27 ∷ codes "[1;5r" ++ 27 ∷ codes "[1;1H" ++ 27 ∷ codes "[1M" ++ 27 ∷ codes "[1;6r" ++ 27 ∷ codes "[5;1Hf" ++ 27 ∷ codes "[1;1H") }
{}

/// Numbers stand beside two lines. A line that is put before them moves their numbers, which costs nothing, and the last line is kept.
fn numbers_stand_beside_lines()
    ensures first { told (bytes_of None) (after (Frame 16 4 ∷ Insert main_name 1 (each_in_a_line (codes "ab")) ∷ Margin 0 4 0 ∷ [])) ≡ Ok (27 ∷ codes "[0m" ++ 27 ∷ codes "[2J" ++ 27 ∷ codes "[1;3H1 a" ++ 27 ∷ codes "[2;3H2 b" ++ 27 ∷ codes "[1;5H") }
    ensures second { told (bytes_of None) (after (Frame 16 4 ∷ Insert main_name 1 (each_in_a_line (codes "ab")) ∷ Margin 0 4 0 ∷ Redisplay None ∷ Insert main_name 1 (10 ∷ []) ∷ [])) ≡ Ok (27 ∷ codes "[1;5H" ++ 27 ∷ codes "[K" ++ 27 ∷ codes "[2;5Ha" ++ 27 ∷ codes "[3;3H3 b" ++ 27 ∷ codes "[1;5H") }
    ensures cost { told allowed (after (Frame 16 4 ∷ Insert main_name 1 (each_in_a_line (codes "ab")) ∷ Margin 0 4 0 ∷ Redisplay None ∷ Insert main_name 1 (10 ∷ []) ∷ [])) ≡ Ok 9 }
{}

/// Hits and steps in a line that is read from the right edge: its letters r and t stand in the last two columns, a blank before them,
/// and 12 before that.
fn point_moves_by_what_is_seen()
    ensures letter { told point_and_cursor (after (Frame 12 2 ∷ TypeText (codes "rt 12") ∷ Redisplay None ∷ Hit 0 0 10 ∷ [])) ≡ Ok (2, Some (0, 10)) }
    ensures end { told point_and_cursor (after (Frame 12 2 ∷ TypeText (codes "rt 12") ∷ Redisplay None ∷ Hit 0 0 3 ∷ [])) ≡ Ok (6, Some (0, 6)) }
    ensures right { told point_and_cursor (after (Frame 12 2 ∷ TypeText (codes "rt 12") ∷ Redisplay None ∷ Hit 0 0 3 ∷ Go 0 true ∷ [])) ≡ Ok (4, Some (0, 7)) }
    ensures further { told point_and_cursor (after (Frame 12 2 ∷ TypeText (codes "rt 12") ∷ Redisplay None ∷ Hit 0 0 3 ∷ Go 0 true ∷ Go 0 true ∷ [])) ≡ Ok (5, Some (0, 8)) }
    ensures left { told point_and_cursor (after (Frame 12 2 ∷ TypeText (codes "rt 12") ∷ Redisplay None ∷ Hit 0 0 3 ∷ Go 0 true ∷ Go 0 true ∷ Go 0 false ∷ [])) ≡ Ok (4, Some (0, 7)) }
    ensures none { told point_and_cursor (after (Go 0 false ∷ [])) ≡ Ok (1, None) }
{}

/// What was not shown, or changed since, is not hit: an edit of nothing is a change too.
fn what_is_not_shown_is_not_hit()
    ensures never { after (Hit 0 0 0 ∷ []) ≡ Err NotShown }
    ensures changed { after (Frame 12 2 ∷ Redisplay None ∷ Insert main_name 1 [] ∷ Hit 0 0 0 ∷ []) ≡ Err NotShown }
    ensures shape { after (Frame 12 2 ∷ Redisplay None ∷ Frame 13 2 ∷ Hit 0 0 0 ∷ []) ≡ Err NotShown }
    ensures window { after (Hit 1 0 0 ∷ []) ≡ Err NoWindow }
    ensures echoed { told point_and_cursor (after (Frame 12 2 ∷ Redisplay None ∷ Echo (codes "hi") ∷ Hit 0 0 0 ∷ [])) ≡ Ok (1, Some (0, 0)) }
{}

/// Two windows side by side on eight lines, the left one with a border, both with mode lines: a line that is put before what they show
/// moves their starts, so that they show what they showed, at no cost, and the mode lines tell another line and another share.
fn mode_lines_follow_the_text()
    ensures text { told (row_of 0) (after (Frame 24 5 ∷ Insert main_name 1 (each_in_a_line (codes "12345678")) ∷ ModeLine 0 (Some (codes "%b %l %p")) ∷ Split 0 Right 12 ∷ Start 0 5 0 ∷ Start 1 5 0 ∷ Point 0 5 ∷ Point 1 5 ∷ Redisplay None ∷ Insert main_name 1 (48 ∷ 10 ∷ []) ∷ [])) ≡ Ok (Some (plain_row (codes "3          |3           "))) }
    ensures modes { told (row_of 3) (after (Frame 24 5 ∷ Insert main_name 1 (each_in_a_line (codes "12345678")) ∷ ModeLine 0 (Some (codes "%b %l %p")) ∷ Split 0 Right 12 ∷ Start 0 5 0 ∷ Start 1 5 0 ∷ Point 0 5 ∷ Point 1 5 ∷ Redisplay None ∷ Insert main_name 1 (48 ∷ 10 ∷ []) ∷ [])) ≡ Ok (Some (inverted (codes "main 4 36%  main 4 36%  "))) }
    ensures cost { told allowed (after (Frame 24 5 ∷ Insert main_name 1 (each_in_a_line (codes "12345678")) ∷ ModeLine 0 (Some (codes "%b %l %p")) ∷ Split 0 Right 12 ∷ Start 0 5 0 ∷ Start 1 5 0 ∷ Point 0 5 ∷ Point 1 5 ∷ Redisplay None ∷ Insert main_name 1 (48 ∷ 10 ∷ []) ∷ [])) ≡ Ok 0 }
{}

/// Buffers are told by the windows that show them, and their texts by their names.
fn buffers_are_told_by_windows_and_names()
    ensures first { told (λ v. buffer_shown 0 v.state) (after []) ≡ Ok (Some main_name) }
    ensures other { told (λ v. buffer_shown 1 v.state) (after (Buffer (codes "x") ∷ Split 0 Below 5 ∷ Show 1 (codes "x") ∷ [])) ≡ Ok (Some (codes "x")) }
    ensures gone { told (λ v. buffer_shown 1 v.state) (after []) ≡ Ok None }
    ensures text { told (λ v. text_named main_name v.state.buffers) (after (TypeText (codes "ab") ∷ [])) ≡ Ok (Some (whole_text (codes "ab"))) }
    ensures unknown { told (λ v. text_named (codes "x") v.state.buffers) (after []) ≡ Ok None }
{}

/// Numbers count from 0 in order of making: a window and an overlay that went leave theirs unused.
fn what_is_made_has_the_next_number()
    ensures buffer { told (λ v. number_made v.state (Buffer (codes "x"))) (after []) ≡ Ok (Some 1) }
    ensures window { told (λ v. number_made v.state (Split 0 Below 5)) (after (Split 0 Below 5 ∷ Remove 1 ∷ [])) ≡ Ok (Some 2) }
    ensures overlay { told (λ v. number_made v.state (Overlay main_name 1 1 (pos 0) false false)) (after (Overlay main_name 1 1 (pos 0) false false ∷ OverlayDrop main_name 0 ∷ [])) ≡ Ok (Some 1) }
    ensures elsewhere { told (λ v. number_made v.state (Overlay (codes "x") 1 1 (pos 0) false false)) (after (Overlay main_name 1 1 (pos 0) false false ∷ Buffer (codes "x") ∷ [])) ≡ Ok (Some 0) }
    ensures string { told (λ v. number_made v.state (AddString (codes "x") [])) (after (AddFace plain ∷ AddString (codes "x") [] ∷ [])) ≡ Ok (Some 1) }
    ensures face { told (λ v. number_made v.state (AddFace plain)) (after (AddString (codes "x") [] ∷ [])) ≡ Ok (Some 0) }
    ensures nothing { told (λ v. number_made v.state (Point 0 1)) (after []) ≡ Ok None }
{}

/// Cells of two windows side by side: their parts, and what their texts show as long as nothing changes.
fn cells_tell_what_stands_there()
    ensures letter { told (λ v. spot_at v 0 5) (after (side_by_side ++ Redisplay None ∷ [])) ≡ Ok (Some (Text 0 0 1 (Position 2))) }
    ensures right { told (λ v. spot_at v 0 22) (after (side_by_side ++ Redisplay None ∷ [])) ≡ Ok (Some (Text 1 0 0 (Position 1))) }
    ensures blank { told (λ v. spot_at v 1 5) (after (side_by_side ++ Redisplay None ∷ [])) ≡ Ok (Some (Text 0 1 1 NoPosition)) }
    ensures new { told (λ v. spot_at v 0 5) (after side_by_side) ≡ Ok (Some (Text 0 0 1 Unknown)) }
    ensures changed { told (λ v. spot_at v 0 5) (after (side_by_side ++ Redisplay None ∷ Insert main_name 3 (codes "c") ∷ [])) ≡ Ok (Some (Text 0 0 1 Unknown)) }
    ensures margin { told (λ v. spot_at v 2 3) (after side_by_side) ≡ Ok (Some (MarginSpot 0)) }
    ensures border { told (λ v. spot_at v 2 17) (after side_by_side) ≡ Ok (Some (Border 0)) }
    ensures mode { told (λ v. spot_at v 3 17) (after side_by_side) ≡ Ok (Some (ModeSpot 0)) }
    ensures echo { told (λ v. spot_at v 4 0) (after side_by_side) ≡ Ok (Some EchoArea) }
    ensures below { told (λ v. spot_at v 5 0) (after side_by_side) ≡ Ok None }
    ensures aside { told (λ v. spot_at v 0 36) (after side_by_side) ≡ Ok None }
{}
