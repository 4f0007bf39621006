//! Worked examples. They have no body: what they promise is computed from the definitions.
ghost use Rattle.std.specs.Prelude.{◌≡◌, ℕ, ◌∷◌, [], map, Some, None};
ghost use Rattle.rd_matrix.specs.Cursors.{cursor_in};
ghost use Rattle.rd_objects.specs.Things.{nothing_made};
ghost use Rattle.rd_blocks.specs.Examples.{buffer, files};
ghost use Rattle.rd_visual.specs.Examples.{from_the_left, from_the_right, item, left_block, ranges_in, right_block, right_row, row_from_the_left, row_from_the_right, singles};
ghost use Rattle.rd_visual.specs.Hits.{hit_in};
ghost use Rattle.rd_visual.specs.Motion.{base_of, before, behind, left_of};

/// A row of twelve columns, of a block that begins at 5: an item that covers nothing in column 0, two items in column 2 and one in
/// column 4.
fn hits_in_a_row()
    ensures before { hit_in (row_from_the_left (item 0 0 0 ∷ item 0 2 2 ∷ item 2 3 2 ∷ item 3 4 4 ∷ [])) 0 1 ≡ None }
    ensures first { hit_in (row_from_the_left (item 0 2 2 ∷ item 2 3 2 ∷ item 3 4 4 ∷ [])) 0 3 ≡ Some 5 }
    ensures last { hit_in (row_from_the_left (item 0 2 2 ∷ item 3 4 4 ∷ [])) 0 11 ≡ Some 8 }
    ensures outside { hit_in (row_from_the_left (item 0 2 2 ∷ [])) 0 12 ≡ None }
    ensures below { hit_in (row_from_the_left (item 0 2 2 ∷ [])) 1 3 ≡ None }
{}

/// A row of twelve columns that is read from the right edge: its item in the reading column 1 is shown in column 10.
fn hits_in_a_row_from_the_right_edge()
    ensures right_of { hit_in (row_from_the_right (item 1 2 1 ∷ [])) 0 11 ≡ None }
    ensures left_of { hit_in (row_from_the_right (item 1 2 1 ∷ [])) 0 9 ≡ Some 6 }
    ensures cell { cursor_in 6 (row_from_the_right (item 1 2 1 ∷ [])) ≡ Some (0, 10) }
{}

/// The line of two letters that are read from the right, a blank and 12, which is read from the right edge: the items that two of its
/// cells show, the cell of its fourth item, its items in visual order, and steps from its end backwards, backwards again and forwards.
fn steps_in_a_line_from_the_right_edge()
    ensures hit { hit_in (right_row ∷ []) 0 10 ≡ Some 2 }
    ensures end { hit_in (right_row ∷ []) 0 3 ≡ Some 6 }
    ensures cell { cursor_in 4 (right_row ∷ []) ≡ Some (0, 7) }
    ensures ranges { ranges_in from_the_right right_block ≡ singles (1 ∷ 2 ∷ 3 ∷ 5 ∷ 4 ∷ 6 ∷ []) }
    ensures backward { map (λ (pos : ℕ). before pos (singles (1 ∷ 2 ∷ 3 ∷ 5 ∷ 4 ∷ 6 ∷ []))) (6 ∷ 4 ∷ 1 ∷ []) ≡ Some 4 ∷ Some 5 ∷ None ∷ [] }
    ensures forward { behind 5 (singles (1 ∷ 2 ∷ 3 ∷ 5 ∷ 4 ∷ 6 ∷ [])) ≡ Some 4 }
{}

/// An a, two letters that are read from the right, and a b, read from the left edge: its items in visual order, the steps forwards,
/// and that its block is read from that edge; and a text of nothing.
fn steps_in_a_line_from_the_left_edge()
    ensures ranges { ranges_in from_the_left left_block ≡ singles (1 ∷ 3 ∷ 2 ∷ 4 ∷ 5 ∷ []) }
    ensures forward { map (λ (pos : ℕ). behind pos (singles (1 ∷ 3 ∷ 2 ∷ 4 ∷ 5 ∷ []))) (1 ∷ 3 ∷ 2 ∷ 5 ∷ []) ≡ Some 3 ∷ Some 2 ∷ Some 4 ∷ None ∷ [] }
    ensures base { base_of (left_block ∷ record { start = 6; end = 7; base = 1 } ∷ []) 5 ≡ 0 }
    ensures nothing { left_of (buffer []) nothing_made files 1 ≡ None }
{}
