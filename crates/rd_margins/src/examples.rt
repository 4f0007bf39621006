//! The definitions on worked examples.
ghost use Rattle.std.specs.Prelude.{◌≡◌, ◌∷◌, [], codes, None, Some, false, pos};
ghost use Rattle.std.specs.FinMap.{get};
ghost use Rattle.rd_base.specs.Faces.{plain};
ghost use Rattle.rd_base.specs.Glyphs.{blanks};
ghost use Rattle.rd_base.specs.declared.cell.Cell.TheVariants.{Blank};
ghost use Rattle.rd_overlays.specs.Overlays.{new_overlay};
ghost use Rattle.rd_margins.specs.Cells.{number_cells, row_margin, sign};
ghost use Rattle.rd_margins.specs.Marks.{MarkValues, margin_string};

/// Numbers in four columns, of which the last is blank; a number of more digits than three; and margins of one column and of none.
fn numbers_of_lines()
    ensures one { number_cells 4 (Some 1) ≡ Blank plain ∷ Blank plain ∷ sign 49 ∷ Blank plain ∷ [] }
    ensures full { number_cells 4 (Some 207) ≡ sign 50 ∷ sign 48 ∷ sign 55 ∷ Blank plain ∷ [] }
    ensures many { number_cells 4 (Some 1000) ≡ sign 43 ∷ sign 43 ∷ sign 43 ∷ Blank plain ∷ [] }
    ensures narrow { number_cells 1 (Some 7) ≡ Blank plain ∷ [] }
    ensures none { number_cells 0 (Some 7) ≡ [] }
    ensures behind { number_cells 3 None ≡ blanks 3 plain }
{}

/// Beside the rows of a block whose line has the number 2, and whose margin string is `>>` or longer than its columns.
fn margins_beside_rows()
    ensures number { row_margin [] (record { numbers = 4; strings = 0 }) 0 2 [] ≡ Blank plain ∷ Blank plain ∷ sign 50 ∷ Blank plain ∷ [] }
    ensures string { row_margin [] (record { numbers = 0; strings = 3 }) 0 1 (codes ">>") ≡ sign 62 ∷ sign 62 ∷ Blank plain ∷ [] }
    ensures cut { row_margin [] (record { numbers = 0; strings = 3 }) 0 1 (codes "todo") ≡ sign 116 ∷ sign 111 ∷ sign 100 ∷ [] }
    ensures both { row_margin [] (record { numbers = 3; strings = 2 }) 0 2 (codes "!") ≡ Blank plain ∷ sign 50 ∷ Blank plain ∷ sign 33 ∷ Blank plain ∷ [] }
    ensures later { row_margin [] (record { numbers = 4; strings = 3 }) 1 2 (codes ">>") ≡ blanks 7 plain }
{}

/// Of two overlays with margin strings that cover a position, the one of greater priority counts, and where both have the same
/// priority the later one; one without a margin string does not count, and no empty one.
fn strings_of_overlays()
    ensures priority { (marks : MarkValues) → get marks 0 ≡ Some 5 → get marks 1 ≡ Some 6
        → margin_string marks (Some (new_overlay 1 3 (pos 1) false false) ∷ Some (new_overlay 1 3 (pos 0) false false) ∷ []) 2 ≡ Some 5 }
    ensures number { (marks : MarkValues) → get marks 0 ≡ Some 5 → get marks 1 ≡ Some 6
        → margin_string marks (Some (new_overlay 1 3 (pos 0) false false) ∷ Some (new_overlay 2 3 (pos 0) false false) ∷ []) 2 ≡ Some 6 }
    ensures unmarked { (marks : MarkValues) → get marks 0 ≡ Some 5 → get marks 1 ≡ None
        → margin_string marks (Some (new_overlay 1 3 (pos 0) false false) ∷ Some (new_overlay 1 3 (pos 9) false false) ∷ []) 2 ≡ Some 5 }
    ensures elsewhere { (marks : MarkValues) → margin_string marks (Some (new_overlay 1 2 (pos 0) false false) ∷ Some (new_overlay 2 2 (pos 0) false false) ∷ None ∷ []) 2 ≡ None }
{}
