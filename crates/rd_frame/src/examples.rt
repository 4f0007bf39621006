//! The definitions on worked examples.
ghost use Rattle.std.specs.Prelude.{ℕ, ◌≡◌, ◌∷◌, [], codes, None, Some};
ghost use Rattle.rd_base.specs.Cells.{single};
ghost use Rattle.rd_base.specs.Faces.{plain};
ghost use Rattle.rd_base.specs.declared.cell.Cell.TheVariants.{Blank, First};
ghost use Rattle.rd_term.specs.Pictures.{blank_row};
ghost use Rattle.rd_term.specs.Terminals.{plain_row};
ghost use Rattle.rd_frame.specs.Examples.{inverted, beside_each_other, numbered_lines, above_another};
ghost use Rattle.rd_frame.specs.Frames.{frame_picture};
ghost use Rattle.rd_frame.specs.Panes.{border_cell};
ghost use Rattle.rd_frame.specs.Paints.{with_rectangle, with_echo};

/// The left window has a border beside its text and none beside its mode line, the right one reaches the frame's edge.
fn windows_side_by_side()
    ensures screen { frame_picture beside_each_other ≡ record {
      rows =
          plain_row (codes "3          |3           ")
          ∷ plain_row (codes "4          |4           ")
          ∷ plain_row (codes "5          |5           ")
          ∷ inverted (codes "main 3 27%  main 3 27%  ")
          ∷ blank_row 24
          ∷ [];
      row = 0;
      column = 0;
    } }
    ensures selected { frame_picture (record beside_each_other { selected = 1; cursor = Some (2, 1) }) ≡ record (frame_picture beside_each_other) { row = 2; column = 13 } }
{}

/// The numbers of lines stand left of the text and move the cursor; the row below the last is blank.
fn numbers_beside_lines()
    ensures { frame_picture numbered_lines ≡ record {
      rows = plain_row (codes "  1 a           ") ∷ plain_row (codes "  2 b           ") ∷ blank_row 16 ∷ blank_row 16 ∷ [];
      row = 0;
      column = 4;
    } }
{}

/// The selected window has no cursor, so that of the screen stands at the first cell of its text, behind its margins.
fn a_window_above_another()
    ensures { frame_picture above_another ≡ record {
      rows =
          plain_row (codes "top           ")
          ∷ inverted (codes "--------------")
          ∷ plain_row (codes ">> ab         ")
          ∷ blank_row 14
          ∷ plain_row (codes "saved         ")
          ∷ [];
      row = 2;
      column = 3;
    } }
{}

/// The border is a vertical bar where the display table of the buffer has no slot for it, and a slot that is a space is a blank.
fn borders()
    ensures bar { border_cell None ≡ First (single 124 1) plain }
    ensures slot { border_cell (Some (single 33 1)) ≡ First (single 33 1) plain }
    ensures space { border_cell (Some (single 32 1)) ≡ Blank plain }
{}

/// A rectangle of two columns and two rows is painted over three rows of four, and an echo area over the last row.
fn rectangles_are_painted()
    ensures rectangle { with_rectangle {C = ℕ} (record { x = 1; y = 1; width = 2; height = 2 }) ((5 ∷ 6 ∷ []) ∷ (7 ∷ 8 ∷ []) ∷ []) ((0 ∷ 1 ∷ 2 ∷ 3 ∷ []) ∷ (0 ∷ 1 ∷ 2 ∷ 3 ∷ []) ∷ (0 ∷ 1 ∷ 2 ∷ 3 ∷ []) ∷ []) ≡ (0 ∷ 1 ∷ 2 ∷ 3 ∷ []) ∷ (0 ∷ 5 ∷ 6 ∷ 3 ∷ []) ∷ (0 ∷ 7 ∷ 8 ∷ 3 ∷ []) ∷ [] }
    ensures echo { with_echo {C = ℕ} (9 ∷ 9 ∷ []) ((0 ∷ 1 ∷ []) ∷ (2 ∷ 3 ∷ []) ∷ []) ≡ (0 ∷ 1 ∷ []) ∷ (9 ∷ 9 ∷ []) ∷ [] }
{}
