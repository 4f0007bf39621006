//! The definition of a dump, computed on worked rows and windows.
ghost use Rattle.std.specs.Prelude.{◌≡◌, ◌∷◌, [], ◌++◌, codes, None, Some, true};
ghost use Rattle.rd_base.specs.Cells.{single};
ghost use Rattle.rd_base.specs.Faces.{plain};
ghost use Rattle.rd_base.specs.declared.cell.Cell.TheVariants.{Blank, First, Rest};
ghost use Rattle.rd_dump.specs.Dumps.{row_line, windows_text};

/// The lines of rows with a face and with a wide character, and those of windows.
fn worked_dump()
    ensures row { row_line 0
        (First (single 97 1) plain ∷ First (single 98 1) (record plain { fg = 1; bold = true }) ∷ First (single 99 1) plain ∷ Blank plain ∷ [])
        ≡ codes "row 0 |abc | 1-1:1;31\n" }
    ensures wide { row_line 3
        (Blank plain ∷ First (single 20013 2) (record plain { bg = 4; inverse = true }) ∷ Rest ∷ [])
        ≡ codes "row 3 | " ++ (228 ∷ 184 ∷ 173 ∷ codes "| 1-2:7;44\n") }
    ensures windows { windows_text (record {
      window = 0;
      rect = record { x = 0; y = 0; width = 11; height = 11 };
      start = record { pos = 1; row = 0 };
      point = 1;
      cursor = Some (0, 0);
    } ∷ record {
      window = 2;
      rect = record { x = 11; y = 0; width = 69; height = 11 };
      start = record { pos = 15; row = 3 };
      point = 19;
      cursor = None;
    } ∷ []) ≡ codes "window 0 at 0,0 size 11x11 start 1.0 point 1 cursor 0,0\nwindow 2 at 0,11 size 69x11 start 15.3 point 19 cursor none\n" }
{}
