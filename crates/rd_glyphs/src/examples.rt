//! The definitions on worked examples.
ghost use Rattle.std.specs.Prelude.{◌≡◌, ◌∷◌, ◌++◌, [], codes, replicate};
ghost use Rattle.rd_base.specs.Faces.{plain};
ghost use Rattle.rd_base.specs.Cells.{single};
ghost use Rattle.rd_base.specs.declared.cell.Cell.TheVariants.{Blank, First};
ghost use Rattle.rd_base.specs.declared.element.Look.TheVariants.{Glyph};
ghost use Rattle.rd_glyphs.specs.declared.shown.Shown.TheVariants.{Mark, Itself, Octal};
ghost use Rattle.rd_glyphs.specs.Characters.{on_blank, looks_of};
ghost use Rattle.rd_glyphs.specs.Marks.{marks_joined};
ghost use Rattle.rd_glyphs.specs.Lines.{shown_part, plain_joins, looks_of_parts, plain_cells};

/// Of seven marks behind a letter six join it, and the seventh stands on a blank. Behind a byte the first of two marks stands on a
/// blank, and the second joins it.
fn marks_join_what_stands_before_them()
    ensures letter { looks_of_parts (marks_joined plain_joins (shown_part (Itself 101 1) ∷ replicate 7 (shown_part (Mark 769)))) ≡ Glyph (record { base = 101; marks = replicate 6 769; count = 6; width = 1 }) ∷ Glyph (on_blank 769) ∷ [] }
    ensures byte { looks_of_parts (marks_joined plain_joins (shown_part (Octal 200) ∷ replicate 2 (shown_part (Mark 769)))) ≡ looks_of (single 92 1) (single 94 1) (Octal 200) ++ Glyph (record { base = 32; marks = 769 ∷ 769 ∷ replicate 4 0; count = 2; width = 1 }) ∷ [] }
{}

/// A tab in a plain line is a circumflex and a letter. Blanks fill the line, and what does not fit ends it.
fn plain_lines_are_put()
    ensures filled { plain_cells [] plain 4 (codes "a" ++ 9 ∷ []) ≡ First (single 97 1) plain ∷ First (single 94 1) plain ∷ First (single 73 1) plain ∷ Blank plain ∷ [] }
    ensures cut { plain_cells [] plain 2 (codes "ab" ++ 9 ∷ []) ≡ First (single 97 1) plain ∷ First (single 98 1) plain ∷ [] }
{}
