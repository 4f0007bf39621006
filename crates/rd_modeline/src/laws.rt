//! Laws of the definitions, for the layers above.
ghost use Rattle.std.specs.Prelude.{ℕ, ◌≡◌, IsTrue, List, length, All, Ok};
ghost use Rattle.rd_base.specs.Cells.{IsColoured};
ghost use Rattle.rd_base.specs.Chars.{is_code};
ghost use Rattle.rd_base.specs.Glyphs.{IsRowAfter};
ghost use Rattle.rd_ucd.specs.declared.spans.Span.{Span};
ghost use Rattle.rd_modeline.specs.declared.piece.Piece.{Piece};
ghost use Rattle.rd_modeline.specs.Formats.{pieces_of};
ghost use Rattle.rd_modeline.specs.Values.{FactValues, AreFacts};
ghost use Rattle.rd_modeline.specs.Lines.{line_cells};

use rd_glyphs::plain_lines_are_whole;

/// A mode line has exactly its columns, and its colours are in their range. In that of a good format of characters each glyph stands
/// whole. The call does nothing.
pub fn mode_lines_are_whole()
    ensures width { (classes : List Span) (facts : FactValues) (width : ℕ) (pieces : List Piece) → length (line_cells classes facts width pieces) ≡ width }
    ensures coloured { (classes : List Span) (facts : FactValues) (width : ℕ) (pieces : List Piece) → All IsColoured (line_cells classes facts width pieces) }
    ensures whole { (classes : List Span) (facts : FactValues) (width : ℕ) (format : List ℕ) (pieces : List Piece) → AreFacts facts → All (λ c. IsTrue (is_code c)) format → pieces_of format ≡ Ok pieces → IsRowAfter 0 (line_cells classes facts width pieces) }
{
    plain_lines_are_whole();
}
