//! What holds of all good cells.
ghost use Rattle.std.specs.Prelude.{ℕ, List, All};
ghost use Rattle.rd_base.specs.Cells.{IsColoured, IsSmall, IsSmallGlyph};
ghost use Rattle.rd_base.specs.Glyphs.{IsGood, IsRowAfter};
ghost use Rattle.rd_base.specs.declared.cell.Cell.{Cell};
ghost use Rattle.rd_base.specs.declared.cell.Glyph.{Glyph};

/// A good glyph is small, and so is each cell of a row in which each glyph stands whole and each colour is in its range: their
/// words tell them apart. The call does nothing.
pub fn good_cells_are_small()
    ensures glyphs { (g : Glyph) → IsGood g → IsSmallGlyph g }
    ensures rows { (due : ℕ) (cells : List Cell) → IsRowAfter due cells → All IsColoured cells → All IsSmall cells }
{}
