//! What holds of the rows of every line.
ghost use Rattle.std.specs.Prelude.{◌≡◌, ◌≤◌, ℕ, List, map, All, IsTrue, None};
ghost use Rattle.rd_base.specs.Cells.{HasColours, IsColoured};
ghost use Rattle.rd_base.specs.declared.cell.Glyph.{Glyph};
ghost use Rattle.rd_base.specs.declared.element.Element.{Element};
ghost use Rattle.rd_base.specs.Elements.{ends_once};
ghost use Rattle.rd_rows.specs.declared.cutting.Cutting.{Cutting};
ghost use Rattle.rd_rows.specs.Leads.{HasLeads, HasQuietLeads};
ghost use Rattle.rd_rows.specs.Prefixes.{IsPrefix};
ghost use Rattle.rd_rows.specs.Rows.{cutting_of, rows_of};
ghost use Rattle.rd_rows.specs.Shapes.{ShapeValues};
ghost use Rattle.rd_rows.specs.Laws.{seen_rows, ends_last, begins_of, range_of, ranges_of, IsPlacedOnce};
ghost use Rattle.rd_rows.specs.Whole.{WholeLaws};

use rd_base::limits::FRAME_COLUMNS;

/// The rows of a line whose last element and no other is the line end: there is at least one, and the last and no other ends
/// the block; each element is placed once, and each element of a prefix once in each of its rows; and each item begins once, in
/// the order of the first elements. The call does nothing.
pub fn rows_of_every_line()
    ensures last { (c : Cutting) (es : List Element) → HasLeads c → IsTrue (ends_once es) → IsTrue (ends_last (seen_rows (rows_of c es))) }
    ensures placed { (c : Cutting) (es : List Element) → IsTrue (ends_once es) → IsPlacedOnce c es (rows_of c es) }
    ensures begun { (c : Cutting) (es : List Element) → HasLeads c → IsTrue (ends_once es) → map range_of (begins_of (seen_rows (rows_of c es))) ≡ ranges_of None es }
{}

/// Behind prefixes that end no line and begin no item of it, sound or not, the last row of a line and no other ends the block, and each
/// item begins once, in the order of the first elements. The call does nothing.
pub fn rows_behind_quiet_prefixes()
    ensures last { (c : Cutting) (es : List Element) → HasQuietLeads c → IsTrue (ends_once es) → IsTrue (ends_last (seen_rows (rows_of c es))) }
    ensures begun { (c : Cutting) (es : List Element) → HasQuietLeads c → IsTrue (ends_once es) → map range_of (begins_of (seen_rows (rows_of c es))) ≡ ranges_of None es }
{}

/// Prefixes that were cut to half of a window's columns can stand before a line's elements. The call does nothing.
pub fn prefixes_stand_before_lines()
    ensures { (shape : ShapeValues) (base : ℕ) (first wrap : List Element) (truncation continuation : Glyph)
        → shape.width ≤ FRAME_COLUMNS → IsPrefix first → IsPrefix wrap → HasLeads (cutting_of shape base first wrap truncation continuation) }
{}

/// In the rows of sound and measured elements, with measured prefixes and marks of one column, each glyph stands whole, and each
/// row has the window's columns, whichever edge it is read from. The call does nothing.
pub fn rows_are_whole()
    ensures { WholeLaws }
{}

/// In the rows of elements whose faces have their colours in range, behind prefixes of such elements, each cell has its colours in
/// range: marks, and what no element fills, are plain. The call does nothing.
pub fn rows_are_coloured()
    ensures { (shape : ShapeValues) (base : ℕ) (first wrap : List Element) (truncation continuation : Glyph) (es : List Element)
        → All (λ e. HasColours e.face) first → All (λ e. HasColours e.face) wrap → All (λ e. HasColours e.face) es
        → All (λ r. All IsColoured r.row.cells) (rows_of (cutting_of shape base first wrap truncation continuation) es) }
{}
