//! Laws of the start rule, over all sources. The calls do nothing.
ghost use Rattle.std.specs.Prelude.{◌<◌, length};
ghost use Rattle.rd_matrix.specs.Blocks.{IsWithin};
ghost use Rattle.rd_matrix.specs.Sources.{SourceValues, IsSource, rows_at};
ghost use Rattle.rd_rows.specs.Shapes.{ShapeValues, IsShape};
ghost use Rattle.rd_start.specs.Chosen.{places_of};
ghost use Rattle.rd_start.specs.Starts.{start_of};
ghost use Rattle.rd_start.specs.declared.wanted.Wanted.{Wanted};

/// The start of a window whose point is a position of the source's blocks is one of the source's rows.
pub fn a_start_is_a_row()
    ensures { (m : SourceValues) (shape : ShapeValues) (w : Wanted) → IsSource m → IsShape shape → IsWithin w.point m.blocks
        → start_of w (places_of m shape w) < length (rows_at m shape) }
{}
