//! How a line is cut into rows.

use crate::prefix::Prefix;
use crate::shape::Shape;
use rd_base::Glyph;

/// How a line is cut: the shape, whether its rows are read from the right edge, what stands before its first row and before the
/// rows that go on with it, and the glyphs that mark a truncated and a continued row.
#[derive(Drop)]
pub struct Cutting {
    pub shape: Shape,
    pub reversed: bool,
    pub first: Prefix,
    pub wrap: Prefix,
    pub truncation: Glyph,
    pub continuation: Glyph,
}
