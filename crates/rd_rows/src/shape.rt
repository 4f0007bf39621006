//! The shape of a window's rows.

use rd_base::Wrap;
use rd_base::limits::{FRAME_COLUMNS, LEAST_TEXT_COLUMNS};
use std::marker::Model;

/// How the rows of a window are cut: its width in columns, what becomes of a longer line, and by how many columns the text
/// is scrolled sideways. The width is 10 to 400.
#[derive(Clone, Copy, Debug, PartialEq, Eq)]
pub struct Shape {
    pub width: u32,
    pub wrap: Wrap,
    pub hscroll: u32,
}

impl Model for Shape {
    ghost use Rattle.std.specs.Prelude.{◌≤◌};
    ghost use Rattle.rd_rows.specs.Shapes.{ShapeValues};
    ghost use Rattle.rd_base.specs.declared.limits.TheConstants.{FRAME_COLUMNS, LEAST_TEXT_COLUMNS};

    ghost Value = { ShapeValues };

    ghost view = { λ s. record { width = s.width; wrap = s.wrap; hscroll = s.hscroll } };

    ghost invariant = { λ s. (LEAST_TEXT_COLUMNS ≤ s.width) × (s.width ≤ FRAME_COLUMNS) };

    ghost inverse = { λ v. record { width = v.width; wrap = v.wrap; hscroll = v.hscroll } };
}

impl Shape {
    ghost use Rattle.std.specs.Prelude.{◌≡◌};
    ghost use Rattle.rd_rows.specs.Shapes.{is_same_shape};

    /// Whether this shape and another one are the same.
    pub fn is_same(self, other: Shape) -> bool
        ensures { result ≡ is_same_shape self other }
    {
        self == other
    }
}
