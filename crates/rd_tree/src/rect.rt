//! A window's place on the frame.
ghost use Rattle.std.specs.Prelude.{◌≡◌, ◌≤◌};
ghost use Rattle.rd_tree.specs.Calls.{frame};
ghost use Rattle.rd_tree.specs.Windows.{first_part, second_part, along, InFrame};

use crate::side::Side;

/// A rectangle of cells: its first column `x` and its first row `y`, from 0, and how many columns and rows it has.
#[derive(Clone, Copy, Debug, PartialEq, Eq)]
pub struct Rect {
    pub x: u32,
    pub y: u32,
    pub width: u32,
    pub height: u32,
}

impl Rect {
    /// A whole frame of so many columns and rows.
    pub(crate) fn whole(width: u32, height: u32) -> Rect
        ensures { result ≡ frame width height }
    {
        Rect {
            x: 0,
            y: 0,
            width,
            height,
        }
    }

    /// The rectangle's first `size` columns or rows, where it is split.
    pub(crate) fn first_part(self, side: Side, size: u32) -> Rect
        ensures { result ≡ first_part side size self }
    {
        match side {
            Side::Below => Rect {
                height: size,
                ..self
            },
            Side::Right => Rect {
                width: size,
                ..self
            },
        }
    }

    /// What is behind the rectangle's first `size` columns or rows.
    pub(crate) fn second_part(self, side: Side, size: u32) -> Rect
        requires inside { InFrame self }
        requires within { size ≤ along side self }
        ensures { result ≡ second_part side size self }
    {
        match side {
            Side::Below => Rect {
                y: self.y + size,
                height: self.height - size,
                ..self
            },
            Side::Right => Rect {
                x: self.x + size,
                width: self.width - size,
                ..self
            },
        }
    }
}
