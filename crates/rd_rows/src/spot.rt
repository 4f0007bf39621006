//! Where elements come to stand in a row.
ghost use Rattle.std.specs.Prelude.{◌≡◌, ◌+◌, ◌^◌, ◌<◌, ◌≤◌};
ghost use Rattle.rd_base.specs.Elements.{width_at_most, is_line_end};
ghost use Rattle.rd_rows.specs.Placing.{width_at, is_blank, ends_row, fits, columns_in, placed_at, behind, next_row, next_line, line_start, is_item};
ghost use Rattle.rd_rows.specs.Rows.{first_seen};
ghost use Rattle.rd_rows.specs.Shapes.{room, truncates, is_word};

use crate::shape::Shape;
use rd_base::limits::{FRAME_COLUMNS, PREFIX_COLUMNS};
use rd_base::{Element, Extent, Look, Wrap};

/// Where the next element comes: the column of the line, which counts from the line's start or the last row end, the columns
/// of its row that are taken, and the item of the element before it in the line.
#[derive(Clone, Copy, Debug, PartialEq, Eq)]
pub struct Spot {
    pub column: u64,
    pub used: u64,
    pub before: Option<u32>,
}

/// An element in a row: its first column there, how many it has, and whether it is the first element of its item.
#[derive(Clone, Copy, Debug, PartialEq, Eq)]
pub struct Placed {
    pub element: Element,
    pub start: u64,
    pub columns: u64,
    pub first: bool,
}

impl Shape {
    /// The columns before the last one, which is kept for a mark.
    pub(crate) fn room(self) -> u64
        ensures room { result ≡ room self }
        ensures least { 9 ≤ result }
        ensures bounds { result < FRAME_COLUMNS }
    {
        self.width as u64 - 1
    }

    /// The first column of a row that is seen: where it is scrolled sideways, a mark has the place of the one before.
    pub(crate) fn first_seen(self) -> u64
        ensures { result ≡ first_seen self }
    {
        if self.hscroll > 0 {
            return self.hscroll as u64 + 1;
        }
        0
    }

    /// Whether longer lines are cut: a window that is scrolled sideways cuts them too.
    pub(crate) fn truncates(self) -> bool
        ensures { result ≡ truncates self }
    {
        self.wrap == Wrap::Truncate || self.hscroll > 0
    }

    /// Whether a line goes on in the next row behind a whole word.
    pub(crate) fn wraps_words(self) -> bool
        ensures { result ≡ is_word self.wrap }
    {
        self.wrap == Wrap::Word
    }
}

/// Whether a look is a stretch of blanks.
pub fn is_blank(look: Look) -> bool
    ensures { result ≡ is_blank look }
{
    matches!(look, Look::Blank)
}

/// Whether a look is the line end.
pub fn is_line_end(look: Look) -> bool
    ensures { result ≡ is_line_end look }
{
    matches!(look, Look::LineEnd)
}

/// Whether a row ends behind an element of this look.
pub fn ends_row(look: Look) -> bool
    ensures { result ≡ ends_row look }
{
    matches!(look, Look::RowEnd | Look::LineEnd)
}

/// How many columns an extent has at a column of the line.
pub fn width_at(extent: Extent, column: u64) -> u64
    ensures width { result ≡ width_at extent column }
    ensures bound { result ≤ width_at_most extent }
    ensures small { result < 4294967296 }
{
    match extent {
        Extent::Fixed(n) => n as u64,
        Extent::Tab(0) => 0,
        Extent::Tab(t) => t as u64 - column % t as u64,
        Extent::Column(n) => (n as u64).saturating_sub(column),
    }
}

impl Spot {
    /// Where a line begins.
    pub fn line_start() -> Spot
        ensures { result ≡ line_start }
    {
        Spot {
            column: 0,
            used: 0,
            before: None,
        }
    }

    /// The line goes on in another row, behind a prefix of so many columns.
    pub fn next_row(self, lead: u64) -> Spot
        ensures { result ≡ next_row lead self }
    {
        Spot { used: lead, ..self }
    }

    /// The line goes on behind a row end.
    pub fn next_line(self) -> Spot
        ensures { result ≡ next_line self }
    {
        Spot {
            column: 0,
            used: 0,
            ..self
        }
    }

    /// Whether an element can stand in this row.
    pub fn fits(self, shape: Shape, element: &Element) -> bool
        requires column { self.column + width_at_most element.now.extent < 2 ^ 63 }
        requires used { self.used ≤ self.column + PREFIX_COLUMNS }
        ensures { result ≡ fits shape self element.now }
    {
        ends_row(element.look)
            || shape.truncates()
            || self.used + width_at(element.extent, self.column) <= shape.room()
            || is_blank(element.look) && self.used < shape.room()
    }

    /// The columns that an element takes here.
    fn columns_in(self, shape: Shape, element: &Element) -> u64
        requires { width_at_most element.now.extent < 2 ^ 63 }
        ensures columns { result ≡ columns_in shape self element.now }
        ensures bound { result ≤ width_at_most element.now.extent }
    {
        let width = width_at(element.extent, self.column);
        if is_blank(element.look) && !shape.truncates() {
            return width.min(shape.room().saturating_sub(self.used));
        }
        width
    }

    /// Whether the element before is of this item.
    fn is_item(self, item: u32) -> bool
        ensures { result ≡ is_item self.before item }
    {
        match self.before {
            Some(before) => before == item,
            None => false,
        }
    }

    /// How an element comes to stand at this spot.
    pub fn place(self, shape: Shape, element: &Element) -> Placed
        requires { width_at_most element.now.extent < 2 ^ 63 }
        ensures placed { result ≡ placed_at shape self element.now }
        ensures bound { result.columns ≤ width_at_most element.now.extent }
    {
        Placed {
            element: *element,
            start: self.used,
            columns: self.columns_in(shape, element),
            first: !self.is_item(element.origin.item),
        }
    }

    /// Where the element behind a placed one comes.
    pub fn behind(self, placed: &Placed) -> Spot
        requires column { self.column + placed.now.columns < 2 ^ 63 }
        requires used { self.used ≤ self.column + PREFIX_COLUMNS }
        ensures { result ≡ behind self placed.now }
    {
        Spot {
            column: self.column + placed.columns,
            used: self.used + placed.columns,
            before: Some(placed.element.origin.item),
        }
    }
}
