//! A row of a window, and its copies.

use crate::begin::Begin;
use rd_base::limits::FRAME_COLUMNS;
use rd_base::{Cell, Face, ListOf, Memory};
use std::alloc::Global;
use std::marker::Model;

/// A row of cells, with the items that begin in it. It can be had from [`crate::RowMaker::next_row`], as a copy of another
/// row, and blank.
#[derive(Drop)]
pub struct Row {
    alloc: Global,
    cells: ListOf<Cell>,
    begins: ListOf<Begin>,
    reversed: bool,
    ends_block: bool,
    copies: u32,
}

impl Model for Row {
    ghost use Rattle.std.specs.Prelude.{◌≤◌, length};
    ghost use Rattle.rd_rows.specs.Copies.{RowValues};
    ghost use Rattle.rd_base.specs.declared.limits.TheConstants.{FRAME_COLUMNS};

    ghost Value = { RowValues };

    ghost view = { λ r. record {
      shown = record { cells = r.cells; begins = r.begins; reversed = r.reversed; ends_block = r.ends_block };
      copies = r.copies;
    } };

    ghost invariant = { λ r. length r.cells ≤ FRAME_COLUMNS };
}

impl Row {
    ghost use Rattle.std.specs.Prelude.{◌≡◌, ◌-◌, ◌≤◌, length, IfOk};
    ghost use Rattle.rd_rows.specs.Copies.{copied, blank_row};

    /// A row of `width` blank and plain cells, 1 to 400 of them, in which nothing stands. It was not copied.
    pub fn blank(alloc: Global, width: u32) -> Result<Row, Memory>
        requires least { 1 ≤ width }
        requires most { width ≤ FRAME_COLUMNS }
        ensures { IfOk result (λ row. row ≡ record { shown = blank_row width; copies = 0 }) }
    {
        let cells = ListOf::filled(alloc, width as usize, Cell::Blank(Face::PLAIN))?;
        Ok(Row::made(alloc, cells, ListOf::new(alloc), false, false))
    }

    /// A row that was just made.
    pub(crate) fn made(
        alloc: Global,
        cells: ListOf<Cell>,
        begins: ListOf<Begin>,
        reversed: bool,
        ends_block: bool,
    ) -> Row
        requires { length cells ≤ FRAME_COLUMNS }
        ensures { result ≡ record { shown = record { cells = cells; begins = begins; reversed = reversed; ends_block = ends_block }; copies = 0 } }
    {
        Row {
            alloc,
            cells,
            begins,
            reversed,
            ends_block,
            copies: 0,
        }
    }

    /// A row that shows the same, with one copy more; the count stays at 4,294,967,295.
    pub fn copy(&self) -> Result<Row, Memory>
        ensures { IfOk result (λ row. row ≡ record { shown = self.now.shown; copies = copied self.now.copies }) }
    {
        Ok(Row {
            alloc: self.alloc,
            cells: ListOf::from_slice(self.alloc, self.cells.as_slice())?,
            begins: ListOf::from_slice(self.alloc, self.begins.as_slice())?,
            reversed: self.reversed,
            ends_block: self.ends_block,
            copies: self.copies.saturating_add(1),
        })
    }

    /// How often this row was copied since it was made: 0 for a row that was made or is blank.
    pub fn copies(&self) -> u32
        ensures { result ≡ self.now.copies }
    {
        self.copies
    }

    /// The cells by column, from 0.
    pub fn cells(&self) -> &[Cell]
        ensures { result.now ≡ self.now.shown.cells }
    {
        self.cells.as_slice()
    }

    /// The last column, counted from 0.
    pub fn last_column(&self) -> u32
        ensures { result ≡ length self.now.shown.cells - 1 }
    {
        self.cells.len().saturating_sub(1) as u32
    }

    /// The items whose first element stands in this row, in the order in which these elements were placed.
    pub fn begins(&self) -> &[Begin]
        ensures { result.now ≡ self.now.shown.begins }
    {
        self.begins.as_slice()
    }

    /// Whether the row is read from its right edge.
    pub fn reversed(&self) -> bool
        ensures { result ≡ self.now.shown.reversed }
    {
        self.reversed
    }

    /// Whether the line end was placed in this row.
    pub fn ends_block(&self) -> bool
        ensures { result ≡ self.now.shown.ends_block }
    {
        self.ends_block
    }
}
