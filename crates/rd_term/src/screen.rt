//! A screen of cells with a cursor.
ghost use Rattle.std.specs.Prelude.{◌≡◌, ◌+◌, ◌<◌, ◌≤◌, IfOk, length, slice_set};
ghost use Rattle.rd_base.specs.Cells.{row_at};
ghost use Rattle.rd_term.specs.Pictures.{IsFrameSize, IsScreen, blank_picture, blank_row, width_of, cell_at, with_cell, with_cells};

use crate::rows::filled;
use rd_base::limits::FRAME_COLUMNS;
use rd_base::{Cell, Face, ListOf, Memory};
use std::alloc::Global;
use std::marker::Model;

/// Up to 200 rows of one width, up to 400 columns, and a cursor on them. Rows and columns count from 0.
#[derive(Drop)]
pub struct Screen {
    rows: Vec<ListOf<Cell>>,
    row: u32,
    column: u32,
}

impl Model for Screen {
    ghost use Rattle.rd_term.specs.Pictures.{Picture, IsScreen};

    ghost Value = { Picture };

    ghost view = { λ s. record { rows = s.rows.items; row = s.row; column = s.column } };

    ghost invariant = { λ s. IsScreen (record { rows = s.rows.items; row = s.row; column = s.column }) };
}

impl Screen {
    /// A screen of plain blanks, with the cursor at its first cell.
    pub fn blank(alloc: Global, width: u32, height: u32) -> Result<Screen, Memory>
        requires { IsFrameSize width height }
        ensures { IfOk result (λ screen. screen ≡ blank_picture width height) }
    {
        Ok(Screen {
            rows: filled(alloc, width, height, Cell::Blank(Face::PLAIN))?,
            row: 0,
            column: 0,
        })
    }

    /// How many columns each row has. Its clause `screen` says which screens there are: at least one row and one
    /// column, at most 200 and 400, and the cursor on them.
    pub fn width(&self) -> u32
        ensures value { result ≡ width_of self.now.rows }
        ensures screen { IsScreen self.now }
    {
        self.rows[0].len() as u32
    }

    /// How many rows there are.
    pub fn height(&self) -> u32
        ensures { result ≡ length self.now.rows }
    {
        self.rows.len() as u32
    }

    /// The cells of a row.
    pub fn row(&self, row: u32) -> &[Cell]
        requires { row < length self.now.rows }
        ensures cells { result.now ≡ row_at self.now.rows row }
        ensures width { length result.now ≡ width_of self.now.rows }
    {
        self.rows[row as usize].as_slice()
    }

    /// The cell at a place on the screen.
    pub fn cell(&self, row: u32, column: u32) -> Cell
        requires row { row < length self.now.rows }
        requires column { column < width_of self.now.rows }
        ensures { result ≡ cell_at self.now.rows row column }
    {
        self.rows[row as usize].at(column as usize)
    }

    /// Puts another cell at a place on the screen.
    pub fn set(&mut self, row: u32, column: u32, cell: Cell)
        requires row { row < length self.old.rows }
        requires column { column < width_of self.old.rows }
        ensures { self.new ≡ record self.old { rows = with_cell self.old.rows row column cell } }
    {
        let cells = &mut self.rows[row as usize];
        cells.set(column as usize, cell);
    }

    /// Puts other cells into a row, from a column on.
    pub fn set_cells(&mut self, row: u32, column: u32, cells: &[Cell])
        requires row { row < length self.old.rows }
        requires room { column + length cells.now ≤ width_of self.old.rows }
        ensures { self.new ≡ record self.old { rows = with_cells self.old.rows row column cells.now } }
    {
        let old = &mut self.rows[row as usize];
        old.overwrite(column as usize, cells);
    }

    /// Puts other cells in place of a row's.
    pub fn set_row(&mut self, row: u32, cells: &[Cell])
        requires row { row < length self.old.rows }
        requires width { length cells.now ≡ width_of self.old.rows }
        ensures screen { self.new ≡ record self.old { rows = slice_set self.old.rows row cells.now } }
        ensures width { width_of self.new.rows ≡ width_of self.old.rows }
    {
        let _width = self.width();
        self.set_cells(row, 0, cells);
    }

    /// The cursor's row and column.
    pub fn cursor(&self) -> (u32, u32)
        ensures { result ≡ (self.now.row, self.now.column) }
    {
        (self.row, self.column)
    }

    /// Puts the cursor at a place on the screen.
    pub fn place(&mut self, row: u32, column: u32)
        requires row { row < length self.old.rows }
        requires column { column < width_of self.old.rows }
        ensures { self.new ≡ record self.old { row = row; column = column } }
    {
        self.row = row;
        self.column = column;
    }
}

/// The first `columns` of a row of blanks that is as wide as a row can be.
pub fn first_blanks(blanks: &[Cell], columns: u32) -> &[Cell]
    requires blanks { blanks.now ≡ blank_row FRAME_COLUMNS }
    requires columns { columns ≤ FRAME_COLUMNS }
    ensures { result.now ≡ blank_row columns }
{
    &blanks[..columns as usize]
}
