//! What a terminal does by a character.
ghost use Rattle.std.specs.Prelude.{◌≡◌, ◌+◌, ◌<◌, ◌≤◌, nat_le, length, slice_index_or};
ghost use Rattle.rd_base.specs.Chars.{columns_of};
ghost use Rattle.rd_base.specs.Cells.{single, row_at};
ghost use Rattle.rd_term.specs.Pictures.{width_of};
ghost use Rattle.rd_term.specs.Terminals.{put, put_at, join_mark, join_mark_into, marked, joined_cell, show};

use crate::overwriting::put_character;
use crate::terminal::Terminal;
use rd_base::{Cell, Face, Glyph, columns_of};

impl Terminal {
    /// Shows a character, by its columns.
    pub(crate) fn show(&mut self, code: u32)
        ensures { self.new ≡ show code (columns_of code) self.old }
    {
        match columns_of(code) {
            None => self.confused = true,
            Some(0) => self.join_mark(code),
            Some(columns) => self.put(code, columns),
        }
    }

    /// Puts a character of so many columns where the cursor is.
    fn put(&mut self, code: u32, columns: u8)
        requires some { 1 ≤ columns }
        requires few { columns ≤ 3 }
        ensures { self.new ≡ put code columns self.old.pen self.old.cursor self.old }
    {
        match (self.pen, self.cursor) {
            (Some(face), Some((row, column)))
                if !self.wait && self.has_room(row, column, columns) => {
                self.put_at(face, row, column, &Glyph::single(code, columns));
            }
            _ => self.confused = true,
        }
    }

    /// Whether a row goes on by so many columns from a column on.
    fn has_room(&self, row: u32, column: u32, columns: u8) -> bool
        requires row { row < length self.now.rows }
        requires column { column < width_of self.now.rows }
        ensures { result ≡ nat_le (column + columns) (length (row_at self.now.rows row)) }
    {
        column as usize + columns as usize <= self.rows[row as usize].len()
    }

    /// Puts a character at a place and moves on by its columns, but not past the row's end.
    fn put_at(&mut self, face: Face, row: u32, column: u32, glyph: &Glyph)
        requires row { row < length self.old.rows }
        requires column { column < width_of self.old.rows }
        requires some { 1 ≤ glyph.now.width }
        requires room { column + glyph.now.width ≤ length (row_at self.old.rows row) }
        requires plain { glyph.now ≡ single glyph.now.base glyph.now.width }
        ensures { self.new ≡ put_at glyph.now.base glyph.now.width face row column self.old }
    {
        let cells = &mut self.rows[row as usize];
        let length = cells.len() as u32;
        put_character(cells, column as usize, glyph, face);
        let next = column + glyph.width as u32;
        self.cursor = Some((row, next.min(length - 1)));
        self.wait = next >= length;
        self.latest = Some((row, column));
    }

    /// Joins a character of no column to the one that was put directly before it.
    fn join_mark(&mut self, code: u32)
        ensures { self.new ≡ join_mark code self.old.latest self.old }
    {
        match self.latest {
            Some((row, column)) => self.join_mark_at(row, column, code),
            None => self.confused = true,
        }
    }

    /// Joins a character of no column to the one at a place.
    fn join_mark_at(&mut self, row: u32, column: u32, code: u32)
        requires row { row < length self.old.rows }
        requires column { column < width_of self.old.rows }
        ensures { self.new ≡ join_mark_into (marked code (slice_index_or (row_at self.old.rows row) column None)) row column self.old }
    {
        match marked(self.rows[row as usize].get(column as usize), code) {
            Some(cell) => {
                let cells = &mut self.rows[row as usize];
                cells.set(column as usize, Some(cell));
            }
            None => self.confused = true,
        }
    }
}

/// A cell with one more mark, where a blank counts as a space. None where it has six, or is no character's first column.
fn marked(cell: &Option<Cell>, code: u32) -> Option<Cell>
    ensures { result ≡ marked code cell.now }
{
    match cell {
        Some(Cell::Blank(face)) => joined_cell(&Glyph::single(32, 1), code, *face),
        Some(Cell::First(glyph, face)) => joined_cell(glyph, code, *face),
        _ => None,
    }
}

/// The cell of a glyph with one more mark, where it has fewer than six.
fn joined_cell(glyph: &Glyph, code: u32, face: Face) -> Option<Cell>
    ensures { result ≡ joined_cell code glyph.now face }
{
    let more = glyph.joined(code)?;
    Some(Cell::First(more, face))
}
