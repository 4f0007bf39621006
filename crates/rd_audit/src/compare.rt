//! What a terminal shows, compared with a dump.
ghost use Rattle.std.specs.Prelude.{◌≡◌, ◌<◌, ◌≤◌, None, length, slice_index_or};
ghost use Rattle.rd_base.specs.Cells.{row_at};
ghost use Rattle.rd_base.specs.declared.limits.TheConstants.{FRAME_COLUMNS};
ghost use Rattle.rd_audit.specs.Results.{picture_in, IsShape};
ghost use Rattle.rd_audit.specs.Verdicts.{is_known, other_column, other_place, IsAnswer};

use crate::dump::Dump;
use crate::verdict::{Difference, Verdict};
use rd_base::{Cell, ListOf};
use rd_term::Terminal;

/// Whether a terminal of a dump's size shows the dump, and what differs first.
pub fn answer(dump: &Dump, terminal: &Terminal) -> Verdict
    requires { IsShape dump.now.rows }
    ensures { IsAnswer result (picture_in dump.now) terminal.now }
{
    if terminal.confused() {
        return Verdict::No(Difference::Confused);
    }
    if let Some((row, column)) = other_place(dump.rows.as_slice(), terminal) {
        return Verdict::No(Difference::Cell(row, column));
    }
    if terminal.cursor() == Some((dump.row, dump.column)) {
        Verdict::Yes
    } else {
        Verdict::No(Difference::Cursor)
    }
}

/// The place of the first cell, by row and then by column, that is not known or is another.
fn other_place(rows: &[ListOf<Cell>], terminal: &Terminal) -> Option<(u32, u32)>
    requires { IsShape rows.now }
    ensures { result ≡ other_place 0 rows.now terminal.now.rows }
{
    let height = rows.len() as u32;
    for row in 0..height {
        if row >= terminal.height() {
            return Some((row, 0));
        }
        if let Some(column) = other_column(rows[row as usize].as_slice(), terminal, row) {
            return Some((row, column));
        }
    }
    if height < terminal.height() {
        Some((height, 0))
    } else {
        None
    }
}

/// The first column of a row whose cell is not known or is another.
fn other_column(cells: &[Cell], terminal: &Terminal, row: u32) -> Option<u32>
    requires row { row < length terminal.now.rows }
    requires few { length cells.now ≤ FRAME_COLUMNS }
    ensures { result ≡ other_column 0 cells.now (row_at terminal.now.rows row) }
{
    let width = cells.len() as u32;
    for column in 0..width {
        if !shows(terminal, row, column, &cells[column as usize]) {
            return Some(column);
        }
    }
    if width < terminal.width() {
        Some(width)
    } else {
        None
    }
}

/// Whether a terminal is known to show a cell in this column of a row, if it has the column.
fn shows(terminal: &Terminal, row: u32, column: u32, cell: &Cell) -> bool
    requires { row < length terminal.now.rows }
    ensures { result ≡ is_known cell.now (slice_index_or (row_at terminal.now.rows row) column None) }
{
    if column < terminal.width() {
        is_known(cell, terminal.cell(row, column))
    } else {
        false
    }
}

/// Whether a cell is known and is this one.
fn is_known(cell: &Cell, shown: Option<Cell>) -> bool
    ensures { result ≡ is_known cell.now shown }
{
    match shown {
        Some(other) => other.is_same(cell),
        None => false,
    }
}
