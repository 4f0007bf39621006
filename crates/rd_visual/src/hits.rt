//! The position that a cell shows, and the cell in which a position is shown.
ghost use Rattle.std.specs.Prelude.{◌≡◌, All, Some};
ghost use Rattle.rd_matrix.specs.Cursors.{cursor_in};
ghost use Rattle.rd_matrix.specs.Entries.{shown_entry, shown_entries};
ghost use Rattle.rd_visual.specs.Hits.{Fits, AreInPositions, hit_in, item_at, item_of_cell, least_at, nearer, reaches};

use rd_base::Pos;
use rd_matrix::{Entry, Matrix, shown_column};
use rd_rows::{Begin, Row};

/// The position that the cell in a row and a column shows, both counted from 0: the least that the cell's item covers. The cell's
/// item is that which begins in the row, covers a position, and begins in the greatest reading column that is not above the
/// cell's; of several the first. Reading columns are counted from the edge from which the row is read. None exactly where there
/// is no such item or no such cell. It costs what the row has of items.
pub fn position_at(matrix: &Matrix, row: u32, column: u32) -> Option<Pos>
    requires { AreInPositions (shown_entries matrix.now) }
    ensures { result ≡ hit_in (shown_entries matrix.now) row column }
{
    if row as usize >= matrix.len() {
        return None;
    }
    least_at(matrix.entry(row as usize), column)
}

/// The row and the column, from 0, of the cell in which the item that covers a position begins: the column in which its first
/// element is shown, held within the window. None exactly where no row holds its beginning. It costs what the rows have of items.
pub fn cell_of(matrix: &Matrix, pos: Pos) -> Option<(u32, u32)>
    ensures { result ≡ cursor_in pos (shown_entries matrix.now) }
{
    matrix.cursor(pos)
}

/// The least position that the item of a cell covers.
fn least_at(entry: &Entry, column: u32) -> Option<Pos>
    requires { All (Fits entry.now.start) entry.now.row.shown.begins }
    ensures { result ≡ least_at (shown_entry entry.now) column }
{
    let item = item_of_cell(&entry.row, column)?;
    Some(entry.start + item.from)
}

/// The item of a cell of a row.
fn item_of_cell(row: &Row, column: u32) -> Option<Begin>
    ensures { result ≡ item_of_cell row.now.shown column }
{
    if column as usize >= row.cells().len() {
        return None;
    }
    item_at(row.begins(), shown_column(row, column))
}

/// The item of a reading column among those that begin in a row.
fn item_at(begins: &[Begin], column: u32) -> Option<Begin>
    ensures { result ≡ item_at column begins.now }
{
    let mut found = None;
    for place in 0..begins.len() {
        let begin = begins[place];
        if reaches(&begin, column) {
            found = nearer(found, begin);
        }
    }
    found
}

/// Whether an item covers a position and begins in a reading column or before it.
fn reaches(begin: &Begin, column: u32) -> bool
    ensures { result ≡ reaches column begin.now }
{
    begin.from < begin.to && begin.column <= column
}

/// The item that was found, or the next one where its column is greater.
fn nearer(found: Option<Begin>, next: Begin) -> Option<Begin>
    ensures { result ≡ nearer found (Some next) }
{
    match found {
        Some(first) if next.column <= first.column => Some(first),
        _ => Some(next),
    }
}
