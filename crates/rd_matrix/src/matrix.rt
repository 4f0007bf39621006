//! The rows of a window, from its top.
ghost use Rattle.std.specs.Prelude.{◌≡◌};
ghost use Rattle.rd_matrix.specs.Columns.{column_in, covers, shown_column};
ghost use Rattle.rd_matrix.specs.Cursors.{column_shown};
ghost use Rattle.rd_matrix.specs.Entries.{shown_entry};

use rd_base::{Memory, Pos};
use rd_rows::{Begin, Row};
use std::alloc::Global;
use std::marker::Model;

/// A row of a window: the first position of its block, its number in the block from 0, and the row itself.
#[derive(Drop)]
pub struct Entry {
    pub start: Pos,
    pub number: u32,
    pub row: Row,
}

/// The rows of a window, from its top. Contracts see it as the list of its entries.
#[derive(Drop)]
pub struct Matrix {
    entries: Vec<Entry>,
}

impl Model for Matrix {
    ghost use Rattle.std.specs.Prelude.{List, ◌<◌, length};
    ghost use Rattle.rd_matrix.specs.declared.matrix.Entry.{Entry};

    ghost Value = { List Entry };

    ghost view = { λ m. m.entries.items };

    ghost invariant = { λ m. length m.entries.items < 4294967296 };
}

impl Matrix {
    ghost use Rattle.std.specs.Prelude.{◌≡◌, ◌<◌, length, is_some, Some, OnOk, OnErr, IfOk, [], ◌∷◌, ◌++◌, slice_get};
    ghost use Rattle.rd_matrix.specs.Cursors.{cursor_in};
    ghost use Rattle.rd_matrix.specs.Entries.{shown_entries};

    /// A matrix of no row.
    pub fn new(alloc: Global) -> Result<Matrix, Memory>
        ensures { IfOk result (λ matrix. matrix ≡ []) }
    {
        Ok(Matrix {
            entries: Vec::new(alloc),
        })
    }

    /// Adds a row at the end, where there are fewer than 4,294,967,295.
    pub fn push(&mut self, entry: Entry) -> Result<(), Memory>
        requires { length self.old < 4294967295 }
        ensures ok { OnOk result (self.new ≡ self.old ++ entry ∷ []) }
        ensures err { OnErr result (self.new ≡ self.old) }
    {
        self.entries.push(entry)?;
        Ok(())
    }

    /// How many rows there are.
    pub fn len(&self) -> usize
        ensures { result ≡ length self.now }
    {
        self.entries.len()
    }

    /// A row, counted from 0.
    pub fn entry(&self, i: usize) -> &Entry
        requires { i < length self.now }
        ensures { slice_get self.now i ≡ Some result.now }
    {
        &self.entries[i]
    }

    /// The rows, from the top.
    pub fn as_slice(&self) -> &[Entry]
        ensures { result.now ≡ self.now }
    {
        self.entries.as_slice()
    }

    /// The row and the column, from 0, in which the item that covers a position begins: the column in which its first element is
    /// shown, held within the window. In a row that is read from the right edge these columns are counted from there, so that the
    /// item's first element is shown in the column as far from that edge. None exactly where no row holds its beginning. It costs
    /// what the rows have of items.
    pub fn cursor(&self, point: Pos) -> Option<(u32, u32)>
        ensures { result ≡ cursor_in point (shown_entries self.now) }
    {
        for row in 0..self.entries.len() {
            let entry = &self.entries[row];
            if let Some(column) = entry.column_of(point) {
                return Some((row as u32, column));
            }
        }
        None
    }

    /// Whether a row holds the beginning of the item that covers a position.
    pub fn shows(&self, point: Pos) -> bool
        ensures { result ≡ is_some (cursor_in point (shown_entries self.now)) }
    {
        self.cursor(point).is_some()
    }
}

impl Entry {
    /// The column in which the item that covers a position begins, as it is shown.
    fn column_of(&self, point: Pos) -> Option<u32>
        ensures { result ≡ column_shown point (shown_entry self.now) }
    {
        let column = column_in(self.row.begins(), self.start, point)?;
        Some(shown_column(&self.row, column))
    }
}

/// The column in which a reading column of a row is shown, and the reading column of one that is shown, both counted from 0: the same
/// column, and that as far from the right edge in a row that is read from there.
pub fn shown_column(row: &Row, column: u32) -> u32
    ensures { result ≡ shown_column row.now.shown column }
{
    if !row.reversed() {
        return column;
    }
    row.last_column().saturating_sub(column)
}

/// The column of the first item that covers a position among those that begin in a row of a block.
fn column_in(begins: &[Begin], start: Pos, point: Pos) -> Option<u32>
    ensures { result ≡ column_in start point begins.now }
{
    begins
        .iter()
        .find(|begin| covers(begin, start, point))
        .map(|begin| begin.column)
}

/// Whether an item of a block that starts at `start` covers a position.
pub fn covers(begin: &Begin, start: Pos, point: Pos) -> bool
    ensures { result ≡ covers start point begin.now }
{
    let place = point as u64;
    let first = start as u64 + begin.from as u64;
    let end = start as u64 + begin.to as u64;
    first <= place && place < end
}
