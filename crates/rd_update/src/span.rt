//! Where two rows differ.
ghost use Rattle.std.specs.Prelude.{◌≡◌, ◌<◌, ◌≤◌, ◌-◌, IfOk, length, slice_index_or};
ghost use Rattle.rd_base.specs.Glyphs.{IsRowAfter};
ghost use Rattle.rd_base.specs.Equals.{same_cell};
ghost use Rattle.rd_term.specs.Pictures.{blank};
ghost use Rattle.rd_update.specs.Updates.{first_difference as first_column, end_of_differences as end_column, used as used_of, differs, is_rest, goes_on, begin_of, end_of};
ghost use Rattle.rd_update.specs.Words.{columns_of_words, differing_columns};

use crate::words::{PairWords, read};
use rd_base::{Cell, Face, Memory, good_cells_are_small};
use rd_lanes::{first_diff, last_diff};
use rd_term::{back_while, on_while};

/// Columns from one to before another.
#[derive(Clone, Copy)]
pub(crate) struct Columns {
    pub(crate) from: usize,
    pub(crate) end: usize,
}

/// Whether two rows of one width differ. The first cell that differs ends the comparison.
pub fn differ(old: &[Cell], new: &[Cell]) -> bool
    requires { length old.now ≡ length new.now }
    ensures { result ≡ differs old.now new.now }
{
    old != new
}

/// Of two rows of one width, in which each glyph stands whole, the columns from the first to the last one at which they differ.
/// None exactly where they do not, and then no words of them are read.
pub(crate) fn differences(
    words: &mut PairWords,
    old: &[Cell],
    new: &[Cell],
) -> Result<Option<Columns>, Memory>
    requires length { length old.now ≡ length new.now }
    requires old { IsRowAfter 0 old.now }
    requires new { IsRowAfter 0 new.now }
    ensures { IfOk result (λ columns. columns ≡ differing_columns old.now new.now) }
{
    if !differ(old, new) {
        return Ok(None);
    }
    good_cells_are_small();
    read(&mut words.old, old)?;
    read(&mut words.new, new)?;
    Ok(columns_between(words.old.as_slice(), words.new.as_slice()))
}

/// The columns from the first to the last one at which two rows differ that have these words, three for each cell. None exactly where
/// the words are the same.
fn columns_between(old: &[u64], new: &[u64]) -> Option<Columns>
    requires { length old.now ≡ length new.now }
    ensures { result ≡ columns_of_words old.now new.now }
{
    match (first_diff(old, new), last_diff(old, new)) {
        (Some(first), Some(last)) => Some(Columns {
            from: first / 3,
            end: last / 3 + 1,
        }),
        _ => None,
    }
}

/// The first column from which a row is blank and plain to its end.
pub(crate) fn used(row: &[Cell]) -> usize
    ensures { result ≡ used_of row.now }
{
    back_while(row.len(), |column: usize| is_clear(row, column))
}

/// Whether the cell before a column is blank and plain.
fn is_clear(row: &[Cell], column: usize) -> bool
    requires some { 0 < column }
    requires within { column ≤ length row.now }
    ensures { result ≡ same_cell blank (slice_index_or row.now (column - 1) blank) }
{
    match &row[column - 1] {
        Cell::Blank(face) => Face::PLAIN.is_same(*face),
        _ => false,
    }
}

/// The least interval of columns that holds those at which two rows of one width differ, and cuts no character of either.
pub(crate) fn interval(differing: Columns, old: &[Cell], new: &[Cell]) -> Columns
    requires length { length old.now ≡ length new.now }
    requires differ { 0 < end_column old.now new.now }
    requires from { differing.from ≡ first_column old.now new.now }
    requires end { differing.end ≡ end_column old.now new.now }
    ensures begin { result.from ≡ begin_of old.now new.now }
    ensures end { result.end ≡ end_of old.now new.now }
    ensures order { result.from < result.end }
    ensures within { result.end ≤ length new.now }
{
    let going_on = |column: usize| goes_on(old, new, column);
    Columns {
        from: back_while(differing.from, going_on),
        end: on_while(differing.end, new.len(), going_on),
    }
}

/// Whether a character of either of two rows goes on at a column.
fn goes_on(old: &[Cell], new: &[Cell], column: usize) -> bool
    requires old { column < length old.now }
    requires new { column < length new.now }
    ensures { result ≡ goes_on old.now new.now column }
{
    is_rest(&old[column]) || is_rest(&new[column])
}

/// Whether this is a later column of a character.
fn is_rest(cell: &Cell) -> bool
    ensures { result ≡ is_rest cell.now }
{
    matches!(cell, Cell::Rest)
}
