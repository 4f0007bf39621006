//! Cells that are put into a row in place of others.
ghost use Rattle.std.specs.Prelude.{◌≡◌, ◌+◌, ◌-◌, ◌<◌, ◌≤◌, length, map, take, drop, slice_index_or, None, Some};
ghost use Rattle.rd_base.specs.Glyphs.{glyph_cells};
ghost use Rattle.rd_term.specs.Overwriting.{is_later, overwritten};
ghost use Rattle.rd_term.specs.Terminals.{erased_from};

use crate::walk::{back_while, on_while};
use rd_base::limits::FRAME_COLUMNS;
use rd_base::{Cell, Face, Glyph, ListOf};

/// Whether a column of a row is a later one of a character.
fn is_later(row: &ListOf<Option<Cell>>, column: usize) -> bool
    requires { column < length row.now }
    ensures { result ≡ is_later (slice_index_or row.now column None) }
{
    matches!(row.as_slice()[column], Some(Cell::Rest))
}

/// Makes the columns unknown that are left of characters which have a column from one to before another.
fn cut(row: &mut ListOf<Option<Cell>>, from: usize, to: usize)
    requires from { from < length row.old }
    requires order { from < to }
    requires end { to ≤ length row.old }
    ensures { row.new ≡ overwritten from (take (to - from) (drop from row.old)) row.old }
{
    let goes_on = |column: usize| is_later(row, column);
    let begin = back_while(from, goes_on);
    let end = on_while(to, row.len(), goes_on);
    row.fill(begin, from, None);
    row.fill(to, end, None);
}

/// Puts a character into a row, from a column on.
pub(crate) fn put_character(
    row: &mut ListOf<Option<Cell>>,
    column: usize,
    glyph: &Glyph,
    face: Face,
)
    requires some { 1 ≤ glyph.now.width }
    requires room { column + glyph.now.width ≤ length row.old }
    requires narrow { length row.old ≤ FRAME_COLUMNS }
    ensures { row.new ≡ overwritten column (map Some (glyph_cells glyph.now.width glyph.now face)) row.old }
{
    let end = column + glyph.width as usize;
    cut(row, column, end);
    if glyph.is_space() {
        row.fill(column, end, Some(Cell::Blank(face)));
    } else {
        row.set(column, Some(Cell::First(*glyph, face)));
        row.fill(column + 1, end, Some(Cell::Rest));
    }
}

/// Makes the cells of a row from a column on blank and plain.
pub(crate) fn erase_from(row: &mut ListOf<Option<Cell>>, column: usize)
    requires { column < length row.old }
    ensures { row.new ≡ erased_from column row.old }
{
    let end = row.len();
    cut(row, column, end);
    row.fill(column, end, Some(Cell::Blank(Face::PLAIN)));
}
