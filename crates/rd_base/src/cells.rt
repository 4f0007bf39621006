//! The cells of a glyph, and of what an element shows.
ghost use Rattle.std.specs.Prelude.{◌≡◌, ◌++◌, OnOk};
ghost use Rattle.rd_base.specs.Glyphs.{glyph_cells, look_cells};

use crate::cell::{Cell, Glyph};
use crate::element::Look;
use crate::face::Face;
use crate::list::ListOf;
use crate::memory::Memory;

/// Adds the cells of a glyph in so many columns: blanks for a space without marks, and else the glyph's first column and the later
/// ones. Its one error is want of memory.
pub fn push_glyph(
    cells: &mut ListOf<Cell>,
    columns: u64,
    glyph: Glyph,
    face: Face,
) -> Result<(), Memory>
    ensures { OnOk result (cells.new ≡ cells.old ++ glyph_cells columns glyph face) }
{
    if glyph.is_space() {
        return cells.push_copies(columns, Cell::Blank(face));
    }
    cells.push(Cell::First(glyph, face))?;
    cells.push_copies(columns.saturating_sub(1), Cell::Rest)
}

/// Adds the cells of what an element shows in so many columns: those of a glyph, and blanks for every other look, an end too. It writes
/// each cell once. Its one error is want of memory.
pub fn push_look(
    cells: &mut ListOf<Cell>,
    columns: u64,
    look: Look,
    face: Face,
) -> Result<(), Memory>
    ensures { OnOk result (cells.new ≡ cells.old ++ look_cells columns look face) }
{
    match look {
        Look::Glyph(glyph) => push_glyph(cells, columns, glyph, face),
        _ => cells.push_copies(columns, Cell::Blank(face)),
    }
}
