//! What is told of the cells of a row.
ghost use Rattle.std.specs.Prelude.{◌≡◌, map};
ghost use Rattle.rd_embed.specs.Fills.{Fills};
ghost use Rattle.rd_embed.specs.ToldCells.{bare, told_cell};

use crate::faces::FaceLook;
use rd_base::limits::GLYPH_MARKS;
use rd_base::{Cell, Face};

/// A cell: the code of its character (32 of a blank one, 0 of a later column of a character) with its marks, how many columns that has (0
/// of a later one), whether it is 0 a blank, 1 the first column of a character or 2 a later one, and its face.
#[repr(C)]
#[derive(Clone, Copy, Debug, PartialEq, Eq)]
pub struct CellTold {
    pub code: u32,
    pub marks: [u32; GLYPH_MARKS],
    pub mark_count: u8,
    pub width: u8,
    pub part: u8,
    pub reserved: u8,
    pub face: FaceLook,
}

/// What is told of a cell.
pub(crate) fn told_cell(cell: &Cell) -> CellTold
    ensures { result ≡ told_cell cell.now }
{
    match cell {
        Cell::Blank(face) => without_character(32, 1, 0, *face),
        Cell::First(glyph, face) => CellTold {
            code: glyph.base,
            marks: glyph.marks,
            mark_count: glyph.count,
            width: glyph.width,
            part: 1,
            reserved: 0,
            face: FaceLook::of(*face),
        },
        Cell::Rest => without_character(0, 0, 2, Face::PLAIN),
    }
}

/// What is told of a cell that begins no character.
fn without_character(code: u32, width: u8, part: u8, face: Face) -> CellTold
    ensures { result ≡ bare code width part face }
{
    CellTold {
        code,
        marks: [0; GLYPH_MARKS],
        mark_count: 0,
        width,
        part,
        reserved: 0,
        face: FaceLook::of(face),
    }
}

/// Tells the first of these cells in the front of a buffer, as many as there is room for, and answers how many.
pub(crate) fn fill_cells(out: &mut [CellTold], cells: &[Cell]) -> usize
    ensures { Fills result (map told_cell cells.now) out.old out.new }
{
    let count = cells.len().min(out.len());
    for i in 0..count {
        out[i] = told_cell(&cells[i]);
    }
    count
}
