//! The numbers of lines.
ghost use Rattle.std.specs.Prelude.{◌≡◌, ◌+◌, ◌++◌, suc, IfOk, OnOk, Some};
ghost use Rattle.rd_base.specs.Faces.{plain};
ghost use Rattle.rd_base.specs.Glyphs.{blanks};
ghost use Rattle.rd_margins.specs.Cells.{IsMargin, digit_cells, number_cells, sign};

use itoa::Buffer;
use rd_base::{Cell, Face, Glyph, ListOf, Memory};
use std::alloc::Global;

/// A blank in the plain face.
const BLANK: Cell = Cell::Blank(Face::PLAIN);

/// The cells of a line's number in so many columns, in the plain face. The last column is blank, and the digits stand at the right
/// of the others; where there are more digits, a plus sign stands in each of these. Without a line all columns are blank.
pub fn numbers(alloc: Global, line: Option<u32>, width: u32) -> Result<ListOf<Cell>, Memory>
    ensures value { IfOk result (λ cells. cells ≡ number_cells width line) }
    ensures margin { IfOk result (λ cells. IsMargin width cells) }
{
    match line {
        Some(line) if width > 0 => number(alloc, line, width - 1),
        _ => no_number(alloc, width),
    }
}

/// A line's number in so many columns, and a blank.
fn number(alloc: Global, line: u32, columns: u32) -> Result<ListOf<Cell>, Memory>
    ensures value { IfOk result (λ cells. cells ≡ number_cells (suc columns) (Some line)) }
    ensures margin { IfOk result (λ cells. IsMargin (columns + 1) cells) }
{
    let mut cells = ListOf::new(alloc);
    push_digits(&mut cells, Buffer::new().format(line).as_bytes(), columns)?;
    cells.push(BLANK)?;
    Ok(cells)
}

/// The blanks that stand in so many columns where no number does.
fn no_number(alloc: Global, columns: u32) -> Result<ListOf<Cell>, Memory>
    ensures value { IfOk result (λ cells. cells ≡ blanks columns plain) }
    ensures margin { IfOk result (λ cells. IsMargin columns cells) }
{
    ListOf::filled(alloc, columns as usize, BLANK)
}

/// Adds digits at the right of so many columns, or as many plus signs.
fn push_digits(cells: &mut ListOf<Cell>, digits: &[u8], columns: u32) -> Result<(), Memory>
    ensures { OnOk result (cells.new ≡ cells.old ++ digit_cells columns digits.now) }
{
    if digits.len() as u64 > columns as u64 {
        return cells.push_copies(columns as u64, sign(b'+'));
    }
    cells.push_copies(columns as u64 - digits.len() as u64, BLANK)?;
    for digit in digits {
        cells.push(sign(*digit))?;
    }
    Ok(())
}

/// A character of one column, in the plain face.
fn sign(code: u8) -> Cell
    ensures { result ≡ sign code }
{
    Cell::First(Glyph::single(code as u32, 1), Face::PLAIN)
}
