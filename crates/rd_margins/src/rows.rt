//! The margins beside a row.
ghost use Rattle.std.specs.Prelude.{◌≡◌, ◌+◌, IfOk};
ghost use Rattle.rd_margins.specs.Cells.{IsMargin, row_margin};

use crate::lines::numbers;
use rd_base::{Cell, Ch, Face, ListOf, Memory};
use rd_glyphs::{plain_line, plain_lines_are_whole};
use rd_ucd::Classes;
use std::alloc::Global;

/// How many columns a window's margins take: those of line numbers, and behind them those of strings.
#[derive(Clone, Copy, Debug, PartialEq, Eq)]
pub struct Widths {
    pub numbers: u32,
    pub strings: u32,
}

/// The cells of the margins beside a row of a block, in the plain face. `row` is the row's number in its block, from 0, `line` the
/// number of the line of the block's first position, from 1, and `text` that of the margin string there, empty where there is none.
/// They stand beside row 0; beside every other row all is blank.
pub fn row_margin(
    alloc: Global,
    classes: &Classes,
    widths: Widths,
    row: u32,
    line: u32,
    text: &[Ch],
) -> Result<ListOf<Cell>, Memory>
    ensures value { IfOk result (λ cells. cells ≡ row_margin classes.now widths row line text.now) }
    ensures margin { IfOk result (λ cells. IsMargin (widths.numbers + widths.strings) cells) }
{
    plain_lines_are_whole();
    let (line, text): (Option<u32>, &[Ch]) = if row > 0 {
        (None, &[])
    } else {
        (Some(line), text)
    };
    let mut cells = numbers(alloc, line, widths.numbers)?;
    let string = plain_line(alloc, text, classes, Face::PLAIN, widths.strings)?;
    cells.extend_from_slice(string.as_slice())?;
    Ok(cells)
}
