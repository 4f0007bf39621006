//! The screen after a shift.
ghost use Rattle.std.specs.Prelude.{◌≡◌, ◌<◌, IfOk, length};
ghost use Rattle.rd_base.specs.Cells.{row_at};
ghost use Rattle.rd_lineshift.specs.Laws.{IsShift};
ghost use Rattle.rd_lineshift.specs.Shifts.{shifted as shifted_of, shifted_rows};

use crate::band::Shift;
use rd_base::limits::FRAME_COLUMNS;
use rd_base::{Cell, Face, Memory};
use rd_term::{Screen, first_blanks};
use std::alloc::Global;

/// The current screen after a shift.
pub(crate) fn shifted(alloc: Global, current: &Screen, shift: Shift) -> Result<Screen, Memory>
    requires { IsShift (length current.now.rows) shift }
    ensures { IfOk result (λ screen. screen ≡ shifted_of shift current.now) }
{
    let blanks = [Cell::Blank(Face::PLAIN); FRAME_COLUMNS as usize];
    let width = current.width();
    let blank = first_blanks(&blanks, width);
    let mut screen = Screen::blank(alloc, width, current.height())?;
    for row in 0..current.height() {
        screen.set_row(row, row_after(current, blank, shift, row));
    }
    let (row, column) = current.cursor();
    screen.place(row, column);
    Ok(screen)
}

/// The cells of a row after a shift, where the rows that come in have the cells `free`. A row of the band comes from `by` rows further
/// down, if that is in the band.
fn row_after<'a>(current: &'a Screen, free: &'a [Cell], shift: Shift, row: u32) -> &'a [Cell]
    requires shift { IsShift (length current.now.rows) shift }
    requires row { row < length current.now.rows }
    ensures { result.now ≡ row_at (shifted_rows shift free.now current.now.rows) row }
{
    let _width = current.width();
    let end = shift.top + shift.height;
    if row < shift.top {
        return current.row(row);
    }
    if row >= end {
        return current.row(row);
    }
    let origin = row as i64 + shift.by;
    if origin < shift.top as i64 {
        return free;
    }
    if origin >= end as i64 {
        return free;
    }
    current.row(origin as u32)
}
