//! A window, painted over its rectangle of a screen.
ghost use Rattle.std.specs.Prelude.{◌≡◌, ◌+◌, ◌-◌, ◌<◌, ◌≤◌, ◌++◌, ◌∷◌, [], true, if◌then◌else◌, length, map, replicate, All, slice_index_or};
ghost use Rattle.rd_term.specs.Pictures.{blank_row, width_of, with_cells};
ghost use Rattle.rd_frame.specs.Panes.{has_border, body_width, body_height, row_cells, bordered, window_rows};
ghost use Rattle.rd_frame.specs.Fits.{FitsRow, FitsWindow, StandsOn};
ghost use Rattle.rd_frame.specs.Held.{glyph_rows};
ghost use Rattle.rd_frame.specs.Paints.{laid_from, with_rectangle};

use crate::pane::{Pane, body_height, body_width, has_border};
use rd_base::limits::FRAME_COLUMNS;
use rd_base::{Cell, Face, ListOf};
use rd_matrix::Matrix;
use rd_term::{Screen, first_blanks};
use rd_tree::Placed;

/// Paints a window over its rectangle of a screen, whose last row is the echo area: the rows of its matrix behind their margins, blank
/// rows below them, the border beside these where the rectangle does not reach the right edge, and the mode line where the window
/// shows one. Nothing else of the screen changes. It takes no memory, and costs the cells of the rectangle.
pub fn paint_window(screen: &mut Screen, window: Placed, pane: &Pane<'_>)
    requires stands { StandsOn window screen.old.rows }
    requires fits { FitsWindow (width_of screen.old.rows) pane.now window }
    ensures painted { screen.new ≡ record screen.old { rows = with_rectangle window.rect (window_rows (width_of screen.old.rows) pane.now window) screen.old.rows } }
    ensures columns { width_of screen.new.rows ≡ width_of screen.old.rows }
    ensures rows { length screen.new.rows ≡ length screen.old.rows }
{
    let _width = screen.width();
    paint_text(screen, window, &pane.border, pane.matrix, pane.margins);
    paint_blanks(screen, window, &pane.border, pane.matrix.len() as u32);
    paint_mode_line(screen, window, pane.mode_line);
}

/// Paints the rows of a window's matrix.
fn paint_text(
    screen: &mut Screen,
    window: Placed,
    border: &Cell,
    matrix: &Matrix,
    margins: &[ListOf<Cell>],
)
    requires stands { StandsOn window screen.old.rows }
    requires few { length matrix.now ≤ body_height window }
    requires sizes { All (FitsRow (width_of screen.old.rows) window) (glyph_rows margins.now matrix.now) }
    ensures painted { screen.new ≡ record screen.old { rows = laid_from window.rect.y window.rect.x (map (bordered (width_of screen.old.rows) window border.now) (map row_cells (glyph_rows margins.now matrix.now))) screen.old.rows } }
    ensures columns { width_of screen.new.rows ≡ width_of screen.old.rows }
    ensures rows { length screen.new.rows ≡ length screen.old.rows }
{
    for row in 0..matrix.len() {
        let margin = cells_at(margins, row);
        let text = matrix.entry(row).row.cells();
        paint_row(screen, window, border, row as u32, margin, text);
    }
}

/// The list of cells at a place, which is empty behind the last one.
fn cells_at(lists: &[ListOf<Cell>], i: usize) -> &[Cell]
    ensures { result.now ≡ slice_index_or lists.now i [] }
{
    match lists.get(i) {
        Some(cells) => cells.as_slice(),
        None => &[],
    }
}

/// Paints blank rows of a window's text, from one on, out of as many blank cells as the widest row has.
fn paint_blanks(screen: &mut Screen, window: Placed, border: &Cell, from: u32)
    requires stands { StandsOn window screen.old.rows }
    requires from { from ≤ body_height window }
    ensures painted { screen.new ≡ record screen.old { rows = laid_from (window.rect.y + from) window.rect.x (map (bordered (width_of screen.old.rows) window border.now) (replicate (body_height window - from) (blank_row (window.margins + body_width (width_of screen.old.rows) window)))) screen.old.rows } }
    ensures columns { width_of screen.new.rows ≡ width_of screen.old.rows }
    ensures rows { length screen.new.rows ≡ length screen.old.rows }
{
    let blanks = [Cell::Blank(Face::PLAIN); FRAME_COLUMNS as usize];
    let blank = first_blanks(&blanks, window.margins + body_width(screen.width(), window));
    for row in from..body_height(window) {
        paint_row(screen, window, border, row, &[], blank);
    }
}

/// Paints a row of a window's text: its margins, its text, and the border.
fn paint_row(
    screen: &mut Screen,
    window: Placed,
    border: &Cell,
    row: u32,
    margin: &[Cell],
    text: &[Cell],
)
    requires stands { StandsOn window screen.old.rows }
    requires row { row < body_height window }
    requires wide { length margin.now + length text.now ≡ window.margins + body_width (width_of screen.old.rows) window }
    ensures painted { screen.new ≡ record screen.old { rows = with_cells screen.old.rows (window.rect.y + row) window.rect.x (bordered (width_of screen.old.rows) window border.now (margin.now ++ text.now)) } }
    ensures columns { width_of screen.new.rows ≡ width_of screen.old.rows }
    ensures rows { length screen.new.rows ≡ length screen.old.rows }
{
    let _width = screen.width();
    screen.set_cells(window.rect.y + row, window.rect.x, margin);
    let column = window.rect.x + margin.len() as u32;
    screen.set_cells(window.rect.y + row, column, text);
    paint_border(screen, window, border, row);
}

/// Puts the border beside a row of a window's text, where the window has one.
fn paint_border(screen: &mut Screen, window: Placed, border: &Cell, row: u32)
    requires stands { StandsOn window screen.old.rows }
    requires row { row < body_height window }
    ensures painted { screen.new ≡ record screen.old { rows = if has_border (width_of screen.old.rows) window then with_cells screen.old.rows (window.rect.y + row) (window.rect.x + window.rect.width - 1) (border.now ∷ []) else screen.old.rows } }
    ensures columns { width_of screen.new.rows ≡ width_of screen.old.rows }
    ensures rows { length screen.new.rows ≡ length screen.old.rows }
{
    if has_border(screen.width(), window) {
        let column = window.rect.x + window.rect.width - 1;
        screen.set_cells(window.rect.y + row, column, &[*border]);
    }
}

/// Paints the mode line of a window, where it shows one.
fn paint_mode_line(screen: &mut Screen, window: Placed, cells: &[Cell])
    requires stands { StandsOn window screen.old.rows }
    requires wide { window.mode ≡ true → length cells.now ≡ window.rect.width }
    ensures painted { screen.new ≡ record screen.old { rows = if window.mode then with_cells screen.old.rows (window.rect.y + body_height window) window.rect.x cells.now else screen.old.rows } }
    ensures columns { width_of screen.new.rows ≡ width_of screen.old.rows }
    ensures rows { length screen.new.rows ≡ length screen.old.rows }
{
    let _width = screen.width();
    if window.mode {
        let row = window.rect.y + window.rect.height - 1;
        screen.set_cells(row, window.rect.x, cells);
    }
}
