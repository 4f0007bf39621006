//! What a window shows, and the sizes of its text.
ghost use Rattle.std.specs.Prelude.{◌≡◌, ◌+◌, ◌≤◌};
ghost use Rattle.rd_tree.specs.Windows.{columns_for, rows_for};
ghost use Rattle.rd_frame.specs.Panes.{border_cell, has_border, body_width, body_height};

use rd_base::{Cell, Glyph, ListOf};
use rd_matrix::Matrix;
use rd_rows::mark_cell;
use rd_tree::Placed;
use std::marker::Model;

/// What a window shows: its rows from the top, at each row's place the cells of its margins, the cell of which a border is made, and
/// the cells of a mode line. A row whose place is behind the last of `margins` has no margins, so that a window without margins needs
/// no list. The border and the mode line count only where the window has them.
#[derive(Drop)]
pub struct Pane<'a> {
    pub matrix: &'a Matrix,
    pub margins: &'a [ListOf<Cell>],
    pub border: Cell,
    pub mode_line: &'a [Cell],
}

impl<'a> Model for Pane<'a> {
    ghost use Rattle.rd_frame.specs.Panes.{PaneValues};
    ghost use Rattle.rd_frame.specs.Held.{glyph_rows};

    ghost Value = { PaneValues };

    ghost view = { λ p. record {
      rows = glyph_rows p.margins.now p.matrix.now;
      border = p.border;
      mode_line = p.mode_line.now;
    } };
}

/// The cell of which a border is made, in the plain face: the slot that the display table of the window's buffer has for it, or a
/// vertical bar. A slot that is a space gives a blank.
pub fn border_cell(slot: Option<Glyph>) -> Cell
    ensures { result ≡ border_cell slot }
{
    match slot {
        Some(glyph) => mark_cell(&glyph),
        None => mark_cell(&Glyph::single('|' as u32, 1)),
    }
}

/// Whether a window has a border, on a frame of so many columns: it has one where its rectangle does not reach the right edge.
pub(crate) fn has_border(width: u32, window: Placed) -> bool
    requires { window.rect.x + window.rect.width ≤ width }
    ensures { result ≡ has_border width window }
{
    window.rect.x + window.rect.width < width
}

/// The columns of a window's text, on a frame of so many columns: those that its margins and its border leave.
pub fn body_width(width: u32, window: Placed) -> u32
    requires inside { window.rect.x + window.rect.width ≤ width }
    requires room { columns_for window.margins ≤ window.rect.width }
    ensures { result ≡ body_width width window }
{
    let columns = window.rect.width - window.margins;
    if has_border(width, window) {
        columns - 1
    } else {
        columns
    }
}

/// The rows of a window's text: those that its mode line leaves.
pub fn body_height(window: Placed) -> u32
    requires { rows_for window.mode ≤ window.rect.height }
    ensures { result ≡ body_height window }
{
    if window.mode {
        window.rect.height - 1
    } else {
        window.rect.height
    }
}
