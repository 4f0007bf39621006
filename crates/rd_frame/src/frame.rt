//! The echo area and the cursor of a frame.
ghost use Rattle.std.specs.Prelude.{◌≡◌, length, IfSome, Some};
ghost use Rattle.rd_term.specs.Pictures.{width_of};
ghost use Rattle.rd_frame.specs.Fits.{IsInBody, StandsOn};
ghost use Rattle.rd_frame.specs.Frames.{frame_cursor};
ghost use Rattle.rd_frame.specs.Paints.{with_echo};

use rd_base::Cell;
use rd_term::Screen;
use rd_tree::Placed;

/// Paints the echo area, the last row of a screen, which has as many cells as the screen has columns. It takes no memory.
pub fn paint_echo(screen: &mut Screen, cells: &[Cell])
    requires { length cells.now ≡ width_of screen.old.rows }
    ensures painted { screen.new ≡ record screen.old { rows = with_echo cells.now screen.old.rows } }
    ensures columns { width_of screen.new.rows ≡ width_of screen.old.rows }
    ensures rows { length screen.new.rows ≡ length screen.old.rows }
{
    let _width = screen.width();
    let last = screen.height() - 1;
    screen.set_cells(last, 0, cells);
}

/// Places the cursor of a screen by that of a window, a row and a column of the window's text from 0; where the window has none, at
/// the first cell of its text, right of its margins. It takes no memory.
pub fn place_cursor(screen: &mut Screen, window: Placed, cursor: Option<(u32, u32)>)
    requires stands { StandsOn window screen.old.rows }
    requires inside { IfSome cursor (IsInBody (width_of screen.old.rows) window) }
    ensures { screen.new ≡ record screen.old { row = (frame_cursor (Some window) cursor).0; column = (frame_cursor (Some window) cursor).1 } }
{
    let _width = screen.width();
    let (row, column) = cursor.unwrap_or((0, 0));
    screen.place(window.rect.y + row, window.rect.x + window.margins + column);
}
