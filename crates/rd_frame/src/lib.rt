//! The screen of a frame, put together from what its windows show.
//!
//! What goes in: a screen of the frame's size, whatever it showed before; for each window its place (`Placed` of rd_tree) and a `Pane`,
//! which has the rows of its matrix, the margins beside them, its border's cell and its mode line; the cells of the echo area; and
//! the selected window's cursor. What comes out is the target screen, which rd_lineshift and rd_update bring to the terminal.
//!
//! 1. `paint_window`, for one window after the other: it writes over the window's rectangle the rows of the text behind their margins,
//!    blank rows below these, a border beside both where the rectangle does not reach the frame's right edge, and the mode line.
//! 2. `paint_echo`: the last row of the screen becomes the echo area.
//! 3. `place_cursor`: the cursor goes to its place in the selected window's text, or to the first cell of that text.
//!
//! Since the windows tile all rows but the last, nothing is left of what the screen showed: `windows_are_painted_in_order` says that it is
//! then the frame's, as `specs/Frames` composes it.
//!
//! In Emacs `build_frame_matrix` (dispnew.c) puts the windows' glyph matrices together in this way on a terminal. The rules are
//! in docs/RULES.md, "The screen", and for borders "Windows".
#![tactic(auto)]

mod examples;
mod frame;
mod laws;
mod pane;
mod window;

pub use frame::{paint_echo, place_cursor};
pub use laws::{
    borders_are_whole, frames_are_pictures, panes_show_their_matrix, windows_are_painted_in_order,
    windows_are_painted_one_by_one, windows_fill_their_rectangles,
};
pub use pane::{Pane, body_height, body_width, border_cell};
pub use window::paint_window;
