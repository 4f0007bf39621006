//! The target screen of a frame, painted from what its windows show.
//!
//! What goes in: the state, what each of its windows shows (start, point and rows, as rd_views chose them), and the classes of characters,
//! by which plain lines show formatting characters as blanks. What comes out: the target, which is the frame's desired screen, or want of
//! memory.
//!
//! 1. `frame`: over a blank screen of the frame's size the windows are painted one after the other, in leaf order.
//! 2. `leaf`, `content`: of each window its rectangle is looked up, and of its buffer the name, the text, the settings and the overlays.
//! 3. `margins`: beside the first row of a line stand its number and its margin string, where the window has columns for them.
//! 4. `mode_line`: the window's format is filled in with the buffer's name and flags, the line of point, and how much is above the start.
//! 5. `border`, `pane`: the border is the one that the buffer's display table has, or else a bar, and rd_frame paints all this over
//!    the rectangle.
//! 6. `frame`: the echo area fills the last row, and the cursor is placed by that of the selected window.
//!
//! In Emacs margins come with each row (`display_line`, and `maybe_produce_line_number` for numbers), mode lines from `display_mode_lines`
//! (xdisp.c), and `build_frame_matrix` (dispnew.c) joins the windows' rows to those of the frame. The rules are in docs/RULES.md,
//! "The screen", "Margins" and "Mode lines".
#![tactic(auto)]

mod border;
mod content;
mod frame;
mod laws;
mod leaf;
mod margins;
mod mode_line;
mod pane;

pub use frame::paint_frame;
