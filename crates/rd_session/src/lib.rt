//! A session: the state of the editor with the last layouts of its windows and the screen, the ops, and the redisplay.
//!
//! What goes in: the Unicode data at the beginning, then one op after the other (`Session::apply`), and for a redisplay a sink and, where
//! it is to stop early, the most rows that it may send (`Session::redisplay`). What comes out: the bytes in the sink, and an `Outcome`,
//! which says whether the frame was shown or the redisplay stopped, and how many rows were sent, or that memory was wanting or the sink
//! failed. In between the session lends what it knows (`lending`): starts, points, rows and cursors of windows, the buffers with their
//! texts, the current screen, and what stands at a cell.
//!
//! A redisplay takes these steps, as Emacs's `redisplay_internal` (xdisp.c) and, from step 2 on, `update_frame` (dispnew.c) do:
//!
//! 1. `rd_views` lays out all windows (Emacs: `redisplay_windows`). That gives a `Desired`: a desired glyph matrix for each window
//!    whose last one does not stay.
//! 2. `rd_paint` paints the target, the frame's desired screen, with margins, borders, mode lines and echo area (Emacs:
//!    `build_frame_matrix`).
//! 3. `bands` finds the rows that the terminal may shift: the text of each window that is as wide as the frame, and
//!    none unless the op `shift` has allowed it.
//! 4. `rd_lineshift` looks for a shift that saves rows (Emacs: `scrolling`), and `rd_update` prepares the bytes for all rows in which the
//!    current screen still differs from the target.
//! 5. The bytes are sent, all or up to the limit of rows. From here on no memory is taken.
//! 6. The screen becomes the current one: the target, or what a stopped update left. The windows keep their starts, their points and
//!    their new layouts, which then are their current glyph matrices.
//!
//! Until step 5 nothing is changed. If memory is wanting no byte is sent; if the sink fails some may have been. In both cases nobody knows
//! afterwards that the terminal is right: the frame is garbaged, as in Emacs, and the next redisplay paints it whole.
//!
//! Emacs makes windows, matrices and screen right piece by piece, and if input comes in it stops in the middle and marks what is not done.
//! Here all is prepared, then sent, then kept. What an op can have changed is joined to the last layouts (`rd_views`), so that a
//! redisplay after it can use their other rows again, and it places no more elements than its allowance.
//!
//! The rules are in docs/RULES.md: "Scripts", "State" and "Hits and motion" for the ops, "Rows that are used again", "The screen", "Line
//! shifts" and "Update bytes" for the redisplay. `redisplay` says the whole in one contract, by the definitions of rd_layout.
#![tactic(auto)]

mod bands;
mod lending;
mod redisplay;
mod session;

pub use rd_layout::{Outcome, Shows, Spot};
pub use session::Session;
