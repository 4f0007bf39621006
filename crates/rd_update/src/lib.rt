//! The bytes that bring a terminal from the current screen to the target screen.
//!
//! The current screen is what the terminal shows, the target, or desired screen, is what it should show. In Emacs these are the current and
//! the desired glyph matrix of the frame (`f->current_matrix`, `f->desired_matrix`), and what this crate does is done there by
//! `update_frame` in dispnew.c.
//!
//! What goes in: the current screen, or none where nobody knows it (Emacs: a garbaged frame), and the target, of one size. What comes out:
//! a `Plan`, which is all bytes of the update and the place in them of each row that differs. `Plan::send` sends it, up to a limit of rows,
//! and `Plan::after` is the new current screen.
//!
//! 1. `plan`: where the current screen is unknown the terminal is cleared, and the screen counts as blank.
//! 2. `span`: each row is compared with the target's, from the top. For a row that differs, `words` makes numbers of both rows' cells, and
//!    the first and the last that differ are found by rd_lanes, several at a time.
//! 3. `span`: these columns are widened until no character of either row is cut. That is the least interval that can be sent.
//! 4. `bytes`: the cursor goes to the interval's first column; then come its cells, each behind its face's sequence where the face changes.
//!    Where the target is blank and plain from some column to the row's end, the rest of the row is erased in one.
//! 5. `plan`: behind the last row the cursor goes to the target's place.
//! 6. `Plan::send`: where more rows differ than the limit allows, the first of them go out and the cursor's move does not. The new current
//!    screen then has the target's cells in these rows alone. All bytes were prepared before, so sending takes no memory.
//!
//! In Emacs `update_frame_line` compares a row of both matrices and skips what is alike at its beginning and its end; `write_glyphs`,
//! `clear_end_of_line` and `cursor_to` send what is left, in the terminal's own sequences, and may insert and delete characters within the
//! row. Here one set of sequences of ECMA-48 is used and nothing is moved within a row. Emacs stops where input waits, here a redisplay is
//! given the number of rows after which it stops. That Emacs first moves rows which are only elsewhere (`scrolling`) is rd_lineshift here.
//!
//! The rules are in docs/RULES.md: "Update bytes", and "The terminal" for what the bytes do. `update_law` says that they lead to the
//! target.
#![tactic(auto)]

mod bytes;
mod examples;
mod law;
mod plan;
mod span;
mod words;

pub use bytes::push_sequence;
pub use law::{
    intervals_are_least, sequences_are_read, update_law, updates_keep_screens_sound,
    updates_reach_their_targets,
};
pub use plan::{Plan, Sent, WriteFault};
pub use span::differ;
