//! The windows of a state with their last layouts: what laying all of them out gives, and what an op makes of them.
//!
//! The last layout of a window is its current glyph matrix in Emacs (`w->current_matrix`); `Desired` has the desired ones
//! (`w->desired_matrix`).
//!
//! What goes in: ops (`Views::apply`), and the wish to lay out all windows (`Views::lay_out`). What comes out: what an op refuses; and a
//! `Desired`, which has for each window the start and the point that were chosen, and its new layout if the last one does not stay.
//! `shown` says what the windows then show, for the painting, `adopt` keeps it, and `facts` has what a dump says of them. `spots` tells what
//! stands at a cell of the frame (Emacs: `window_from_coordinates`, `coordinates_in_window`).
//!
//! An op:
//!
//! 1. `applying`: the state makes the op or refuses it, and answers its effect.
//! 2. `noting`: the effect is joined to what changed since the last layout of each window that shows the buffer. Emacs notes this for each
//!    buffer (`BEG_UNCHANGED`, `END_UNCHANGED`), here it is noted for each window.
//! 3. `pointing`: `go` is Emacs's `move-point-visually`, by the visual order of the text; `hit` asks the last layout which position a cell
//!    shows (Emacs: `buffer_posn_from_coords`), and is refused where that may be out of date.
//!
//! A redisplay:
//!
//! 1. `laying`: for each window in leaf order its buffer is made a source of blocks (`rd_blocks`), and `rd_window` lays it out over its
//!    last layout. Emacs goes through its windows in this way in `redisplay_windows`.
//! 2. `desired`: what this gives is gathered, and nothing is changed. If memory is wanting, all is as it was.
//! 3. `adopting`: once the bytes were sent, each window takes its start, its point and its new layout. All memory was taken before. A
//!    window that was not laid out anew keeps its last layout, which is moved over and not copied.
//!
//! In Emacs `redisplay_window` sets a window's start and point at once, and the matrices change places after the update. Here both wait for
//! `adopt`, since a redisplay can fail until its last byte was sent.
//!
//! The rules are in docs/RULES.md: "Rows that are used again" for step 2 of an op, "Hits and motion", and "Windows".
#![tactic(auto)]

mod adopting;
mod applying;
mod desired;
mod facts;
mod lasts;
mod laying;
mod looking;
mod noting;
mod pointing;
mod spots;
mod views;

pub use desired::Desired;
pub use views::Views;
