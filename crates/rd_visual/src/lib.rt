//! Which position a cell of a window shows, and in which cell a position is shown; and motion from item to item in visual order.
//!
//! In Emacs these are `buffer_posn_from_coords` (dispnew.c), `pos_visible_p` and `move-point-visually` (xdisp.c). The rules are in
//! docs/RULES.md, "Hits and motion".
#![tactic(auto)]

mod examples;
mod hits;
mod laws;
mod motion;
mod range;
mod ranges;
mod way;

pub use hits::{cell_of, position_at};
pub use laws::{
    a_cell_shows_its_item, a_hit_comes_back, enders_have_the_last_range, items_begin_in_the_window,
    left_undoes_right, ranges_are_reordered, ranges_cover_once,
};
pub use motion::{left, right};
