//! Updates that may begin with a shift: one run of rows is moved by the terminal itself before the rows that differ are sent.
//!
//! What goes in: the current screen, or none where nobody knows it, the target of the same size, and the bands, which are the runs of rows
//! that may be moved. What comes out: a `Shifted`, all bytes of the update. `Shifted::send` sends it, and `Shifted::after` is the new
//! current screen.
//!
//! 1. `rows`: each row of both screens takes a number, which rows that are the same share, by prints and, where these are equal, by cells.
//! 2. `choice`: of each shift of each band, up and down by one row and more, it is counted by the numbers how many rows would differ after
//!    it. The first of those with the fewest is taken, if it spares `GAIN` rows or more.
//! 3. `bytes`: the band becomes the terminal's region, lines are deleted or inserted at its top, so that its rows move, and the region
//!    becomes the whole screen again.
//! 4. `screens`: the screen after the shift. From there rd_update prepares the rows that still differ.
//!
//! In Emacs this is `scrolling` of dispnew.c, with the costs of scroll.c, which moves several runs of rows at once and counts what the
//! bytes cost. The rules are in docs/RULES.md, "Line shifts".
#![tactic(auto)]

mod band;
mod bytes;
mod choice;
mod examples;
mod law;
mod numbers;
mod plan;
mod rows;
mod screens;

pub use band::{Band, Shift};
pub use choice::shift_of;
pub use law::{
    shift_law, shifted_updates_keep_screens_sound, shifted_updates_reach_their_targets,
    shifts_stay_on_the_screen, the_shift_taken_costs_the_least,
};
pub use plan::{Shifted, shifted_plan};
