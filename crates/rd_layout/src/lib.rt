//! What a session shows, as definitions with laws: each window's start, point and rows, the screen of the frame, a session with the last
//! layouts of its windows, and what an op and a redisplay make of it. The code has types alone: how a redisplay ends (`outcome`), what a
//! window shows (`shown`), and what stands at a cell of the frame (`spot`).
//!
//! The rules are in docs/RULES.md, from "Where a window starts" to "The screen", and for ops "Scripts" and "Hits and motion".
#![tactic(auto)]

mod examples;
mod laws;
mod outcome;
mod shown;
mod spot;

pub use laws::{
    copies_change_no_allowance, copies_change_no_op, numbers_are_new, redisplays_keep_states,
    redisplays_lead_on, sent_redisplays_are_determined, sessions_stay_known, spots_are_exact,
    targets_are_sound, targets_fit_their_frames,
};
pub use outcome::Outcome;
pub use shown::ShownWindow;
pub use spot::{Shows, Spot};
