//! The state of a session: buffers, the objects that they name, the windows that show them, and the frame's size; and what one op
//! makes of it, or why it is refused; with laws of every op: states stay valid, and what an op leaves as it was.
//!
//! The rules are in docs/RULES.md, "Scripts" and "State".
#![tactic(auto)]

mod adding;
mod apply;
mod buffer;
mod buffers;
mod content;
mod editing;
mod effect;
mod examples;
mod frame;
mod laws;
mod made;
mod moves;
mod numbered;
mod objects;
mod overlay;
mod panes;
mod parts;
mod property;
mod putting;
mod raw;
mod refused;
mod setting;
mod state;
mod table;
mod values;
mod views;
mod window;
mod windows;

pub use effect::Effect;
pub use laws::{ops_leave_the_rest, settling_keeps_states, steps_keep_states, windows_are_leaves};
pub use moves::Move;
pub use numbered::{place_of, under};
pub use refused::Refused;
pub use state::State;
pub use window::WindowState;
