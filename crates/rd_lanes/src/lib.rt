//! Searches over slices of numbers, eight numbers at a time, with a plain loop for the rest. They take no memory and refuse
//! nothing.
#![tactic(auto)]

mod difference;
mod examples;
mod groups;
mod search;
mod tally;
mod walk;

pub use difference::{first_diff, last_diff};
pub use search::{find, rfind};
pub use tally::{all_below, count};
