//! Runs of scripts, as definitions with laws: what each line does, how a run ends, and that each redisplay that is shown is on the
//! terminal.
//!
//! The rules are in docs/RULES.md, "The program", "Scripts", "The report" and "Generated scripts".
#![tactic(auto)]

mod examples;
mod law;
mod status;

pub use law::{
    a_session_stands_behind_each_line, each_redisplay_is_shown, each_slice_is_known,
    no_kind_is_want_of_memory, runs_that_are_fed_alike_end_alike, two_runs_of_one_script_end_alike,
    valid_scripts_end_well,
};
pub use status::{ScriptFault, Status};
