//! A run of the program: from the words, the data files and the bytes of a script to the bytes of a terminal, the report and the status.
//!
//! `play` reads the words and the files, runs the lines of the script one after the other, and writes the last line of the report. A line
//! is read as an op, which the session applies or, for `redisplay`, shows: the terminal's bytes are sent, and then the report gets its
//! line, with a dump where one is asked for. What a run is stands in rd_run; that `play` does this, for every ending, is its clause `ran`.
//!
//! The rules are in docs/RULES.md: "The program", "Scripts" and "The report".
#![tactic(auto)]

mod act;
mod halt;
mod last_line;
mod names;
mod program;
mod report;
mod run;
mod top;
mod windows;

pub use names::{op_key, op_kind, refused_kind};
pub use program::{ToReport, ToScreen, run_program};
pub use rd_run::Status;
pub use top::{play, tell_status};
