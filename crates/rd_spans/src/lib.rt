//! A value for each position of a text, kept as runs of equal values round a gap.
//!
//! Each kind of text property of a buffer is kept in one of these; Emacs keeps all kinds in one tree of intervals (intervals.c).
//! The rules are in docs/RULES.md, "Text properties".
#![tactic(auto)]

mod examples;
mod gap;
mod run;
mod side;
mod spans;

pub use spans::Spans;
