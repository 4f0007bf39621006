//! The words of the command line.
//!
//! The rules are in docs/RULES.md, "The program".
#![tactic(auto)]

mod examples;
mod law;
mod words;

pub use law::words_are_read_as_by_clap;
pub use words::{Words, WordsFault, read_words};
