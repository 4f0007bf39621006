//! The Unicode data files that the redisplay reads: bidirectional classes in the form of `UnicodeData.txt`, mirrored
//! characters in the form of `BidiMirroring.txt`, and brackets in the form of `BidiBrackets.txt`.
//!
//! The rules are in docs/RULES.md, "Data files".
#![tactic(auto)]

mod brackets;
mod classes;
mod codes;
mod entries;
mod examples;
mod fault;
mod lines;
mod listing;
mod mirrors;
mod names;
mod pieces;
mod reader;
mod search;
mod spans;

pub use brackets::Brackets;
pub use classes::Classes;
pub use fault::UcdFault;
pub use mirrors::Mirrors;
pub use spans::Bracket;
