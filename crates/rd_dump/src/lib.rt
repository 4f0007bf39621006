//! The dump of a screen and of the windows on it, as text, and the printing of texts, piece by piece or at once.
//!
//! The rules are in docs/RULES.md, "The report".
#![tactic(auto)]

mod at_once;
mod dump;
mod examples;
mod print;
mod runs;

pub use at_once::{Printed, TokenLine, print_at_once};
pub use dump::{WindowFacts, print_dump, print_placed};
pub use print::{Token, print_between, print_each, print_tokens};
