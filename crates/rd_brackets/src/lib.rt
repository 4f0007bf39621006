//! Paired brackets: rule N0 of UAX 9, the Unicode bidirectional algorithm, over one isolating run sequence. BD14 and BD15 stand in
//! `role`, BD16 in `matching`, and N0 in `sides` and `resolve`.
//!
//! Emacs has it in `bidi_resolve_brackets` and `bidi_find_bracket_pairs` (bidi.c). docs/RULES.md, "Levels and order", has what is
//! this project's own.
#![tactic(auto)]

mod examples;
mod laws;
mod matching;
mod resolve;
mod role;
mod sides;

pub use laws::no_brackets_change_nothing;
pub use resolve::pair;
