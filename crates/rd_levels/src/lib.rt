//! The embedding levels of a line by UAX 9, the Unicode bidirectional algorithm, and the order in which its places are shown.
//!
//! What goes in: the bidirectional class and the code of each character of a line, the line's base level (0 or 1, which rules P2 and P3
//! found), and the codes that are brackets. What comes out: a level for each character (`LevelCache`), and the places of the line
//! in visual order from the reading edge, each with whether its level is odd (`Order`).
//!
//! 1. `rd_explicit::explicit`, rules X1 to X8: embeddings, overrides and isolates are followed on a stack, and each character takes a level
//!    and, in an override, a type of its own from the stack's last entry.
//! 2. `rd_explicit::sequences`, rules X9 and X10: embeddings, overrides, PDF and BN are left out. What stays falls into level runs (BD7),
//!    which are joined across an isolate initiator and its PDI into isolating run sequences (BD13), each with the directions at its
//!    start and end, sos and eos.
//! 3. For each sequence in turn: `rd_resolve::weak`, rules W1 to W7, settles marks and numbers; `rd_brackets::pair`, rule N0, gives paired
//!    brackets a direction; `rd_resolve::neutral`, rules N1 and N2, gives one to all other neutrals.
//! 4. `rd_resolve::implicit`, rules I1 and I2: types that are read against a level raise it. What X9 left out takes the level before it.
//!    Rule L1 then sets separators, and white space before them and at the line's end, back to the base.
//! 5. `rd_order::Visual`, rule L2: from the highest level down, runs are reversed. The walk gives one place after the other, and no list is
//!    reversed.
//!
//! A line at base 0 of classes that can raise no level is looked through once, and steps 1 to 4 are passed over: all its levels are
//! 0, as `lines_read_from_the_left` says. A `LevelCache` that is filled again uses its room again.
//!
//! The rules are in docs/RULES.md, "Levels and order". The definitions have each as a pass over a whole list; `specs/Levels` puts them
//! together. docs/THEOREMS.md says where each rule is stated, coded and proved.
//!
//! GNU Emacs has the same rules in bidi.c: step 1 in `bidi_resolve_explicit`, step 3 in `bidi_resolve_weak`, `bidi_resolve_brackets` and
//! `bidi_resolve_neutral`, step 4 in `bidi_level_of_next_char`, step 5 in `bidi_move_to_visually_next`; as here, a line begins anew behind
//! each newline. It resolves a character when the iterator comes to it, looks ahead where a rule does, and builds no sequences: its stack
//! keeps what an isolate interrupts. Here a line is resolved whole, rule after rule, and its order alone is walked in steps. This project's
//! own: a B inside a line ends no embedding, more than 63 open brackets leave a sequence without pairs, and a line is ordered whole
//! before it is cut into rows.
#![tactic(auto)]

mod cache;
mod examples;
mod fill;
mod laws;
mod order;
mod turn;

pub use cache::LevelCache;
pub use laws::{
    each_place_has_one_turn, enders_come_last, lines_have_a_level_each, lines_read_from_the_left,
};
pub use order::Order;
pub use turn::Turn;
