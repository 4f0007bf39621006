//! The types and levels that rules W1 to W7, N1, N2, I1, I2 and L1 of UAX 9, the Unicode bidirectional algorithm, give: W1 to W7 in
//! `weak_walk`, N1 and N2 in `neutral_walk`, I1 and I2 in `raise`, L1 in `reset`.
//!
//! Emacs has them in `bidi_resolve_weak`, `bidi_resolve_neutral` and `bidi_level_of_next_char` (bidi.c). docs/RULES.md, "Levels
//! and order", has what is this project's own, and docs/THEOREMS.md each rule by its number.
#![tactic(auto)]

mod neutral_walk;
mod raise;
mod reset;
pub mod walk;
mod weak_walk;

pub use neutral_walk::neutral;
pub use raise::implicit;
pub use weak_walk::weak;
