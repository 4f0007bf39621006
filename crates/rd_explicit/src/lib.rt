//! Explicit levels and isolating run sequences: rules X1 to X10 of UAX 9, the Unicode bidirectional algorithm, over the classes
//! of one line. X1 to X8 stand in `state`, over the `stack`, and `levels` applies them; X9 and X10, with BD9 and BD13, in `links` and
//! `runs`.
//!
//! Emacs has them in `bidi_resolve_explicit` (bidi.c). docs/RULES.md, "Levels and order", has what is this project's own, and
//! docs/THEOREMS.md each rule by its number.
#![tactic(auto)]

mod isolate;
mod levels;
mod links;
mod runs;
mod stack;
mod state;

pub use levels::explicit;
pub use runs::sequences;
