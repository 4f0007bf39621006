//! The visual order of a line (UAX 9 L2), step by step: from the embedding levels of its characters to their order from the
//! reading edge, the left edge at an even base level and the right edge at an odd one.
//!
//! Emacs walks in the same way in `bidi_move_to_visually_next` (bidi.c), over a cache of levels. The rules are in docs/RULES.md,
//! "Levels and order".
#![tactic(auto)]

mod examples;
mod run;
mod visual;

pub use visual::Visual;
