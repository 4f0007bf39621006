//! The base level of the paragraphs of a text (UAX 9 P2 and P3), whatever of it is hidden.
//!
//! Emacs finds it in `bidi_paragraph_init` (bidi.c), where paragraphs are cut by regular expressions. The rules are in
//! docs/RULES.md, "Base level".
#![tactic(auto)]

mod level;
mod line;
mod paragraph;

pub use level::{base_level, next_line, own_level, paragraph_at};
pub use paragraph::Paragraph;
