//! The text of a buffer with its accessible range: insertion, deletion, narrowing, and where lines and paragraphs begin and
//! end. Positions count from 1.
//!
//! The characters stand as codes in one array with a gap, which moves to where the text is edited. For each stretch of 1,024
//! places the newlines are counted, and it is kept how its first and last lines go on, so that searches pass over stretches.
//!
//! In Emacs this is the text of a buffer with its gap (`struct buffer_text`); the accessible range is BEGV to ZV. The rules are
//! in docs/RULES.md, "State"; "Base level" says what a paragraph is.
#![tactic(auto)]

mod buffer;
mod fault;
mod gap;
mod laws;
mod lines;
mod opening;
mod piece;
mod search;
mod stretch;

pub use buffer::Buffer;
pub use fault::TextFault;
pub use laws::edits_keep_texts;
