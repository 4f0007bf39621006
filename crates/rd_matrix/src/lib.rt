//! The rows that a window shows, the place of the cursor among them, and the blocks of a text from which rows come.
//!
//! A `Matrix` is Emacs's glyph matrix of a window (`struct glyph_matrix`). Whoever lays windows out sees a text as a
//! `BlockSource` alone: its blocks, and the rows of each. docs/RULES.md, "Rows" and "The screen", says where the cursor
//! stands.
#![tactic(auto)]

mod block;
mod examples;
mod held;
mod listed;
mod matrix;
mod source;

pub use block::Block;
pub use held::{HeldBlock, MemBlocks};
pub use matrix::{Entry, Matrix, covers, shown_column};
pub use source::BlockSource;
