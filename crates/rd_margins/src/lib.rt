//! The margins of a window: line numbers, and strings of overlays.
//!
//! In Emacs these are `display-line-numbers` and strings that a `display` property puts in the left margin. The rules are in
//! docs/RULES.md, "Margins".
#![tactic(auto)]

mod examples;
mod laws;
mod lines;
mod marks;
mod rows;

pub use laws::{margin_strings_are_the_greatest_overlays, margins_are_whole};
pub use lines::numbers;
pub use marks::Marks;
pub use rows::{Widths, row_margin};
