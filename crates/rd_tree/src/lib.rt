//! The windows of a frame, and the rectangles in which they stand.
//!
//! In Emacs these are the windows of window.c (`struct window`). The rules are in docs/RULES.md, "Windows".
#![tactic(auto)]

mod examples;
mod fault;
mod laws;
mod node;
mod placed;
mod rect;
mod side;
mod tree;

pub use fault::TreeFault;
pub use laws::{
    calls_keep_trees, frames_are_composed, needs_are_exact, other_windows_stay,
    windows_tile_their_rectangle,
};
pub use placed::Placed;
pub use rect::Rect;
pub use side::Side;
pub use tree::Tree;
