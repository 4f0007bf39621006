//! The overlays of a buffer: ranges of its text that carry properties, and move with the text as it is edited.
//!
//! Emacs has overlays in buffer.c and itree.c, with a tree where this crate has batches with bounds. The rules are in docs/RULES.md,
//! "Overlays".
#![tactic(auto)]

mod bounds;
mod edges;
mod examples;
mod fault;
mod index;
mod laws;
mod listing;
mod moves;
mod overlay;
mod overlays;
mod store;
mod values;
mod way;

pub use fault::OverlayFault;
pub use laws::{
    edits_keep_starts_before_ends, last_values_are_the_greatest_overlays, listings_are_exact,
};
pub use overlay::{Kind, Living, Overlay, after_deletion};
pub use overlays::Overlays;
pub use values::last_given;
pub use way::Way;
