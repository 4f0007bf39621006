//! What a window shows of a source of blocks: where it starts, its rows in view, and what it can keep of its last layout.
//!
//! In Emacs this is `redisplay_window`. A `Layout` is the window's current glyph matrix (`w->current_matrix`) with all that it was made by,
//! and the new one is the desired glyph matrix (`w->desired_matrix`). The rows of both are a `rd_matrix::Matrix`.
//!
//! What goes in: a source of blocks (for a buffer `rd_blocks::Blocks`), the layout of the window's last redisplay, if there was one, what
//! the window wants of its start (`rd_start::Wanted`), and its shape. What comes out: a `Laying`, which is the window start and the point
//! that were chosen, and the new layout, or none where the last one stays.
//!
//! 1. `resting`: if nothing changed since the last layout, no start was set by command, the window has its old shape, height and ways of
//!    scrolling, and point is in view as far from the edges as the scroll margin asks, then the cursor alone moves. No row is made or
//!    copied. In Emacs this is `try_cursor_movement`.
//! 2. `again`: else the rows of the last layout may be kept if they have the window's shape; a window of another shape keeps none.
//! 3. `window`: the source is put behind another, `remembered`, which lays each block out once, though both of the next steps ask for its
//!    rows.
//! 4. `rd_start::choose` chooses the start and the point. It reads through a `rd_reuse::Kept`, which copies the rows of blocks that keep
//!    theirs.
//! 5. `rd_reuse::relay` takes the rows in view from there on, and itself copies those that are kept. The rows in view are the new layout,
//!    since which nothing changed.
//! 6. `layout`: whether the text's first row and its last one are in view is read from the rows, in step 1 of the next redisplay and for
//!    the mode line.
//!
//! Emacs first measures with the iterator alone (`start_display`, `move_it_to`), and makes the rows afterwards (`try_window`), so that a
//! line may be walked more than once. It changes the window as it goes. Here nothing is changed: the layer above keeps a new layout once
//! its bytes were sent.
//!
//! The rules are in docs/RULES.md: "Where a window starts" and "Rows that are used again".
#![tactic(auto)]

mod again;
mod examples;
mod laws;
mod layout;
mod remembered;
mod resting;
mod window;

pub use again::{Laying, lay_out_again};
pub use laws::{layouts_stand_over_equal_rows, new_layouts_stand, no_rows_are_kept};
pub use layout::{Layout, TextEnds};
pub use window::{InView, lay_out};
