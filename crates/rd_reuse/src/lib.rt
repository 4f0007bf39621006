//! Rows of an older layout that are used again where nothing changed.
//!
//! The older rows are the window's current glyph matrix in the words of Emacs (`w->current_matrix`), the new ones its desired glyph
//! matrix. Emacs uses rows again in `try_window_id` (xdisp.c), where text was put in or taken away, and on window systems in
//! `try_window_reusing_current_matrix`, where only the start moved.
//!
//! What goes in: a source of blocks and their rows, the older rows (`rd_matrix::Matrix`) at one shape, and a `Change`, which says what
//! stands as it did since then. What comes out: the same rows that the source would give, where the older rows of blocks that keep theirs
//! are the source's. Those of such a block are copies of the older ones and cost nothing; a copy counts how often it was copied.
//!
//! 1. `change`: what ends before the head stands as it did, and what starts at the tail or later does too, moved by the positions that were
//!    added. In Emacs these are `BEG_UNCHANGED` and `END_UNCHANGED` of the buffer. An edit makes such a change, and a later one is joined
//!    to it.
//! 2. `keeping`: a block keeps its rows if it lies before the head or starts at the tail or later, if the older layout has all of its
//!    rows, from the first to the one that ends it, and if they are read from the edge that its base level asks for.
//! 3. `kept`: `Kept` is a source over another one. Its blocks are the same; asked for the rows of a block that keeps them, at the older
//!    shape, it copies them. So rd_start can choose a start without laying such blocks out again.
//! 4. `layout`: `relay` gives the rows in view from a start on, block after block.
//!
//! Emacs keeps single rows, those above the first change and those below the last; here a block keeps all of its rows or none. Emacs
//! moves rows within its matrix and has the terminal move them at once; here rows are copied, and what is sent is found later by
//! comparing screens (rd_lineshift, rd_update).
//!
//! The rules are in docs/RULES.md, "Rows that are used again".
#![tactic(auto)]

mod change;
mod examples;
mod keeping;
mod kept;
mod laws;
mod layout;

pub use change::Change;
pub use kept::Kept;
pub use laws::{
    all_keeps_no_block, combined_with_all, combined_with_none, edits_add_less_than_stands_before,
    kept_rows_cost_nothing,
};
pub use layout::relay;
