//! The blocks of a buffer and their rows: the source from which windows are laid out, with the law that it is one.
//!
//! A block is what Emacs calls a visible line.
//!
//! What goes in: a `View`, which is a buffer with its objects and data files; a position, or a block; and the shape of the rows. What comes
//! out: the block that holds the position, the one before a block or the one behind it, each with its base level; and the rows of a block.
//! Each element that is placed in them counts as a step.
//!
//! 1. `blocks`: rd_items says where a block begins and ends.
//! 2. `base`: its base level follows from the buffer's settings, or where the text decides it from the block's paragraph, which rd_para
//!    finds. The paragraphs that were found last, one on the way up and one on the way down, are continued line by line, so that
//!    blocks in order ask for each once.
//! 3. `rows`: the properties at the block's first position are looked up once. By them, or else by the settings, a block has a line prefix
//!    and a wrap prefix. rd_stack gives the elements of both (`string_line`) and those of the line (`Walker`).
//! 4. rd_rows cuts the line behind its prefixes into rows. The truncation mark and the continuation mark are the display table's, or `$`
//!    and a backslash, which is a slash in a line that is read from the right.
//!
//! `locality` and `changes` have the laws by which a layout may keep rows: what a row is depends on what is read of its block alone.
//!
//! In Emacs (xdisp.c) step 1 is `back_to_previous_visible_line_start` and `reseat_at_next_visible_line_start`, step 2 is
//! `bidi_paragraph_init` (bidi.c), and `display_line` does steps 3 and 4 at once, one row at each call (`handle_line_prefix`,
//! `insert_left_trunc_glyphs`). The rules are in docs/RULES.md, "Rows of a block".
#![tactic(auto)]

mod base;
mod blocks;
mod changes;
mod examples;
mod laws;
mod locality;
mod rows;

pub use blocks::Blocks;
pub use changes::changes_lead_on;
pub use laws::{
    accessible_positions_lie_in_blocks, blocks_fill_the_text, buffers_are_sources,
    items_that_give_have_elements, rows_of_buffers_are_coloured, rows_of_buffers_are_whole,
};
pub use locality::{kept_rows_are_fresh, rows_are_local};
