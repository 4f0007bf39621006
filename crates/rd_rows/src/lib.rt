//! The rows into which a line of elements is cut: Emacs's screen lines.
//!
//! A `Row` is what a glyph row (`struct glyph_row`) is in Emacs: its cells by column, each blank, the first column of a glyph, or a later
//! one of it. It also has the items that begin in it and where (`Begin`), from which edge it is read (Emacs: `reversed_p`), whether the
//! line ends in it, and how often it was copied.
//!
//! What goes in: a `Shape`, which is a window's width, what becomes of long lines (truncate, continue or word) and by how many columns it
//! is scrolled sideways; the line's base level; the elements of two prefixes, one for the first row and each row behind a row's end, one
//! for the rows that go on; the truncation mark and the continuation mark; and then the line's elements, from `rd_stack::Walker` or any
//! other. What comes out: one row after the other (`RowMaker::next_row`), or all that are left (`make_all`). Each element that is placed
//! counts as a step.
//!
//! 1. `prefix`: each prefix is cut to the elements that fit whole in half of the window's width.
//! 2. `filling`: a row begins with its prefix. `spot` is where the next element comes: how many columns of the row are taken, and which
//!    column of the line it is, from which tabs are measured.
//! 3. `making`: elements are placed while they fit before the last column, which is kept for a mark. A blank stretch that is too long is
//!    cut short, where a column is left for it. In a truncated line every element up to the row's end is placed, and `draft` makes cells of
//!    the columns that are seen.
//! 4. An element that does not fit ends the row. The row asks for the continuation mark (`leave`), and the element waits for the next row.
//!    Where lines are wrapped between words the row ends behind its last break instead, without a mark, and all elements behind that break
//!    wait.
//! 5. `draft`: blanks fill the row. Into the last column `last_cell` puts the continuation mark where the row asks for it, or in a
//!    truncated row the truncation mark where columns are left behind it. Whatever stands in the last column, `with_front_mark` puts
//!    the truncation mark into the first column of each row that has any column, where the window is scrolled sideways.
//! 6. `mirror`: until then columns count from the reading edge. A row of base level 1 is turned round, glyph by glyph.
//!
//! In Emacs `display_line` (xdisp.c) does all this: it asks the iterator for elements, `produce_glyphs` (term.c) puts them in the row,
//! and `produce_special_glyphs` and `insert_left_trunc_glyphs` make the marks. To wrap between words it saves the iterator at each break
//! and goes back to it; here the iterator never goes back, and the elements wait. Emacs puts the glyphs of a row from the right edge
//! before each other as it goes. On a window system it keeps no column for marks; here there are terminals alone.
//!
//! The rules are in docs/RULES.md, "Rows". Which prefixes, marks and base level a line has says "Rows of a block", coded in rd_blocks.
#![tactic(auto)]

mod begin;
mod cutting;
mod draft;
mod examples;
mod filling;
mod laws;
mod maker;
mod making;
mod mirror;
mod prefix;
mod row;
mod shape;
mod spot;

pub use begin::Begin;
pub use draft::mark_cell;
pub use laws::{
    prefixes_stand_before_lines, rows_are_coloured, rows_are_whole, rows_behind_quiet_prefixes,
    rows_of_every_line,
};
pub use maker::RowMaker;
pub use rd_base::Wrap;
pub use row::Row;
pub use shape::Shape;
