//! The elements of a line, and of a prefix: the items of a block in visual order, each replaced by its elements.
//!
//! `Walker` is what `struct it`, the iterator, is in Emacs's xdisp.c, and its frames are the iterator stack (`it->stack`, `push_it`,
//! `pop_it`). An element is Emacs's display element: a glyph or a blank stretch, with its face, or the end of a row or of the line.
//!
//! What goes in: a `View`, the position at which a block starts, and the base level of its line, 0 or 1. What comes out: the elements of
//! the line, one by one, from the edge at which reading begins; each names the item and the range of the block that it comes from.
//! `string_line` gives the elements of a prefix, all at once.
//!
//! 1. `rd_items::Items::new` lists the items of the block. `line` says which class and code each has; `order` gathers these, and has
//!    rd_levels put the whole line in visual order, before any row is cut. Where the setting `reorder` is off every level is 0.
//! 2. The walk takes one step after the other in the innermost frame (`step`, `line_steps`, `string_steps`). A step gives one element, or
//!    lists the few of a character or of an ellipsis (`few`), or enters a string, or finds that the frame has ended, which then is left.
//! 3. `showing` gives what an item of a block or a part of a string shows: a character's elements as rd_glyphs has them, which are its
//!    entry in the display table, a tab's stretch, the `^A` of a control character, the `\200` of a raw byte, or the character itself, at
//!    an odd level its mirror; the glyph of a character with its marks; the space of a spec; an ellipsis; an end; and a string, which is
//!    entered, or shows nothing where strings are not.
//! 4. A string is cut at its newlines that show, and each ends a row. `row`, `part` and `marks` make such a row as a block is made: its
//!    display runs replace places, marks join, and it is ordered by itself with the line's base. A frame holds one row of its string
//!    at a time.
//! 5. The ender gives the end of the line, which is the last element.
//!
//! There are at most three frames: the block, an overlay's string or the string of a display spec in it, and in an overlay's string a
//! display string. The display runs of a display string are not used, so nothing goes deeper. Frames borrow their texts.
//!
//! In Emacs `get_next_display_element` and `set_iterator_to_next` do step 2, with a method for buffers, strings, display vectors and
//! stretches (`next_element_from_buffer`, `next_element_from_string`, `next_element_from_display_vector`); bidi.c is asked for the
//! next place as the iterator moves on, whereas here a line's order is known before its first element. Emacs handles a prefix by the
//! iterator stack as well (`handle_line_prefix`); here it is a list that the rows place by themselves.
//!
//! The rules are in docs/RULES.md: "Elements of a character" and "Elements of a line"; "Levels and order" has those of step 1.
#![tactic(auto)]

mod entrance;
mod examples;
mod few;
mod growth;
mod keeping;
mod laws;
mod line;
mod line_steps;
mod marks;
#[cfg(test)]
mod nesting;
mod order;
mod part;
mod prefix;
mod row;
mod showing;
mod step;
mod string;
mod string_steps;
mod walker;

pub use growth::objects_that_are_made_change_no_line;
pub use laws::{
    lines_are_coloured, lines_are_sound, lines_end_once, prefixes_are_sound, prefixes_end_no_line,
    readings_are_few, readings_have_codes, scenes_are_sound,
};
pub use line::order_of_items;
pub use prefix::string_line;
pub use walker::Walker;
