//! How characters are shown: the elements of a character, the marks that join it, and plain lines of text.
//!
//! In Emacs `get_next_display_element` decides how a character is shown, and `append_composite_glyph` (term.c) joins marks to a
//! base. The rules are in docs/RULES.md, "Elements of a character"; how marks join is part of "Items of a block".
#![tactic(auto)]

mod counting;
mod examples;
mod expansion;
mod laws;
mod looks;
mod mark_role;
mod parts;
mod plain;
mod shown;

pub use counting::plain_columns;
pub use expansion::Expansion;
pub use laws::{
    elements_are_sound, glyph_texts_are_sound, marks_join_measured_glyphs, plain_lines_are_whole,
};
pub use looks::on_blank;
pub use mark_role::{MarkRole, marked_glyph};
pub use parts::{Parts, element_of, expand, of_glyphs};
pub use plain::plain_line;
