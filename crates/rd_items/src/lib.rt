//! The items of a block: what the line that shows it is made of, before it is put in order and cut into rows.
//!
//! A block is what Emacs calls a visible line: the text up to a newline that shows, the newline included. A newline that is hidden or
//! replaced cuts nothing; the last block ends with the accessible text. What ends a block is its ender.
//!
//! What goes in: a `View`, which is a buffer (text, properties, overlays, settings) with its objects and data files, and the position at
//! which the block starts. What comes out: its items in order of position (`Items`), each with its bidirectional class, what it shows, its
//! face, and the range of the block that it covers; and where blocks begin and end (`block_at`, `block_from`, `block_before`).
//!
//! 1. `alike_range`: properties are looked up where one changes or an overlay starts or ends. They hold up to the next such stop, which is
//!    the iterator's stop position in Emacs (`compute_stop_pos`, `handle_stop`).
//! 2. `showing`: a position is replaced by a display spec, or hidden with an ellipsis or without, or neither. Positions with one spec make
//!    a run, and so do hidden ones; a run is passed over at once.
//! 3. `piece`: the overlays' strings come first (Emacs: `load_overlay_strings`). Then comes one piece for the run, or for the character.
//!    Its elements wait until the line is walked; here counts only whether it has any, and whether the character is a mark.
//! 4. `walk`: a mark, a character of no columns, joins the character directly before it. What has no element hands its range on to the
//!    next item, so that the items cover each position of the block once.
//!
//! `block` goes from newline to newline and looks properties up at newlines alone, as Emacs does in `back_to_previous_visible_line_start`
//! and `reseat_at_next_visible_line_start`.
//!
//! In Emacs (xdisp.c) no such list is made. The iterator (`struct it`) gives one display element after the other in visual order
//! (`get_next_display_element`, `set_iterator_to_next`); its handlers `handle_face_prop`, `handle_display_prop` and `handle_invisible_prop`
//! do steps 1 and 2 at each stop. Here the list comes first, rd_levels orders it, and `rd_stack::Walker` is the iterator. For the order,
//! Emacs takes hidden text by its own characters and leaves overlays' strings out; here hidden text has no class of its own, and a string
//! or an ellipsis counts as ON. A space of a spec separates segments here, in Emacs paragraphs (`bidi_fetch_char`, bidi.c). Marks are
//! joined here by their width; Emacs has the composition rules of composite.c.
//!
//! The rules are in docs/RULES.md: "Effective properties", "Blocks" and "Items of a block".
#![tactic(auto)]

mod alike_range;
mod block;
mod examples;
mod item;
mod items;
mod laws;
mod piece;
mod showing;
mod walk;

pub use block::{block_at, block_before, block_from};
pub use item::{Item, ItemKind};
pub use items::Items;
pub use laws::{
    blocks_are_listed, blocks_are_read_whole, items_are_measured, items_cover_their_block,
    made_objects_alone_are_read, objects_that_are_made_change_no_item,
};
pub use piece::{class_in_line, parts_of, spec_in};
pub use showing::{is_newline, same_spec};
