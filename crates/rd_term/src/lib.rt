//! A screen of cells, and the terminal that a program writes to: what it shows, by the bytes that it was fed.
//!
//! What goes in: bytes, cut anywhere (`Terminal::feed`). What comes out: what stands at each place, where that is known, the cursor, and
//! whether the terminal is confused by what it read.
//!
//! 1. `reading`: a byte begins a character or a control sequence, goes on with it, ends it, or can't be read. `character` puts the
//!    bytes of a character in UTF-8 together, `parameters` the numbers of a sequence, and `control` names the function by its last byte.
//! 2. `printing`: a character is put at the cursor, `overwriting` what stood there; what is left of a wide one that it cuts is not known
//!    any more. A mark joins the character that was put directly before it. Where a character filled the row the cursor waits in the last
//!    column.
//! 3. `obeying`: a function moves the cursor, erases, sets the region, moves the region's rows (`shifting`) or changes the pen (`pen`).
//!    What needs something that is not known, or can't be read, makes the terminal confused, and then it stays as it is.
//!
//! A `Screen` is a picture of which all is known, as this engine paints and remembers it.
//!
//! It is a small part of ECMA-48 and of the VT100, written down as a function of the bytes. In Emacs term.c writes such bytes
//! (`tty_write_glyphs`, `tty_cursor_to`, `tty_ins_del_lines`), and no part of it reads them. The rules are in docs/RULES.md, "The
//! terminal".
#![tactic(auto)]

mod character;
mod control;
mod examples;
mod laws;
mod obeying;
mod overwriting;
mod parameters;
mod pen;
mod printing;
mod reading;
mod rows;
mod screen;
mod shifting;
mod terminal;
mod walk;

pub use laws::{a_cut_makes_no_difference, characters_are_read};
pub use pen::{dressed, is_rendition, numbers_of_face};
pub use screen::{Screen, first_blanks};
pub use terminal::Terminal;
pub use walk::{back_while, on_while};
