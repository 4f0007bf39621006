//! Mode lines: the line below a window that shows its buffer's name, the line of point, how much of the text is in view and
//! whether it was changed, by a format (the Emacs Lisp manual's `%`-constructs).
//!
//! In Emacs this is `display_mode_line` and `decode_mode_spec` (xdisp.c). The rules are in docs/RULES.md, "Mode lines".
#![tactic(auto)]

mod examples;
mod facts;
mod fault;
mod laws;
mod line;
mod piece;
mod reading;

pub use facts::Facts;
pub use fault::FormatFault;
pub use laws::mode_lines_are_whole;
pub use line::format;
pub use reading::check;
