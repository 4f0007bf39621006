//! The row at which a window starts, chosen from its old start, from point and from the rows of its text.
//!
//! The start (`Anchor`) is Emacs's window start, `w->start`. Here one that was chosen is the first position of a block, and the number of a
//! row of that block; an old start may stand where no block begins any more.
//!
//! What goes in: a source of blocks and their rows, the shape of the rows, and what the window wants (`Wanted`): its old start, whether
//! that was set by command, the rows by which it is to be scrolled, point, the height, the scroll margin and `conservatively`. What comes
//! out: the new start and point (`Chosen`). Point moves only where the start was set by command. Rows are laid out block by block, as far
//! as the choice needs them.
//!
//! 1. `strip`: the block that holds the old start is laid out. The strip grows by whole blocks above and below; of a row it keeps where it
//!    stands, whether point is in it, and the least and the greatest position at which its items begin. What the window wants and its
//!    strip are a `Window`.
//! 2. `choice::forced`: a start that was set by command is scrolled by the rows that wait, and held to the rows that there are. If point is
//!    not in view it moves to the first item that begins there, or to the last if its row is below.
//! 3. `choice::following`: else the old start stays if it suits (`view`): point's row is in view and as far from its first and last row as
//!    the margin asks, which is at most a quarter of the height. No margin is asked where the text begins or ends.
//! 4. `choice::moving`: else the nearest row that suits is the start, at most `conservatively` rows away; of two the lesser.
//! 5. `choice::centred`: else point's row comes to the middle of the window. Where the strip does not have that row, a
//!    second strip begins at point's block; so a block is laid out at most twice.
//!
//! In Emacs this is `redisplay_window` (xdisp.c): step 2 is its branch for `force_start`, step 3 is `try_window` at the old start, with its
//! test that point is in view, step 4 is `try_scrolling`, and step 5 is recentring. What `try_cursor_movement` does before step 3,
//! rd_window does. Emacs measures in pixels and its start is a position; here distances are in rows, and a start is a position and the
//! number of a row. Where point is not in view of a forced start Emacs moves it to the middle of the window. It has `scroll-step` and the
//! aggressive variables too, which are not here. The start here is the nearest one of all that suit, and the cost is bounded: of blocks
//! that have no row near the window no rows are asked.
//!
//! The rules are in docs/RULES.md, "Where a window starts".
#![tactic(auto)]

mod choice;
mod examples;
mod laws;
mod span;
mod strip;
mod view;
mod wanted;
mod window;

pub use choice::choose;
pub use laws::a_start_is_a_row;
pub use rd_base::Anchor;
pub use view::is_inside;
pub use wanted::{Chosen, Wanted, margin_of};
