//! What a window wants of its start, and what is chosen for it.
ghost use Rattle.std.specs.Prelude.{◌≡◌};
ghost use Rattle.rd_start.specs.Starts.{margin_of};

use rd_base::{Anchor, Pos};

/// A window whose start is to be chosen: its old start, whether that start was set by command and is to be kept, by how many rows
/// such a start is to be scrolled, down where the number is above 0, point, and the count of its text rows. Where the start is not
/// forced, `margin` rows are wanted above and below point's, and the start is moved by at most `conservatively` rows before point
/// is brought to the middle.
#[derive(Clone, Copy, Debug, PartialEq, Eq)]
pub struct Wanted {
    pub anchor: Anchor,
    pub forced: bool,
    pub pending: i64,
    pub point: Pos,
    pub height: u32,
    pub margin: u32,
    pub conservatively: u32,
}

/// The start that was chosen, the first position of a block and the number of a row in it from 0, and point, which a forced start
/// may move.
#[derive(Clone, Copy, Debug, PartialEq, Eq)]
pub struct Chosen {
    pub anchor: Anchor,
    pub point: Pos,
}

/// The rows that are wanted above and below point's, at most a quarter of the window's.
pub fn margin_of(wanted: Wanted) -> u32
    ensures { result ≡ margin_of wanted }
{
    wanted.margin.min(wanted.height / 4)
}
