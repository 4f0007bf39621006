//! Blocks of a text.

use rd_base::Pos;

/// A block: a piece of a text from its first position `start` on, which ends with a newline that is shown or with the text. `end`
/// is the position behind that of its ender, and `base` the level from which its rows are read: 0 from the left edge, 1 from
/// the right one.
#[derive(Clone, Copy, Debug, PartialEq, Eq)]
pub struct Block {
    pub start: Pos,
    pub end: Pos,
    pub base: u8,
}
