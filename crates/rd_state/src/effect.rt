//! `Effect`, what an accepted op can have changed of what is shown.
use rd_base::Pos;

/// What an accepted op can have changed of what is shown.
#[derive(Clone, Copy, Debug, PartialEq, Eq)]
pub enum Effect {
    /// Nothing.
    Nothing,
    /// At a position of a buffer so many characters were removed, and then so many added.
    Edit {
        buffer: u32,
        from: Pos,
        removed: u32,
        added: u32,
    },
    /// An overlay of a buffer was moved from a range to another. A range is its first position and the one behind its last.
    Moved {
        buffer: u32,
        before: (Pos, Pos),
        after: (Pos, Pos),
    },
    /// All that shows a buffer.
    All {
        buffer: u32,
    },
    /// All that a window shows.
    Window(u32),
}
