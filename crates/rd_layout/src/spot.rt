//! `Spot`, what stands at a cell of the frame.
use rd_base::Pos;

/// What stands at a cell of the frame: a part of the window with a number, or the echo area.
#[derive(Clone, Copy, Debug, PartialEq, Eq)]
pub enum Spot {
    /// A cell of the window's text, by its row and its column there, both from 0, and what it shows.
    Text {
        window: u32,
        row: u32,
        column: u32,
        shows: Shows,
    },
    /// A cell of the window's margins, of line numbers or margin strings.
    Margin {
        window: u32,
    },
    /// A cell of the window's border.
    Border {
        window: u32,
    },
    /// A cell of the window's mode line.
    ModeLine {
        window: u32,
    },
    /// A cell of the echo area, which is the frame's last row.
    EchoArea,
}

/// What a cell of a window's text shows.
#[derive(Clone, Copy, Debug, PartialEq, Eq)]
pub enum Shows {
    /// This position, to which the op `hit` moves the window's point.
    Position(Pos),
    /// No position: the op `hit` leaves point where it is.
    NoPosition,
    /// Nobody knows what: the window was not laid out yet, or may show something else since. The op `hit` is refused as NotShown.
    Unknown,
}
