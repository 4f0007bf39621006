//! The ops that a line may say.
use crate::buffer_name::BufferName;
use crate::object::{OpEntry, OpRun, OpSpec};
use crate::setting::Setting;
use rd_base::{Ch, Face, ListOf, Wrap};
use rd_overlays::Kind;
use rd_tree::Side;

/// One op. A buffer is given by its name, a window, an overlay or an object by its number; positions count from 1, and `to` is one
/// past the last position.
#[derive(Drop)]
pub enum Op {
    /// Resizes the frame.
    Frame {
        width: u32,
        height: u32,
    },
    /// Makes an empty buffer.
    Buffer {
        name: BufferName,
    },
    /// Puts a text in before a position.
    Insert {
        buffer: BufferName,
        pos: u64,
        text: ListOf<Ch>,
    },
    /// Puts raw bytes of 128 to 255 in before a position.
    InsertRaw {
        buffer: BufferName,
        pos: u64,
        bytes: ListOf<u8>,
    },
    /// Puts a text in at the selected window's point, which moves behind it.
    TypeText {
        text: ListOf<Ch>,
    },
    /// Takes a range away.
    Delete {
        buffer: BufferName,
        from: u64,
        to: u64,
    },
    /// Makes a range the accessible part.
    Narrow {
        buffer: BufferName,
        from: u64,
        to: u64,
    },
    /// Makes the whole text accessible.
    Widen {
        buffer: BufferName,
    },
    /// Gives the text of a range another value of a kind: the number of a face, of a display spec or of a string, or an atom. None
    /// takes the property away. The kind is not `Before` or `After`, which overlays alone have.
    Put {
        buffer: BufferName,
        from: u64,
        to: u64,
        kind: Kind,
        value: Option<u64>,
    },
    /// Makes an overlay without values. Text put in at its start moves the start where `front` is set, and text put in at its end
    /// moves the end where `rear` is set.
    Overlay {
        buffer: BufferName,
        from: u64,
        to: u64,
        priority: i32,
        front: bool,
        rear: bool,
    },
    /// Gives an overlay another range.
    OverlayMove {
        buffer: BufferName,
        overlay: u64,
        from: u64,
        to: u64,
    },
    /// Takes an overlay away.
    OverlayDrop {
        buffer: BufferName,
        overlay: u64,
    },
    /// Gives an overlay another value of a kind, and None takes it away. The values are as for text, and strings for `Before` and
    /// `After`.
    OverlayPut {
        buffer: BufferName,
        overlay: u64,
        kind: Kind,
        value: Option<u64>,
    },
    /// Sets a setting of a buffer.
    Setting {
        buffer: BufferName,
        setting: Setting,
    },
    /// Makes a string with runs of faces and display specs.
    AddString {
        text: ListOf<Ch>,
        runs: ListOf<OpRun>,
    },
    /// Makes a display spec.
    AddSpec {
        spec: OpSpec,
    },
    /// Makes a face.
    AddFace {
        face: Face,
    },
    /// Makes a display table: what is shown in place of characters, marks of rows that are cut and that go on, what stands before
    /// octal digits and before the letter of a control character, what stands for hidden text, and the line between two windows.
    AddTable {
        entries: ListOf<OpEntry>,
        truncation: Option<Ch>,
        continuation: Option<Ch>,
        escape: Option<Ch>,
        control: Option<Ch>,
        ellipsis: Option<ListOf<Ch>>,
        border: Option<Ch>,
    },
    /// Splits a window, which keeps so many rows or columns: the new window is below it or to its right.
    Split {
        window: u64,
        side: Side,
        size: u64,
    },
    /// Takes a window away.
    Remove {
        window: u64,
    },
    /// Selects a window.
    Select {
        window: u64,
    },
    /// Shows a buffer in a window.
    Show {
        window: u64,
        buffer: BufferName,
    },
    /// Moves a window's point.
    Point {
        window: u64,
        pos: u64,
    },
    /// Forces a window's start: it is at this row, counted from 0, of the block that starts at this position, or at its last row where it
    /// has fewer; where no block starts there, at the first row of the block that holds it.
    Start {
        window: u64,
        pos: u64,
        row: u32,
    },
    /// Scrolls a window by so many rows: down its text, or up where the number is below 0.
    Scroll {
        window: u64,
        rows: i64,
    },
    /// Scrolls a window sideways, by so many columns from its text's edge.
    Hscroll {
        window: u64,
        columns: u32,
    },
    /// Says what becomes of a window's lines that are longer than a row.
    Wrap {
        window: u64,
        mode: Wrap,
    },
    /// Gives a window's mode line a format, and None takes the mode line away.
    ModeLine {
        window: u64,
        format: Option<ListOf<Ch>>,
    },
    /// Says how many rows stand between point and a view's edges, and up to how many rows a view is scrolled to show point.
    Scrolling {
        margin: u32,
        conservatively: u32,
    },
    /// Shows a text in the echo area.
    Echo {
        text: ListOf<Ch>,
    },
    /// Shows the frame, and stops after so many changed rows where a number is given.
    Redisplay {
        stop: Option<u32>,
    },
    /// Says whether the terminal may shift rows.
    Shift {
        on: bool,
    },
    /// Moves a window's point to the item beside it in visual order, on the right or on the left; it stays where there is none.
    Go {
        window: u64,
        right: bool,
    },
    /// Moves a window's point to what is shown in a row and a column of its text, both from 0.
    Hit {
        window: u64,
        row: u32,
        column: u32,
    },
    /// Gives a window margins of so many columns: for line numbers, and for margin strings.
    Margin {
        window: u64,
        numbers: u32,
        strings: u32,
    },
    /// Gives an overlay a margin string, and None takes it away.
    MarginPut {
        buffer: BufferName,
        overlay: u64,
        string: Option<u64>,
    },
}
