//! Where items begin in a row.

/// The range that an item covers, as offsets from the start of its block, `to` not included, and the column in which the
/// item's first element stands, counted from 0 at the edge from which the row is read and held within the window.
#[derive(Clone, Copy, Debug, PartialEq, Eq)]
pub struct Begin {
    pub from: u32,
    pub to: u32,
    pub column: u32,
}
