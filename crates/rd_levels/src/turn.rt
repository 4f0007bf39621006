//! The places of a line as they are shown.

/// A place of a line in its turn: its index, counted from 0, and whether its embedding level is odd.
#[derive(Clone, Copy, Debug, PartialEq, Eq)]
pub struct Turn {
    pub index: usize,
    pub odd: bool,
}
