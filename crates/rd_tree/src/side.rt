//! Where a new window goes.

/// Where a new window goes: below the old one, or to its right.
#[derive(Clone, Copy, Debug, PartialEq, Eq)]
pub enum Side {
    Below,
    Right,
}
