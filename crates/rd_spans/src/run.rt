//! Places with one value.

/// The places from the end of the run before it up to `end`, which is not one of them, and their value.
#[derive(Clone, Copy, Debug, PartialEq, Eq)]
pub struct ValueRun {
    pub end: u64,
    pub value: Option<u32>,
}

/// The places from `from` up to `to`, which is not one of them, and the value that they all have.
#[derive(Clone, Copy, Debug, PartialEq, Eq)]
pub(crate) struct ValueRange {
    pub from: u64,
    pub to: u64,
    pub value: Option<u32>,
}
