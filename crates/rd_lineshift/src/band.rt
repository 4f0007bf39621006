//! Rows of a screen whose cells may be moved together.

/// Some rows of a screen, each over its whole width: the first one, from 0, and how many they are.
#[derive(Clone, Copy, Debug, PartialEq, Eq)]
pub struct Band {
    pub top: u32,
    pub height: u32,
}

/// A move of a band's rows: row `r` becomes the old row `r + by`, or blank and plain where that lies outside the band. So `by`
/// above 0 moves rows up, and below 0 down.
#[derive(Clone, Copy, Debug, PartialEq, Eq)]
pub struct Shift {
    pub top: u32,
    pub height: u32,
    pub by: i64,
}
