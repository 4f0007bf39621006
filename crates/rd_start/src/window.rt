//! A window whose start is to be chosen, and its rows.

use crate::strip::Strip;
use crate::wanted::Wanted;

/// A window whose start is to be chosen: what it wants, and the rows that were laid out for it.
#[derive(Drop)]
pub(crate) struct Window {
    pub(crate) wanted: Wanted,
    pub(crate) strip: Strip,
}
