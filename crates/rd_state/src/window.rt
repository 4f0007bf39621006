//! `WindowState`, a window: what it shows, and from where on.
use rd_base::{Anchor, Ch, ListOf, Pos, Wrap};

/// A window: the number of its buffer, its point there, and the anchor of its start; whether that start is forced, by `start` or `scroll`
/// since the last redisplay that settled it; how many rows are pending, up where the number is below 0; how many columns it is scrolled
/// sideways, and what becomes of lines that are longer than a row; the format of its mode line, where it has one; and the columns of its
/// line numbers and of its margin strings.
#[derive(Drop)]
pub struct WindowState {
    pub buffer: u32,
    pub point: Pos,
    pub anchor: Anchor,
    pub forced: bool,
    pub pending: i64,
    pub hscroll: u32,
    pub wrap: Wrap,
    pub format: Option<ListOf<Ch>>,
    pub numbers: u32,
    pub strings: u32,
}
