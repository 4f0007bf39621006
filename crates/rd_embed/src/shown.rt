//! How a line or a redisplay ended, as its call tells it.
use crate::status::Status;

/// How a line or a redisplay ended, and how many rows a redisplay sent; none where it was not sent, and none for an op.
#[derive(Clone, Copy)]
pub struct Shown {
    pub status: Status,
    pub rows: u32,
}
