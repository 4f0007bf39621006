//! `Outcome`, how a redisplay ends.

/// How a redisplay ended.
#[derive(Clone, Copy, Debug, PartialEq, Eq)]
pub enum Outcome {
    /// The screen shows the target, and so many rows were sent.
    Shown(u32),
    /// So many rows were sent, as many as were asked for, and more differ.
    Stopped(u32),
    /// Memory was wanting: no byte was sent, and the frame is garbaged.
    NoMemory,
    /// The sink failed: a front of the bytes was sent, and the frame is garbaged.
    WriteFault,
}
