//! A paragraph of a text.
use rd_base::Pos;

/// A paragraph with the lines of blanks behind it, up to the end of one of these lines: each of its positions has its base
/// level where the text decides.
#[derive(Clone, Copy, Debug, PartialEq, Eq)]
pub struct Paragraph {
    /// Its first position.
    pub from: Pos,
    /// The end of the line that was asked for: the position of its newline, or the accessible end.
    pub to: Pos,
    /// The base level, 0 or 1.
    pub base: u8,
}
