//! The small types that objects are made of: the runs of strings, the display specs and the names of a table's slots.

/// What a run gives the characters that it covers.
#[derive(Clone, Copy, Debug, PartialEq, Eq)]
pub enum RunKind {
    Face,
    Display,
}

/// A run over a string's characters from `from` to `to - 1`, counted from 0: a face's or a display spec's number.
#[derive(Clone, Copy, Debug, PartialEq, Eq)]
pub struct Run {
    pub from: u32,
    pub to: u32,
    pub kind: RunKind,
    pub value: u32,
}

/// A display spec: the string of a number, so many columns of blanks, or blanks up to a column.
#[derive(Clone, Copy, Debug, PartialEq, Eq)]
pub enum Spec {
    Text(u32),
    Width(u32),
    Align(u32),
}

/// A place of a display table that holds one glyph.
#[derive(Clone, Copy, Debug, PartialEq, Eq)]
pub enum Slot {
    /// The mark of a row that is cut.
    Truncation,
    /// The mark of a row that goes on.
    Continuation,
    /// What stands before octal digits.
    Escape,
    /// What stands before the letter of a control character.
    Control,
    /// The line between two windows side by side.
    Border,
}

/// A run of a string, and what it gives: a face, or a display spec's number.
#[derive(Clone, Copy, Debug)]
pub struct RunOf<T> {
    pub from: u32,
    pub to: u32,
    pub value: T,
}
