//! What the files stand for: ranges of codes with a class, codes with their mirrored characters, and codes with their brackets.

use crate::search::Covers;
use rd_base::Class;

/// The codes from `first` to `last` have this class.
#[derive(Clone, Copy, Debug)]
pub struct Span {
    pub first: u32,
    pub last: u32,
    pub class: Class,
}

impl Covers for Span {
    ghost first = { λ span. span.first };

    ghost last = { λ span. span.last };

    fn first(&self) -> u32 {
        self.first
    }

    fn last(&self) -> u32 {
        self.last
    }
}

/// A code and that of its mirrored character.
#[derive(Clone, Copy, Debug)]
pub struct Pair {
    pub code: u32,
    pub mirror: u32,
}

impl Covers for Pair {
    ghost first = { λ pair. pair.code };

    ghost last = { λ pair. pair.code };

    fn first(&self) -> u32 {
        self.code
    }

    fn last(&self) -> u32 {
        self.code
    }
}

/// What a bracket does, with the code of its partner (UAX 9 BD14, BD15).
#[derive(Clone, Copy, Debug, PartialEq, Eq)]
pub enum Bracket {
    /// The bracket opens what the partner closes.
    Opens(u32),
    /// The bracket closes what the partner opens.
    Closes(u32),
}

/// A code and its bracket.
#[derive(Clone, Copy, Debug)]
pub struct BracketEntry {
    pub code: u32,
    pub bracket: Bracket,
}

impl Covers for BracketEntry {
    ghost first = { λ entry. entry.code };

    ghost last = { λ entry. entry.code };

    fn first(&self) -> u32 {
        self.code
    }

    fn last(&self) -> u32 {
        self.code
    }
}
