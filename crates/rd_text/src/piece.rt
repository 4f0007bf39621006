//! A part of a text that lies together in memory.
ghost use Rattle.std.specs.Prelude.{◌≡◌, ◌≤◌, not, length};
ghost use Rattle.std.specs.List.{count_by, position_or_len, suffix_len};
ghost use Rattle.rd_text.specs.Texts.{is_newline};
ghost use Rattle.rd_text.specs.Stretches.{summary};
ghost use Rattle.rd_text.specs.Pieces.{IsPiece, is_sought};

use crate::lines::{Sought, after_last, before_first};
use crate::stretch::{NEWLINE, Stretch};

/// A part of a text that lies together in memory, no longer than a stretch.
#[derive(Drop)]
pub(crate) struct Piece<'a> {
    /// The part's codes.
    pub(crate) codes: &'a [u32],
    /// What is kept of the part where it is a whole stretch.
    pub(crate) known: Option<Stretch>,
}

impl<'a> Piece<'a> {
    /// How many characters the part has.
    pub(crate) fn len(&self) -> usize
        ensures { result ≡ length self.now.codes.now }
    {
        self.codes.len()
    }

    /// How many characters stand before the first newline, and all of them where there is none.
    pub(crate) fn before_newline(&self) -> usize
        requires { IsPiece self.now.codes.now self.now.known }
        ensures value { result ≡ position_or_len is_newline self.now.codes.now }
        ensures bound { result ≤ length self.now.codes.now }
    {
        match self.known {
            Some(stretch) if stretch.lacks(Sought::Newline) => self.codes.len(),
            _ => before_first(self.codes),
        }
    }

    /// How many characters stand behind the last that is sought, and all of them where there is none.
    pub(crate) fn after_last(&self, sought: Sought) -> usize
        requires { IsPiece self.now.codes.now self.now.known }
        ensures value { result ≡ suffix_len (λ c. not (is_sought sought c)) self.now.codes.now }
        ensures bound { result ≤ length self.now.codes.now }
    {
        match self.known {
            Some(stretch) if stretch.lacks(sought) => self.codes.len(),
            _ => after_last(self.codes, sought),
        }
    }

    /// How many newlines the part has.
    pub(crate) fn newlines(&self) -> u32
        requires { IsPiece self.now.codes.now self.now.known }
        ensures value { result ≡ count_by is_newline self.now.codes.now }
        ensures bound { result ≤ length self.now.codes.now }
    {
        match self.known {
            Some(stretch) => stretch.newlines,
            None => rd_lanes::count(self.codes, NEWLINE) as u32,
        }
    }

    /// What a search back along lines needs to know of it.
    pub(crate) fn stretch(&self) -> Stretch
        requires { IsPiece self.now.codes.now self.now.known }
        ensures { result ≡ summary self.now.codes.now }
    {
        match self.known {
            Some(stretch) => stretch,
            None => Stretch::of(self.codes),
        }
    }
}
