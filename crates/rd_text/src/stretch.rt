//! What is kept of a stretch of a text.
ghost use Rattle.std.specs.Prelude.{◌≡◌, ◌+◌, ◌<◌, ◌&&◌, ◌||◌, not, ◌∷◌, ◌++◌, List, ℕ, [], length};
ghost use Rattle.std.specs.List.{list_any};
ghost use Rattle.rd_text.specs.Texts.{is_blank};
ghost use Rattle.rd_text.specs.Stretches.{summary, opens};
ghost use Rattle.rd_text.specs.Pieces.{is_sought};

use crate::lines::Sought;

/// The code of the character that ends a line.
pub(crate) const NEWLINE: u32 = 10;

/// What a search needs to know of a stretch of a text so that it can pass over it.
#[derive(Clone, Copy)]
pub(crate) struct Stretch {
    /// How many newlines the stretch has.
    pub(crate) newlines: u32,
    /// Whether a character is neither newline nor blank.
    pub(crate) inked: bool,
    /// Whether there are only blanks.
    pub(crate) blank: bool,
    /// Whether the first newline has only blanks before it.
    pub(crate) opens: bool,
    /// Whether the last newline has only blanks behind it.
    pub(crate) closes: bool,
    /// Whether there is a whole line of blanks alone, between two newlines.
    pub(crate) separated: bool,
}

impl Stretch {
    /// What is kept of no characters.
    pub(crate) fn of_none() -> Stretch
        ensures { result ≡ summary [] }
    {
        Stretch {
            newlines: 0,
            inked: false,
            blank: true,
            opens: false,
            closes: false,
            separated: false,
        }
    }

    /// What is kept of these characters, by what they are one by one.
    pub(crate) fn of(codes: &[u32]) -> Stretch
        requires { length codes.now < 4294967296 }
        ensures { result ≡ summary codes.now }
    {
        let mut stretch = Stretch::of_none();
        let mut at = codes.len();
        while 0 < at {
            at -= 1;
            stretch = stretch.behind(codes[at]);
        }
        stretch
    }

    /// Whether no character is one that is sought.
    pub(crate) fn lacks(&self, sought: Sought) -> bool
        ensures { (codes : List ℕ) → self.now ≡ summary codes → result ≡ not (list_any (is_sought sought) codes) }
    {
        match sought {
            Sought::Newline => self.newlines == 0,
            Sought::Ink => !self.inked,
        }
    }

    /// Whether there is a whole line of blanks alone, or one that ends in what stands behind, where that begins with blanks
    /// and a newline.
    pub(crate) fn separates(&self, opened: bool) -> bool
        ensures { result ≡ (self.now.separated || (self.now.closes && opened)) }
    {
        self.separated || (self.closes && opened)
    }

    /// Whether the characters and what stands behind them begin with blanks and a newline.
    pub(crate) fn opens_before(&self, opened: bool) -> bool
        ensures { (codes : List ℕ) (rest : List ℕ) → self.now ≡ summary codes → opens rest ≡ opened → opens (codes ++ rest) ≡ result }
    {
        self.opens || (self.blank && opened)
    }

    /// What is kept of these and one more character, in front.
    fn behind(self, code: u32) -> Stretch
        requires { self.newlines + 1 < 4294967296 }
        ensures { (codes : List ℕ) → self ≡ summary codes → result ≡ summary (code ∷ codes) }
    {
        if code == NEWLINE {
            return Stretch {
                newlines: 1 + self.newlines,
                inked: self.inked,
                blank: false,
                opens: true,
                closes: self.blank || self.closes,
                separated: self.opens || self.separated,
            };
        }
        if is_blank(code) {
            return self;
        }
        Stretch {
            newlines: self.newlines,
            inked: true,
            blank: false,
            opens: false,
            closes: self.closes,
            separated: self.separated,
        }
    }
}

/// Whether a code is that of a space, a tab or a form feed.
pub(crate) fn is_blank(code: u32) -> bool
    ensures { result ≡ is_blank code }
{
    code == 32 || code == 9 || code == 12
}
