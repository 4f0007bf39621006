//! Searches in a text that pass over its stretches.
ghost use Rattle.std.specs.Prelude.{◌≡◌, ◌+◌, ◌*◌, ◌/◌, ◌<◌, ◌≤◌, not, length, slice_range};
ghost use Rattle.std.specs.List.{count_by, position_or_len, suffix_len};
ghost use Rattle.rd_text.specs.declared.gap.TheConstants.{STRETCH};
ghost use Rattle.rd_text.specs.Texts.{is_newline};
ghost use Rattle.rd_text.specs.Gaps.{text_of, IsGapText, AreStretches};
ghost use Rattle.rd_text.specs.Pieces.{IsPiece, IsPart, IsOpening, is_sought};

use crate::gap::{GapText, STRETCH};
use crate::lines::Sought;
use crate::opening::last_opening;
use crate::piece::Piece;
use crate::stretch::Stretch;

impl GapText {
    /// How many characters stand from one index on before the first newline, and all up to another index where there is none.
    pub(crate) fn before_newline(&self, from: usize, to: usize) -> usize
        requires right { IsGapText self.now }
        requires order { from ≤ to }
        requires last { to ≤ length (text_of self.now) }
        ensures value { result ≡ position_or_len is_newline (slice_range (text_of self.now) from to) }
        ensures bound { from + result ≤ to }
    {
        let mut at = from;
        'pieces: while at < to {
            let piece = self.piece_at(at, at, to);
            let before = piece.before_newline();
            if before < piece.len() {
                return at + before - from;
            }
            at += before;
        }
        at - from
    }

    /// How many characters stand up to one index behind the last that is sought, and all from another index on where there is none.
    pub(crate) fn after_last(&self, sought: Sought, from: usize, to: usize) -> usize
        requires right { IsGapText self.now }
        requires order { from ≤ to }
        requires last { to ≤ length (text_of self.now) }
        ensures value { result ≡ suffix_len (λ c. not (is_sought sought c)) (slice_range (text_of self.now) from to) }
        ensures bound { from + result ≤ to }
    {
        let mut at = to;
        'pieces: while from < at {
            let piece = self.piece_at(at - 1, from, at);
            let after = piece.after_last(sought);
            if after < piece.len() {
                return to - at + after;
            }
            at -= after;
        }
        to - at
    }

    /// How many newlines stand from one index to another, that one not included.
    #[tactic(auto, using(crate::proofs::Ranges::count_goes))]
    pub(crate) fn newlines(&self, from: usize, to: usize) -> u32
        requires right { IsGapText self.now }
        requires order { from ≤ to }
        requires last { to ≤ length (text_of self.now) }
        ensures value { result ≡ count_by is_newline (slice_range (text_of self.now) from to) }
        ensures bound { from + result ≤ to }
    {
        let mut at = from;
        let mut count = 0;
        'pieces: while at < to {
            let piece = self.piece_at(at, at, to);
            count += piece.newlines();
            at += piece.len();
        }
        count
    }

    /// Where a search back along lines stops: behind the last newline that a line of blanks alone follows, or else at `from`.
    pub(crate) fn opening(&self, from: usize, to: usize) -> usize
        requires right { IsGapText self.now }
        requires order { from ≤ to }
        requires last { to ≤ length (text_of self.now) }
        ensures { IsOpening (text_of self.now) from to result }
    {
        let mut at = to;
        let mut opened = false;
        'pieces: while from < at {
            let piece = self.piece_at(at - 1, from, at);
            let stretch = piece.stretch();
            if stretch.separates(opened) {
                return at - piece.len() + last_opening(piece.codes, opened);
            }
            opened = stretch.opens_before(opened);
            at -= piece.len();
        }
        at
    }

    /// The part of the text around `at` that lies together in memory, within `from` to `to - 1`.
    fn piece_at(&self, at: usize, from: usize, to: usize) -> Piece<'_>
        requires right { IsGapText self.now }
        requires first { from ≤ at }
        requires order { at < to }
        requires last { to ≤ length (text_of self.now) }
        ensures part { IsPart (text_of self.now) at from to result.codes.now }
        ensures right { IsPiece result.codes.now result.known }
    {
        let codes = self.codes.as_slice();
        let stretches = self.stretches.as_slice();
        if at < self.front {
            return around(codes, stretches, at, from, to.min(self.front));
        }
        let gap = self.back - self.front;
        around(
            codes,
            stretches,
            at + gap,
            from.max(self.front) + gap,
            to + gap,
        )
    }
}

/// The codes of the stretch in which `at` lies, within `from` to `to - 1`.
fn around<'a>(
    codes: &'a [u32],
    stretches: &[Stretch],
    at: usize,
    from: usize,
    to: usize,
) -> Piece<'a>
    requires first { from ≤ at }
    requires order { at < to }
    requires right { AreStretches codes.now stretches.now from to }
    ensures part { IsPart codes.now at from to result.codes.now }
    ensures right { IsPiece result.codes.now result.known }
{
    let stretch = at / STRETCH;
    let start = from.max(stretch * STRETCH);
    let stop = to.min((stretch + 1) * STRETCH);
    piece_between(codes, stretches, start, stop)
}

/// The codes at places of one stretch.
fn piece_between<'a>(codes: &'a [u32], stretches: &[Stretch], from: usize, to: usize) -> Piece<'a>
    requires order { from ≤ to }
    requires stretch { to ≤ (from / STRETCH + 1) * STRETCH }
    requires right { AreStretches codes.now stretches.now from to }
    ensures right { IsPiece result.codes.now result.known }
    ensures value { result.codes.now ≡ slice_range codes.now from to }
    ensures len { length result.codes.now + from ≡ to }
{
    let part = &codes[from..to];
    if part.len() == STRETCH {
        return Piece {
            codes: part,
            known: Some(stretches[from / STRETCH]),
        };
    }
    Piece {
        codes: part,
        known: None,
    }
}
