//! A text with a gap in it, where it is edited.
ghost use Rattle.std.specs.Prelude.{◌≡◌, ℕ, ◌+◌, ◌-◌, ◌*◌, ◌<◌, ◌≤◌, ◌++◌, IsTrue, OnOk, OnErr, [], length, take, drop, slice_index};
ghost use Rattle.rd_base.specs.Chars.{is_code};
ghost use Rattle.rd_base.specs.declared.limits.TheConstants.{TEXT_CHARACTERS};
ghost use Rattle.rd_text.specs.declared.gap.TheConstants.{STRETCH};
ghost use Rattle.rd_text.specs.Gaps.{text_of, IsGapText, IsGapMoved, IsCopied, IsRecounted};

use crate::stretch::Stretch;
use rd_base::limits::TEXT_CHARACTERS;
use rd_base::{Ch, Memory};
use std::alloc::Global;

/// How many characters a text can have.
pub(crate) const MOST: usize = TEXT_CHARACTERS as usize;

/// How many places a stretch has.
pub(crate) const STRETCH: usize = 1024;

/// The codes of a text, at places among which some in a row are free, and what is kept of the stretches of places. An edit
/// moves the free places to where it happens.
#[derive(Drop)]
pub(crate) struct GapText {
    /// The codes at their places, free ones included.
    pub(crate) codes: Vec<u32>,
    /// What is kept of each stretch: right where it lies whole before the free places or behind them.
    pub(crate) stretches: Vec<Stretch>,
    /// The first free place.
    pub(crate) front: usize,
    /// The first place behind the free ones.
    pub(crate) back: usize,
}

impl GapText {
    /// An empty text.
    pub(crate) fn new(alloc: Global) -> GapText
        ensures text { text_of result ≡ [] }
        ensures right { IsGapText result }
    {
        GapText {
            codes: Vec::new(alloc),
            stretches: Vec::new(alloc),
            front: 0,
            back: 0,
        }
    }

    /// How many characters there are.
    pub(crate) fn len(&self) -> usize
        requires { IsGapText self.now }
        ensures value { result ≡ length (text_of self.now) }
        ensures bound { result ≤ TEXT_CHARACTERS }
    {
        self.front + (self.codes.len() - self.back)
    }

    /// The character at an index.
    pub(crate) fn fetch(&self, at: usize) -> Ch
        requires right { IsGapText self.now }
        requires place { at < length (text_of self.now) }
        ensures { result ≡ slice_index (text_of self.now) at }
    {
        if at < self.front {
            return Ch::from_code(self.codes[at]);
        }
        Ch::from_code(self.codes[at - self.front + self.back])
    }

    /// Puts characters in before an index.
    pub(crate) fn insert(&mut self, at: usize, text: &[Ch]) -> Result<(), Memory>
        requires right { IsGapText self.old }
        requires place { at ≤ length (text_of self.old) }
        requires room { length (text_of self.old) + length text.now ≤ TEXT_CHARACTERS }
        ensures right { IsGapText self.new }
        ensures ok { OnOk result (text_of self.new ≡ take at (text_of self.old) ++ text.now ++ drop at (text_of self.old)) }
        ensures err { OnErr result (text_of self.new ≡ text_of self.old) }
    {
        self.make_room(text.len())?;
        self.move_gap(at);
        let stop = at + text.len();
        write(self.codes.as_mut_slice(), at, text);
        let codes = self.codes.as_slice();
        let stretches = self.stretches.as_mut_slice();
        recount(codes, stretches, at / STRETCH, stop / STRETCH);
        self.front = stop;
        Ok(())
    }

    /// Takes the characters from one index to another, that one not included, away.
    pub(crate) fn delete(&mut self, from: usize, to: usize)
        requires right { IsGapText self.old }
        requires order { from ≤ to }
        requires place { to ≤ length (text_of self.old) }
        ensures right { IsGapText self.new }
        ensures text { text_of self.new ≡ take from (text_of self.old) ++ drop to (text_of self.old) }
    {
        self.move_gap(from);
        self.back += to - from;
    }

    /// Makes sure that so many places are free: where they are not, moves the gap to the end and makes it larger there.
    fn make_room(&mut self, wanted: usize) -> Result<(), Memory>
        requires right { IsGapText self.old }
        requires room { length (text_of self.old) + wanted ≤ TEXT_CHARACTERS }
        ensures right { IsGapText self.new }
        ensures text { text_of self.new ≡ text_of self.old }
        ensures ok { OnOk result (self.new.front + wanted ≤ self.new.back) }
    {
        if wanted <= self.back - self.front {
            return Ok(());
        }
        let length = self.len();
        self.move_gap(length);
        let places = larger(self.codes.len(), length + wanted);
        self.stretches
            .resize(places.div_ceil(STRETCH), Stretch::of_none())?;
        self.codes.resize(places, 0)?;
        self.back = places;
        Ok(())
    }

    /// Moves the gap to an index of the text.
    fn move_gap(&mut self, at: usize)
        requires right { IsGapText self.old }
        requires place { at ≤ length (text_of self.old) }
        ensures { IsGapMoved self.old self.new at }
    {
        if at < self.front {
            self.move_left(at);
        } else {
            self.move_right(at);
        }
    }

    /// Copies the codes at `from` to `to - 1` to the places from `place` on, and counts the stretches `first` to `last - 1` anew.
    fn copy(&mut self, from: usize, to: usize, place: usize, first: usize, last: usize)
        requires order { from ≤ to }
        requires within { to ≤ length self.old.codes.items }
        requires room { place + (to - from) ≤ length self.old.codes.items }
        requires places { last * STRETCH ≤ length self.old.codes.items }
        requires covered { last ≤ length self.old.stretches.items }
        ensures copied { IsCopied self.old.codes.items self.new.codes.items from place (to - from) }
        ensures recounted { IsRecounted self.new.codes.items self.old.stretches.items self.new.stretches.items first last }
    {
        self.codes.as_mut_slice().copy_within(from..to, place);
        let codes = self.codes.as_slice();
        recount(codes, self.stretches.as_mut_slice(), first, last);
    }

    /// Moves the gap to an index before it: the characters between go behind it.
    fn move_left(&mut self, at: usize)
        requires right { IsGapText self.old }
        requires place { at < self.old.front }
        ensures { IsGapMoved self.old self.new at }
    {
        let back = self.back - (self.front - at);
        let last = self.back.div_ceil(STRETCH).min(self.codes.len() / STRETCH);
        self.copy(at, self.front, back, back.div_ceil(STRETCH), last);
        self.front = at;
        self.back = back;
    }

    /// Moves the gap to an index at or behind it: the characters between go before it.
    fn move_right(&mut self, at: usize)
        requires right { IsGapText self.old }
        requires place { at ≤ length (text_of self.old) }
        requires behind { self.old.front ≤ at }
        ensures { IsGapMoved self.old self.new at }
    {
        let back = self.back + (at - self.front);
        let first = self.front / STRETCH;
        self.copy(self.back, back, self.front, first, at / STRETCH);
        self.front = at;
        self.back = back;
    }
}

/// How many places there are to be: twice as many, or as many as are needed, and no more than a text can have.
fn larger(places: usize, needed: usize) -> usize
    requires short { places ≤ TEXT_CHARACTERS }
    requires needed { needed ≤ TEXT_CHARACTERS }
    ensures enough { needed ≤ result }
    ensures more { places ≤ result }
    ensures most { result ≤ TEXT_CHARACTERS }
{
    (2 * places).max(needed).min(MOST)
}

/// Writes the codes of characters to the places from one on.
fn write(codes: &mut [u32], at: usize, text: &[Ch])
    requires room { at + length text.now ≤ length codes.old }
    requires right { (k : ℕ) → IsTrue (is_code (slice_index codes.old k)) }
    ensures value { codes.new ≡ take at codes.old ++ (text.now ++ drop (at + length text.now) codes.old) }
    ensures right { (k : ℕ) → IsTrue (is_code (slice_index codes.new k)) }
{
    for i in 0..text.len() {
        codes[at + i] = text[i].code();
    }
}

/// Counts the stretches from one number to another, that one not included, anew.
fn recount(codes: &[u32], stretches: &mut [Stretch], first: usize, last: usize)
    requires places { last * STRETCH ≤ length codes.now }
    requires covered { last ≤ length stretches.old }
    ensures { IsRecounted codes.now stretches.old stretches.new first last }
{
    for k in first..last {
        stretches[k] = Stretch::of(&codes[k * STRETCH..(k + 1) * STRETCH]);
    }
}
