//! A text that is edited in place.
ghost use Rattle.std.specs.Prelude.{◌≡◌, ◌≤◌, IfOk, length, All, IsTrue};
ghost use Rattle.rd_base.specs.Chars.{is_code};
ghost use Rattle.rd_text.specs.Texts.{no_text, IsText, IsAccessible, IsParagraphStart, widened, char_at, next_newline, prev_newline, prev_ink, line_of};
ghost use Rattle.rd_text.specs.Answers.{Inserts, Deletes, Narrows};

use crate::fault::TextFault;
use crate::gap::{GapText, MOST};
use crate::lines::Sought;
use rd_base::{Ch, Memory, Pos};
use std::alloc::Global;
use std::marker::Model;

/// A text of at most 4,194,304 characters with its accessible range.
#[derive(Drop)]
pub struct Buffer {
    chars: GapText,
    begin: u32,
    end: u32,
}

impl Model for Buffer {
    ghost use Rattle.std.specs.Prelude.{◌≤◌, ◌+◌, length};
    ghost use Rattle.rd_text.specs.Texts.{TextValue};
    ghost use Rattle.rd_text.specs.Gaps.{text_of, IsGapText};

    ghost Value = { TextValue };

    ghost view = { λ s. record { text = text_of s.chars; begin = s.begin; end = s.end } };

    ghost invariant = { λ s. (1 ≤ s.begin) × (s.begin ≤ s.end) × (s.end ≤ length (text_of s.chars) + 1) × IsGapText s.chars };
}

impl Buffer {
    /// An empty text.
    pub fn new(alloc: Global) -> Result<Buffer, Memory>
        ensures { IfOk result (λ text. text ≡ no_text) }
    {
        Ok(Buffer {
            chars: GapText::new(alloc),
            begin: 1,
            end: 1,
        })
    }

    /// The first accessible position.
    pub fn begin(&self) -> Pos
        ensures value { result ≡ self.now.begin }
        ensures right { IsText self.now }
    {
        self.begin
    }

    /// One past the last accessible position.
    pub fn end(&self) -> Pos
        ensures value { result ≡ self.now.end }
        ensures right { IsText self.now }
    {
        self.end
    }

    /// How many characters there are, accessible or not.
    pub fn length(&self) -> u32
        ensures value { result ≡ length self.now.text }
        ensures right { IsText self.now }
    {
        self.chars.len() as u32
    }

    /// The accessible range lies in the text, which isn't too long, and each character is a scalar value or a raw byte. The call does
    /// nothing.
    pub fn buffers_are_valid(&self)
        ensures text { IsText self.now }
        ensures codes { All (λ c. IsTrue (is_code c)) self.now.text }
    {
        let _chars = &self.chars;
    }

    /// Puts characters in before `pos`; the accessible end moves by their number. The first of these faults counts, and
    /// each leaves the text as it was: OutOfRange exactly unless `begin <= pos <= end`; TooLarge exactly where the text
    /// would have more than 4,194,304 characters; where neither is so, Memory may be answered.
    pub fn insert(&mut self, pos: Pos, text: &[Ch]) -> Result<(), TextFault>
        ensures { Inserts result self.old pos text.now self.new }
    {
        if pos < self.begin || self.end < pos {
            return Err(TextFault::OutOfRange);
        }
        if MOST - self.chars.len() < text.len() {
            return Err(TextFault::TooLarge);
        }
        match self.chars.insert(pos as usize - 1, text) {
            Err(Memory) => Err(TextFault::Memory),
            Ok(()) => {
                self.end += text.len() as u32;
                Ok(())
            }
        }
    }

    /// Takes the characters from `from` to `to - 1` away; the accessible end moves back by their number. OutOfRange
    /// comes exactly unless `begin <= from <= to <= end`; there is no other fault, and it takes no memory.
    pub fn delete(&mut self, from: Pos, to: Pos) -> Result<(), TextFault>
        ensures { Deletes result self.old from to self.new }
    {
        if from < self.begin || to < from || self.end < to {
            return Err(TextFault::OutOfRange);
        }
        self.chars.delete(from as usize - 1, to as usize - 1);
        self.end -= to - from;
        Ok(())
    }

    /// Makes `from` to `to - 1` the accessible range. OutOfRange comes exactly unless `1 <= from <= to <= length + 1`;
    /// there is no other fault.
    pub fn narrow(&mut self, from: Pos, to: Pos) -> Result<(), TextFault>
        ensures { Narrows result self.old from to self.new }
    {
        if from < 1 || to < from || self.length() + 1 < to {
            return Err(TextFault::OutOfRange);
        }
        self.begin = from;
        self.end = to;
        Ok(())
    }

    /// Makes the whole text accessible.
    pub fn widen(&mut self)
        ensures { self.new ≡ widened self.old }
    {
        self.begin = 1;
        self.end = self.length() + 1;
    }

    /// The character at a position, and None exactly unless `1 <= pos <= length`.
    pub fn fetch(&self, pos: Pos) -> Option<Ch>
        ensures { result ≡ char_at self.now pos }
    {
        if pos < 1 || self.length() < pos {
            return None;
        }
        Some(self.chars.fetch(pos as usize - 1))
    }

    /// The first accessible newline at or after `pos`, which is accessible or the accessible end; and that end where
    /// there is none.
    pub fn next_newline(&self, pos: Pos) -> Pos
        requires { IsAccessible self.now pos }
        ensures { result ≡ next_newline self.now pos }
    {
        pos + self
            .chars
            .before_newline(pos as usize - 1, self.end as usize - 1) as u32
    }

    /// One past the last accessible newline before `pos`, which is accessible or the accessible end; and the accessible
    /// beginning where there is none.
    pub fn prev_newline(&self, pos: Pos) -> Pos
        requires { IsAccessible self.now pos }
        ensures { result ≡ prev_newline self.now pos }
    {
        pos - self
            .chars
            .after_last(Sought::Newline, self.begin as usize - 1, pos as usize - 1) as u32
    }

    /// The number of a position's line in the accessible range, from 1: one more than the newlines before the position.
    pub fn line_of(&self, pos: Pos) -> u32
        requires { IsAccessible self.now pos }
        ensures { result ≡ line_of self.now pos }
    {
        1 + self
            .chars
            .newlines(self.begin as usize - 1, pos as usize - 1)
    }

    /// One past the last accessible character before a position that is neither a newline nor a space, a tab or a form feed,
    /// and the accessible beginning where there is none.
    pub fn prev_ink(&self, pos: Pos) -> Pos
        requires { IsAccessible self.now pos }
        ensures { result ≡ prev_ink self.now pos }
    {
        pos - self
            .chars
            .after_last(Sought::Ink, self.begin as usize - 1, pos as usize - 1) as u32
    }

    /// Where the paragraph of a position begins: right behind the last line of only spaces, tabs and form feeds that ends
    /// before the position, and at the accessible beginning where there is none.
    pub fn paragraph_start(&self, pos: Pos) -> Pos
        requires { IsAccessible self.now pos }
        ensures { IsParagraphStart self.now pos result }
    {
        self.buffers_are_valid();
        let from = self.begin as usize - 1;
        let to = pos as usize - 1;
        let at = self.chars.opening(from, to);
        let end = at + self.chars.before_newline(at, to);
        if end == to || self.chars.after_last(Sought::Ink, at, end) < end - at {
            return at as u32 + 1;
        }
        end as u32 + 2
    }
}
