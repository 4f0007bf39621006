//! What is put for one character.
ghost use Rattle.std.specs.Prelude.{◌≡◌, ◌≤◌, All, length};
ghost use Rattle.rd_base.specs.Glyphs.{IsMeasured};
ghost use Rattle.rd_base.specs.declared.cell.Glyph.{Glyph};
ghost use Rattle.rd_glyphs.specs.Characters.{narrow, digit, on_blank, looks_of, look_columns, TakesColumns, ShowsColumns};
ghost use Rattle.rd_glyphs.specs.Looks.{list_of};
ghost use Rattle.rd_glyphs.specs.MarkRoles.{IsMark};

use crate::shown::Shown;
use rd_base::{Glyph, Look};

/// What is put for one character: one look, two or four.
#[derive(Drop)]
pub enum Looks {
    One(Look),
    Two([Look; 2]),
    Four([Look; 4]),
}

impl Looks {
    /// The looks as a slice.
    pub fn as_slice(&self) -> &[Look]
        ensures { result.now ≡ list_of self.now }
    {
        match self {
            Looks::One(look) => std::slice::from_ref(look),
            Looks::Two(looks) => looks,
            Looks::Four(looks) => looks,
        }
    }
}

/// A glyph of one column.
fn narrow(code: u32) -> Look
    ensures { result ≡ narrow code }
{
    Look::Glyph(Glyph::single(code, 1))
}

/// The lowest octal digit of a number.
fn digit(n: u32) -> Look
    ensures { result ≡ digit n }
{
    narrow(48 + n % 8)
}

/// A mark on a blank.
pub fn on_blank(code: u32) -> Glyph
    ensures value { result ≡ on_blank code }
    ensures measured { IsMark code → IsMeasured result }
{
    Glyph {
        base: 32,
        marks: [code, 0, 0, 0, 0, 0],
        count: 1,
        width: 1,
    }
}

/// What is put for a character, with these glyphs for escapes and for controls.
pub fn looks_of(escape: Glyph, control: Glyph, shown: Shown) -> Looks
    ensures value { list_of result ≡ looks_of escape control shown }
    ensures columns { escape.width ≡ 1 → control.width ≡ 1 → ShowsColumns shown → All TakesColumns (list_of result) }
    ensures count { length (list_of result) ≤ 4 }
{
    match shown {
        Shown::Caret(letter) => Looks::Two([Look::Glyph(control), narrow(letter)]),
        Shown::Octal(byte) => Looks::Four([
            Look::Glyph(escape),
            digit(byte / 64),
            digit(byte / 8),
            digit(byte),
        ]),
        Shown::Space => Looks::One(Look::Blank),
        Shown::Mark(code) => Looks::One(Look::Glyph(on_blank(code))),
        Shown::Itself(code, width) => Looks::One(Look::Glyph(Glyph::single(code, width))),
    }
}

/// How many columns a look takes.
pub fn look_columns(look: Look) -> u8
    ensures { result ≡ look_columns look }
{
    match look {
        Look::Glyph(glyph) => glyph.width,
        Look::Blank => 1,
        Look::RowEnd | Look::LineEnd => 0,
    }
}
