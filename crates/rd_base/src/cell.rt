//! Glyphs and the cells of a screen.
ghost use Rattle.std.specs.Prelude.{◌≡◌, ◌<◌, take};
ghost use Rattle.rd_base.specs.Glyphs.{is_space};
ghost use Rattle.rd_base.specs.Equals.{same_glyph, same_cell};
ghost use Rattle.rd_base.specs.Cells.{single, takes_mark, joined_glyph, face_number, packed, glyph_number, words_of, AreOnlyOf, HasColours, IsColoured};

use crate::face::Face;
use crate::limits::GLYPH_MARKS;

/// A character with the marks that join it: `count` of the `marks` count, and the others are 0. It takes `width` columns.
#[derive(Clone, Copy, Debug, PartialEq, Eq)]
pub struct Glyph {
    pub base: u32,
    pub marks: [u32; GLYPH_MARKS],
    pub count: u8,
    pub width: u8,
}

impl Glyph {
    /// A character without marks.
    pub fn single(base: u32, width: u8) -> Glyph
        ensures { result ≡ single base width }
    {
        Glyph {
            base,
            marks: [0; GLYPH_MARKS],
            count: 0,
            width,
        }
    }

    /// Whether this is a space without marks, which a cell shows as `Blank`.
    pub fn is_space(&self) -> bool
        ensures { result ≡ is_space self.now }
    {
        self.base == 32 && self.count == 0
    }

    /// Whether one more mark may join the glyph: it has fewer than six.
    pub fn takes_mark(&self) -> bool
        ensures { result ≡ takes_mark self.now }
    {
        (self.count as usize) < GLYPH_MARKS
    }

    /// This glyph with one more mark, and None exactly where it has six.
    pub fn joined(&self, mark: u32) -> Option<Glyph>
        ensures { result ≡ joined_glyph self.now mark }
    {
        if !self.takes_mark() {
            return None;
        }
        let mut more = *self;
        more.marks[more.count as usize] = mark;
        more.count += 1;
        Some(more)
    }

    /// The marks of this glyph: the first `count` of `marks`.
    pub fn joining(&self) -> &[u32]
        ensures { result.now ≡ take self.now.count self.now.marks }
    {
        let count = (self.count as usize).min(self.marks.len());
        &self.marks[..count]
    }

    /// Whether both have the same characters and columns.
    pub fn is_same(&self, other: &Glyph) -> bool
        ensures { result ≡ same_glyph self.now other.now }
    {
        *self == *other
    }
}

/// One column of a row: blank, the first column of a glyph, or a later column of the glyph on its left. A space without
/// marks is always `Blank`.
#[derive(Clone, Copy, Debug, PartialEq, Eq)]
pub enum Cell {
    Blank(Face),
    First(Glyph, Face),
    Rest,
}

impl Cell {
    /// Three words that differ for different cells whose codes are below 2^21, with at most 6 marks and 3 columns. The cell's colours are
    /// in their range, as those of each `Face` are.
    pub fn words(&self) -> [u64; 3]
        ensures words { result ≡ words_of self.now }
        ensures colours { IsColoured self.now }
        ensures differ { AreOnlyOf self.now result }
    {
        match self {
            Cell::Blank(face) => [1 + 4 * number_of_face(*face), 0, 0],
            Cell::First(glyph, face) => [
                2 + 4 * (number_of_face(*face) + 2048 * number_of_glyph(glyph)),
                pack(glyph.marks[1], glyph.marks[2], glyph.marks[3]),
                pack(glyph.marks[4], glyph.marks[5], 0),
            ],
            Cell::Rest => [0, 0, 0],
        }
    }

    /// Whether both show the same.
    pub fn is_same(&self, other: &Cell) -> bool
        ensures { result ≡ same_cell self.now other.now }
    {
        match (self, other) {
            (Cell::Blank(face), Cell::Blank(under)) => face.is_same(*under),
            (Cell::First(glyph, face), Cell::First(under, back)) => {
                glyph.is_same(under) && face.is_same(*back)
            }
            (Cell::Rest, Cell::Rest) => true,
            _ => false,
        }
    }
}

/// A face in 11 bits.
fn number_of_face(face: Face) -> u64
    ensures value { result ≡ face_number face }
    ensures colours { HasColours face }
    ensures bound { result < 2048 }
{
    let flags = face.bold as u64 + 2 * (face.underline as u64 + 2 * (face.inverse as u64));
    face.fg as u64 % 16 + 16 * (face.bg as u64 % 16 + 16 * flags)
}

/// Three codes in 21 bits each.
fn pack(a: u32, b: u32, c: u32) -> u64
    ensures value { result ≡ packed a b c }
    ensures bound { result < 9223372036854775808 }
    ensures two { c ≡ 0 → result < 4398046511104 }
{
    a as u64 % CODES + CODES * (b as u64 % CODES + CODES * (c as u64 % CODES))
}

/// One more than the greatest code that is told apart.
pub(crate) const CODES: u64 = 2_097_152;

/// A glyph's count, width, base and first mark.
fn number_of_glyph(glyph: &Glyph) -> u64
    ensures value { result ≡ glyph_number glyph.now }
    ensures bound { result < 140737488355328 }
{
    let codes = pack(glyph.base, glyph.marks[0], 0);
    glyph.count as u64 % 8 + 8 * (glyph.width as u64 % 4 + 4 * codes)
}
