//! The texts that are put into a buffer of the caller character by character: those of a buffer's characters, and of a row's cells.
ghost use Rattle.std.specs.Prelude.{◌≡◌, ◌≤◌, ◌+◌, ◌++◌, take, length, slice_get};
ghost use Rattle.std.specs.Str.{chars};
ghost use Rattle.rd_base.specs.Chars.{encoded, is_raw};
ghost use Rattle.rd_base.specs.Glyphs.{glyph_bytes};
ghost use Rattle.rd_dump.specs.Dumps.{cell_text};
ghost use Rattle.rd_embed.specs.Spelling.{IsRange, character_bytes};

use crate::fill::{Texts, overwrite};
use rd_base::limits::CODE_POINTS;
use rd_base::{Cell, Glyph, encode};
use rd_text::Buffer;

/// The characters of a range of a buffer's text.
#[derive(Drop)]
pub(crate) struct Characters<'a> {
    pub text: &'a Buffer,
    pub from: u32,
    pub to: u32,
    pub ghost within: { IsRange text.now from to },
}

impl Texts for Characters<'_> {
    ghost use Rattle.std.specs.Prelude.{map};
    ghost use Rattle.rd_text.specs.Texts.{between};
    ghost use Rattle.rd_embed.specs.Spelling.{character_bytes};

    ghost texts = { λ r. map character_bytes (between r.text.now r.from r.to) };

    fn count(&self) -> usize {
        (self.to - self.from) as usize
    }

    fn spell(&self, i: usize, room: &mut [u8; 28]) -> usize {
        match self.text.fetch(self.from + i as u32) {
            Some(character) => spell_character(character.code(), room),
            None => 0,
        }
    }
}

/// The characters of a name.
#[derive(Drop)]
pub(crate) struct Name<'a> {
    pub name: &'a str,
}

impl Texts for Name<'_> {
    ghost use Rattle.std.specs.Prelude.{map};
    ghost use Rattle.std.specs.Str.{chars};
    ghost use Rattle.rd_base.specs.Chars.{encoded};

    ghost texts = { λ n. map encoded (chars n.name.now) };

    fn count(&self) -> usize {
        self.name.chars().count()
    }

    fn spell(&self, i: usize, room: &mut [u8; 28]) -> usize {
        match character_at(self.name, i) {
            Some(character) => put_scalar(room, 0, character as u32),
            None => 0,
        }
    }
}

/// The character of a text at a place.
fn character_at(text: &str, i: usize) -> Option<char>
    ensures { result ≡ slice_get (chars text.now) i }
{
    let mut k = 0;
    for c in text.chars() {
        if k == i {
            return Some(c);
        }
        k += 1;
    }
    None
}

/// The cells of a row.
#[derive(Drop)]
pub(crate) struct Cells<'a> {
    pub cells: &'a [Cell],
}

impl Texts for Cells<'_> {
    ghost use Rattle.std.specs.Prelude.{map};
    ghost use Rattle.rd_dump.specs.Dumps.{cell_text};

    ghost texts = { λ row. map cell_text row.cells.now };

    fn count(&self) -> usize {
        self.cells.len()
    }

    fn spell(&self, i: usize, room: &mut [u8; 28]) -> usize {
        spell_cell(&self.cells[i], room)
    }
}

/// Spells a cell into the front of a room.
fn spell_cell(cell: &Cell, room: &mut [u8; 28]) -> usize
    ensures spelt { take result room.new ≡ cell_text cell.now }
    ensures within { result ≤ 28 }
{
    match cell {
        Cell::Blank(_face) => put(room, 0, b" "),
        Cell::First(glyph, _face) => spell_glyph(glyph, room),
        Cell::Rest => 0,
    }
}

/// Spells a character with its marks into the front of a room.
fn spell_glyph(glyph: &Glyph, room: &mut [u8; 28]) -> usize
    ensures spelt { take result room.new ≡ glyph_bytes glyph.now }
    ensures within { result ≤ 28 }
{
    let mut at = put_scalar(room, 0, glyph.base);
    for mark in glyph.joining() {
        at = put_scalar(room, at, *mark);
    }
    at
}

/// Spells a character of a buffer into the front of a room: in UTF-8, and a raw byte as itself.
fn spell_character(code: u32, room: &mut [u8; 28]) -> usize
    ensures spelt { take result room.new ≡ character_bytes code }
    ensures within { result ≤ 28 }
{
    if is_raw(code) {
        return put(room, 0, &[(code - CODE_POINTS) as u8]);
    }
    put_scalar(room, 0, code)
}

/// Whether a code is that of a raw byte.
fn is_raw(code: u32) -> bool
    ensures { result ≡ is_raw code }
{
    CODE_POINTS + 128 <= code && code < CODE_POINTS + 256
}

/// Puts a scalar value in UTF-8 behind what stands in the front of a room.
fn put_scalar(room: &mut [u8; 28], at: usize, code: u32) -> usize
    requires { at + 4 ≤ 28 }
    ensures put { take result room.new ≡ take at room.old ++ encoded code }
    ensures within { result ≤ at + 4 }
{
    let mut four = [0; 4];
    put(room, at, encode(code, &mut four))
}

/// Puts bytes behind what stands in the front of a room, and answers how many bytes there are then.
fn put(room: &mut [u8; 28], at: usize, bytes: &[u8]) -> usize
    requires { at + length bytes.now ≤ 28 }
    ensures put { take result room.new ≡ take at room.old ++ bytes.now }
    ensures count { result ≡ at + length bytes.now }
{
    overwrite(&mut room[..], at, bytes);
    at + bytes.len()
}
