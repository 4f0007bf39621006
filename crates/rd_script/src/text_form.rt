//! The forms of texts: those of a buffer, of a plain line, of glyph characters, and buffers' names.
ghost use Rattle.std.specs.Prelude.{◌≡◌, ◌↔◌, IfOk, IfSome, IsNone, true, false, length, option_and_then};
ghost use Rattle.std.specs.List.{list_all};
ghost use Rattle.std.specs.Str.{chars};
ghost use Rattle.rd_objects.specs.Widths.{columns};
ghost use Rattle.rd_script.specs.Fields.{kept_if};
ghost use Rattle.rd_script.specs.Forms.{is_text, is_plain_text, is_name_character, is_name_length, is_buffer_name, is_glyph, is_glyph_text, is_slot};
ghost use Rattle.rd_script.specs.Objects.{only};

use crate::buffer_name::BufferName;
use crate::form::Form;
use rd_base::limits::{ENTRY_GLYPHS, NAME_CHARACTERS, PLAIN_CHARACTERS};
use rd_base::{Ch, Glyph, ListOf, Memory, characters};
use rd_objects::{glyph_character, is_control};
use serde_json::Value;
use std::alloc::Global;

/// A text.
#[derive(Drop)]
pub struct Text;

impl Form for Text {
    ghost use Rattle.rd_script.specs.Fields.{text};

    type Said = ListOf<Ch>;

    ghost kind = { λ _. text };

    fn read(&self, alloc: Global, value: &Value) -> Result<Option<ListOf<Ch>>, Memory> {
        match value.as_str() {
            Some(text) => Ok(Some(scalars(alloc, text)?)),
            None => Ok(None),
        }
    }
}

/// A text that a mode line or the echo area can show.
#[derive(Drop)]
pub struct PlainText;

impl Form for PlainText {
    ghost use Rattle.rd_script.specs.Fields.{plain_text};

    type Said = ListOf<Ch>;

    ghost kind = { λ _. plain_text };

    fn read(&self, alloc: Global, value: &Value) -> Result<Option<ListOf<Ch>>, Memory> {
        match value.as_str() {
            Some(text) => Ok(plain(scalars(alloc, text)?)),
            None => Ok(None),
        }
    }
}

/// A text of so many glyph characters as an entry of a display table may show.
#[derive(Drop)]
pub struct GlyphText;

impl Form for GlyphText {
    ghost use Rattle.rd_script.specs.Objects.{glyph_text};

    type Said = ListOf<Ch>;

    ghost kind = { λ _. glyph_text };

    fn read(&self, alloc: Global, value: &Value) -> Result<Option<ListOf<Ch>>, Memory> {
        match value.as_str() {
            Some(text) => Ok(glyphs(scalars(alloc, text)?)),
            None => Ok(None),
        }
    }
}

/// A text of one glyph character of one column.
#[derive(Drop)]
pub struct Slot;

impl Form for Slot {
    ghost use Rattle.rd_script.specs.Objects.{slot};

    type Said = Ch;

    ghost kind = { λ _. slot };

    fn read(&self, alloc: Global, value: &Value) -> Result<Option<Ch>, Memory> {
        match value.as_str() {
            Some(text) => Ok(only_slot(scalars(alloc, text)?.as_slice())),
            None => Ok(None),
        }
    }
}

/// A buffer's name.
#[derive(Drop)]
pub struct NameOfBuffer;

impl Form for NameOfBuffer {
    ghost use Rattle.rd_script.specs.Fields.{buffer_name};

    type Said = BufferName;

    ghost kind = { λ _. buffer_name };

    fn read(&self, alloc: Global, value: &Value) -> Result<Option<BufferName>, Memory> {
        match value.as_str() {
            Some(text) if is_buffer_name(text) => Ok(Some(BufferName::from_str(alloc, text)?)),
            _ => Ok(None),
        }
    }
}

/// The characters of a text, which are scalar values.
fn scalars(alloc: Global, text: &str) -> Result<ListOf<Ch>, Memory>
    ensures value { IfOk result (λ list. list ≡ chars text.now) }
    ensures scalars { IfOk result (λ list. is_text list ≡ true) }
{
    characters(alloc, text)
}

/// A text of scalar values, where a plain line can show it.
fn plain(text: ListOf<Ch>) -> Option<ListOf<Ch>>
    requires { is_text text ≡ true }
    ensures { result ≡ kept_if is_plain_text text }
{
    if text.len() <= PLAIN_CHARACTERS as usize {
        Some(text)
    } else {
        None
    }
}

/// A text, where an entry of a display table may show it.
fn glyphs(text: ListOf<Ch>) -> Option<ListOf<Ch>>
    ensures { result ≡ kept_if is_glyph_text text }
{
    if text.len() <= ENTRY_GLYPHS as usize && are_glyphs(text.as_slice()) {
        Some(text)
    } else {
        None
    }
}

/// The one character of a text, where it may stand in a slot.
fn only_slot(text: &[Ch]) -> Option<Ch>
    ensures { result ≡ option_and_then (kept_if is_slot) (only text.now) }
{
    if text.len() == 1 && is_slot(text[0]) {
        Some(text[0])
    } else {
        None
    }
}

/// Whether each character of a text is a glyph character.
fn are_glyphs(text: &[Ch]) -> bool
    ensures { result ≡ list_all is_glyph text.now }
{
    text.iter().all(|ch| is_glyph(*ch))
}

/// The glyph of a character, where it is a glyph character.
fn glyph(ch: Ch) -> Option<Glyph>
    ensures none { IsNone result ↔ (is_glyph ch ≡ false) }
    ensures width { IfSome result (λ glyph. glyph.width ≡ columns ch) }
{
    glyph_character(char::from_u32(ch.code())?)
}

/// Whether a character is a glyph character.
fn is_glyph(ch: Ch) -> bool
    ensures { result ≡ is_glyph ch }
{
    glyph(ch).is_some()
}

/// Whether a character may stand in a slot: a glyph character of one column.
fn is_slot(ch: Ch) -> bool
    ensures { result ≡ is_slot ch }
{
    glyph(ch).is_some_and(|glyph| glyph.width == 1)
}

/// Whether a text may be a buffer's name: 1 to 64 characters, none below 32, none from 127 to 159.
fn is_buffer_name(name: &str) -> bool
    ensures { result ≡ is_buffer_name name.now }
{
    is_name_length(character_count(name)) && has_name_characters(name)
}

/// How many characters a text has.
fn character_count(text: &str) -> usize
    ensures { result ≡ length (chars text.now) }
{
    text.chars().count()
}

/// Whether a buffer's name may have so many characters.
fn is_name_length(count: usize) -> bool
    ensures { result ≡ is_name_length count }
{
    1 <= count && count <= NAME_CHARACTERS as usize
}

/// Whether a buffer's name may have each character of a text.
fn has_name_characters(text: &str) -> bool
    ensures { result ≡ list_all is_name_character (chars text.now) }
{
    text.chars().all(|c| is_name_character(c))
}

/// Whether a buffer's name may have a character.
fn is_name_character(c: char) -> bool
    ensures { result ≡ is_name_character c }
{
    !is_control(c as u32)
}
