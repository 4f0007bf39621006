//! Plain lines of text, such as mode lines.
ghost use Rattle.std.specs.Prelude.{◌≡◌, ◌≤◌, ◌++◌, length, All, IfOk, OnOk, IsTrue};
ghost use Rattle.rd_base.specs.Chars.{is_code};
ghost use Rattle.rd_base.specs.Cells.{single};
ghost use Rattle.rd_base.specs.Glyphs.{IsRowAfter};
ghost use Rattle.rd_glyphs.specs.Characters.{looks_of, TakesColumns, ShowsColumns};
ghost use Rattle.rd_glyphs.specs.Held.{HoldsColumns, has_room, joined_held, held_looks, given, held_after};
ghost use Rattle.rd_glyphs.specs.Lines.{plain_looks, fitted, plain_cells};

use crate::looks::{look_columns, looks_of, on_blank};
use crate::mark_role::marked_glyph;
use crate::shown::{Shown, shown_as};
use rd_base::{Cell, Ch, Face, Glyph, ListOf, Look, Memory, push_look};
use rd_objects::characters_have_codes;
use rd_ucd::Classes;
use std::alloc::Global;

/// The cells of a plain line of text in so many columns, all in one face: no table, order or mirrors. A control character is a
/// circumflex and a letter, a tab and a newline too; a raw byte and a code of 128 to 159 a backslash and three octal digits. A
/// character that only steers the order is one blank column. A mark joins a character before it that is shown itself, and a
/// mark on a blank, until there are six; where it joins none it stands on a blank. What doesn't fit whole ends the text, and
/// blanks fill the rest: there are exactly `width` cells, in which each glyph stands whole.
/// It costs the text's length times the logarithm of that of the data, and the width.
pub fn plain_line(
    alloc: Global,
    text: &[Ch],
    classes: &Classes,
    face: Face,
    width: u32,
) -> Result<ListOf<Cell>, Memory>
    ensures value { IfOk result (λ cells. cells ≡ plain_cells classes.now face width text.now) }
    ensures columns { IfOk result (λ cells. length cells ≡ width) }
    ensures whole { IfOk result (λ cells. IsRowAfter 0 cells) }
{
    let looks = looks_of_text(alloc, text, classes)?;
    fit(alloc, looks.as_slice(), face, width)
}

/// What is put for a text, with marks joined. `characters_have_codes` reads the text once more, for the clause `codes` alone.
#[tactic(auto, using(crate::proofs::Holding::read_whole))]
fn looks_of_text(alloc: Global, text: &[Ch], classes: &Classes) -> Result<ListOf<Look>, Memory>
    ensures value { IfOk result (λ looks. looks ≡ plain_looks classes.now text.now) }
    ensures columns { IfOk result (λ looks. All TakesColumns looks) }
    ensures codes { IfOk result (λ looks. All (λ c. IsTrue (is_code c)) text.now) }
{
    characters_have_codes(text);
    let mut looks = ListOf::new(alloc);
    let mut held = None;
    for ch in text {
        let shown = shown_as(true, classes.class(*ch), ch.code());
        give(&mut looks, held, shown)?;
        held = held_after(held, shown);
    }
    put_held(&mut looks, held)?;
    Ok(looks)
}

/// Adds a glyph that was held.
fn put_held(looks: &mut ListOf<Look>, held: Option<Glyph>) -> Result<(), Memory>
    ensures value { OnOk result (looks.new ≡ looks.old ++ held_looks held) }
    ensures columns { All TakesColumns looks.old → HoldsColumns held → OnOk result (All TakesColumns looks.new) }
{
    match held {
        Some(glyph) => looks.push(Look::Glyph(glyph)),
        None => Ok(()),
    }
}

/// Whether a glyph is held that a mark may join.
pub(crate) fn has_room(held: Option<Glyph>) -> bool
    ensures { result ≡ has_room held }
{
    match held {
        Some(glyph) => glyph.takes_mark(),
        None => false,
    }
}

/// Adds what comes out when a character is read behind a glyph that is held.
fn give(looks: &mut ListOf<Look>, held: Option<Glyph>, shown: Shown) -> Result<(), Memory>
    requires { ShowsColumns shown }
    ensures value { OnOk result (looks.new ≡ looks.old ++ given held shown) }
    ensures columns { All TakesColumns looks.old → HoldsColumns held → OnOk result (All TakesColumns looks.new) }
{
    match shown {
        Shown::Mark(_) => {
            if has_room(held) {
                Ok(())
            } else {
                put_held(looks, held)
            }
        }
        Shown::Itself(_, _) => put_held(looks, held),
        _ => {
            put_held(looks, held)?;
            put_looks(looks, shown)
        }
    }
}

/// Adds the looks of a character that is shown in the plain way.
fn put_looks(list: &mut ListOf<Look>, shown: Shown) -> Result<(), Memory>
    ensures value { OnOk result (list.new ≡ list.old ++ looks_of (single 92 1) (single 94 1) shown) }
    ensures columns { All TakesColumns list.old → ShowsColumns shown → OnOk result (All TakesColumns list.new) }
{
    let looks = looks_of(
        Glyph::single('\\' as u32, 1),
        Glyph::single('^' as u32, 1),
        shown,
    );
    list.extend_from_slice(looks.as_slice())
}

/// The glyph that is held behind a character.
pub(crate) fn held_after(held: Option<Glyph>, shown: Shown) -> Option<Glyph>
    requires { ShowsColumns shown }
    ensures value { result ≡ held_after held shown }
    ensures columns { HoldsColumns held → HoldsColumns result }
{
    match shown {
        Shown::Mark(code) => Some(joined_held(held, code)),
        Shown::Itself(code, width) => Some(Glyph::single(code, width)),
        _ => None,
    }
}

/// The glyph with one more mark, where a mark may join one, and else the mark on a blank.
fn joined_held(held: Option<Glyph>, code: u32) -> Glyph
    ensures value { result ≡ joined_held held code }
    ensures columns { HoldsColumns held → (1 ≤ result.width) × (result.width ≤ 3) }
{
    marked_glyph(held, Some(code)).unwrap_or_else(|| on_blank(code))
}

/// Looks in so many columns, while they fit, and blanks in the rest.
#[tactic(auto, using(rd_base::proofs::Rows::look_length))]
fn fit(alloc: Global, looks: &[Look], face: Face, width: u32) -> Result<ListOf<Cell>, Memory>
    requires { All TakesColumns looks.now }
    ensures value { IfOk result (λ cells. cells ≡ fitted face width looks.now) }
    ensures columns { IfOk result (λ cells. length cells ≡ width) }
{
    let mut cells = ListOf::with_room(alloc, width as usize)?;
    let mut room = width;
    for look in looks {
        let columns = look_columns(*look) as u32;
        if columns > room {
            cells.push_copies(room as u64, Cell::Blank(face))?;
            return Ok(cells);
        }
        push_look(&mut cells, columns as u64, *look, face)?;
        room -= columns;
    }
    cells.push_copies(room as u64, Cell::Blank(face))?;
    Ok(cells)
}
