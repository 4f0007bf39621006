//! The cells of a text.
ghost use Rattle.std.specs.Prelude.{◌≡◌, ◌++◌, [], IfOk, OnOk, None, option_map};
ghost use Rattle.rd_base.specs.Chars.{columns_of};
ghost use Rattle.rd_audit.specs.Texts.{cells_of, taken, cells_from, text_cells};

use rd_base::{Cell, Ch, Face, Glyph, ListOf, Memory, characters, columns_of, push_glyph};
use std::alloc::Global;

/// The plain cells of a text in UTF-8. None where the bytes are no UTF-8, and where the text has a control, begins with a character of
/// no column or has a seventh mark on one character.
pub fn text_cells(alloc: Global, bytes: &[u8]) -> Result<Option<ListOf<Cell>>, Memory>
    ensures { IfOk result (λ found. found ≡ text_cells bytes.now) }
{
    match str::from_utf8(bytes) {
        Ok(text) => {
            let codes = characters(alloc, text)?;
            cells_from(alloc, codes.as_slice())
        }
        Err(_fault) => Ok(None),
    }
}

/// The plain cells of characters.
fn cells_from(alloc: Global, codes: &[Ch]) -> Result<Option<ListOf<Cell>>, Memory>
    ensures { IfOk result (λ found. found ≡ cells_from [] None codes.now) }
{
    let mut cells = ListOf::new(alloc);
    let mut held = None;
    for code in codes {
        match take(&mut cells, held, code.code())? {
            Some(glyph) => held = Some(glyph),
            None => return Ok(None),
        }
    }
    push_cells(&mut cells, held)?;
    Ok(Some(cells))
}

/// Takes one more character, and answers the glyph that may be joined then.
fn take(cells: &mut ListOf<Cell>, held: Option<Glyph>, code: u32) -> Result<Option<Glyph>, Memory>
    ensures { IfOk result (λ next. option_map (λ glyph. (cells.new, glyph)) next ≡ taken cells.old held code (columns_of code)) }
{
    match columns_of(code) {
        None => Ok(None),
        Some(0) => match held {
            Some(glyph) => Ok(glyph.joined(code)),
            None => Ok(None),
        },
        Some(columns) => {
            push_cells(cells, held)?;
            Ok(Some(Glyph::single(code, columns)))
        }
    }
}

/// Adds the plain cells of a glyph, if there is one.
fn push_cells(cells: &mut ListOf<Cell>, held: Option<Glyph>) -> Result<(), Memory>
    ensures { OnOk result (cells.new ≡ cells.old ++ cells_of held) }
{
    match held {
        Some(glyph) => push_glyph(cells, glyph.width as u64, glyph, Face::PLAIN),
        None => Ok(()),
    }
}
