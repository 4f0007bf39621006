//! The cells of a mode line.
ghost use Rattle.std.specs.Prelude.{◌≡◌, ◌+◌, ◌++◌, IfOk, OnOk, Ok, length, codes, decimal, List};
ghost use Rattle.rd_modeline.specs.declared.piece.Field.TheVariants.{ReadOnly, Modified, Narrowing};
ghost use Rattle.rd_modeline.specs.declared.piece.Piece.{Piece};
ghost use Rattle.rd_base.specs.Glyphs.{IsRowAfter};
ghost use Rattle.rd_modeline.specs.Formats.{pieces_of, Checks};
ghost use Rattle.rd_modeline.specs.Values.{share, place_text, value_text};
ghost use Rattle.rd_modeline.specs.Lines.{filled, value_in, line_text, line_cells};

use crate::facts::Facts;
use crate::fault::FormatFault;
use crate::piece::{Field, Piece};
use crate::reading::read;
use itoa::Buffer;
use rd_base::{Cell, Ch, Face, ListOf, Memory, mapped};
use rd_glyphs::{plain_columns, plain_line};
use rd_ucd::Classes;
use std::alloc::Global;

/// The face of a mode line.
const INVERSE: Face = Face {
    inverse: true,
    ..Face::PLAIN
};

/// The cells of a mode line of so many columns, in the inverse face. The values and the other characters of the format are put
/// together as one text, which is one plain line: what does not fit whole ends it, and blanks fill the rest. One to three digits
/// before a value give its least width in columns; blanks fill it, before the line's number and behind any other value.
///
/// # Errors
/// `BadFormat` comes only where `check` answers it, with the same place. Want of memory may be answered at any time; nothing else comes.
pub fn format(
    alloc: Global,
    text: &[Ch],
    classes: &Classes,
    facts: &Facts,
    width: u32,
) -> Result<ListOf<Cell>, FormatFault>
    ensures value { IfOk result (λ cells. (pieces : List Piece) × (pieces_of text.now ≡ Ok pieces) × (cells ≡ line_cells classes.now facts.now width pieces)) }
    ensures columns { IfOk result (λ cells. length cells ≡ width) }
    ensures whole { IfOk result (λ cells. IsRowAfter 0 cells) }
    ensures checks { Checks result (pieces_of text.now) }
{
    let pieces = read(alloc, text)?;
    let line = text_of(alloc, pieces.as_slice(), classes, facts, width)?;
    Ok(plain_line(alloc, line.as_slice(), classes, INVERSE, width)?)
}

/// The text of a mode line.
fn text_of(
    alloc: Global,
    pieces: &[Piece],
    classes: &Classes,
    facts: &Facts,
    columns: u32,
) -> Result<ListOf<Ch>, Memory>
    ensures { IfOk result (λ text. text ≡ line_text classes.now facts.now columns pieces.now) }
{
    let mut text = ListOf::new(alloc);
    for piece in pieces {
        match piece {
            Piece::Literal(ch) => text.push(*ch)?,
            Piece::Value(field, width) => push_value(
                &mut text, alloc, *field, *width, classes, facts,
            )?,
            Piece::Dashes => {
                text.push_copies(columns as u64, Ch::scalar('-'))?;
                return Ok(text);
            }
        }
    }
    Ok(text)
}

/// Adds a value in at least so many columns.
fn push_value(
    text: &mut ListOf<Ch>,
    alloc: Global,
    field: Field,
    width: u32,
    classes: &Classes,
    facts: &Facts,
) -> Result<(), Memory>
    ensures { OnOk result (text.new ≡ text.old ++ value_in classes.now width field (value_text facts.now field)) }
{
    let value = value_text(alloc, field, facts)?;
    let blanks = width - plain_columns(value.as_slice(), classes, width);
    push_filled(text, field, blanks, value.as_slice())
}

/// Adds a value's text with blanks.
fn push_filled(text: &mut ListOf<Ch>, field: Field, blanks: u32, value: &[Ch]) -> Result<(), Memory>
    ensures { OnOk result (text.new ≡ text.old ++ filled field blanks value.now) }
{
    match field {
        Field::Line => {
            text.push_copies(blanks as u64, Ch::scalar(' '))?;
            text.extend_from_slice(value)
        }
        _ => {
            text.extend_from_slice(value)?;
            text.push_copies(blanks as u64, Ch::scalar(' '))
        }
    }
}

/// The text that a mode line shows for a field, by a window's facts.
fn value_text(alloc: Global, field: Field, facts: &Facts) -> Result<ListOf<Ch>, Memory>
    ensures { IfOk result (λ text. text ≡ value_text facts.now field) }
{
    match field {
        Field::Name => ListOf::from_slice(alloc, facts.name),
        Field::Line => number(alloc, facts.line),
        Field::Place => place_text(alloc, facts),
        Field::ReadOnly => text_of_bytes(alloc, state_sign(facts, b"%")),
        Field::Modified => text_of_bytes(alloc, state_sign(facts, b"*")),
        Field::Narrowing => text_of_bytes(alloc, narrowing(facts)),
    }
}

/// A percent sign where the buffer is read-only, a star where it is modified, the one given where it is both, and else a hyphen.
fn state_sign(facts: &Facts, both: &'static [u8]) -> &'static [u8]
    ensures read_only { both.now ≡ codes "%" → result.now ≡ value_text facts.now ReadOnly }
    ensures modified { both.now ≡ codes "*" → result.now ≡ value_text facts.now Modified }
{
    match (facts.read_only, facts.modified) {
        (true, true) => both,
        (true, false) => b"%",
        (false, true) => b"*",
        (false, false) => b"-",
    }
}

/// A word where a part of the buffer is not accessible.
fn narrowing(facts: &Facts) -> &'static [u8]
    ensures { result.now ≡ value_text facts.now Narrowing }
{
    if facts.narrowed { b"Narrow" } else { b"" }
}

/// Where the view stands in the text.
fn place_text(alloc: Global, facts: &Facts) -> Result<ListOf<Ch>, Memory>
    ensures { IfOk result (λ text. text ≡ place_text facts.now) }
{
    match (facts.top, facts.bottom) {
        (true, true) => text_of_bytes(alloc, b"All"),
        (true, false) => text_of_bytes(alloc, b"Top"),
        (false, true) => text_of_bytes(alloc, b"Bottom"),
        (false, false) => {
            let mut text = number(alloc, share(facts.above, facts.total))?;
            text.push(Ch::scalar('%'))?;
            Ok(text)
        }
    }
}

/// The share of the text above the view in whole percent, rounded up and at most 99.
fn share(above: u32, total: u32) -> u32
    ensures { result ≡ share above total }
{
    if total == 0 {
        return 0;
    }
    let percent = (100 * above as u64 + (total as u64 - 1)) / total as u64;
    percent.min(99) as u32
}

/// A number in decimal.
fn number(alloc: Global, n: u32) -> Result<ListOf<Ch>, Memory>
    ensures { IfOk result (λ text. text ≡ decimal n) }
{
    text_of_bytes(alloc, Buffer::new().format(n).as_bytes())
}

/// The characters of bytes of ASCII.
fn text_of_bytes(alloc: Global, bytes: &[u8]) -> Result<ListOf<Ch>, Memory>
    ensures { IfOk result (λ text. text ≡ bytes.now) }
{
    mapped(alloc, bytes, |byte| Ch::scalar(*byte as char))
}
