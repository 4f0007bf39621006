//! The bytes of control sequences, moves, cells and rows.
ghost use Rattle.std.specs.Prelude.{◌≡◌, ◌<◌, ◌++◌, length, OnOk, IfOk};
ghost use Rattle.std.specs.List.{flat_map};
ghost use Rattle.rd_base.specs.Cells.{face_after};
ghost use Rattle.rd_base.specs.Faces.{plain};
ghost use Rattle.rd_base.specs.Chars.{encoded};
ghost use Rattle.rd_base.specs.Glyphs.{glyph_bytes};
ghost use Rattle.rd_base.specs.declared.limits.TheConstants.{SEQUENCE_VALUE};
ghost use Rattle.rd_update.specs.Updates.{move as move_bytes, renditions, parameter, sequence, dress, text_of_cell, text_by, pen_behind, row_bytes, first_difference as first_column, end_of_differences as end_column};

use crate::span::{Columns, interval, used};
use itoa::Buffer;
use rd_base::{Cell, Face, Glyph, ListOf, Memory, encode};
use rd_term::numbers_of_face;

/// Adds a move of the cursor to a row and a column, from 0.
pub(crate) fn push_move(bytes: &mut ListOf<u8>, row: u32, column: u32) -> Result<(), Memory>
    requires row { row < SEQUENCE_VALUE }
    requires column { column < SEQUENCE_VALUE }
    ensures { OnOk result (bytes.new ≡ bytes.old ++ move_bytes row column) }
{
    push_sequence(bytes, row + 1, &[column + 1], b'H')
}

/// Adds a control sequence: its first number, the others, and its last byte. Its one error is want of memory.
pub fn push_sequence(
    bytes: &mut ListOf<u8>,
    first: u32,
    others: &[u32],
    last: u8,
) -> Result<(), Memory>
    ensures { OnOk result (bytes.new ≡ bytes.old ++ sequence first others.now last) }
{
    let mut buffer = Buffer::new();
    bytes.extend_from_slice(b"\x1b[")?;
    bytes.extend_from_slice(buffer.format(first).as_bytes())?;
    push_parameters(bytes, others)?;
    bytes.push(last)
}

/// Adds numbers, each behind a semicolon.
fn push_parameters(bytes: &mut ListOf<u8>, numbers: &[u32]) -> Result<(), Memory>
    ensures { OnOk result (bytes.new ≡ bytes.old ++ flat_map parameter numbers.now) }
{
    for number in numbers {
        let mut buffer = Buffer::new();
        bytes.push(b';')?;
        bytes.extend_from_slice(buffer.format(*number).as_bytes())?;
    }
    Ok(())
}

/// Adds the bytes of a row that differs in these columns. From where it becomes blank and plain to its end it is erased in one.
pub(crate) fn push_row(
    bytes: &mut ListOf<u8>,
    row: u32,
    old: &[Cell],
    new: &[Cell],
    differing: Columns,
) -> Result<(), Memory>
    requires row { row < SEQUENCE_VALUE }
    requires width { length new.now < SEQUENCE_VALUE }
    requires old { length old.now ≡ length new.now }
    requires differ { 0 < end_column old.now new.now }
    requires from { differing.from ≡ first_column old.now new.now }
    requires end { differing.end ≡ end_column old.now new.now }
    ensures { OnOk result (bytes.new ≡ bytes.old ++ row_bytes row old.now new.now) }
{
    let sent = interval(differing, old, new);
    let blank_from = sent.from.max(used(new));
    let to = sent.end.min(blank_from);
    push_move(bytes, row, sent.from as u32)?;
    let pen = push_text(bytes, &new[sent.from..to])?;
    push_dress(bytes, pen, Face::PLAIN)?;
    if blank_from < sent.end {
        bytes.extend_from_slice(b"\x1b[K")?;
    }
    Ok(())
}

/// Adds the text of cells, by a pen that is plain, and answers the face of the pen behind it.
fn push_text(bytes: &mut ListOf<u8>, cells: &[Cell]) -> Result<Face, Memory>
    ensures bytes { OnOk result (bytes.new ≡ bytes.old ++ text_by plain cells.now) }
    ensures pen { IfOk result (λ pen. pen ≡ pen_behind plain cells.now) }
{
    let mut pen = Face::PLAIN;
    for cell in cells {
        pen = push_cell(bytes, pen, cell)?;
    }
    Ok(pen)
}

/// Adds the text of a cell, by a pen of a face, and answers the face of the pen behind it.
fn push_cell(bytes: &mut ListOf<u8>, pen: Face, cell: &Cell) -> Result<Face, Memory>
    ensures bytes { OnOk result (bytes.new ≡ bytes.old ++ text_of_cell pen cell.now) }
    ensures pen { IfOk result (λ face. face ≡ face_after pen cell.now) }
{
    match cell {
        Cell::Blank(face) => {
            push_dress(bytes, pen, *face)?;
            bytes.push(b' ')?;
            Ok(*face)
        }
        Cell::First(glyph, face) => {
            push_dress(bytes, pen, *face)?;
            push_glyph(bytes, glyph)?;
            Ok(*face)
        }
        Cell::Rest => Ok(pen),
    }
}

/// Adds a character and the marks that join it.
fn push_glyph(bytes: &mut ListOf<u8>, glyph: &Glyph) -> Result<(), Memory>
    ensures { OnOk result (bytes.new ≡ bytes.old ++ glyph_bytes glyph.now) }
{
    push_code(bytes, glyph.base)?;
    push_codes(bytes, glyph.joining())
}

/// Adds characters.
fn push_codes(bytes: &mut ListOf<u8>, codes: &[u32]) -> Result<(), Memory>
    ensures { OnOk result (bytes.new ≡ bytes.old ++ flat_map encoded codes.now) }
{
    for code in codes {
        push_code(bytes, *code)?;
    }
    Ok(())
}

/// Adds a character in UTF-8. A number that is no scalar value has no bytes.
fn push_code(bytes: &mut ListOf<u8>, code: u32) -> Result<(), Memory>
    ensures { OnOk result (bytes.new ≡ bytes.old ++ encoded code) }
{
    let mut room = [0; 4];
    bytes.extend_from_slice(encode(code, &mut room))
}

/// Adds what makes a pen of one face one of another.
fn push_dress(bytes: &mut ListOf<u8>, pen: Face, face: Face) -> Result<(), Memory>
    ensures { OnOk result (bytes.new ≡ bytes.old ++ dress pen face) }
{
    if pen.is_same(face) {
        return Ok(());
    }
    bytes.extend_from_slice(b"\x1b[0")?;
    push_renditions(bytes, face)?;
    bytes.push(b'm')
}

/// Adds the numbers of a face.
fn push_renditions(bytes: &mut ListOf<u8>, face: Face) -> Result<(), Memory>
    ensures { OnOk result (bytes.new ≡ bytes.old ++ flat_map parameter (renditions face)) }
{
    for number in numbers_of_face(face) {
        if let Some(n) = number {
            push_parameters(bytes, &[n])?;
        }
    }
    Ok(())
}
