//! Rows as a text: a line for each, with the start of its block, its number there, how often it was copied, and what it shows.
use rd_base::{Cell, Memory};
use rd_matrix::{Entry, Matrix};
use std::alloc::Global;

/// Adds a number below 100.
fn tell_number(text: &mut Vec<u8>, number: u32) -> Result<(), Memory> {
    if number >= 10 {
        text.push(b'0' + (number / 10 % 10) as u8)?;
    }
    text.push(b'0' + (number % 10) as u8)?;
    Ok(())
}

/// Adds so many blanks.
fn tell_blanks(text: &mut Vec<u8>, count: u32) -> Result<(), Memory> {
    for _ in 0..count {
        text.push(b' ')?;
    }
    Ok(())
}

/// Adds what cells show, without the blanks behind it.
fn tell_cells(text: &mut Vec<u8>, cells: &[Cell]) -> Result<(), Memory> {
    let mut blanks = 0u32;
    for cell in cells {
        match cell {
            Cell::First(glyph, _) => {
                tell_blanks(text, blanks)?;
                blanks = 0;
                text.push((glyph.base % 128) as u8)?;
            }
            _ => {
                blanks = blanks.saturating_add(1);
            }
        }
    }
    Ok(())
}

/// Adds a line that tells a row.
fn tell_row(text: &mut Vec<u8>, entry: &Entry) -> Result<(), Memory> {
    tell_number(text, entry.start)?;
    text.push(b'.')?;
    tell_number(text, entry.number)?;
    text.push(b' ')?;
    tell_number(text, entry.row.copies())?;
    text.push(b' ')?;
    tell_cells(text, entry.row.cells())?;
    text.push(b'\n')?;
    Ok(())
}

/// Adds a line for each row.
fn tell_rows(text: &mut Vec<u8>, matrix: &Matrix) -> Result<(), Memory> {
    for place in 0..matrix.len() {
        tell_row(text, matrix.entry(place))?;
    }
    Ok(())
}

/// Whether rows are these.
pub fn is_told(alloc: Global, matrix: &Matrix, rows: &str) -> bool {
    let mut text = Vec::new(alloc);
    tell_rows(&mut text, matrix).is_ok() && text.as_slice() == rows.as_bytes()
}
