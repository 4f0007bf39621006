//! The lines of a dump.
ghost use Rattle.std.specs.Prelude.{◌≡◌, ◌≤◌, IfOk, IfSome, length, option_map};
ghost use Rattle.rd_base.specs.declared.limits.TheConstants.{LEAST_FRAME_ROWS};
ghost use Rattle.rd_audit.specs.Rows.{is_row, is_cursor, row_text, row_cells, is_as_wide, next_row, place_in, cursor_place};

use crate::cuts::{cut_last, stripped};
use crate::number::pair_of;
use crate::run::runs_over;
use crate::text::text_cells;
use itoa::Buffer;
use rd_base::limits::{FRAME_COLUMNS, FRAME_ROWS, LEAST_FRAME_COLUMNS, LEAST_FRAME_ROWS};
use rd_base::{Cell, ListOf, Memory};
use std::alloc::Global;

/// What the line of a row begins with.
pub const ROW: &[u8] = b"row ";

/// What the line of a cursor begins with.
const CURSOR: &[u8] = b"cursor ";

/// Whether a line is that of a row.
pub fn is_row(line: &[u8]) -> bool
    ensures { result ≡ is_row line.now }
{
    line.starts_with(ROW)
}

/// Whether a line is that of a cursor.
pub fn is_cursor(line: &[u8]) -> bool
    ensures { result ≡ is_cursor line.now }
{
    line.starts_with(CURSOR)
}

/// The cells that the line of the next row, behind those that were read, says behind its key. None where it has a bad form, another
/// number or another width, or is one too many.
pub fn next_row(
    alloc: Global,
    rows: &[ListOf<Cell>],
    behind: &[u8],
) -> Result<Option<ListOf<Cell>>, Memory>
    ensures value { IfOk result (λ found. found ≡ next_row rows.now behind.now) }
{
    if rows.len() >= FRAME_ROWS as usize {
        return Ok(None);
    }
    match row_cells(alloc, rows.len() as u32, behind)? {
        Some(cells) if is_as_wide(rows, cells.as_slice()) => Ok(Some(cells)),
        _ => Ok(None),
    }
}

/// Whether a row is as wide as those before it, and the first one as wide as a frame may be.
fn is_as_wide(rows: &[ListOf<Cell>], cells: &[Cell]) -> bool
    ensures { result ≡ is_as_wide rows.now cells.now }
{
    if rows.is_empty() {
        LEAST_FRAME_COLUMNS as usize <= cells.len() && cells.len() <= FRAME_COLUMNS as usize
    } else {
        cells.len() == rows[0].len()
    }
}

/// The cells that the line of a row says behind its key.
fn row_cells(alloc: Global, number: u32, behind: &[u8]) -> Result<Option<ListOf<Cell>>, Memory>
    ensures { IfOk result (λ found. found ≡ row_cells number behind.now) }
{
    let Some(shown) = row_text(number, behind) else {
        return Ok(None);
    };
    let Some((text, runs)) = cut_last(b'|', shown) else {
        return Ok(None);
    };
    match text_cells(alloc, text)? {
        Some(cells) => Ok(runs_over(runs, cells)),
        None => Ok(None),
    }
}

/// What stands behind a row's number and the first `|`.
fn row_text(number: u32, behind: &[u8]) -> Option<&[u8]>
    ensures { option_map (λ text. text.now) result ≡ row_text number behind.now }
{
    let mut buffer = Buffer::new();
    let behind = stripped(buffer.format(number).as_bytes(), behind)?;
    stripped(b" |", behind)
}

/// The place of the cursor's line, which is on the screen; None where it has a bad form, or there are fewer rows than the lowest frame has.
pub fn cursor_place(rows: &[ListOf<Cell>], line: &[u8]) -> Option<(u32, u32)>
    ensures value { result ≡ cursor_place rows.now line.now }
    ensures enough { IfSome result (λ _. LEAST_FRAME_ROWS ≤ length rows.now) }
{
    if rows.len() < LEAST_FRAME_ROWS as usize {
        return None;
    }
    match place_in(line) {
        Some((row, column)) if (row as usize) < rows.len() && (column as usize) < rows[0].len() => {
            Some((row, column))
        }
        _ => None,
    }
}

/// The place that the line of a cursor says.
fn place_in(line: &[u8]) -> Option<(u32, u32)>
    ensures { result ≡ place_in line.now }
{
    pair_of(b',', stripped(CURSOR, line)?)
}
