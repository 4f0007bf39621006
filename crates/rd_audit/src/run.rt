//! The runs of faces of a row.
ghost use Rattle.std.specs.Prelude.{◌≡◌, ◌<◌, ◌≤◌, IfSome, option_map, true, length};
ghost use Rattle.rd_term.specs.Pens.{is_rendition};
ghost use Rattle.rd_audit.specs.Cuts.{pieces};
ghost use Rattle.rd_audit.specs.FaceRuns.{painted, place_of, comes_behind, with_number, face_of, face_run, is_edge, fits, with_face, painted_by, with_face_run, runs_over};

use crate::number::{number_of, pair_of};
use rd_base::{Cell, Face, ListOf, cut};
use rd_term::{dressed, is_rendition};

/// A run: its first and its last column, from 0, and its face.
#[derive(Clone, Copy)]
pub struct SaidFaceRun {
    pub first: u32,
    pub last: u32,
    pub face: Face,
}

/// Cells with the runs that a text says, each behind a space; None where one has a bad form, begins before
/// the end of the one before it, ends before it begins or behind the row, or cuts a character.
pub fn runs_over(text: &[u8], cells: ListOf<Cell>) -> Option<ListOf<Cell>>
    ensures { result ≡ runs_over text.now cells }
{
    if text.is_empty() {
        return Some(cells);
    }
    if text[0] != b' ' {
        return None;
    }
    painted(cells, text.split_at(1).1)
}

/// The cells of a row, painted by the text behind the first space.
fn painted(cells: ListOf<Cell>, runs: &[u8]) -> Option<ListOf<Cell>>
    ensures { result ≡ painted 0 cells (pieces 32 runs.now) }
{
    let mut cells = cells;
    let mut from = 0;
    for text in runs.split(|b| *b == b' ') {
        from = with_face_run(from, &mut cells, text)?;
    }
    Some(cells)
}

/// Gives cells the run that a text says, which stands from a column on, and answers the column behind it.
fn with_face_run(from: u32, cells: &mut ListOf<Cell>, text: &[u8]) -> Option<u32>
    ensures { option_map (λ next. (next, cells.new)) result ≡ with_face_run from cells.old text.now }
{
    let run = face_run(text)?;
    if fits(from, cells.as_slice(), &run) {
        paint(cells, &run);
        Some(run.last + 1)
    } else {
        None
    }
}

/// The run of a text.
fn face_run(text: &[u8]) -> Option<SaidFaceRun>
    ensures value { result ≡ face_run text.now }
    ensures bound { IfSome result (λ run. run.last < 1000) }
{
    let (span, codes) = cut(b':', text)?;
    let (first, last) = pair_of(b'-', span)?;
    let face = face_of(codes)?;
    Some(SaidFaceRun { first, last, face })
}

/// The face of its numbers between semicolons.
fn face_of(codes: &[u8]) -> Option<Face>
    ensures { result ≡ face_of codes.now }
{
    let mut place = 0;
    let mut face = Face::PLAIN;
    for text in codes.split(|b| *b == b';') {
        (place, face) = with_number(place, face, text)?;
    }
    Some(face)
}

/// The place of a number that may stand behind one of this place, and a face with it.
fn with_number(place: u32, face: Face, text: &[u8]) -> Option<(u32, Face)>
    ensures { result ≡ with_number place face text.now }
{
    let n = number_of(text)?;
    if comes_behind(place, n) {
        Some((place_of(n), dressed(n, face)))
    } else {
        None
    }
}

/// Whether a number of a face may stand behind one of this place.
fn comes_behind(place: u32, n: u32) -> bool
    ensures value { result ≡ comes_behind place n }
    ensures rendition { result ≡ true → is_rendition n ≡ true }
{
    is_rendition(n) && place < place_of(n)
}

/// The place of a face's number among the others.
fn place_of(n: u32) -> u32
    ensures { result ≡ place_of n }
{
    if n < 30 {
        n
    } else if n < 40 {
        30
    } else {
        40
    }
}

/// Whether a run stands in a row, from this column on, and cuts no character.
fn fits(from: u32, cells: &[Cell], run: &SaidFaceRun) -> bool
    requires { run.now.last < 1000 }
    ensures value { result ≡ fits from cells.now run.now }
    ensures within { result ≡ true → (run.now.first ≤ run.now.last) × (run.now.last < length cells.now) }
{
    from <= run.first
        && run.first <= run.last
        && (run.last as usize) < cells.len()
        && is_edge(cells, run.first as usize)
        && is_edge(cells, run.last as usize + 1)
}

/// Whether no character goes on in a column from the one before.
fn is_edge(cells: &[Cell], column: usize) -> bool
    ensures { result ≡ is_edge cells.now column }
{
    !matches!(cells.get(column), Some(Cell::Rest))
}

/// Gives the cells of a run its face.
fn paint(cells: &mut ListOf<Cell>, run: &SaidFaceRun)
    requires order { run.now.first ≤ run.now.last }
    requires within { run.now.last < length cells.old }
    ensures { cells.new ≡ painted_by run.now cells.old }
{
    let end = run.last as usize + 1;
    let mut column = run.first as usize;
    while column < end {
        let cell = cells.at(column);
        cells.set(column, with_face(run.face, cell));
        column += 1;
    }
}

/// A cell with another face.
fn with_face(face: Face, cell: Cell) -> Cell
    ensures { result ≡ with_face face cell }
{
    match cell {
        Cell::Blank(_) => Cell::Blank(face),
        Cell::First(glyph, _) => Cell::First(glyph, face),
        Cell::Rest => Cell::Rest,
    }
}
