//! The runs of cells of one face in a row.
ghost use Rattle.std.specs.Prelude.{◌≡◌, ◌-◌, IfOk, if◌then◌else◌, ◌||◌, is_some};
ghost use Rattle.rd_base.specs.Cells.{face_after};
ghost use Rattle.rd_base.specs.Equals.{same_face};
ghost use Rattle.rd_io.specs.Devices.{Prints};
ghost use Rattle.rd_dump.specs.Dumps.{runs_of_row, run_text, ended_text, numbers_text, number_text};

use crate::print::{Token, print_tokens};
use rd_base::{Cell, Face};
use rd_io::{Failed, Sink};
use rd_term::numbers_of_face;

/// A run that may go on: its first column, from 0, and its face.
#[derive(Clone, Copy)]
pub struct OpenFaceRun {
    pub first: usize,
    pub face: Face,
}

/// Writes each maximal run of cells of one face that is not plain: its first and last column, from 0, and the face's numbers.
pub fn print_runs<K: Sink>(sink: &mut K, cells: &[Cell]) -> Result<(), Failed>
    ensures { Prints (K.written sink.old) (K.written sink.new) (K.faults sink.old) (K.faults sink.new) (runs_of_row cells.now) result }
{
    let mut run = OpenFaceRun {
        first: 0,
        face: Face::PLAIN,
    };
    let mut column = 0;
    for cell in cells {
        run = print_ended(sink, run, column, face_after(run.face, cell))?;
        column += 1;
    }
    print_run(sink, run.first, column, run.face)
}

/// Writes a run where the next column has another face, and answers the run that the column is in.
fn print_ended<K: Sink>(
    sink: &mut K,
    run: OpenFaceRun,
    column: usize,
    next: Face,
) -> Result<OpenFaceRun, Failed>
    ensures text { Prints (K.written sink.old) (K.written sink.new) (K.faults sink.old) (K.faults sink.new) (ended_text run.first column run.face next) result }
    ensures first { IfOk result (λ now. now.first ≡ (if same_face next run.face then run.first else column)) }
    ensures face { IfOk result (λ now. now.face ≡ (if same_face next run.face then run.face else next)) }
{
    if next.is_same(run.face) {
        return Ok(run);
    }
    print_run(sink, run.first, column, run.face)?;
    Ok(OpenFaceRun {
        first: column,
        face: next,
    })
}

/// The face of a cell behind one of this face: a later column of a glyph has that of its first.
fn face_after(before: Face, cell: &Cell) -> Face
    ensures { result ≡ face_after before cell.now }
{
    match cell {
        Cell::Blank(face) | Cell::First(_, face) => *face,
        Cell::Rest => before,
    }
}

/// Writes the run from a column on, of which `end` is the column behind, unless its face is plain.
fn print_run<K: Sink>(sink: &mut K, first: usize, end: usize, face: Face) -> Result<(), Failed>
    ensures { Prints (K.written sink.old) (K.written sink.new) (K.faults sink.old) (K.faults sink.new) (run_text first end face) result }
{
    if face.is_same(Face::PLAIN) {
        return Ok(());
    }
    let tokens = [
        Token::Text(" "),
        Token::Number(first as u64),
        Token::Text("-"),
        Token::Number(last_before(end) as u64),
    ];
    print_tokens(sink, &tokens)?;
    print_numbers(sink, face)
}

/// The last column of a run that ends before a column.
fn last_before(end: usize) -> usize
    ensures { result ≡ end - 1 }
{
    end.saturating_sub(1)
}

/// Writes a face's numbers, `:` before the first one and `;` before each other one.
fn print_numbers<K: Sink>(sink: &mut K, face: Face) -> Result<(), Failed>
    ensures { Prints (K.written sink.old) (K.written sink.new) (K.faults sink.old) (K.faults sink.new) (numbers_text face) result }
{
    let numbers = numbers_of_face(face);
    let mut any = false;
    for number in numbers {
        any = print_number(sink, any, number)?;
    }
    Ok(())
}

/// Writes a number of a face, if there is one, and answers whether one was written, by this call or before it.
fn print_number<K: Sink>(sink: &mut K, any: bool, number: Option<u32>) -> Result<bool, Failed>
    ensures text { Prints (K.written sink.old) (K.written sink.new) (K.faults sink.old) (K.faults sink.new) (number_text any number) result }
    ensures any { IfOk result (λ now. now ≡ (any || is_some number)) }
{
    match number {
        Some(n) => {
            let lead = if any { ";" } else { ":" };
            print_tokens(sink, &[Token::Text(lead), Token::Number(n as u64)])?;
            Ok(true)
        }
        None => Ok(any),
    }
}
