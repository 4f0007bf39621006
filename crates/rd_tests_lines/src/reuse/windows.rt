//! Windows over texts: their rows by `relay`, and those that they had before something changed.
ghost use Rattle.std.specs.Prelude.{◌≡◌, ◌≤◌, IfOk, IfSome};
ghost use Rattle.rd_matrix.specs.Blocks.{IsWithin, end_from, first_start};
ghost use Rattle.rd_matrix.specs.Held.{blocks_held};
ghost use Rattle.rd_reuse.specs.Keeping.{AreRight};

use super::cases::Older;
use crate::blocks::{Made, SHAPE, lines_of};
use crate::starts::stands;
use rd_base::{Anchor, Memory, Pos, Steps};
use rd_matrix::{BlockSource, Entry, Matrix};
use rd_reuse::{Change, relay};
use rd_rows::Shape;
use rd_start::{Wanted, a_start_is_a_row, choose};
use rd_window::no_rows_are_kept;
use std::alloc::Global;
use std::sync::ledger::Ledger;

/// A window of so many rows whose start was set to a row of a block.
pub fn window(start: (Pos, u32), height: u32) -> Wanted
    ensures anchor { result.anchor.pos ≡ start.0 }
    ensures point { result.point ≡ start.0 }
    ensures height { result.height ≡ height }
{
    Wanted {
        anchor: Anchor {
            pos: start.0,
            row: start.1,
        },
        forced: true,
        pending: 0,
        point: start.0,
        height,
        margin: 0,
        conservatively: 0,
    }
}

/// The rows of a window, laid out again from its start on.
pub fn laid<B: BlockSource, L: Ledger>(
    alloc: Global,
    source: &mut B,
    old: &Matrix,
    change: Change,
    wanted: Wanted,
    shape: Shape,
    steps: &mut Steps<L>,
) -> Result<Matrix, Memory>
    requires right { AreRight (B.meaning source.old) old.now change shape }
    requires anchor { IsWithin wanted.anchor.pos (B.meaning source.old).blocks }
    requires point { IsWithin wanted.point (B.meaning source.old).blocks }
    requires height { 1 ≤ wanted.height }
{
    a_start_is_a_row();
    let chosen = choose(alloc, source, wanted, shape, steps)?;
    relay(
        alloc,
        source,
        old,
        change,
        chosen.anchor,
        wanted.height,
        shape,
        steps,
    )
}

/// The rows of a window that has none from before, and none where it does not stand within the text.
fn first_laid<L: Ledger>(
    alloc: Global,
    mut made: Made,
    wanted: Wanted,
    steps: &mut Steps<L>,
) -> Result<Matrix, Memory>
    requires first { first_start (blocks_held made.source) ≡ 1 }
    requires end { end_from 0 (blocks_held made.source) ≡ made.end }
{
    no_rows_are_kept();
    let none = Matrix::new(alloc)?;
    if !stands(made.end, wanted) {
        return Ok(none);
    }
    laid(
        alloc,
        &mut made.source,
        &none,
        Change::all(),
        wanted,
        SHAPE,
        steps,
    )
}

/// The blocks of a text, if it has a line.
pub fn text_of(alloc: Global, text: &str) -> Result<Option<Made>, Memory>
    ensures first { IfOk result (λ made. IfSome made (λ made. first_start (blocks_held made.source) ≡ 1)) }
    ensures end { IfOk result (λ made. IfSome made (λ made. end_from 0 (blocks_held made.source) ≡ made.end)) }
{
    match text.as_bytes() {
        [] => Ok(None),
        [first, rest @ ..] => {
            let made = lines_of(alloc, *first, rest)?;
            Ok(Some(made))
        }
    }
}

/// The rows of a window over a text of which nothing was laid out before, and none where it has no line.
fn rows_at<L: Ledger>(
    alloc: Global,
    text: &str,
    wanted: Wanted,
    steps: &mut Steps<L>,
) -> Result<Matrix, Memory> {
    match text_of(alloc, text)? {
        Some(made) => first_laid(alloc, made, wanted, steps),
        None => Matrix::new(alloc),
    }
}

/// Adds copies of rows, a hundred at most.
fn add_copies(matrix: &mut Matrix, more: &Matrix) -> Result<(), Memory> {
    for place in 0..more.len() {
        if matrix.len() < 100 {
            let entry = more.entry(place);
            matrix.push(Entry {
                start: entry.start,
                number: entry.number,
                row: entry.row.copy()?,
            })?;
        }
    }
    Ok(())
}

/// The older rows of a case.
pub fn older_of<L: Ledger>(
    alloc: Global,
    older: Older,
    steps: &mut Steps<L>,
) -> Result<Matrix, Memory> {
    let mut matrix = rows_at(alloc, older.text, window(older.start, older.height), steps)?;
    let copied = rows_at(alloc, older.copied, window((1, 0), 9), steps)?;
    add_copies(&mut matrix, &copied)?;
    Ok(matrix)
}
