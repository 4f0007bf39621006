//! The rows of a window, laid out again where they changed.
ghost use Rattle.std.specs.Prelude.{◌≡◌, ℕ, ◌+◌, ◌-◌, ◌^◌, ◌<◌, ◌≤◌, ◌++◌, All, length, take, drop, OnOk, IfOk};
ghost use Rattle.rd_matrix.specs.Entries.{shown_entries};
ghost use Rattle.rd_matrix.specs.Sources.{IsSource, rows_at};
ghost use Rattle.rd_reuse.specs.Keeping.{AreRight};
ghost use Rattle.rd_reuse.specs.Laying.{placed, with_row};
ghost use Rattle.rd_reuse.specs.Views.{IsCopied, Names, fresh_costs};

use crate::change::Change;
use crate::keeping::rows_of;
use rd_base::{Anchor, Memory, Pos, Steps};
use rd_matrix::{BlockSource, Entry, Matrix};
use rd_rows::{Row, Shape};
use std::alloc::Global;
use std::sync::ledger::Ledger;

/// So many rows of a source at a shape from the anchor's row on, or as many as there are. The rows of a block that keeps its older
/// rows are copies of these, each with one copy more than the older one; those of other blocks are the source's.
///
/// `old` has rows of an older layout at this shape, since which so much changed: the older rows of each block that keeps them are
/// those that the source has for it. The anchor names one of the source's rows, by the start of its block and its number there.
/// The steps that it takes, also where memory is wanting, are at most the costs of the blocks that have one of the rows and do not
/// keep their older ones.
pub fn relay<B: BlockSource, L: Ledger>(
    alloc: Global,
    source: &mut B,
    old: &Matrix,
    change: Change,
    anchor: Anchor,
    height: u32,
    shape: Shape,
    steps: &mut Steps<L>,
) -> Result<Matrix, Memory>
    requires right { AreRight (B.meaning source.old) old.now change shape }
    requires row { (place : ℕ) × Names anchor (rows_at (B.meaning source.old) shape) place }
    ensures rows { (place : ℕ) → Names anchor (rows_at (B.meaning source.old) shape) place
        → IfOk result (λ rows. shown_entries rows ≡ take height (drop place (rows_at (B.meaning source.old) shape))) }
    ensures copies { IfOk result (λ rows. All (IsCopied old.now change (B.meaning source.old).blocks) rows) }
    ensures steps { (place : ℕ) → Names anchor (rows_at (B.meaning source.old) shape) place
        → steps.new ≤ steps.old + fresh_costs (B.meaning source.old) old.now change shape place (place + height) }
    ensures source { IsSource (B.meaning source.old) }
    ensures stays { B.meaning source.new ≡ B.meaning source.old }
{
    let mut block = source.block_of(alloc, anchor.pos)?;
    let mut first = anchor.row;
    let mut matrix = Matrix::new(alloc)?;
    while matrix.len() < height as usize {
        let rows = rows_of(alloc, source, old, change, &block, shape, steps)?;
        add_rows(&mut matrix, block.start, rows, first, height)?;
        let Some(next) = source.next(alloc, &block)? else {
            return Ok(matrix);
        };
        block = next;
        first = 0;
    }
    Ok(matrix)
}

/// Adds the rows of the block that starts at a position, from one of them on, until there are so many rows.
fn add_rows(
    matrix: &mut Matrix,
    start: Pos,
    rows: Vec<Row>,
    first: u32,
    height: u32,
) -> Result<(), Memory>
    requires few { length rows.items < 2 ^ 32 }
    requires room { length matrix.old ≤ height }
    ensures { OnOk result (matrix.new ≡ matrix.old ++ take (height - length matrix.old) (drop first (placed start 0 rows.items))) }
{
    let mut number = 0u32;
    for row in rows {
        add_row(matrix, Entry { start, number, row }, first, height)?;
        number += 1;
    }
    Ok(())
}

/// Adds a row, where it is the first that is wanted or a later one and there are fewer rows than so many.
fn add_row(matrix: &mut Matrix, entry: Entry, first: u32, height: u32) -> Result<(), Memory>
    requires { length matrix.old ≤ height }
    ensures { OnOk result (matrix.new ≡ with_row first height matrix.old entry) }
{
    if entry.number >= first && matrix.len() < height as usize {
        matrix.push(entry)?;
    }
    Ok(())
}
