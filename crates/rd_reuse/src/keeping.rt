//! Blocks that keep their older rows.
ghost use Rattle.std.specs.Prelude.{◌≡◌, ◌+◌, ◌^◌, ◌<◌, ◌≤◌, true, length, option_map, IfOk};
ghost use Rattle.rd_matrix.specs.Blocks.{IsAmong};
ghost use Rattle.rd_reuse.specs.Keeping.{AreRight, are_whole, copied_rows, entry_under, fresh_cost, has_base, is_kept, is_under, taken};
ghost use Rattle.rd_rows.specs.Copies.{shown_rows};

use crate::change::Change;
use rd_base::{Memory, Pos, Steps};
use rd_matrix::{Block, BlockSource, Entry, Matrix};
use rd_rows::{Row, Shape};
use std::alloc::Global;
use std::sync::ledger::Ledger;

/// The rows of a block of a source at a shape: copies of its older rows where it keeps these, and else the source's.
pub fn rows_of<B: BlockSource, L: Ledger>(
    alloc: Global,
    source: &mut B,
    old: &Matrix,
    change: Change,
    block: &Block,
    shape: Shape,
    steps: &mut Steps<L>,
) -> Result<Vec<Row>, Memory>
    requires among { IsAmong (B.meaning source.old).blocks block.now }
    requires right { AreRight (B.meaning source.old) old.now change shape }
    ensures rows { IfOk result (λ rows. shown_rows rows.items ≡ (B.meaning source.old).rows_of block.now shape) }
    ensures few { IfOk result (λ rows. length rows.items < 2 ^ 32) }
    ensures copies { IfOk result (λ rows. is_kept old.now change block.now ≡ true → rows.items ≡ copied_rows (taken old.now change block.now.start)) }
    ensures steps { steps.new ≤ steps.old + fresh_cost (B.meaning source.old) old.now change shape block.now }
    ensures stays { B.meaning source.new ≡ B.meaning source.old }
{
    if is_kept(old, change, block) {
        return copies(alloc, old, change, block.start);
    }
    source.rows(alloc, block, shape, steps)
}

/// Whether a block keeps its older rows.
pub fn is_kept(old: &Matrix, change: Change, block: &Block) -> bool
    ensures { result ≡ is_kept old.now change block.now }
{
    change.spares(block) && are_whole(old, change, block)
}

/// Whether all rows of a block are there, each of its base level.
fn are_whole(old: &Matrix, change: Change, block: &Block) -> bool
    ensures { result ≡ are_whole block.now.base (shown_rows (taken old.now change block.now.start)) }
{
    for number in 0..old.len() {
        let Some(entry) = entry_under(old, change, block.start, number) else {
            return false;
        };
        if !has_base(&entry.row, block.base) {
            return false;
        }
        if entry.row.ends_block() {
            return true;
        }
    }
    false
}

/// Whether a row is read as those of a block of a base level are.
fn has_base(row: &Row, base: u8) -> bool
    ensures { result ≡ has_base base row.now.shown }
{
    row.reversed() == (base == 1)
}

/// Copies of the older rows of the block that starts at a position, fewer than 2^32 of them; where there are more it wants memory.
pub fn copies(alloc: Global, old: &Matrix, change: Change, start: Pos) -> Result<Vec<Row>, Memory>
    ensures rows { IfOk result (λ rows. rows.items ≡ copied_rows (taken old.now change start)) }
    ensures few { IfOk result (λ rows. length rows.items < 2 ^ 32) }
{
    let mut rows = Vec::new(alloc);
    for number in 0..old.len() {
        if number >= u32::MAX as usize {
            return Err(Memory);
        }
        let Some(entry) = entry_under(old, change, start, number) else {
            return Ok(rows);
        };
        rows.push(entry.row.copy()?)?;
        if entry.row.ends_block() {
            return Ok(rows);
        }
    }
    Ok(rows)
}

/// The first of the older rows with a number in the block that starts at a position now.
fn entry_under<'a>(old: &'a Matrix, change: Change, start: Pos, number: usize) -> Option<&'a Entry>
    ensures { option_map (λ entry. entry.now) result ≡ entry_under old.now change start number }
{
    old.as_slice()
        .iter()
        .find(|entry| is_under(entry, change, start, number))
}

/// Whether an older row has a number in the block that starts at a position now.
fn is_under(entry: &Entry, change: Change, start: Pos, number: usize) -> bool
    ensures { result ≡ is_under change start number entry.now }
{
    change.started_at(start, entry.start) && entry.number as usize == number
}
