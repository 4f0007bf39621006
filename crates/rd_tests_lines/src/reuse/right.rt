//! Whether older rows are those of the blocks that keep them: what `relay` asks, tested row by row.
ghost use Rattle.std.specs.Prelude.{◌≡◌, true, IsTrue, IfOk, Some, option_map};
ghost use Rattle.std.specs.Bool.{OnTrue};
ghost use Rattle.rd_matrix.specs.Blocks.{IsAmong, IsWithin, first_start};
ghost use Rattle.rd_matrix.specs.declared.matrix.Entry.{Entry};
ghost use Rattle.rd_reuse.specs.Keeping.{AreRight, entry_under, has_base, is_kept, is_outside, is_under, started_at, taken};
ghost use Rattle.rd_rows.specs.Copies.{shown_rows};
ghost use Rattle.rd_rows.specs.Laws.{ends_last};

use rd_base::{Cell, Memory, Pos, Steps};
use rd_matrix::{Block, BlockSource, Entry, Matrix};
use rd_reuse::Change;
use rd_rows::{Begin, Row, Shape};
use std::alloc::Global;
use std::sync::ledger::Ledger;

/// Whether cells are the same.
fn same_cells(cells: &[Cell], other: &[Cell]) -> bool
    ensures { OnTrue result (cells.now ≡ other.now) }
{
    cells == other
}

/// Whether the same items begin in two rows.
fn same_begins(begins: &[Begin], other: &[Begin]) -> bool
    ensures { OnTrue result (begins.now ≡ other.now) }
{
    begins == other
}

/// Whether two rows show the same.
fn is_same(row: &Row, other: &Row) -> bool
    ensures { OnTrue result (row.now.shown ≡ other.now.shown) }
{
    if row.reversed() != other.reversed() || row.ends_block() != other.ends_block() {
        return false;
    }
    if !same_cells(row.cells(), other.cells()) || !same_begins(row.begins(), other.begins()) {
        return false;
    }
    true
}

/// Whether what a block covers stands as it did.
fn spares(change: Change, block: &Block) -> bool
    ensures { result ≡ is_outside change block.now }
{
    block.end <= change.head || change.tail <= block.start
}

/// Whether a block that starts at a position started at another one before.
fn started_at(change: Change, start: Pos, before: Pos) -> bool
    ensures { result ≡ started_at change start before }
{
    if change.tail <= start {
        return i64::from(start) - i64::from(before) == change.added;
    }
    before == start
}

/// Whether an older row has a number in the block that starts at a position now.
fn is_under(entry: &Entry, change: Change, start: Pos, number: usize) -> bool
    ensures { result ≡ is_under change start number entry.now }
{
    started_at(change, start, entry.start) && entry.number as usize == number
}

/// The first of the older rows with a number in the block that starts at a position now.
fn entry_under<'a>(old: &'a Matrix, change: Change, start: Pos, number: usize) -> Option<&'a Entry>
    ensures { option_map (λ entry. entry.now) result ≡ entry_under old.now change start number }
{
    old.as_slice()
        .iter()
        .find(|entry| is_under(entry, change, start, number))
}

/// Whether an older row, where it is read from the edge that a base level asks for, shows what another one does.
fn is_one_of(entry: &Entry, base: u8, row: &Row) -> bool
    ensures { OnTrue result (has_base base entry.now.row.shown ≡ true → entry.now.row.shown ≡ row.now.shown) }
{
    if entry.row.reversed() != (base == 1) {
        return true;
    }
    is_same(&entry.row, row)
}

/// Whether the first of the older rows with a number in a block, where it is of the block's base level, is its own.
fn is_right_at(old: &Matrix, change: Change, block: &Block, number: usize, row: &Row) -> bool
    ensures { OnTrue result ((e : Entry) → entry_under old.now change block.now.start number ≡ Some e
        → has_base block.now.base e.row.shown ≡ true → e.row.shown ≡ row.now.shown) }
{
    match entry_under(old, change, block.start, number) {
        Some(entry) => is_one_of(entry, block.base, row),
        None => true,
    }
}

/// Whether the older rows of a block are its own, where it keeps them.
fn is_right(old: &Matrix, change: Change, block: &Block, rows: &[Row]) -> bool
    requires { IsTrue (ends_last (shown_rows rows.now)) }
    ensures { OnTrue result (is_kept old.now change block.now ≡ true
        → shown_rows (taken old.now change block.now.start) ≡ shown_rows rows.now) }
{
    if !spares(change, block) {
        return true;
    }
    for number in 0..rows.len() {
        if !is_right_at(old, change, block, number, &rows[number]) {
            return false;
        }
    }
    true
}

/// Whether the older rows of a block of a source are its own, where it keeps them.
fn block_is_right<B: BlockSource, L: Ledger>(
    alloc: Global,
    source: &mut B,
    old: &Matrix,
    change: Change,
    block: &Block,
    shape: Shape,
    steps: &mut Steps<L>,
) -> Result<bool, Memory>
    requires among { IsAmong (B.meaning source.old).blocks block.now }
    ensures right { IfOk result (λ right. OnTrue right (is_kept old.now change block.now ≡ true
        → shown_rows (taken old.now change block.now.start) ≡ (B.meaning source.old).rows_of block.now shape)) }
    ensures stays { B.meaning source.new ≡ B.meaning source.old }
{
    let rows = source.rows(alloc, block, shape, steps)?;
    Ok(is_right(old, change, block, rows.as_slice()))
}

/// Whether the older rows of each block of a source, of a hundred at most, are its own, where it keeps them.
pub fn are_right<B: BlockSource, L: Ledger>(
    alloc: Global,
    source: &mut B,
    old: &Matrix,
    change: Change,
    shape: Shape,
    steps: &mut Steps<L>,
) -> Result<bool, Memory>
    requires first { first_start (B.meaning source.old).blocks ≡ 1 }
    requires within { IsWithin 1 (B.meaning source.old).blocks }
    ensures right { IfOk result (λ right. OnTrue right (AreRight (B.meaning source.old) old.now change shape)) }
    ensures stays { B.meaning source.new ≡ B.meaning source.old }
{
    let mut block = source.block_of(alloc, 1)?;
    'turns: for _ in 0..100u32 {
        if !block_is_right(alloc, source, old, change, &block, shape, steps)? {
            return Ok(false);
        }
        let Some(next) = source.next(alloc, &block)? else {
            return Ok(true);
        };
        block = next;
    }
    Ok(false)
}
