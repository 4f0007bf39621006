//! A source that remembers the rows that it was asked for.
ghost use Rattle.std.specs.Prelude.{◌≡◌, ◌^◌, ◌<◌, true, All, length, slice_index_or, IfOk, IfSome};
ghost use Rattle.rd_matrix.specs.Sources.{IsSource, SourceValues};
ghost use Rattle.rd_rows.specs.Copies.{shown_rows};
ghost use Rattle.rd_window.specs.Remembering.{IsLaid, is_of};
ghost use Rattle.rd_window.specs.declared.remembered.LaidBlock.{LaidBlock};

use rd_base::{Memory, Pos, Steps};
use rd_matrix::{Block, BlockSource};
use rd_rows::{Row, Shape};
use std::alloc::Global;
use std::collections::VecDeque;
use std::marker::Model;
use std::sync::ledger::Ledger;

/// A source that remembers the rows of a block at a shape when it is asked for them: so a block whose rows are asked for twice is laid
/// out once. It gives copies of the rows that it remembers until it is to hand them out; then it gives these rows themselves, and
/// remembers no more. It has its source's blocks, rows and costs, and contracts see it as its source.
#[derive(Drop)]
pub(crate) struct Remembered<B: BlockSource> {
    source: B,
    laid: VecDeque<LaidBlock>,
    hands_out: bool,
}

/// The rows of a block at a shape.
#[derive(Drop)]
pub(crate) struct LaidBlock {
    block: Block,
    shape: Shape,
    rows: Vec<Row>,
}

impl<B: BlockSource> Model for Remembered<B> {
    ghost use Rattle.std.specs.Prelude.{All};
    ghost use Rattle.rd_window.specs.Remembering.{IsLaid};

    ghost Value = { B };

    ghost view = { λ r. r.source };

    ghost invariant = { λ r. All (IsLaid (B.meaning r.source)) r.laid.items };
}

impl<B: BlockSource> Remembered<B> {
    ghost use Rattle.std.specs.Prelude.{◌≡◌};

    /// A source over another one, of which nothing was asked yet.
    pub(crate) fn new(alloc: Global, source: B) -> Remembered<B>
        ensures { result ≡ source }
    {
        Remembered {
            source,
            laid: VecDeque::new(alloc),
            hands_out: false,
        }
    }

    /// Lets the source hand out what it remembers, from the next call on.
    pub(crate) fn hand_out(&mut self)
        ensures { self.new ≡ self.old }
    {
        self.hands_out = true;
    }
}

impl<B: BlockSource> BlockSource for Remembered<B> {
    ghost meaning = { λ r. B.meaning r };

    fn block_of(&mut self, alloc: Global, pos: Pos) -> Result<Block, Memory> {
        self.source.block_of(alloc, pos)
    }

    fn next(&mut self, alloc: Global, block: &Block) -> Result<Option<Block>, Memory> {
        self.source.next(alloc, block)
    }

    fn prev(&mut self, alloc: Global, block: &Block) -> Result<Option<Block>, Memory> {
        self.source.prev(alloc, block)
    }

    fn rows<L: Ledger>(
        &mut self,
        alloc: Global,
        block: &Block,
        shape: Shape,
        steps: &mut Steps<L>,
    ) -> Result<Vec<Row>, Memory> {
        if self.hands_out {
            if let Some(rows) = recall(&mut self.laid, block, shape) {
                return Ok(rows);
            }
            return self.source.rows(alloc, block, shape, steps);
        }
        if let Some(laid) = find(&self.laid, block, shape) {
            return copies(alloc, laid.rows.as_slice());
        }
        let rows = self.source.rows(alloc, block, shape, steps)?;
        let shown = copies(alloc, rows.as_slice())?;
        self.laid.push_back(LaidBlock {
            block: *block,
            shape,
            rows,
        })?;
        Ok(shown)
    }
}

impl LaidBlock {
    ghost use Rattle.std.specs.Prelude.{◌≡◌};
    ghost use Rattle.rd_window.specs.Remembering.{is_of};

    /// Whether these are the rows of a block at a shape.
    fn is_of(&self, block: &Block, shape: Shape) -> bool
        ensures { result ≡ is_of block.now shape self.now }
    {
        self.block == *block && self.shape.is_same(shape)
    }
}

/// Takes the rows of a block at a shape out of those that are remembered; None where they are not among them.
fn recall(laid: &mut VecDeque<LaidBlock>, block: &Block, shape: Shape) -> Option<Vec<Row>>
    ensures source { (m : SourceValues) → All (IsLaid m) laid.old.items → IfSome result (λ _. IsSource m) }
    ensures rows { (m : SourceValues) → All (IsLaid m) laid.old.items → IfSome result (λ rows. shown_rows rows.items ≡ m.rows_of block.now shape) }
    ensures few { (m : SourceValues) → All (IsLaid m) laid.old.items → IfSome result (λ rows. length rows.items < 2 ^ 32) }
    ensures left { (m : SourceValues) → All (IsLaid m) laid.old.items → All (IsLaid m) laid.new.items }
{
    let place = place_of(laid, block, shape)?;
    let found = laid.remove(place)?;
    Some(found.rows)
}

/// The rows of a block at a shape among those that are remembered.
fn find<'a>(laid: &'a VecDeque<LaidBlock>, block: &Block, shape: Shape) -> Option<&'a LaidBlock>
    ensures source { (m : SourceValues) → All (IsLaid m) laid.now.items → IfSome result (λ _. IsSource m) }
    ensures rows { (m : SourceValues) → All (IsLaid m) laid.now.items → IfSome result (λ found. shown_rows found.now.rows.items ≡ m.rows_of block.now shape) }
    ensures few { (m : SourceValues) → All (IsLaid m) laid.now.items → IfSome result (λ found. length found.now.rows.items < 2 ^ 32) }
{
    let place = place_of(laid, block, shape)?;
    Some(&laid[place])
}

/// The place of the rows of a block at a shape among those that are remembered. Blocks are mostly asked for in the order in which they
/// were remembered, so it is mostly the first.
fn place_of(laid: &VecDeque<LaidBlock>, block: &Block, shape: Shape) -> Option<usize>
    ensures within { IfSome result (λ place. place < length laid.now.items) }
    ensures there { IfSome result (λ place. (other : LaidBlock) → is_of block.now shape (slice_index_or laid.now.items place other) ≡ true) }
{
    laid.iter().position(|other| other.is_of(block, shape))
}

/// Copies of rows.
fn copies(alloc: Global, rows: &[Row]) -> Result<Vec<Row>, Memory>
    ensures rows { IfOk result (λ more. shown_rows more.items ≡ shown_rows rows.now) }
    ensures few { IfOk result (λ more. length more.items ≡ length rows.now) }
{
    let mut more = Vec::with_capacity(alloc, rows.len())?;
    for row in rows {
        more.push(row.copy()?)?;
    }
    Ok(more)
}
