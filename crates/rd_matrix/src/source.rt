//! Where blocks and their rows come from.

use crate::block::Block;
use rd_base::{Memory, Pos, Steps};
use rd_rows::{Row, Shape};
use std::alloc::Global;
use std::sync::ledger::Ledger;

/// A source of blocks, and of the rows of each block at a shape. Contracts see it as the list of its blocks, the rows of a block
/// at a shape, and their cost, here and in the source that this one stands on, none of which a call changes. Each call says what
/// holds of every source: there is a block, each but the first starts at the end of the one before, and the rows of a block at a
/// shape are at least one, of which the last and no other ends the block; each position of a block is covered by exactly one item
/// that begins in its rows. After want of memory a source is to be made anew.
pub trait BlockSource {
    ghost use Rattle.std.specs.Prelude.{◌≡◌, ℕ, ◌+◌, ◌^◌, ◌<◌, ◌≤◌, length, slice_get, Some, IfOk};
    ghost use Rattle.rd_matrix.specs.Blocks.{IsAmong, MayBeAsked, HoldsPosition, block_before};
    ghost use Rattle.rd_matrix.specs.Sources.{SourceValues, IsSource};
    ghost use Rattle.rd_rows.specs.Copies.{shown_rows};

    // the blocks, their rows and what the rows cost, here and in the source beneath
    ghost meaning: { Self → SourceValues };

    /// The block that holds a position, which is not before the first block and below the last block's end, or at which one of the
    /// blocks starts.
    fn block_of(&mut self, alloc: Global, pos: Pos) -> Result<Block, Memory>
        requires { MayBeAsked pos (meaning self.old).blocks }
        ensures found { IfOk result (λ block. HoldsPosition pos (meaning self.old).blocks block) }
        ensures source { IsSource (meaning self.old) }
        ensures stays { meaning self.new ≡ meaning self.old };

    /// The block behind one of its blocks, and None exactly behind the last.
    fn next(&mut self, alloc: Global, block: &Block) -> Result<Option<Block>, Memory>
        requires { IsAmong (meaning self.old).blocks block.now }
        ensures next { IfOk result (λ next. (k : ℕ) → slice_get (meaning self.old).blocks k ≡ Some block.now → next ≡ slice_get (meaning self.old).blocks (k + 1)) }
        ensures source { IsSource (meaning self.old) }
        ensures stays { meaning self.new ≡ meaning self.old };

    /// The block before one of its blocks, and None exactly before the first.
    fn prev(&mut self, alloc: Global, block: &Block) -> Result<Option<Block>, Memory>
        requires { IsAmong (meaning self.old).blocks block.now }
        ensures prev { IfOk result (λ prev. (k : ℕ) → slice_get (meaning self.old).blocks k ≡ Some block.now → prev ≡ block_before (meaning self.old).blocks k) }
        ensures source { IsSource (meaning self.old) }
        ensures stays { meaning self.new ≡ meaning self.old };

    /// The rows of one of its blocks at a shape, fewer than 2^32 of them; where there are more it wants memory. The steps that
    /// it takes are at most the rows' cost.
    fn rows<L: Ledger>(
        &mut self,
        alloc: Global,
        block: &Block,
        shape: Shape,
        steps: &mut Steps<L>,
    ) -> Result<Vec<Row>, Memory>
        requires { IsAmong (meaning self.old).blocks block.now }
        ensures rows { IfOk result (λ rows. shown_rows rows.items ≡ (meaning self.old).rows_of block.now shape) }
        ensures few { IfOk result (λ rows. length rows.items < 2 ^ 32) }
        ensures steps { steps.new ≤ steps.old + (meaning self.old).cost_of block.now shape }
        ensures source { IsSource (meaning self.old) }
        ensures stays { meaning self.new ≡ meaning self.old };
}
