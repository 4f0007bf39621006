//! The blocks of a buffer.

use crate::base::base_of;
use crate::laws::buffers_are_sources;
use crate::rows::rows_of;
use rd_base::{Memory, Pos, Steps};
use rd_items::{block_at, block_before, block_from, blocks_are_listed};
use rd_matrix::{Block, BlockSource};
use rd_para::Paragraph;
use rd_props::View;
use rd_rows::{Row, Shape};
use std::alloc::Global;
use std::marker::Model;
use std::sync::ledger::Ledger;

/// The blocks of a buffer, each with the level from which its rows are read, and their rows at every shape: a source of blocks.
/// Contracts see it as what is looked at. Where the text decides the levels, it keeps the paragraphs that it found last.
#[derive(Drop)]
pub struct Blocks<'a> {
    view: View<'a>,
    /// The paragraph of the block that `block_of` or `prev` found last.
    above: Option<Paragraph>,
    /// The paragraph of the block that `block_of` or `next` found last.
    below: Option<Paragraph>,
}

impl<'a> Model for Blocks<'a> {
    ghost use Rattle.std.specs.Prelude.{IfSome};
    ghost use Rattle.rd_para.specs.Known.{IsKnown};
    ghost use Rattle.rd_props.specs.declared.state.View.{View};

    ghost Value = { View };

    ghost view = { λ b. b.view };

    ghost invariant = { λ b. IfSome b.above (λ p. IsKnown b.view.classes.now b.view.state.now.text p) × IfSome b.below (λ p. IsKnown b.view.classes.now b.view.state.now.text p) };
}

impl<'a> Blocks<'a> {
    ghost use Rattle.std.specs.Prelude.{◌≡◌, ◌+◌, ◌≤◌, IfOk, Some, slice_get};
    ghost use Rattle.rd_props.specs.Buffers.{meaning};
    ghost use Rattle.rd_items.specs.Blocks.{IsBlock};
    ghost use Rattle.rd_matrix.specs.Blocks.{IsAmong, IsWithin, HoldsPosition, block_before};
    ghost use Rattle.rd_matrix.specs.Sources.{IsSource};
    ghost use Rattle.rd_blocks.specs.Sources.{source_of};

    /// The blocks of the buffer that is looked at. It takes no memory.
    pub fn new(view: View<'a>) -> Blocks<'a>
        ensures { ⟦<Blocks<'a> as BlockSource>⟧.meaning result ≡ source_of view.entry }
    {
        Blocks {
            view,
            above: None,
            below: None,
        }
    }

    /// A buffer's blocks are a source. The call does nothing.
    fn rules(&self)
        ensures { IsSource (source_of self.now) }
    {
        buffers_are_sources();
        let state = self.view.state;
        let _begin = state.text.begin();
    }

    /// The block that holds a position of its blocks.
    fn holding(&mut self, alloc: Global, pos: Pos) -> Result<Block, Memory>
        requires { IsWithin pos (source_of self.old).blocks }
        ensures found { IfOk result (λ block. HoldsPosition pos (source_of self.old).blocks block) }
        ensures stays { self.new ≡ self.old }
    {
        blocks_are_listed();
        let state = self.view.state;
        let _begin = state.text.begin();
        let found = block_at(alloc, &self.view, pos)?;
        let (start, end) = found;
        let base = base_of(self.view, &mut self.above, start, start);
        self.below = self.above;
        Ok(Block { start, end, base })
    }

    /// The block behind one of its blocks.
    fn behind(&mut self, alloc: Global, block: &Block) -> Result<Option<Block>, Memory>
        requires { IsAmong (source_of self.old).blocks block.now }
        ensures next { IfOk result (λ next. (k : _) → slice_get (source_of self.old).blocks k ≡ Some block.now → next ≡ slice_get (source_of self.old).blocks (k + 1)) }
        ensures stays { self.new ≡ self.old }
    {
        blocks_are_listed();
        self.stands(block);
        let state = self.view.state;
        let start = block.end;
        if state.text.end() < start {
            return Ok(None);
        }
        let end = block_from(alloc, &self.view, start)?;
        let base = base_of(self.view, &mut self.below, block.start, start);
        Ok(Some(Block { start, end, base }))
    }

    /// The block before one of its blocks.
    fn before(&mut self, alloc: Global, block: &Block) -> Result<Option<Block>, Memory>
        requires { IsAmong (source_of self.old).blocks block.now }
        ensures prev { IfOk result (λ prev. (k : _) → slice_get (source_of self.old).blocks k ≡ Some block.now → prev ≡ block_before (source_of self.old).blocks k) }
        ensures stays { self.new ≡ self.old }
    {
        blocks_are_listed();
        self.stands(block);
        let state = self.view.state;
        let end = block.start;
        if end == state.text.begin() {
            return Ok(None);
        }
        let start = block_before(alloc, &self.view, end)?;
        let base = base_of(self.view, &mut self.above, start, start);
        Ok(Some(Block { start, end, base }))
    }

    /// What holds of one of the source's blocks: it is a block of the buffer, and its base level is 0 or 1.
    fn stands(&self, block: &Block)
        requires { IsAmong (source_of self.now).blocks block.now }
        ensures block { IsBlock (meaning self.now.state.now) block.now.start block.now.end }
        ensures base { block.now.base ≤ 1 }
    {
        blocks_are_listed();
        let state = self.view.state;
        let _begin = state.text.begin();
    }
}

impl<'a> BlockSource for Blocks<'a> {
    ghost use Rattle.rd_blocks.specs.Sources.{source_of};

    ghost meaning = { λ b. source_of b };

    fn block_of(&mut self, alloc: Global, pos: Pos) -> Result<Block, Memory> {
        self.rules();
        self.holding(alloc, pos)
    }

    fn next(&mut self, alloc: Global, block: &Block) -> Result<Option<Block>, Memory> {
        self.rules();
        self.behind(alloc, block)
    }

    fn prev(&mut self, alloc: Global, block: &Block) -> Result<Option<Block>, Memory> {
        self.rules();
        self.before(alloc, block)
    }

    fn rows<L: Ledger>(
        &mut self,
        alloc: Global,
        block: &Block,
        shape: Shape,
        steps: &mut Steps<L>,
    ) -> Result<Vec<Row>, Memory> {
        self.rules();
        self.stands(block);
        rows_of(alloc, self.view, block, shape, steps)
    }
}
