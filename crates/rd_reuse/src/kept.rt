//! A source whose blocks keep their older rows.

use crate::change::Change;
use crate::keeping::{copies, is_kept};
use rd_base::{Memory, Pos, Steps};
use rd_matrix::{Block, BlockSource, Matrix};
use rd_rows::{Row, Shape};
use std::alloc::Global;
use std::marker::Model;
use std::sync::ledger::Ledger;

/// A source whose blocks keep their older rows where nothing changed. It has its source's blocks and rows. At the shape of the
/// older rows the rows of a block that keeps them are copied, at no cost. Contracts see it as its source, the older rows, what
/// changed since and the shape of these rows.
#[derive(Drop)]
pub struct Kept<'a, B: BlockSource> {
    source: B,
    older: &'a Matrix,
    change: Change,
    shape: Shape,
    asked: bool,
}

impl<'a, B: BlockSource> Model for Kept<'a, B> {
    ghost use Rattle.std.specs.Prelude.{◌≡◌, true, List};
    ghost use Rattle.rd_matrix.specs.Sources.{IsSource};
    ghost use Rattle.rd_matrix.specs.declared.matrix.Entry.{Entry};
    ghost use Rattle.rd_reuse.specs.declared.change.Change.{Change};
    ghost use Rattle.rd_reuse.specs.Keeping.{AreRight};
    ghost use Rattle.rd_rows.specs.Shapes.{ShapeValues};

    ghost Value = { B × List Entry × Change × ShapeValues };

    ghost view = { λ k. (k.source, k.older.now, k.change, k.shape) };

    // a source shows with each call that it is one, so it does once it was asked
    ghost invariant = { λ k. AreRight (B.meaning k.source) k.older.now k.change k.shape × (k.asked ≡ true → IsSource (B.meaning k.source)) };
}

impl<'a, B: BlockSource> Kept<'a, B> {
    ghost use Rattle.std.specs.Prelude.{◌≡◌};
    ghost use Rattle.rd_matrix.specs.Blocks.{IsAmong};
    ghost use Rattle.rd_matrix.specs.Sources.{IsSource};
    ghost use Rattle.rd_reuse.specs.Keeping.{AreRight, kept_source};

    /// A source over another one and the rows of an older layout at a shape, since which so much changed. The older rows of each
    /// block that keeps them are those that the source has for it at this shape.
    pub fn new(source: B, old: &'a Matrix, change: Change, shape: Shape) -> Kept<'a, B>
        requires { AreRight (B.meaning source) old.now change shape }
        ensures { result ≡ (source, old.now, change, shape) }
    {
        Kept {
            source,
            older: old,
            change,
            shape,
            asked: false,
        }
    }

    /// The source beneath.
    pub fn into_source(self) -> B
        ensures { result ≡ self.entry.0 }
    {
        self.source
    }

    /// Asks the source for a block, where it was asked for none before.
    fn ask(&mut self, alloc: Global, block: &Block) -> Result<(), Memory>
        requires { IsAmong (B.meaning self.old.0).blocks block.now }
        ensures source { IsSource (B.meaning self.old.0) }
        ensures stays { B.meaning self.new.0 ≡ B.meaning self.old.0 }
        ensures rows { self.new.1 ≡ self.old.1 }
        ensures change { self.new.2 ≡ self.old.2 }
        ensures shape { self.new.3 ≡ self.old.3 }
    {
        if self.asked {
            return Ok(());
        }
        self.source.next(alloc, block)?;
        self.asked = true;
        Ok(())
    }
}

impl<B: BlockSource> BlockSource for Kept<'_, B> {
    ghost use Rattle.rd_reuse.specs.Keeping.{kept_source};

    ghost meaning = { λ k. kept_source (B.meaning k.0) k.1 k.2 k.3 };

    fn block_of(&mut self, alloc: Global, pos: Pos) -> Result<Block, Memory> {
        let block = self.source.block_of(alloc, pos)?;
        self.asked = true;
        Ok(block)
    }

    fn next(&mut self, alloc: Global, block: &Block) -> Result<Option<Block>, Memory> {
        let next = self.source.next(alloc, block)?;
        self.asked = true;
        Ok(next)
    }

    fn prev(&mut self, alloc: Global, block: &Block) -> Result<Option<Block>, Memory> {
        let before = self.source.prev(alloc, block)?;
        self.asked = true;
        Ok(before)
    }

    fn rows<L: Ledger>(
        &mut self,
        alloc: Global,
        block: &Block,
        shape: Shape,
        steps: &mut Steps<L>,
    ) -> Result<Vec<Row>, Memory> {
        if !shape.is_same(self.shape) || !is_kept(self.older, self.change, block) {
            return self.source.rows(alloc, block, shape, steps);
        }
        self.ask(alloc, block)?;
        copies(alloc, self.older, self.change, block.start)
    }
}
