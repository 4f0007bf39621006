//! Blocks that are held in memory.

use crate::block::Block;
use crate::listed::Listed;
use crate::source::BlockSource;
use rd_base::{Element, Glyph, ListOf, Memory, Pos, Steps};
use rd_rows::{Row, RowMaker, Shape, prefixes_stand_before_lines, rows_of_every_line};
use std::alloc::Global;
use std::marker::Model;
use std::sync::ledger::Ledger;

/// A block with the elements of its line and of its prefixes, and the glyphs of its marks.
#[derive(Drop)]
pub struct HeldBlock {
    pub block: Block,
    pub elements: ListOf<Element>,
    pub first: ListOf<Element>,
    pub wrap: ListOf<Element>,
    pub truncation: Glyph,
    pub continuation: Glyph,
}

/// Blocks that are held in memory, each with its line: a source of blocks whose rows are made of these lines. Contracts see it
/// as the list of its blocks with their lines.
#[derive(Drop)]
pub struct MemBlocks {
    held: Vec<HeldBlock>,
}

impl Model for MemBlocks {
    ghost use Rattle.std.specs.Prelude.{List};
    ghost use Rattle.rd_matrix.specs.declared.held.HeldBlock.{HeldBlock};
    ghost use Rattle.rd_matrix.specs.Held.{AreHeld};

    ghost Value = { List HeldBlock };

    ghost view = { λ m. m.held.items };

    ghost invariant = { λ m. AreHeld m.held.items };
}

impl MemBlocks {
    ghost use Rattle.std.specs.Prelude.{◌≡◌, ◌+◌, ◌^◌, ◌<◌, ◌++◌, ◌∷◌, [], length, slice_get, Some, OnOk, OnErr};
    ghost use Rattle.rd_matrix.specs.Blocks.{IsAmong, IsWithin, MayBeAsked, HoldsPosition, end_from, block_before};
    ghost use Rattle.rd_matrix.specs.Held.{IsHeld, AreHeld, blocks_held, source_of};
    ghost use Rattle.rd_matrix.specs.declared.block.Block.{Block};
    ghost use Rattle.rd_matrix.specs.Sources.{IsSource};

    /// No block.
    pub fn new(alloc: Global) -> MemBlocks
        ensures { result ≡ [] }
    {
        MemBlocks {
            held: Vec::new(alloc),
        }
    }

    /// Adds a block behind the others. It starts where the last of them ends, and its line's items cover each of its positions
    /// once.
    pub fn push(&mut self, held: HeldBlock) -> Result<(), Memory>
        requires held { IsHeld held }
        requires next { held.block.start ≡ end_from held.block.start (blocks_held self.old) }
        ensures ok { OnOk result (self.new ≡ self.old ++ held ∷ []) }
        ensures err { OnErr result (self.new ≡ self.old) }
    {
        self.held.push(held)?;
        Ok(())
    }

    /// Blocks in memory are a source, where there is a block. The call does nothing.
    fn rules(&self)
        ensures among { (block : Block) → IsAmong (blocks_held self.now) block → IsSource (source_of self.now) }
        ensures asked { (pos : _) → MayBeAsked pos (blocks_held self.now) → IsSource (source_of self.now) }
    {
        rows_of_every_line();
        prefixes_stand_before_lines();
        let _held = self.held.len();
    }

    /// The block that holds a position, and its place.
    fn find(&self, pos: Pos) -> (usize, Block)
        requires { IsWithin pos (blocks_held self.now) }
        ensures there { slice_get (blocks_held self.now) result.0 ≡ Some result.1 }
        ensures holds { HoldsPosition pos (blocks_held self.now) result.1 }
        ensures within { result.0 < length self.now }
        ensures small { result.0 + 1 < 2 ^ 64 }
        ensures held { AreHeld self.now }
    {
        for place in 0..self.held.len() {
            let block = self.held[place].block;
            if pos < block.end {
                return (place, block);
            }
        }
        unreachable!()
    }

    /// The place of one of its blocks.
    fn place_of(&self, block: &Block) -> usize
        requires { IsAmong (blocks_held self.now) block.now }
        ensures there { slice_get (blocks_held self.now) result ≡ Some block.now }
        ensures within { result < length self.now }
        ensures small { result + 1 < 2 ^ 64 }
        ensures held { AreHeld self.now }
    {
        let _held = &self.held;
        self.find(block.start).0
    }

    /// The block behind one of its blocks.
    fn behind(&self, block: &Block) -> Option<Block>
        requires { IsAmong (blocks_held self.now) block.now }
        ensures { (k : _) → slice_get (blocks_held self.now) k ≡ Some block.now → result ≡ slice_get (blocks_held self.now) (k + 1) }
    {
        let place = self.place_of(block);
        self.block_at(place + 1)
    }

    /// The block before one of its blocks.
    fn before(&self, block: &Block) -> Option<Block>
        requires { IsAmong (blocks_held self.now) block.now }
        ensures { (k : _) → slice_get (blocks_held self.now) k ≡ Some block.now → result ≡ block_before (blocks_held self.now) k }
    {
        let place = self.place_of(block);
        if place == 0 {
            return None;
        }
        self.block_at(place - 1)
    }

    /// The block at a place, and None exactly behind the last.
    fn block_at(&self, place: usize) -> Option<Block>
        ensures { result ≡ slice_get (blocks_held self.now) place }
    {
        Some(self.held.get(place)?.block)
    }
}

impl HeldBlock {
    ghost use Rattle.std.specs.Prelude.{◌≡◌, ◌+◌, ◌^◌, ◌<◌, ◌≤◌, length, IfOk};
    ghost use Rattle.rd_matrix.specs.Held.{IsHeld, laid_at};
    ghost use Rattle.rd_rows.specs.Copies.{shown_rows};
    ghost use Rattle.rd_rows.specs.Laws.{seen_rows};
    ghost use Rattle.rd_rows.specs.Rows.{weight_of};

    /// The block's rows at a shape.
    fn rows<L: Ledger>(
        &self,
        alloc: Global,
        shape: Shape,
        steps: &mut Steps<L>,
    ) -> Result<Vec<Row>, Memory>
        requires { IsHeld self.now }
        ensures rows { IfOk result (λ rows. shown_rows rows.items ≡ seen_rows (laid_at shape self.now)) }
        ensures few { IfOk result (λ rows. length rows.items < 2 ^ 32) }
        ensures steps { steps.new ≤ steps.old + weight_of (laid_at shape self.now) }
    {
        let mut elements = Listed {
            rest: self.elements.as_slice(),
        };
        let maker = RowMaker::new(
            alloc,
            shape,
            self.block.base,
            self.first.as_slice(),
            self.wrap.as_slice(),
            self.truncation,
            self.continuation,
        )?;
        maker.make_all(&mut elements, steps)
    }
}

impl BlockSource for MemBlocks {
    ghost use Rattle.rd_matrix.specs.Held.{source_of};

    ghost meaning = { λ m. source_of m };

    fn block_of(&mut self, _alloc: Global, pos: Pos) -> Result<Block, Memory> {
        self.rules();
        Ok(self.find(pos).1)
    }

    fn next(&mut self, _alloc: Global, block: &Block) -> Result<Option<Block>, Memory> {
        self.rules();
        Ok(self.behind(block))
    }

    fn prev(&mut self, _alloc: Global, block: &Block) -> Result<Option<Block>, Memory> {
        self.rules();
        Ok(self.before(block))
    }

    fn rows<L: Ledger>(
        &mut self,
        alloc: Global,
        block: &Block,
        shape: Shape,
        steps: &mut Steps<L>,
    ) -> Result<Vec<Row>, Memory> {
        self.rules();
        let place = self.place_of(block);
        self.held[place].rows(alloc, shape, steps)
    }
}
