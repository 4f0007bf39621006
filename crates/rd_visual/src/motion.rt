//! Motion in visual order.
ghost use Rattle.std.specs.Prelude.{◌≡◌, ℕ, IfOk, slice_get, Some};
ghost use Rattle.rd_text.specs.Texts.{IsAccessible};
ghost use Rattle.rd_matrix.specs.Blocks.{HoldsPosition, IsAmong};
ghost use Rattle.rd_matrix.specs.Sources.{IsSource};
ghost use Rattle.rd_props.specs.Buffers.{files_of, meaning};
ghost use Rattle.rd_visual.specs.Motion.{left_of, right_of, view_blocks};
ghost use Rattle.rd_visual.specs.Ways.{block_beside, sideways, stepped};

use crate::laws::ranges_cover_once;
use crate::range::{beside, entered};
use crate::ranges::ranges_of;
use crate::way::Way;
use rd_base::{Memory, Pos};
use rd_blocks::{Blocks, accessible_positions_lie_in_blocks};
use rd_matrix::{Block, BlockSource};
use rd_props::View;
use std::alloc::Global;

/// One step to the right from an accessible position, or from the accessible end: the least position of the item beside the one
/// that covers it. In a block that is read from the left edge it is the item behind it in visual order, and from a block's last the
/// first of the next block; in a block that is read from the right edge it is the item before it, and from a block's first the
/// last of the block before. None exactly where there is no such block.
///
/// Items that cover no position are passed over. It costs the items and levels of at most two blocks.
pub fn right(alloc: Global, view: &View, pos: Pos) -> Result<Option<Pos>, Memory>
    requires { IsAccessible view.now.state.now.text pos }
    ensures { IfOk result (λ found. found ≡ right_of (meaning view.now.state.now) view.now.objects.now (files_of view.now) pos) }
{
    sideways(alloc, view, Way::Forward, pos)
}

/// One step to the left: where a step to the right goes to the item behind it goes to the one before, and where that goes to the
/// one before it goes to the one behind.
pub fn left(alloc: Global, view: &View, pos: Pos) -> Result<Option<Pos>, Memory>
    requires { IsAccessible view.now.state.now.text pos }
    ensures { IfOk result (λ found. found ≡ left_of (meaning view.now.state.now) view.now.objects.now (files_of view.now) pos) }
{
    sideways(alloc, view, Way::Backward, pos)
}

/// One step to a side: this way in a block that is read from the left edge, and the other way in one that is read from the right
/// edge.
fn sideways(alloc: Global, view: &View, way: Way, pos: Pos) -> Result<Option<Pos>, Memory>
    requires { IsAccessible view.now.state.now.text pos }
    ensures { IfOk result (λ found. found ≡ sideways way (meaning view.now.state.now) view.now.objects.now (files_of view.now) pos) }
{
    accessible_positions_lie_in_blocks();
    let mut source = Blocks::new(*view);
    let block = source.block_of(alloc, pos)?;
    step(
        alloc,
        view,
        &mut source,
        &block,
        way.in_block(block.base),
        pos,
    )
}

/// The least position of the item to which a step leads from the one that covers a position of a block.
fn step<B: BlockSource>(
    alloc: Global,
    view: &View,
    source: &mut B,
    block: &Block,
    way: Way,
    pos: Pos,
) -> Result<Option<Pos>, Memory>
    requires source { (B.meaning source.old).blocks ≡ view_blocks view.now }
    requires block { HoldsPosition pos (view_blocks view.now) block.now }
    requires place { IsAccessible view.now.state.now.text pos }
    ensures { IfOk result (λ found. found ≡ stepped way (meaning view.now.state.now) view.now.objects.now (files_of view.now) pos) }
{
    ranges_cover_once();
    let state = view.state;
    let _begin = state.text.begin();
    let ranges = ranges_of(alloc, view, block)?;
    if let Some(found) = beside(&ranges, way, pos) {
        return Ok(Some(found));
    }
    let Some(other) = block_beside(alloc, source, block, way)? else {
        return Ok(None);
    };
    let others = ranges_of(alloc, view, &other)?;
    Ok(entered(&others, way))
}

/// The block to which a step leads from one of a source's blocks, and None where this is the last on the way.
fn block_beside<B: BlockSource>(
    alloc: Global,
    source: &mut B,
    block: &Block,
    way: Way,
) -> Result<Option<Block>, Memory>
    requires { IsAmong (B.meaning source.old).blocks block.now }
    ensures next { IfOk result (λ other. (k : ℕ) → slice_get (B.meaning source.old).blocks k ≡ Some block.now → other ≡ block_beside way (B.meaning source.old).blocks k) }
    ensures source { IsSource (B.meaning source.old) }
{
    match way {
        Way::Forward => source.next(alloc, block),
        Way::Backward => source.prev(alloc, block),
    }
}
