//! The ranges of a block's items in visual order.
ghost use Rattle.std.specs.Prelude.{◌≡◌, ◌+◌, ◌++◌, ◌<◌, ◌^◌, All, Some, length, IfOk, OnOk};
ghost use Rattle.rd_matrix.specs.Blocks.{IsAmong};
ghost use Rattle.rd_visual.specs.Motion.{range_by, ranges_in_turn, view_blocks, view_ranges};

use crate::laws::blocks_are_tiled;
use crate::range::Range;
use rd_base::{ListOf, Memory, Pos};
use rd_blocks::buffers_are_sources;
use rd_items::{Item, Items};
use rd_levels::Order;
use rd_matrix::Block;
use rd_props::View;
use rd_stack::order_of_items;
use std::alloc::Global;

/// The ranges of the items of a block that cover a position, in visual order from the reading edge. It costs what the items of the
/// block cost, and their levels.
pub fn ranges_of(alloc: Global, view: &View, block: &Block) -> Result<ListOf<Range>, Memory>
    requires { IsAmong (view_blocks view.now) block.now }
    ensures { IfOk result (λ ranges. ranges ≡ view_ranges view.now block.now) }
{
    blocks_are_tiled();
    buffers_are_sources();
    let state = view.state;
    let _begin = state.text.begin();
    let items = Items::new(alloc, view, block.start)?;
    let mut order = order_of_items(alloc, view, block.base, &items)?;
    in_turn(alloc, block.start, &items, &mut order)
}

/// The ranges of items of the block that starts at a position, in the order that is left of them.
fn in_turn(
    alloc: Global,
    start: Pos,
    items: &Items,
    order: &mut Order,
) -> Result<ListOf<Range>, Memory>
    requires places { order.old.places ≡ length items.now }
    requires fits { All (λ x. x.from < x.to → start + x.to < 2 ^ 32) items.now }
    ensures { IfOk result (λ ranges. ranges ≡ ranges_in_turn start items.now order.old.turns) }
{
    let mut ranges = ListOf::with_room(alloc, items.len() as usize)?;
    while let Some(turn) = order.next() {
        add_range(&mut ranges, start, items.item(turn.index as u32))?;
    }
    Ok(ranges)
}

/// Adds the range of an item where it covers a position.
fn add_range(ranges: &mut ListOf<Range>, start: Pos, item: &Item) -> Result<(), Memory>
    requires { item.now.from < item.now.to → start + item.now.to < 2 ^ 32 }
    ensures { OnOk result (ranges.new ≡ ranges.old ++ range_by start (Some item.now)) }
{
    if item.from < item.to {
        ranges.push(Range {
            from: start + item.from,
            to: start + item.to,
        })?;
    }
    Ok(())
}
