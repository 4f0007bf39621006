//! Blocks that are being walked through.
ghost use Rattle.std.specs.Prelude.{◌≡◌, ◌≤◌, ◌<◌, length, IfOk};
ghost use Rattle.rd_items.specs.Pieces.{scene_of};
ghost use Rattle.rd_stack.specs.Lines.{item_turns};

use crate::order::order_of;
use rd_base::Memory;
use rd_items::Items;
use rd_levels::Order;
use rd_props::View;
use std::alloc::Global;
use std::marker::Model;

/// The items of a block that are left in a line of this base. Contracts see the steps that are left.
#[derive(Drop)]
pub struct LineFrame<'a> {
    pub view: View<'a>,
    pub base: u8,
    pub items: Items,
    pub order: Order,
}

impl<'a> Model for LineFrame<'a> {
    ghost use Rattle.std.specs.Prelude.{◌≡◌, List, ◌≤◌, ◌<◌, length};
    ghost use Rattle.rd_base.specs.declared.element.Element.{Element};
    ghost use Rattle.rd_items.specs.Pieces.{scene_of};
    ghost use Rattle.rd_stack.specs.Steps.{line_left};

    ghost Value = { List (List Element) };

    ghost view = { λ f. line_left (scene_of f.view) f.base f.items f.order.turns };

    ghost invariant = { λ f. (f.base ≤ 1) × (f.order.places ≡ length f.items) × (length f.items < 4294967296) };
}

impl<'a> LineFrame<'a> {
    ghost use Rattle.std.specs.Prelude.{◌≡◌, ◌≤◌, IfOk};
    ghost use Rattle.rd_items.specs.Pieces.{scene_of};
    ghost use Rattle.rd_stack.specs.Lines.{item_turns};
    ghost use Rattle.rd_stack.specs.Steps.{line_left};

    /// All items of a block.
    pub fn new(
        alloc: Global,
        view: View<'a>,
        base: u8,
        items: Items,
    ) -> Result<LineFrame<'a>, Memory>
        requires { base ≤ 1 }
        ensures { IfOk result (λ f. f ≡ line_left (scene_of view.entry) base items (item_turns (scene_of view.entry) base items)) }
    {
        let order = order_of_items(alloc, &view, base, &items)?;
        Ok(LineFrame {
            view,
            base,
            items,
            order,
        })
    }
}

/// The turns of items in a line of this base, in visual order from the reading edge.
pub fn order_of_items(alloc: Global, view: &View, base: u8, items: &Items) -> Result<Order, Memory>
    requires { base ≤ 1 }
    ensures turns { IfOk result (λ order. order.turns ≡ item_turns (scene_of view.now) base items.now) }
    ensures places { IfOk result (λ order. order.places ≡ length items.now) }
    ensures few { length items.now < 4294967296 }
{
    order_of(
        alloc,
        view,
        base,
        items.as_slice(),
        |item| item.class,
        |item| item.kind.bracket_code(),
    )
}
