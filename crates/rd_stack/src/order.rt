//! The order in which what is walked through is shown.
ghost use Rattle.std.specs.Prelude.{◌≡◌, ℕ, ◌≤◌, ◌<◌, map, length, IfOk};
ghost use Rattle.rd_base.specs.declared.class.Class.{Class};
ghost use Rattle.rd_items.specs.Pieces.{scene_of};
ghost use Rattle.rd_levels.specs.Turns.{turns_of};
ghost use Rattle.rd_stack.specs.Orders.{Computes};

use rd_base::{Class, Memory, mapped};
use rd_levels::Order;
use rd_props::View;
use std::alloc::Global;

/// The turns of these items in visual order in a line with a base level of 0 or 1, as the buffer's setting `reorder` has them, by the
/// class of each and the code by which it may be a bracket.
pub fn order_of<T, C: Fn(&T) -> Class, B: Fn(&T) -> u32>(
    alloc: Global,
    view: &View,
    base: u8,
    items: &[T],
    class_of: C,
    code_of: B,
) -> Result<Order, Memory>
    requires base { base ≤ 1 }
    requires few { length items.now < 4294967296 }
    requires asked { C.IsAlwaysCallable class_of × B.IsAlwaysCallable code_of }
    requires class { (class : T → Class) × Computes (C.post class_of) class }
    requires code { (code : T → ℕ) × Computes (B.post code_of) code }
    ensures turns { (class : T → Class) (code : T → ℕ) → Computes (C.post class_of) class → Computes (B.post code_of) code
        → IfOk result (λ order. order.turns ≡ turns_of (scene_of view.now).brackets (scene_of view.now).parts.settings.reorder base (map class items.now) (map code items.now)) }
    ensures places { IfOk result (λ order. order.places ≡ length items.now) }
{
    let classes = mapped(alloc, items, class_of)?;
    let codes = mapped(alloc, items, code_of)?;
    let settings = view.settings();
    Order::new(
        alloc,
        settings.reorder,
        base,
        classes.as_slice(),
        codes.as_slice(),
        view.brackets,
    )
}
