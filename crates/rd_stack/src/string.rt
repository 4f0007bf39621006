//! Strings that are being walked through.
use crate::marks::join_marks;
use crate::part::Part;
use crate::row::{order_of_parts, read_row};
use rd_base::{Face, ListOf, Memory, Origin};
use rd_levels::Order;
use rd_objects::Text;
use rd_props::View;
use std::alloc::Global;
use std::marker::Model;

/// What a string stands in: the base level of its line, the origin of its elements, and the face under it.
#[derive(Clone, Copy)]
pub struct Surroundings<'a> {
    pub view: View<'a>,
    pub base: u8,
    /// Whether the string's display runs are used.
    pub replaced: bool,
    pub origin: Origin,
    pub under: Face,
}

/// A string of which a row is being walked through. It holds that row alone. Contracts see the steps that are left.
#[derive(Drop)]
pub struct StringFrame<'a> {
    pub around: Surroundings<'a>,
    pub text: &'a Text,
    pub parts: ListOf<Part>,
    pub order: Order,
    /// The place where the row ends.
    pub end: u32,
}

impl<'a> Model for StringFrame<'a> {
    ghost use Rattle.std.specs.Prelude.{◌≡◌, List, ◌≤◌, length};
    ghost use Rattle.rd_base.specs.declared.element.Element.{Element};
    ghost use Rattle.rd_items.specs.Pieces.{scene_of};
    ghost use Rattle.rd_stack.specs.Steps.{string_left};

    ghost Value = { List (List Element) };

    ghost view = { λ f. string_left (scene_of f.around.view) f.around.base f.around.replaced f.around.origin f.around.under f.text.now f.parts f.order.turns f.end };

    ghost invariant = { λ f. (f.around.base ≤ 1) × (f.end ≤ length f.text.now.chars) × (f.order.places ≡ length f.parts) };
}

impl<'a> StringFrame<'a> {
    ghost use Rattle.std.specs.Prelude.{◌≡◌, ◌≤◌, length, IfOk};
    ghost use Rattle.std.specs.List.{flat_map};
    ghost use Rattle.rd_items.specs.Pieces.{scene_of};
    ghost use Rattle.rd_stack.specs.Strings.{shown_from};
    ghost use Rattle.rd_stack.specs.Steps.{part_steps};

    /// A string of which the row that begins at a place is walked through first.
    pub fn from_place(
        alloc: Global,
        around: &Surroundings<'a>,
        text: &'a Text,
        from: u32,
    ) -> Result<StringFrame<'a>, Memory>
        requires base { around.now.base ≤ 1 }
        requires from { from ≤ length text.now.chars }
        ensures { IfOk result (λ f. f ≡ flat_map (part_steps (scene_of around.now.view) around.now.base around.now.replaced around.now.origin) (shown_from (scene_of around.now.view) around.now.base around.now.replaced text.now around.now.under from)) }
    {
        let mut read = ListOf::new(alloc);
        let view = &around.view;
        let end = read_row(view, around.replaced, text, around.under, from, &mut read)?;
        let parts = join_marks(alloc, read.as_slice())?;
        let order = order_of_parts(alloc, view, around.base, parts.as_slice())?;
        Ok(StringFrame {
            around: Surroundings { ..*around },
            text,
            parts,
            order,
            end,
        })
    }
}
