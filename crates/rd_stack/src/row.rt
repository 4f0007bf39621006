//! The rows of a string, of which each ends at a newline.
ghost use Rattle.std.specs.Prelude.{◌≡◌, ◌≤◌, ◌++◌, ◌∷◌, ℕ, List, [], map, length, false, IfOk, OnOk};
ghost use Rattle.rd_items.specs.Pieces.{scene_of};
ghost use Rattle.rd_levels.specs.Turns.{turns_of};
ghost use Rattle.rd_stack.specs.Strings.{ends_row, part_class, part_code, run_heads, row, rows_from, shown_from, behind_row};
ghost use Rattle.rd_stack.specs.declared.part.Place.{Place};

use crate::order::order_of;
use crate::part::{Part, Place, ends_row, part_of, place_of};
use rd_base::{Face, ListOf, Memory};
use rd_items::same_spec;
use rd_levels::Order;
use rd_objects::Text;
use rd_props::View;
use std::alloc::Global;

/// Adds the parts of the row of a string over a face that begins at a place, of which no mark has joined any; and answers the place of
/// the newline that ends it, or the string's length. The string's display runs are used where `replaced` is set.
pub fn read_row(
    view: &View,
    replaced: bool,
    text: &Text,
    under: Face,
    from: u32,
    parts: &mut ListOf<Part>,
) -> Result<u32, Memory>
    requires from { from ≤ length text.now.chars }
    requires none { parts.old ≡ [] }
    ensures value { IfOk result (λ end. (base : ℕ) → row (scene_of view.now) base parts.new ++ behind_row (scene_of view.now) base replaced text.now under end ≡ shown_from (scene_of view.now) base replaced text.now under from) }
    ensures end { IfOk result (λ end. end ≤ length text.now.chars) }
{
    let mut before = None;
    for i in from..text.len() {
        let place = place_of(replaced, text, under, i);
        if ends_row(&place) {
            return Ok(i);
        }
        put_place(view, before, &place, parts)?;
        before = place.spec;
    }
    Ok(text.len())
}

/// Adds the part of a place, unless it goes on the run of the place before it, which has this spec.
fn put_place(
    view: &View,
    before: Option<u32>,
    place: &Place,
    parts: &mut ListOf<Part>,
) -> Result<(), Memory>
    requires { ends_row place.now ≡ false }
    ensures { OnOk result ((base : ℕ) (ps : List Place) → rows_from (scene_of view.now) base parts.new (run_heads place.now.spec ps) ≡ rows_from (scene_of view.now) base parts.old (run_heads before (place.now ∷ ps))) }
{
    if same_spec(before, place.spec) {
        return Ok(());
    }
    parts.extend_from_slice(&[part_of(view, place)])
}

/// The turns of the parts of a row in a line of this base.
pub fn order_of_parts(alloc: Global, view: &View, base: u8, parts: &[Part]) -> Result<Order, Memory>
    requires { base ≤ 1 }
    ensures turns { IfOk result (λ order. order.turns ≡ turns_of (scene_of view.now).brackets (scene_of view.now).parts.settings.reorder base (map part_class parts.now) (map part_code parts.now)) }
    ensures places { IfOk result (λ order. order.places ≡ length parts.now) }
{
    if parts.len() > u32::MAX as usize {
        return Err(Memory);
    }
    order_of(
        alloc,
        view,
        base,
        parts,
        |part| part.class,
        |part| part.kind.bracket_code(),
    )
}
