//! Marks join the parts of a string.
ghost use Rattle.std.specs.Prelude.{◌≡◌, ◌∷◌, ◌++◌, List, IfOk, Some};
ghost use Rattle.rd_glyphs.specs.Marks.{marked, marks_joined, with_held};
ghost use Rattle.rd_stack.specs.Strings.{part_joins};
ghost use Rattle.rd_stack.specs.declared.part.Part.{Part};

use crate::part::Part;
use rd_base::{ListOf, Memory};
use rd_glyphs::{MarkRole, marked_glyph};
use rd_items::ItemKind;
use std::alloc::Global;

/// Parts in which each mark has joined the part directly before it, where it may.
pub fn join_marks(alloc: Global, parts: &[Part]) -> Result<ListOf<Part>, Memory>
    ensures { IfOk result (λ made. made ≡ marks_joined part_joins parts.now) }
{
    let mut made = ListOf::new(alloc);
    let mut held = None;
    for part in parts {
        held = Some(hold(&mut made, held, part)?);
    }
    if let Some(last) = held {
        made.push(last)?;
    }
    Ok(made)
}

/// The part to be held for its marks behind another: the next one, or the held one with the next as its mark.
fn hold(made: &mut ListOf<Part>, held: Option<Part>, next: &Part) -> Result<Part, Memory>
    ensures { IfOk result (λ x. (xs : List Part) → made.new ++ with_held part_joins (Some x) xs ≡ made.old ++ with_held part_joins held (next.now ∷ xs)) }
{
    if let Some(before) = held {
        if let Some(longer) = marked(&before, next) {
            return Ok(longer);
        }
        made.push(before)?;
    }
    Ok(*next)
}

/// A part with the mark of the next, where it joins it.
fn marked(held: &Part, next: &Part) -> Option<Part>
    ensures { result ≡ marked part_joins held.now next.now }
{
    let glyph = marked_glyph(held.role.base(), next.role.mark())?;
    Some(Part {
        kind: ItemKind::Marked(glyph),
        role: MarkRole::Base(glyph),
        class: held.class,
        face: held.face,
    })
}
