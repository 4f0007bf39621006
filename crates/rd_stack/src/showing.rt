//! The steps of what an item or a part of a string shows.
ghost use Rattle.std.specs.Prelude.{◌≡◌, ◌≤◌, if◌then◌else◌, ◌∷◌, [], option_to_list, IfOk, OnOk};
ghost use Rattle.rd_items.specs.Pieces.{scene_of};
ghost use Rattle.rd_glyphs.specs.Characters.{elements_of, glyph_elements};
ghost use Rattle.rd_stack.specs.Shown.{ellipsis_glyphs, space_elements, put_text};
ghost use Rattle.rd_stack.specs.Steps.{kind_steps};
ghost use Rattle.rd_stack.specs.Walks.{IsStep};

use crate::entrance::Entrance;
use crate::few::Few;
use crate::part::Shown;
use crate::step::Step;
use crate::string::Surroundings;
use rd_base::{Ch, Element, Extent, Face, Glyph, Look, Memory, Origin};
use rd_glyphs::{Expansion, element_of};
use rd_items::{ItemKind, parts_of};
use rd_objects::Spec;
use rd_props::View;
use std::alloc::Global;

/// The step of what an item or a part of a string shows, by the look of an ender. A string is entered, in these surroundings, where
/// strings are; else it gives nothing.
pub fn kind_step<'a>(
    alloc: Global,
    around: &Surroundings<'a>,
    enters: bool,
    end: Look,
    part: &Shown,
    few: &mut Few,
) -> Result<Step<'a>, Memory>
    requires base { around.now.base ≤ 1 }
    requires few { few.old ≡ [] }
    ensures { IfOk result (λ step. IsStep step few.new (kind_steps end (λ text. if enters then put_text kind_steps (scene_of around.now.view) around.now.base around.now.replaced around.now.origin around.now.under text else []) (scene_of around.now.view) part.now.kind part.now.odd part.now.face around.now.origin) []) }
{
    let view = &around.view;
    let origin = around.origin;
    let face = part.face;
    match part.kind {
        ItemKind::Text(number) if enters => Ok(Step::Enters(Entrance {
            around: Surroundings { ..*around },
            number,
        })),
        ItemKind::Text(_) => Ok(Step::Lists),
        ItemKind::Char(ch) => char_step(alloc, view, ch, part.odd, face, origin, few),
        ItemKind::Marked(glyph) => Ok(Step::Gives(element_of(Look::Glyph(glyph), face, origin))),
        ItemKind::Space(spec) => Ok(space_step(spec, face, origin)),
        ItemKind::Ellipsis => {
            put_ellipsis(alloc, view, face, origin, few)?;
            Ok(Step::Lists)
        }
        ItemKind::Ender => Ok(Step::Gives(element_of(end, face, origin))),
    }
}

/// The step of a character, at an odd level or not.
fn char_step<'a>(
    alloc: Global,
    view: &View<'a>,
    ch: Ch,
    odd: bool,
    face: Face,
    origin: Origin,
    few: &mut Few,
) -> Result<Step<'a>, Memory>
    requires { few.old ≡ [] }
    ensures { IfOk result (λ step. IsStep step few.new (elements_of (scene_of view.now).parts ch odd face origin ∷ []) []) }
{
    match parts_of(view).expansion(alloc, ch, odd, face, origin)? {
        Expansion::One(element) => Ok(Step::Gives(element)),
        Expansion::Several(elements) => {
            few.put(elements);
            Ok(Step::Lists)
        }
    }
}

/// The step of the space of a spec.
fn space_step<'a>(spec: Spec, face: Face, origin: Origin) -> Step<'a>
    ensures { IsStep result [] (space_elements spec face origin ∷ []) [] }
{
    match space_element(spec, face, origin) {
        Some(element) => Step::Gives(element),
        None => Step::Lists,
    }
}

/// The space of a spec; a spec of a string has none.
fn space_element(spec: Spec, face: Face, origin: Origin) -> Option<Element>
    ensures { option_to_list result ≡ space_elements spec face origin }
{
    let extent = match spec {
        Spec::Text(_) => return None,
        Spec::Width(columns) => Extent::Fixed(columns),
        Spec::Align(column) => Extent::Column(column),
    };
    Some(Element {
        extent,
        look: Look::Blank,
        face,
        origin,
    })
}

/// Lists the glyphs of an ellipsis: those of the table, and three dots where it has none.
fn put_ellipsis(
    alloc: Global,
    view: &View,
    face: Face,
    origin: Origin,
    few: &mut Few,
) -> Result<(), Memory>
    ensures { OnOk result (few.new ≡ glyph_elements face origin (ellipsis_glyphs (scene_of view.now).parts.table)) }
{
    let parts = parts_of(view);
    if let Some(table) = parts.table {
        if let Some(text) = table.ellipsis() {
            return few.put_glyphs(alloc, text, face, origin);
        }
    }
    few.put_glyphs(alloc, &[Glyph::single('.' as u32, 1); 3], face, origin)
}
