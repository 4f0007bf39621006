//! The elements of a prefix.
ghost use Rattle.std.specs.Prelude.{◌≡◌, ◌≤◌, [], IfOk, OnOk};
ghost use Rattle.rd_items.specs.Pieces.{scene_of};
ghost use Rattle.rd_stack.specs.Shown.{prefix, is_row_end, before_row_end, AreInside, AreOfOneRow};
ghost use Rattle.rd_stack.specs.Walks.{walk_left};

use crate::entrance::Entrance;
use crate::keeping::view_stays_sound;
use crate::laws::prefixes_are_sound;
use crate::step::Frame;
use crate::string::Surroundings;
use crate::walker::Walker;
use rd_base::{Element, Face, ListOf, Look, Memory, Origin};
use rd_props::View;
use std::alloc::Global;

/// The elements of a prefix, before they are cut to fit: those of the display string of a number, over the plain face in a line of
/// this base, up to its first newline. A number that names no string stands for the empty one. Each is sound, none ends a row or the
/// line, and its glyphs have the columns that Unicode gives them.
pub fn string_line(
    alloc: Global,
    view: &View,
    string: u32,
    base: u8,
) -> Result<ListOf<Element>, Memory>
    requires { base ≤ 1 }
    ensures value { IfOk result (λ elements. elements ≡ prefix (scene_of view.now) base string) }
    ensures inside { IfOk result (λ elements. AreInside elements) }
    ensures row { IfOk result (λ elements. AreOfOneRow elements) }
{
    prefixes_are_sound();
    view_stays_sound(view);
    let outside = Origin {
        item: u32::MAX,
        from: 0,
        to: 0,
    };
    let entrance = Entrance {
        around: Surroundings {
            view: *view,
            base,
            replaced: false,
            origin: outside,
            under: Face::PLAIN,
        },
        number: string,
    };
    let mut elements = ListOf::new(alloc);
    let found = entrance.open(alloc)?;
    let Some(frame) = found else {
        return Ok(elements);
    };
    let mut walker = Walker::from_frame(alloc, Frame::Text(frame))?;
    put_row(alloc, &mut walker, &mut elements)?;
    Ok(elements)
}

/// Adds the elements before the first end of a row.
fn put_row(alloc: Global, walker: &mut Walker, elements: &mut ListOf<Element>) -> Result<(), Memory>
    requires { elements.old ≡ [] }
    ensures { OnOk result (elements.new ≡ before_row_end (walk_left walker.old.few walker.old.frames.items)) }
{
    while let Some(element) = walker.give(alloc)? {
        if is_row_end(element.look) {
            return Ok(());
        }
        elements.push(element)?;
    }
    Ok(())
}

/// Whether a look is the end of a row.
fn is_row_end(look: Look) -> bool
    ensures { result ≡ is_row_end look }
{
    matches!(look, Look::RowEnd)
}
