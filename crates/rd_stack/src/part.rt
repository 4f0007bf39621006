//! What strings are made of.
ghost use Rattle.std.specs.Prelude.{◌≡◌, ◌<◌, length};
ghost use Rattle.rd_items.specs.Pieces.{scene_of};
ghost use Rattle.rd_stack.specs.Strings.{place_of, ends_row, spec_class, spec_kind, part_of};

use rd_base::{Ch, Class, Face};
use rd_glyphs::MarkRole;
use rd_items::{ItemKind, class_in_line, is_newline, parts_of, spec_in};
use rd_objects::{Spec, Text};
use rd_props::View;

/// A place of a string: its character, its face, and the number of the display spec that replaces it.
#[derive(Clone, Copy, Debug, PartialEq, Eq)]
pub struct Place {
    pub ch: Ch,
    pub face: Face,
    pub spec: Option<u32>,
}

/// A part of a row of a string, before the row is put in order. It shows a character, with the marks that joined it, or what a display
/// spec puts for the places of its run.
#[derive(Clone, Copy, Debug, PartialEq, Eq)]
pub struct Part {
    pub class: Class,
    pub kind: ItemKind,
    pub face: Face,
    /// How the part stands towards the marks behind it.
    pub role: MarkRole,
}

/// An item of a block or a part of a string in its turn, at an odd embedding level or not. In a string an ender ends a row.
#[derive(Clone, Copy, Debug, PartialEq, Eq)]
pub struct Shown {
    pub kind: ItemKind,
    pub face: Face,
    pub odd: bool,
}

/// A place of a string that stands over a face. Where the string's display runs aren't used, no spec replaces it.
pub fn place_of(replaced: bool, text: &Text, under: Face, i: u32) -> Place
    requires { i < length text.now.chars }
    ensures { result ≡ place_of replaced text.now under i }
{
    Place {
        ch: text.ch(i),
        face: text.face(i).over(under),
        spec: if replaced { text.spec(i) } else { None },
    }
}

/// Whether a place has a newline that no spec replaces.
pub fn ends_row(place: &Place) -> bool
    ensures { result ≡ ends_row place.now }
{
    place.spec.is_none() && is_newline(place.ch)
}

/// The class of what a spec puts.
fn spec_class(spec: Spec) -> Class
    ensures { result ≡ spec_class spec }
{
    match spec {
        Spec::Text(_) => Class::ON,
        Spec::Width(_) | Spec::Align(_) => Class::S,
    }
}

/// What a spec puts: its string, or its space.
fn spec_kind(spec: Spec) -> ItemKind
    ensures { result ≡ spec_kind spec }
{
    match spec {
        Spec::Text(number) => ItemKind::Text(number),
        Spec::Width(_) | Spec::Align(_) => ItemKind::Space(spec),
    }
}

/// The part of a place.
pub fn part_of(view: &View, place: &Place) -> Part
    ensures { result ≡ part_of (scene_of view.now) place.now }
{
    if let Some(number) = place.spec {
        let spec = spec_in(view.objects, number);
        return Part {
            class: spec_class(spec),
            kind: spec_kind(spec),
            face: place.face,
            role: MarkRole::Alone,
        };
    }
    let parts = parts_of(view);
    Part {
        class: class_in_line(parts.classes.class(place.ch)),
        kind: ItemKind::Char(place.ch),
        face: place.face,
        role: parts.mark_role(place.ch),
    }
}
