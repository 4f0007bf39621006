//! The merged face of a position.
ghost use Rattle.std.specs.Prelude.{◌≡◌, IfOk};
ghost use Rattle.rd_text.specs.Texts.{IsAccessible};
ghost use Rattle.rd_overlays.specs.declared.overlay.Kind.TheVariants as kind;
ghost use Rattle.rd_props.specs.Buffers.{meaning, property};
ghost use Rattle.rd_props.specs.Faces.{face_of, laid_over, face_at};

use crate::appearance::appearance_at;
use crate::state::View;
use crate::values::{property, value_of};
use rd_base::{Face, Memory, Pos};
use rd_objects::Objects;
use rd_overlays::{Kind, Overlays};
use std::alloc::Global;

/// The face of a number.
fn face_of(objects: &Objects, number: Option<u32>) -> Face
    ensures { result ≡ face_of objects.now number }
{
    match number {
        None => Face::PLAIN,
        Some(number) => objects.face(number).unwrap_or(Face::PLAIN),
    }
}

/// A face with the faces of these overlays laid over it.
fn laid_over(objects: &Objects, overlays: &Overlays, numbers: &[u32], under: Face) -> Face
    ensures { result ≡ laid_over objects.now overlays.now numbers.now under }
{
    let mut face = under;
    for number in numbers {
        let value = value_of(overlays, Kind::Face, *number);
        face = face_of(objects, value).over(face);
    }
    face
}

/// The face of a position that these overlays cover.
pub(crate) fn face_under(view: &View, covering: &[u32], pos: Pos) -> Face
    ensures { result ≡ laid_over view.now.objects.now view.now.state.now.overlays covering.now (face_of view.now.objects.now (property (meaning view.now.state.now) kind.Face pos)) }
{
    let state = view.state;
    let under = face_of(view.objects, property(state, Kind::Face, pos));
    laid_over(view.objects, &state.overlays, covering, under)
}

/// The face of an accessible position, or of the end of the accessible text, which is plain: the face of the text property with
/// the faces of the covering overlays laid over it in increasing order of priority and number. It costs one listing of the overlays
/// that cover the position, a pass over them for each of five values, and one look-up of each property.
pub fn face_at(alloc: Global, view: &View, pos: Pos) -> Result<Face, Memory>
    requires { IsAccessible view.now.state.now.text pos }
    ensures { IfOk result (λ face. face ≡ face_at (meaning view.now.state.now) view.now.objects.now pos) }
{
    Ok(appearance_at(alloc, view, pos)?.face)
}
