//! What the text at a position looks like.
ghost use Rattle.std.specs.Prelude.{◌≡◌, IfOk};
ghost use Rattle.rd_text.specs.Texts.{IsAccessible};
ghost use Rattle.rd_props.specs.Buffers.{meaning};
ghost use Rattle.rd_props.specs.Appearance.{appearance_at};

use crate::faces::face_under;
use crate::hiding::{Hidden, hiding_of_value};
use crate::state::View;
use crate::values::value_under;
use rd_base::{Face, Invisible, Memory, Pos};
use rd_overlays::Kind;
use std::alloc::Global;

/// The effective values of a position, which are the numbers of its display spec, of its atom of invisible text and of the strings
/// of its prefixes, and its merged face.
#[derive(Clone, Copy, Debug, PartialEq, Eq)]
pub struct Appearance {
    pub display: Option<u32>,
    pub invisible: Option<u32>,
    pub line_prefix: Option<u32>,
    pub wrap_prefix: Option<u32>,
    pub face: Face,
}

impl Appearance {
    ghost use Rattle.std.specs.Prelude.{◌≡◌};
    ghost use Rattle.rd_props.specs.Appearance.{nothing_seen, hidden_by};

    /// What is looked up at the end of the accessible text: no value, and the plain face.
    pub fn nothing() -> Appearance
        ensures { result ≡ nothing_seen }
    {
        Appearance {
            display: None,
            invisible: None,
            line_prefix: None,
            wrap_prefix: None,
            face: Face::PLAIN,
        }
    }

    /// Whether a position that looks like this is hidden by a buffer's setting, and how: not where it has a display spec, and else
    /// as its atom hides. It costs a pass over the pairs of the setting up to the first with the atom.
    pub fn hidden(&self, setting: &Invisible) -> Hidden
        ensures { result ≡ hidden_by setting.now self.now }
    {
        if self.display.is_some() {
            return Hidden::No;
        }
        hiding_of_value(setting, self.invisible)
    }
}

/// The effective values and the merged face of an accessible position, or of the end of the accessible text, as `effective` and
/// `face_at` answer them one by one. Up to the next stop no position looks otherwise. It costs one listing of the overlays that cover the
/// position, a pass over them for each of the five, and one look-up of each property.
pub fn appearance_at(alloc: Global, view: &View, pos: Pos) -> Result<Appearance, Memory>
    requires { IsAccessible view.now.state.now.text pos }
    ensures { IfOk result (λ appearance. appearance ≡ appearance_at (meaning view.now.state.now) view.now.objects.now pos) }
{
    let state = view.state;
    if state.text.end() <= pos {
        return Ok(Appearance::nothing());
    }
    let covering = state.overlays.covering(pos)?;
    let numbers = covering.as_slice();
    Ok(Appearance {
        display: value_under(state, numbers, Kind::Display, pos),
        invisible: value_under(state, numbers, Kind::Invisible, pos),
        line_prefix: value_under(state, numbers, Kind::LinePrefix, pos),
        wrap_prefix: value_under(state, numbers, Kind::WrapPrefix, pos),
        face: face_under(view, numbers, pos),
    })
}
