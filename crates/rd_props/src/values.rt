//! The effective value of a property.
ghost use Rattle.std.specs.Prelude.{◌≡◌, ◌<◌, IfOk, IsTrue};
ghost use Rattle.std.specs.Option.{option_or};
ghost use Rattle.rd_text.specs.Texts.{IsAccessible};
ghost use Rattle.rd_overlays.specs.Overlays.{place_of};
ghost use Rattle.rd_overlays.specs.Values.{last_given};
ghost use Rattle.rd_props.specs.Buffers.{meaning, property};
ghost use Rattle.rd_props.specs.Values.{overlay_value, effective, is_single};

use crate::state::{BufferState, View};
use rd_base::{Memory, Pos};
use rd_overlays::{Kind, Overlays, last_given};
use std::alloc::Global;

/// The value of a text property at a position.
pub(crate) fn property(state: &BufferState, kind: Kind, pos: Pos) -> Option<u32>
    requires { place_of kind < 5 }
    ensures { result ≡ property (meaning state.now) kind pos }
{
    state.spans[kind as usize].at(pos)
}

/// The value of a kind that the overlay of a number has.
pub(crate) fn value_of(overlays: &Overlays, kind: Kind, number: u32) -> Option<u32>
    ensures { result ≡ overlay_value overlays.now kind number }
{
    overlays.get(number)?.values[kind as usize]
}

/// The value of a kind at a position that these overlays cover: that of the last of them which has one, else that of the text
/// property.
pub(crate) fn value_under(
    state: &BufferState,
    covering: &[u32],
    kind: Kind,
    pos: Pos,
) -> Option<u32>
    requires { place_of kind < 5 }
    ensures { result ≡ option_or (last_given (overlay_value state.now.overlays kind) covering.now) (property (meaning state.now) kind pos) }
{
    match last_given(covering, |number| value_of(&state.overlays, kind, number)) {
        Some(value) => Some(value),
        None => property(state, kind, pos),
    }
}

/// The effective value of a kind at an accessible position, or at the end of the accessible text, where no kind has one: that of
/// the covering overlay which has one and whose priority is greatest, of equal priorities the one with the greater number, and
/// else that of the text property. It is asked of display, invisible, line_prefix and wrap_prefix alone, since the face of a
/// position is merged of all faces there (`face_at`), and the strings of overlays all stand (`strings_at`). It costs the listing
/// of the overlays that cover the position, and one look-up of the property.
pub fn effective(alloc: Global, view: &View, pos: Pos, kind: Kind) -> Result<Option<u32>, Memory>
    requires place { IsAccessible view.now.state.now.text pos }
    requires kind { IsTrue (is_single kind) }
    ensures value { IfOk result (λ value. value ≡ effective (meaning view.now.state.now) pos kind) }
{
    let state = view.state;
    if state.text.end() <= pos {
        return Ok(None);
    }
    let covering = state.overlays.covering(pos)?;
    Ok(value_under(state, covering.as_slice(), kind, pos))
}
