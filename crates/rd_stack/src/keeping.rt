//! What holds of all that is looked at, since its parts always keep it.
ghost use Rattle.rd_text.specs.Texts.{IsAccessible};
ghost use Rattle.rd_objects.specs.Sound.{AreObjects};
ghost use Rattle.rd_glyphs.specs.Characters.{AreSoundParts};
ghost use Rattle.rd_props.specs.Buffers.{meaning};
ghost use Rattle.rd_items.specs.Pieces.{scene_of};
ghost use Rattle.rd_items.specs.Readings.{HaveCodes, reading};
ghost use Rattle.rd_stack.specs.Limits.{AreFew};

use crate::laws::{readings_are_few, readings_have_codes};
use rd_base::Pos;
use rd_items::parts_of;
use rd_props::View;

/// The objects are sound, and so is what the elements of characters depend on. The call does nothing.
pub fn view_stays_sound(view: &View)
    ensures objects { AreObjects (scene_of view.now).objects }
    ensures parts { AreSoundParts (scene_of view.now).parts }
{
    view.objects.objects_are_right();
    parts_of(view).parts_are_sound();
}

/// Each character that is read from a position on has a code, and no more is read than a text and its overlays have. The call does
/// nothing.
pub fn reading_stays_sound(view: &View, start: Pos)
    requires { IsAccessible view.now.state.now.text start }
    ensures codes { HaveCodes (reading (meaning view.now.state.now) view.now.objects.now start) }
    ensures few { AreFew (reading (meaning view.now.state.now) view.now.objects.now start) }
{
    readings_have_codes();
    readings_are_few();
    let state = view.state;
    state.text.buffers_are_valid();
    state.overlays.overlays_are_few();
}
