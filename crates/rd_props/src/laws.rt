//! Laws of the definitions, for the layers above.
ghost use Rattle.std.specs.Prelude.{◌≡◌, ◌<◌, ◌≤◌, ◌*◌, ◌+◌, ℕ, length, None, Some};
ghost use Rattle.rd_base.specs.Cells.{HasColours};
ghost use Rattle.rd_overlays.specs.declared.overlay.Overlay.{Overlay};
ghost use Rattle.rd_overlays.specs.declared.overlay.Kind.{Kind};
ghost use Rattle.rd_overlays.specs.Values.{Gives, IsGreatest};
ghost use Rattle.rd_props.specs.Buffers.{BufferValue, property};
ghost use Rattle.rd_props.specs.Values.{overlay_value, effective};
ghost use Rattle.rd_props.specs.Faces.{face_at};
ghost use Rattle.rd_props.specs.Shown.{hidden};
ghost use Rattle.rd_objects.specs.Sound.{AreObjects};
ghost use Rattle.rd_objects.specs.Things.{ObjectLists};
ghost use Rattle.rd_props.specs.Strings.{strings_within};
ghost use Rattle.rd_props.specs.Appearance.{hidden_by};
ghost use Rattle.rd_props.specs.Seen.{seen_at};
ghost use Rattle.rd_props.specs.Stops.{IsNextStop, IsLastStop, LookAlike};

use rd_overlays::last_values_are_the_greatest_overlays;

/// The effective value before the end of the accessible text is that of the overlay which covers the position, has a value of
/// the kind, and which no other such overlay has a greater priority than, nor the same with a greater number; where no overlay
/// covers the position with a value, it is that of the text property. At the end there is none. The call does nothing.
pub fn effective_values_are_the_greatest_overlays()
    ensures overlay { (s : BufferValue) (pos number value : ℕ) (kind : Kind) (overlay : Overlay) → pos < s.text.end → IsGreatest (overlay_value s.overlays kind) s.overlays pos number overlay value → effective s pos kind ≡ Some value }
    ensures text { (s : BufferValue) (pos : ℕ) (kind : Kind) → pos < s.text.end → ((number value : ℕ) (overlay : Overlay) → Gives (overlay_value s.overlays kind) s.overlays pos number overlay value → ⊥) → effective s pos kind ≡ property s kind pos }
    ensures end { (s : BufferValue) (kind : Kind) → effective s s.text.end kind ≡ None }
{
    last_values_are_the_greatest_overlays();
}

/// Whether a position is hidden depends on what is seen there and on the buffer's setting alone. The call does nothing.
pub fn what_is_seen_says_what_is_hidden()
    ensures { (s : BufferValue) (objects : ObjectLists) (pos : ℕ) → hidden s pos ≡ hidden_by s.settings.invisible (seen_at s objects pos).appearance }
{}

/// The colours of each position's face are in their range where those of all faces that were made are. The call does nothing.
pub fn merged_faces_have_their_colours()
    ensures { (s : BufferValue) (objects : ObjectLists) (pos : ℕ) → AreObjects objects → HasColours (face_at s objects pos) }
{}

/// However many positions are looked at, at most two strings of each overlay that was made stand at them. The call does nothing.
pub fn overlays_have_two_strings()
    ensures { (s : BufferValue) (pos n : ℕ) → strings_within s pos n ≤ 2 * length s.overlays }
{}

/// Between a position and the next stop behind it no value changes, nor the face, and no string of an overlay stands there. The call
/// does nothing.
pub fn nothing_changes_before_the_next_stop()
    ensures { (s : BufferValue) (objects : ObjectLists) (pos stop : ℕ) → IsNextStop s pos stop → LookAlike s objects pos stop }
{}

/// From the last stop up to a position before the end no value changes, nor the face, and no string of an overlay stands there but at
/// the stop. The call does nothing.
pub fn nothing_changes_behind_the_last_stop()
    ensures { (s : BufferValue) (objects : ObjectLists) (pos stop : ℕ) → pos < s.text.end → IsLastStop s pos stop → LookAlike s objects stop (pos + 1) }
{}
