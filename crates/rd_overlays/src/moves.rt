//! All overlays, and all bounds, as they move with the text.
ghost use Rattle.std.specs.Prelude.{◌≡◌, Some};
ghost use Rattle.rd_overlays.specs.Moves.{overlay_moved, slot_moved, bounds_moved, IsEdit, SlotFollows};

use crate::bounds::{Bounds, bounds_grown, bounds_shrunk};
use crate::overlay::{Overlay, grown, shrunk};
use rd_base::Pos;

/// An edit of the text.
#[derive(Clone, Copy)]
pub(crate) enum Edit {
    /// `n` characters were inserted at `pos`.
    Insertion { pos: Pos, n: u32 },
    /// The text from `from` to `to - 1` was deleted.
    Deletion { from: Pos, to: Pos },
}

/// An overlay after an edit.
fn overlay_moved(edit: Edit, overlay: Overlay) -> Overlay
    requires edit { IsEdit edit }
    requires follows { SlotFollows edit (Some overlay) }
    ensures { result ≡ overlay_moved edit overlay }
{
    match edit {
        Edit::Insertion { pos, n } => grown(pos, n, overlay),
        Edit::Deletion { from, to } => shrunk(from, to, overlay),
    }
}

/// What stands at a number after an edit.
pub(crate) fn slot_moved(edit: Edit, slot: Option<Overlay>) -> Option<Overlay>
    requires edit { IsEdit edit }
    requires follows { SlotFollows edit slot }
    ensures { result ≡ slot_moved edit slot }
{
    Some(overlay_moved(edit, slot?))
}

/// Bounds after an edit.
pub(crate) fn bounds_moved(edit: Edit, bounds: Bounds) -> Bounds
    requires { IsEdit edit }
    ensures { result ≡ bounds_moved edit bounds }
{
    match edit {
        Edit::Insertion { pos, n } => bounds_grown(pos, n, bounds),
        Edit::Deletion { from, to } => bounds_shrunk(from, to, bounds),
    }
}
