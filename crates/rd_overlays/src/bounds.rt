//! Bounds of the edges of some overlays.
ghost use Rattle.std.specs.Prelude.{◌≡◌, Option, ◌≤◌, IsTrue};
ghost use Rattle.rd_overlays.specs.declared.overlay.Overlay.{Overlay};
ghost use Rattle.rd_overlays.specs.Overlays.{nearer, slot_edge};
ghost use Rattle.rd_overlays.specs.Bounds.{SlotHolds, bounds_grown, bounds_shrunk};

use crate::overlay::{Overlay, after_deletion};
use crate::way::{Way, closer, is_on};
use rd_base::Pos;

/// The least and the greatest place where a start or an end of some overlays can stand.
#[derive(Clone, Copy, Debug, PartialEq, Eq)]
pub(crate) struct Bounds {
    pub(crate) low: u32,
    pub(crate) high: u32,
}

/// The bounds with one more overlay.
pub(crate) fn widened(bounds: Bounds, slot: Option<Overlay>) -> Bounds
    ensures new { SlotHolds result slot }
    ensures kept { (other : Option Overlay) → SlotHolds bounds other → SlotHolds result other }
{
    match slot {
        None => bounds,
        Some(overlay) => Bounds {
            low: bounds.low.min(overlay.from.min(overlay.to)),
            high: bounds.high.max(overlay.from.max(overlay.to)),
        },
    }
}

/// The bounds after `n` characters were inserted at `pos`.
pub(crate) fn bounds_grown(pos: Pos, n: u32, bounds: Bounds) -> Bounds
    ensures { result ≡ bounds_grown pos n bounds }
{
    let low = if pos < bounds.low {
        bounds.low.saturating_add(n)
    } else {
        bounds.low
    };
    let high = if bounds.high < pos {
        bounds.high
    } else {
        bounds.high.saturating_add(n)
    };
    Bounds { low, high }
}

/// The bounds after the text from `from` to `to - 1` was deleted.
pub(crate) fn bounds_shrunk(from: Pos, to: Pos, bounds: Bounds) -> Bounds
    requires { from ≤ to }
    ensures { result ≡ bounds_shrunk from to bounds }
{
    Bounds {
        low: after_deletion(from, to, bounds.low),
        high: after_deletion(from, to, bounds.high),
    }
}

/// Whether a search for the nearest edge on the way from a position can pass over the overlays within the bounds: none of them has
/// an edge there that is nearer than `nearest`, the one that the search has found so far.
pub(crate) fn has_no_nearer_edge(bounds: Bounds, way: Way, pos: Pos, nearest: Option<Pos>) -> bool
    ensures { IsTrue result → (slot : Option Overlay) → SlotHolds bounds slot → nearer way nearest (slot_edge way pos slot) ≡ nearest }
{
    let (near, far) = match way {
        Way::Next => (bounds.low, bounds.high),
        Way::Last => (bounds.high, bounds.low),
    };
    if !is_on(way, pos, far) {
        return true;
    }
    match nearest {
        None => false,
        Some(edge) => closer(way, edge, near) == edge,
    }
}
