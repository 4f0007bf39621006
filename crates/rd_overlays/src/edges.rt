//! The nearest start or end of an overlay from a position.
ghost use Rattle.std.specs.Prelude.{◌≡◌, ◌≤◌, length};
ghost use Rattle.rd_overlays.specs.Overlays.{slot_edge, nearest_edge};
ghost use Rattle.rd_overlays.specs.Bounds.{IsIndex, whole_order};
ghost use Rattle.rd_overlays.specs.Listings.{edge_in};

use crate::index::Index;
use crate::overlay::{Overlay, overlay_at};
use crate::store::Store;
use crate::way::{Way, nearer, reached};
use rd_base::Pos;
use rd_base::limits::OVERLAYS;

/// The nearest edge of one overlay.
fn slot_edge(way: Way, pos: Pos, slot: Option<Overlay>) -> Option<Pos>
    ensures { result ≡ slot_edge way pos slot }
{
    let overlay = slot?;
    nearer(
        way,
        reached(way, pos, overlay.from),
        reached(way, pos, overlay.to),
    )
}

/// The nearest edge of all overlays, along the order in which an index comes to them.
fn nearest_edge_by(slots: &[Option<Overlay>], index: &Index, way: Way, pos: Pos) -> Option<Pos>
    requires size { length slots.now ≤ OVERLAYS }
    requires index { IsIndex slots.now index.now.order index.now.bounds }
    ensures { result ≡ edge_in way pos slots.now (whole_order index.now.order (length slots.now)) }
{
    let mut nearest = None;
    let mut place = 0;
    while place < slots.len() {
        let next = index.skip_edges(place, way, pos, nearest);
        if place < next {
            place = next;
        } else {
            let number = index.number_at(place);
            nearest = nearer(way, nearest, slot_edge(way, pos, overlay_at(slots, number)));
            place += 1;
        }
    }
    nearest
}

/// The nearest edge of all overlays.
pub(crate) fn nearest_edge(store: &Store, way: Way, pos: Pos) -> Option<Pos>
    requires { length store.now ≤ OVERLAYS }
    ensures { result ≡ nearest_edge way pos store.now }
{
    nearest_edge_by(store.as_slice(), store.index(), way, pos)
}
