//! The numbers of some overlays, in increasing order of priority and number.
ghost use Rattle.std.specs.Prelude.{◌≡◌, ◌≤◌, ◌++◌, length, map, OnOk, IfOk};
ghost use Rattle.rd_overlays.specs.Overlays.{meets, ranked_from, number_of_rank};
ghost use Rattle.rd_overlays.specs.Listings.{rank_at, found_in};
ghost use Rattle.rd_overlays.specs.Bounds.{IsIndex, whole_order};

use crate::index::Index;
use crate::overlay::{Meeting, Overlay, meets, overlay_at};
use crate::store::Store;
use rd_base::limits::OVERLAYS;
use rd_base::{ListOf, Memory, Pos, mapped};
use std::alloc::Global;

/// An overlay's number, with the priority that decides first.
#[derive(Clone, Copy, Debug, PartialEq, Eq, PartialOrd, Ord)]
pub(crate) struct Rank {
    pub(crate) priority: i32,
    pub(crate) number: u32,
}

/// Adds an overlay where it meets a position as `meeting` says.
fn take_in(
    ranks: &mut Vec<Rank>,
    slot: Option<Overlay>,
    number: u32,
    meeting: Meeting,
    pos: Pos,
) -> Result<(), Memory>
    ensures { OnOk result (ranks.new.items ≡ ranks.old.items ++ rank_at (meets meeting pos) number slot) }
{
    if let Some(overlay) = slot {
        if meets(meeting, pos, overlay) {
            let priority = overlay.priority;
            ranks.push(Rank { priority, number })?;
        }
    }
    Ok(())
}

/// The overlays that meet a position as `meeting` says, against the order in which the index comes to them.
fn found(
    alloc: Global,
    slots: &[Option<Overlay>],
    index: &Index,
    meeting: Meeting,
    pos: Pos,
) -> Result<Vec<Rank>, Memory>
    requires size { length slots.now ≤ OVERLAYS }
    requires index { IsIndex slots.now index.now.order index.now.bounds }
    ensures { IfOk result (λ ranks. ranks.items ≡ found_in (meets meeting pos) slots.now (whole_order index.now.order (length slots.now))) }
{
    let mut ranks = Vec::new(alloc);
    let mut place = slots.len();
    while 0 < place {
        let next = index.skip_to(place, pos);
        if next < place {
            place = next;
        } else {
            place -= 1;
            let number = index.number_at(place);
            take_in(&mut ranks, overlay_at(slots, number), number, meeting, pos)?;
        }
    }
    Ok(ranks)
}

/// The numbers alone.
fn numbers(alloc: Global, ranks: &[Rank]) -> Result<ListOf<u32>, Memory>
    ensures { IfOk result (λ list. list ≡ map number_of_rank ranks.now) }
{
    mapped(alloc, ranks, |rank| rank.number)
}

/// The numbers of the overlays that meet a position as `meeting` says, in increasing order of priority and number.
pub(crate) fn listed(
    alloc: Global,
    store: &Store,
    meeting: Meeting,
    pos: Pos,
) -> Result<ListOf<u32>, Memory>
    requires { length store.now ≤ OVERLAYS }
    ensures { IfOk result (λ list. list ≡ map number_of_rank (ranked_from (meets meeting pos) 0 store.now)) }
{
    let mut ranks = found(alloc, store.as_slice(), store.index(), meeting, pos)?;
    ranks.sort()?;
    numbers(alloc, ranks.as_slice())
}
