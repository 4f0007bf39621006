//! The order in which a look-up comes to the overlays, with bounds by which it passes over many of them at once.
ghost use Rattle.std.specs.Prelude.{◌≡◌, ◌<◌, ◌≤◌, ◌*◌, ℕ, length, slice_get, slice_set, IfOk, OnOk, IsTrue, List, Option, Some};
ghost use Rattle.std.specs.List.{range_with_len};
ghost use Rattle.std.specs.List.Sorted.{IsPermutation};
ghost use Rattle.rd_overlays.specs.declared.overlay.Overlay.{Overlay};
ghost use Rattle.rd_overlays.specs.declared.bounds.Bounds.{Bounds};
ghost use Rattle.rd_overlays.specs.declared.index.TheConstants.{BATCH};
ghost use Rattle.rd_overlays.specs.Bounds.{SlotHolds, IsBounded, IsBoundedTo, IsIndex, IsWidened};

use crate::bounds::{Bounds, has_no_nearer_edge, widened};
use crate::overlay::{Overlay, overlay_at};
use crate::way::Way;
use rd_base::limits::{LAST_POSITION, OVERLAYS};
use rd_base::{ListOf, Memory, Pos};
use std::alloc::{AllocError, Global};

/// How many numbers that follow one another in the order have bounds together.
pub(crate) const BATCH: usize = 256;

/// The numbers of the overlays by the start that each had when they were put in order, without those made since; bounds of the
/// edges of each batch of them; and how many overlays were moved since.
#[derive(Drop)]
pub(crate) struct Index {
    pub(crate) order: ListOf<u32>,
    pub(crate) bounds: ListOf<Bounds>,
    moved: usize,
}

impl Index {
    ghost use Rattle.std.specs.Prelude.{◌≡◌, ℕ, ◌<◌, ◌≤◌, ◌*◌, [], List, Option, Some, length, slice_get};
    ghost use Rattle.rd_overlays.specs.declared.overlay.Overlay.{Overlay};
    ghost use Rattle.rd_overlays.specs.declared.index.TheConstants.{BATCH};
    ghost use Rattle.rd_overlays.specs.Overlays.{overlay_at, nearer, slot_edge};
    ghost use Rattle.rd_overlays.specs.Bounds.{IsAway, IsBounded, whole_order};

    /// The index of no overlay.
    pub(crate) fn new(alloc: Global) -> Index
        ensures order { result.order ≡ [] }
        ensures bounds { result.bounds ≡ [] }
    {
        Index {
            order: ListOf::new(alloc),
            bounds: ListOf::new(alloc),
            moved: 0,
        }
    }

    /// Whether so many of `size` overlays were made or moved since the index was made that it is worth making anew. Any answer is
    /// right; only what a look-up costs depends on it.
    pub(crate) fn is_stale(&self, size: usize) -> bool {
        let indexed = self.order.len();
        let made = size.saturating_sub(indexed);
        made > BATCH + indexed / 128 || self.moved > 16 + indexed / 1024
    }

    /// The number at a place. Those that were made since the others were put in order come last.
    pub(crate) fn number_at(&self, place: usize) -> u32
        requires { place < OVERLAYS }
        ensures { (size : ℕ) → place < size → slice_get (whole_order self.now.order size) place ≡ Some result }
    {
        if place < self.order.len() {
            self.order.at(place)
        } else {
            place as u32
        }
    }

    /// The place down to which a look-up at a position can go at once.
    pub(crate) fn skip_to(&self, place: usize, pos: Pos) -> usize
        requires { length self.now.order ≤ length self.now.bounds * BATCH }
        ensures bound { result ≤ place }
        ensures away { (slots : List (Option Overlay)) (k number : ℕ) → IsBounded slots self.now.order self.now.bounds → result ≤ k → k < place → slice_get (whole_order self.now.order (length slots)) k ≡ Some number → IsAway pos (overlay_at slots number) }
    {
        if place == 0 {
            return 0;
        }
        if self.order.len() < place {
            return place;
        }
        let batch = (place - 1) / BATCH;
        let bounds = self.bounds.at(batch);
        if pos < bounds.low || bounds.high < pos {
            return batch * BATCH;
        }
        place
    }

    /// The place up to which a search for the nearest edge on the way from a position can go at once, where `nearest` is the one
    /// that it has found so far: no overlay passed over has a nearer one.
    pub(crate) fn skip_edges(&self, place: usize, way: Way, pos: Pos, nearest: Option<Pos>) -> usize
        requires { length self.now.order ≤ length self.now.bounds * BATCH }
        ensures low { place ≤ result }
        ensures high { place < result → result ≤ length self.now.order }
        ensures idle { (slots : List (Option Overlay)) (k number : ℕ) → IsBounded slots self.now.order self.now.bounds → place ≤ k → k < result → slice_get (whole_order self.now.order (length slots)) k ≡ Some number → nearer way nearest (slot_edge way pos (overlay_at slots number)) ≡ nearest }
    {
        if self.order.len() <= place {
            return place;
        }
        let batch = place / BATCH;
        if has_no_nearer_edge(self.bounds.at(batch), way, pos, nearest) {
            return self.order.len().min((batch * BATCH).saturating_add(BATCH));
        }
        place
    }
}

/// The numbers below a count, in increasing order.
fn numbers_below(alloc: Global, count: usize) -> Result<Vec<u32>, AllocError>
    requires { count ≤ OVERLAYS }
    ensures { IfOk result (λ numbers. numbers.items ≡ range_with_len 0 count) }
{
    (0..count as u32).collect(alloc)
}

/// The start of the overlay of a number. A number whose overlay does not live comes last.
fn start_of(slots: &[Option<Overlay>], number: u32) -> Pos {
    match overlay_at(slots, number) {
        None => LAST_POSITION,
        Some(overlay) => overlay.from,
    }
}

/// Puts numbers in the order of the starts of their overlays.
fn sort_by_start(numbers: &mut Vec<u32>, slots: &[Option<Overlay>]) -> Result<(), Memory>
    ensures { IsPermutation numbers.old.items numbers.new.items }
{
    numbers.sort_by_cached_key(|number| start_of(slots, *number))?;
    Ok(())
}

/// Adds bounds where one more overlay than these has none.
fn make_room(bounds: &mut ListOf<Bounds>, size: usize) -> Result<(), Memory>
    requires { size ≤ length bounds.old * BATCH }
    ensures room { OnOk result (size < length bounds.new * BATCH) }
    ensures kept { (slots : List (Option Overlay)) (order : List ℕ) → IsBoundedTo size slots order bounds.old → IsBoundedTo size slots order bounds.new }
{
    if size / BATCH < bounds.len() {
        return Ok(());
    }
    bounds.push(Bounds {
        low: LAST_POSITION,
        high: 0,
    })?;
    Ok(())
}

/// Widens the bounds of a batch so that an overlay at a place lies within them.
fn widen(bounds: &mut ListOf<Bounds>, place: usize, slot: Option<Overlay>)
    requires { place < length bounds.old * BATCH }
    ensures { IsWidened bounds.old bounds.new place slot }
{
    let batch = place / BATCH;
    let each = widened(bounds.at(batch), slot);
    bounds.set(batch, each);
}

/// The bounds of the overlays of these numbers.
fn bounds_of(
    alloc: Global,
    order: &[u32],
    slots: &[Option<Overlay>],
) -> Result<ListOf<Bounds>, Memory>
    ensures { IfOk result (λ bounds. IsBounded slots.now order.now bounds) }
{
    let mut bounds = ListOf::new(alloc);
    let mut place = 0;
    while place < order.len() {
        make_room(&mut bounds, place)?;
        widen(&mut bounds, place, overlay_at(slots, order[place]));
        place += 1;
    }
    Ok(bounds)
}

/// The index of all these overlays. It costs their number times its logarithm.
pub(crate) fn indexed(alloc: Global, slots: &[Option<Overlay>]) -> Result<Index, Memory>
    requires { length slots.now ≤ OVERLAYS }
    ensures { IfOk result (λ index. IsIndex slots.now index.order index.bounds) }
{
    let mut numbers = numbers_below(alloc, slots.len())?;
    sort_by_start(&mut numbers, slots)?;
    let order = ListOf::from_slice(alloc, numbers.as_slice())?;
    let bounds = bounds_of(alloc, order.as_slice(), slots)?;
    Ok(Index {
        order,
        bounds,
        moved: 0,
    })
}

/// Whether an overlay has the edges of the one before it, or there is none any more.
fn lies_within(before: Option<Overlay>, after: Option<Overlay>) -> bool
    ensures { IsTrue result → (bounds : Bounds) → SlotHolds bounds before → SlotHolds bounds after }
{
    match after {
        None => true,
        Some(new) => match before {
            None => false,
            Some(old) => new.from == old.from && new.to == old.to,
        },
    }
}

/// Widens the bounds of each batch in which a number stands, so that an overlay lies within them. It costs a pass over the order.
fn widen_all(order: &[u32], bounds: &mut ListOf<Bounds>, number: u32, slot: Option<Overlay>)
    requires { length order.now ≤ length bounds.old * BATCH }
    ensures { (slots : List (Option Overlay)) → IsBounded slots order.now bounds.old → IsBounded (slice_set slots number slot) order.now bounds.new }
{
    let mut place = order.len();
    while 0 < place {
        place -= 1;
        if order[place] == number {
            widen(bounds, place, slot);
        }
    }
}

/// Widens the bounds for what comes in place of an overlay.
pub(crate) fn make_fit(
    index: &mut Index,
    number: u32,
    before: Option<Overlay>,
    after: Option<Overlay>,
)
    requires { length index.old.order ≤ length index.old.bounds * BATCH }
    ensures order { index.new.order ≡ index.old.order }
    ensures bounded { (slots : List (Option Overlay)) → slice_get slots number ≡ Some before → IsBounded slots index.old.order index.old.bounds → IsBounded (slice_set slots number after) index.new.order index.new.bounds }
{
    if lies_within(before, after) {
        return;
    }
    widen_all(index.order.as_slice(), &mut index.bounds, number, after);
    index.moved = index.moved.saturating_add(1);
}
