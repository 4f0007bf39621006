//! The walk through a line in visual order: rule L2 of UAX 9, one index after the other, without a list that is reversed.
ghost use Rattle.std.specs.Prelude.{◌≡◌, ℕ, suc, ◌+◌, ◌-◌, ◌<◌, ◌≤◌, ◌⊎◌, length, slice_index, slice_get, Some};
ghost use Rattle.rd_order.specs.Order.{l2_visual_order};
ghost use Rattle.rd_order.specs.Places.{Comes, IsBeside};

use crate::run::{ReversedRun, l2_run_around};

/// A walk through the indexes of a line in visual order (L2), from the reading edge. It holds the next index and no list.
#[derive(Clone, Copy, Debug)]
pub struct Visual {
    base: u8,
    place: Option<usize>,
    given: usize,
}

impl Visual {
    ghost use Rattle.std.specs.Prelude.{◌≡◌, ◌≤◌, ℕ, length, [], ◌∷◌, MatchOption};
    ghost use Rattle.rd_order.specs.Order.{l2_visual_order};
    ghost use Rattle.rd_order.specs.Walks.{left, IsWalkOf};

    /// A walk through a line of these embedding levels, from the reading edge: the left edge at base 0, the right edge at
    /// base 1. It looks at the runs around the line's first index, once for each level that occurs there.
    pub fn start(levels: &[u8], base: u8) -> Visual
        requires { base ≤ 1 }
        ensures walk { IsWalkOf result levels.now }
        ensures left { left result levels.now ≡ l2_visual_order base levels.now }
    {
        Visual {
            base,
            place: l2_first(levels, base),
            given: 0,
        }
    }

    /// The next index by L2, counted from 0, and None exactly after all. It asks for the levels that the walk was started with.
    /// It looks at the neighbour where the level stays, and where it changes at the run that is entered or left, once for each
    /// level that occurs in between: a whole line costs at most about twice its length times the number of its levels.
    pub fn next(&mut self, levels: &[u8]) -> Option<usize>
        requires { IsWalkOf self.old levels.now }
        ensures walk { IsWalkOf self.new levels.now }
        ensures gives { MatchOption result ((left self.old levels.now ≡ []) × (left self.new levels.now ≡ [])) (λ i. left self.old levels.now ≡ i ∷ left self.new levels.now) }
        ensures within { MatchOption result (Unit {0}) (λ i. i < length levels.now) }
    {
        let place = self.place?;
        self.place = l2_following(levels, self.base, place);
        self.given += 1;
        Some(place)
    }
}

/// The first index of the visual order, if there is one.
fn l2_first(levels: &[u8], base: u8) -> Option<usize>
    ensures { result ≡ slice_get (l2_visual_order base levels.now) 0 }
{
    if levels.is_empty() {
        return None;
    }
    Some(l2_settled(levels, base, base, 0))
}

/// The index that follows `index` in visual order, and None where it is the last.
fn l2_following(levels: &[u8], base: u8, index: usize) -> Option<usize>
    requires { index < length levels.now }
    ensures { (p : ℕ) → slice_get (l2_visual_order base levels.now) p ≡ Some index → slice_get (l2_visual_order base levels.now) (p + 1) ≡ result }
{
    let mut level = levels[index].max(base);
    let mut place = index;
    loop {
        if let Some(beside) = neighbour(levels, level, base, place) {
            return Some(l2_settled(levels, base, level, beside));
        }
        if level == base {
            return None;
        }
        let run = l2_run_around(levels, level, place);
        let beside_run = highest_beside(levels, base, &run);
        place = run.reversed_place(place, level - beside_run);
        level = beside_run;
    }
}

/// For L2, the index beside `place` in the direction in which a run at `level` is read, where it lies in this run too.
fn neighbour(levels: &[u8], level: u8, base: u8, place: usize) -> Option<usize>
    requires base { base ≤ level }
    requires place { place < length levels.now }
    ensures { IsBeside (slice_index levels.now) (length levels.now) base (level - base) place result }
{
    let beside = if (level - base) % 2 == 0 {
        place + 1
    } else {
        place.checked_sub(1)?
    };
    (beside < levels.len() && (level == base || levels[beside] >= level)).then_some(beside)
}

/// For L2, the highest level of the two indexes beside a run, at least the base.
fn highest_beside(levels: &[u8], base: u8, run: &ReversedRun) -> u8
    requires order { run.now.start < run.now.end }
    requires end { run.now.end ≤ length levels.now }
    ensures base { base ≤ result }
    ensures before { (q : ℕ) → suc q ≡ run.now.start → slice_index levels.now q ≤ result }
    ensures after { run.now.end < length levels.now → slice_index levels.now run.now.end ≤ result }
    ensures known { (result ≡ base) ⊎ ((q : ℕ) × (suc q ≡ run.now.start) × (slice_index levels.now q ≡ result)) ⊎ ((run.now.end < length levels.now) × (slice_index levels.now run.now.end ≡ result)) }
{
    let mut highest = base;
    if run.start > 0 {
        highest = highest.max(levels[run.start - 1]);
    }
    if run.end < levels.len() {
        highest = highest.max(levels[run.end]);
    }
    highest
}

/// The index that the order gives where it comes to `place` in the run at `level`: runs of higher levels around it are turned
/// round.
fn l2_settled(levels: &[u8], base: u8, level: u8, place: usize) -> usize
    requires base { base ≤ level }
    requires place { place < length levels.now }
    requires high { base < level → level ≤ slice_index levels.now place }
    ensures { (p : ℕ) → Comes (slice_index levels.now) (length levels.now) base (level - base) p place → slice_get (l2_visual_order base levels.now) p ≡ Some result }
{
    let mut level = level;
    let mut place = place;
    while levels[place] > level {
        let run = l2_run_around(levels, level + 1, place);
        place = run.reversed_place(place, run.lowest - level);
        level = run.lowest;
    }
    place
}
