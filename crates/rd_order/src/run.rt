//! Maximal runs of indexes at a level or above, which rule L2 of UAX 9 reverses.
ghost use Rattle.std.specs.Prelude.{◌≡◌, ◌+◌, ◌-◌, ◌<◌, ◌≤◌, ◌%◌, ◌==◌, if◌then◌else◌, length, slice_index};
ghost use Rattle.rd_order.specs.Places.{IsLevelRun, AreHigh};

/// A run that L2 reverses: the indexes from `start` to `end - 1`, none of which has a level below `lowest`.
#[derive(Clone, Copy)]
pub struct ReversedRun {
    pub start: usize,
    pub end: usize,
    pub lowest: u8,
}

impl ReversedRun {
    /// For L2, the index at which an index of the run comes to stand when the run is reversed so many times.
    pub fn reversed_place(&self, place: usize, times: u8) -> usize
        requires from { self.now.start ≤ place }
        requires to { place < self.now.end }
        ensures { result ≡ (if times % 2 == 0 then place else self.now.start + (self.now.end - 1 - place)) }
    {
        if times % 2 == 0 {
            place
        } else {
            self.start + (self.end - 1 - place)
        }
    }
}

/// The maximal run at `level` or above around an index of that level or above. It costs a look at each index of the run and
/// at the two beside it.
pub fn l2_run_around(levels: &[u8], level: u8, place: usize) -> ReversedRun
    requires place { place < length levels.now }
    requires level { level ≤ slice_index levels.now place }
    ensures run { IsLevelRun (slice_index levels.now) (length levels.now) level result.start result.end }
    ensures lowest { AreHigh (slice_index levels.now) result.lowest result.start result.end }
    ensures up { level ≤ result.lowest }
    ensures from { result.start ≤ place }
    ensures to { place < result.end }
{
    let mut start = place;
    let mut lowest = levels[place];
    while start > 0 && levels[start - 1] >= level {
        start -= 1;
        lowest = lowest.min(levels[start]);
    }
    let mut end = place + 1;
    while end < levels.len() && levels[end] >= level {
        lowest = lowest.min(levels[end]);
        end += 1;
    }
    ReversedRun { start, end, lowest }
}
