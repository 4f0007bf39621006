//! The runs on one side of the gap, of which the last stands at the gap.
ghost use Rattle.std.specs.Prelude.{◌≡◌, ℕ, ◌+◌, ◌-◌, ◌<◌, ◌≤◌, ◌++◌, length, take, replicate, min, true, if◌then◌else◌, slice_index_or, List};
ghost use Rattle.std.specs.Vec.{vec_capacity};
ghost use Rattle.rd_spans.specs.declared.run.ValueRun.{ValueRun};
ghost use Rattle.rd_spans.specs.Values.{value_at, IsTrimmed};
ghost use Rattle.rd_spans.specs.Sides.{values_of, Rises, size_of, top, has_value, needs, AreMoved, HaveRoom, IsCut, IsLighter};

use crate::run::{ValueRange, ValueRun};
use rd_base::limits::LAST_POSITION;

/// One past the greatest place.
pub(crate) const LIMIT: u64 = LAST_POSITION as u64 + 1;

/// How many places runs cover.
pub(crate) fn size(runs: &[ValueRun]) -> u64
    ensures { result ≡ size_of runs.now }
{
    match runs.last() {
        Some(run) => run.end,
        None => 0,
    }
}

/// The place of the first run that ends at `end` or later, by a binary search.
fn first_reaching(runs: &[ValueRun], end: u64) -> usize
    requires { Rises 0 runs.now }
    ensures bound { result ≤ length runs.now }
    ensures before { (k : ℕ) (d : ValueRun) → k < result → (slice_index_or runs.now k d).end < end }
    ensures behind { (k : ℕ) (d : ValueRun) → result ≤ k → k < length runs.now → end ≤ (slice_index_or runs.now k d).end }
{
    runs.partition_point(|run| run.end < end)
}

/// The run that holds a place, by a binary search.
pub(crate) fn run_at(runs: &[ValueRun], place: u64) -> ValueRange
    requires order { Rises 0 runs.now }
    requires bound { place < LIMIT }
    requires within { place < size_of runs.now }
    ensures first { result.from ≤ place }
    ensures last { (place < result.to) × (result.to ≤ size_of runs.now) }
    ensures value { result.value ≡ value_at (values_of runs.now) place }
    ensures same { (p : ℕ) → result.from ≤ p → p < result.to → value_at (values_of runs.now) p ≡ result.value }
{
    let i = first_reaching(runs, place + 1);
    let run = runs[i];
    ValueRange {
        from: end_before(runs, i),
        to: run.end,
        value: run.value,
    }
}

/// Where the run in front of a run ends.
fn end_before(runs: &[ValueRun], i: usize) -> u64
    requires { i ≤ length runs.now }
    ensures { result ≡ size_of (take i runs.now) }
{
    size(runs.split_at(i).0)
}

/// Takes the last run away where it has this value.
fn open_end(runs: &mut Vec<ValueRun>, value: Option<u32>)
    requires order { Rises 0 runs.old.items }
    ensures values { values_of runs.old.items ≡ values_of runs.new.items ++ replicate (size_of runs.old.items - size_of runs.new.items) value }
    ensures order { Rises 0 runs.new.items }
    ensures count { length runs.new.items + (if has_value (top runs.old.items) value then 1 else 0) ≡ length runs.old.items }
    ensures less { size_of runs.new.items ≤ size_of runs.old.items }
    ensures room { vec_capacity runs.new ≡ vec_capacity runs.old }
{
    let Some(run) = runs.pop() else {
        return;
    };
    if run.value != value {
        runs.push_reserved(run);
    }
}

/// Adds `n` places with a value behind the runs, which have room for one more.
pub(crate) fn push(runs: &mut Vec<ValueRun>, n: u64, value: Option<u32>)
    requires order { Rises 0 runs.old.items }
    requires room { length runs.old.items < vec_capacity runs.old }
    requires bound { size_of runs.old.items + n ≤ LIMIT }
    ensures values { values_of runs.new.items ≡ values_of runs.old.items ++ replicate n value }
    ensures order { Rises 0 runs.new.items }
    ensures size { size_of runs.new.items ≡ size_of runs.old.items + n }
    ensures nothing { n ≡ 0 → runs.new.items ≡ runs.old.items }
    ensures count { length runs.new.items ≤ length runs.old.items + (if has_value (top runs.old.items) value then 0 else 1) }
    ensures top { 0 < n → has_value (top runs.new.items) value ≡ true }
    ensures room { vec_capacity runs.new ≡ vec_capacity runs.old }
{
    if n == 0 {
        return;
    }
    let end = size(runs) + n;
    open_end(runs, value);
    runs.push_reserved(ValueRun { end, value });
}

/// Moves at most `most` places, all of one run or a part of it, from the end of one side to the end of the other, and answers how
/// many.
fn move_run(from: &mut Vec<ValueRun>, to: &mut Vec<ValueRun>, most: u64) -> u64
    requires rooms { HaveRoom from.old.items to.old.items (vec_capacity from.old) (vec_capacity to.old) }
    requires some { 0 < most }
    ensures moved { AreMoved from.old.items to.old.items from.new.items to.new.items }
    ensures most { result ≤ most }
    ensures less { size_of from.new.items + result ≡ size_of from.old.items }
    ensures more { size_of to.new.items ≡ size_of to.old.items + result }
    ensures some { 0 < size_of from.old.items → 0 < result }
    ensures from_room { vec_capacity from.new ≡ vec_capacity from.old }
    ensures to_room { vec_capacity to.new ≡ vec_capacity to.old }
{
    let Some(run) = from.pop() else {
        return 0;
    };
    let all = run.end - size(from);
    let moved = all.min(most);
    push(from, all - moved, run.value);
    push(to, moved, run.value);
    moved
}

/// Moves so many places, or all that there are, from the end of one side to the end of the other.
pub(crate) fn shift(from: &mut Vec<ValueRun>, to: &mut Vec<ValueRun>, count: u64)
    requires rooms { HaveRoom from.old.items to.old.items (vec_capacity from.old) (vec_capacity to.old) }
    ensures moved { AreMoved from.old.items to.old.items from.new.items to.new.items }
    ensures less { size_of from.new.items + size_of to.new.items ≡ size_of from.old.items + size_of to.old.items }
    ensures more { size_of to.new.items ≡ size_of to.old.items + min count (size_of from.old.items) }
    ensures from_room { vec_capacity from.new ≡ vec_capacity from.old }
    ensures to_room { vec_capacity to.new ≡ vec_capacity to.old }
{
    let mut left = count;
    while left > 0 {
        if size(from) == 0 {
            return;
        }
        left -= move_run(from, to, left);
    }
}

/// Takes the last run away, but for its places below `end`.
fn cut_run(runs: &mut Vec<ValueRun>, end: u64)
    requires order { Rises 0 runs.old.items }
    requires bound { end < size_of runs.old.items }
    requires few { size_of runs.old.items ≤ LIMIT }
    requires room { length runs.old.items ≤ vec_capacity runs.old }
    ensures values { take end (values_of runs.new.items) ≡ take end (values_of runs.old.items) }
    ensures order { Rises 0 runs.new.items }
    ensures enough { end ≤ size_of runs.new.items }
    ensures less { size_of runs.new.items < size_of runs.old.items }
    ensures lighter { IsLighter runs.old.items runs.new.items }
    ensures room { vec_capacity runs.new ≡ vec_capacity runs.old }
{
    let Some(run) = runs.pop() else {
        return;
    };
    let start = size(runs);
    push(runs, end.saturating_sub(start), run.value);
}

/// Takes the last `n` places away.
pub(crate) fn cut(runs: &mut Vec<ValueRun>, n: u64)
    requires order { Rises 0 runs.old.items }
    requires few { size_of runs.old.items ≤ LIMIT }
    requires room { length runs.old.items ≤ vec_capacity runs.old }
    ensures cut { IsCut runs.old.items runs.new.items n }
    ensures lighter { IsLighter runs.old.items runs.new.items }
    ensures room { vec_capacity runs.new ≡ vec_capacity runs.old }
{
    let end = size(runs).saturating_sub(n);
    while size(runs) > end {
        cut_run(runs, end);
    }
}

/// Takes the runs without a value at the end away.
pub(crate) fn trim(runs: &mut Vec<ValueRun>)
    requires order { Rises 0 runs.old.items }
    requires room { length runs.old.items ≤ vec_capacity runs.old }
    ensures values { (p : ℕ) → value_at (values_of runs.new.items) p ≡ value_at (values_of runs.old.items) p }
    ensures order { Rises 0 runs.new.items }
    ensures trimmed { IsTrimmed (values_of runs.new.items) }
    ensures less { size_of runs.new.items ≤ size_of runs.old.items }
    ensures lighter { (other : List ValueRun) → needs runs.new.items other ≤ needs runs.old.items other }
    ensures room { vec_capacity runs.new ≡ vec_capacity runs.old }
{
    while let Some(run) = runs.pop() {
        if run.value.is_some() {
            runs.push_reserved(run);
            return;
        }
    }
}
