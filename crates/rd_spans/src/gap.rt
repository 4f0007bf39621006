//! Both sides of the gap, and the edits at it.
ghost use Rattle.std.specs.Prelude.{◌≡◌, ℕ, ◌+◌, ◌-◌, ◌<◌, ◌≤◌, ◌++◌, true, false, length, replicate, None, OnOk};
ghost use Rattle.std.specs.Vec.{vec_capacity};
ghost use Rattle.rd_spans.specs.declared.side.TheConstants.{LIMIT};
ghost use Rattle.rd_spans.specs.Values.{value_at, values_put, values_opened, values_closed, CanMove, IsNextChange, IsFirstAlike};
ghost use Rattle.rd_spans.specs.Sides.{values_of, Rises, size_of, values_of_both, GapMoved, AreRuns, HaveRoom, AreSides};

use crate::run::{ValueRange, ValueRun};
use crate::side;
use rd_base::Memory;

/// The run around a position, or the positions behind the last run, none of which has a value.
pub(crate) fn run_around(front: &[ValueRun], back: &[ValueRun], pos: u64) -> ValueRange
    requires runs { AreRuns front.now back.now }
    requires bound { pos < LIMIT }
    ensures first { result.from ≤ pos }
    ensures later { pos < result.to }
    ensures few { result.to ≤ LIMIT }
    ensures value { result.value ≡ value_at (values_of_both front.now back.now) pos }
    ensures same { (p : ℕ) → result.from ≤ p → p < result.to → value_at (values_of_both front.now back.now) p ≡ result.value }
{
    let gap = side::size(front);
    if pos < gap {
        return side::run_at(front, pos);
    }
    let end = gap + side::size(back);
    if pos < end {
        let run = side::run_at(back, end - 1 - pos);
        return ValueRange {
            from: end - run.to,
            to: end - run.from,
            value: run.value,
        };
    }
    ValueRange {
        from: end,
        to: side::LIMIT,
        value: None,
    }
}

/// The first position behind one whose value differs from that of the one.
pub(crate) fn next_other(front: &[ValueRun], back: &[ValueRun], pos: u64) -> Option<u32>
    requires runs { AreRuns front.now back.now }
    requires bound { pos < LIMIT }
    ensures { IsNextChange (values_of_both front.now back.now) pos result }
{
    let here = run_around(front, back, pos);
    let mut next = here.to;
    while next < side::LIMIT {
        let behind = run_around(front, back, next);
        if behind.value != here.value {
            return Some(next as u32);
        }
        next = behind.to;
    }
    None
}

/// The first of the positions up to one that all have its value.
pub(crate) fn first_alike(front: &[ValueRun], back: &[ValueRun], pos: u64) -> u32
    requires runs { AreRuns front.now back.now }
    requires bound { pos < LIMIT }
    ensures { IsFirstAlike (values_of_both front.now back.now) pos result }
{
    let here = run_around(front, back, pos);
    let mut from = here.from;
    while 0 < from {
        let before = run_around(front, back, from - 1);
        if before.value != here.value {
            return from as u32;
        }
        from = before.from;
    }
    0
}

/// Makes room for an edit, which adds at most three runs.
pub(crate) fn make_room(front: &mut Vec<ValueRun>, back: &mut Vec<ValueRun>) -> Result<(), Memory>
    ensures front { front.new.items ≡ front.old.items }
    ensures back { back.new.items ≡ back.old.items }
    ensures front_room { vec_capacity front.old ≤ vec_capacity front.new }
    ensures back_room { vec_capacity back.old ≤ vec_capacity back.new }
    ensures front_more { OnOk result (length front.old.items + length back.old.items + 4 ≤ vec_capacity front.new) }
    ensures back_more { OnOk result (length front.old.items + length back.old.items + 4 ≤ vec_capacity back.new) }
{
    front.reserve(back.len() + 4)?;
    back.reserve(front.len() + 4)?;
    Ok(())
}

/// Moves the gap to a position, or to the end where that comes before.
fn move_to(front: &mut Vec<ValueRun>, back: &mut Vec<ValueRun>, pos: u64)
    requires rooms { HaveRoom front.old.items back.old.items (vec_capacity front.old) (vec_capacity back.old) }
    ensures moved { GapMoved front.old.items back.old.items front.new.items back.new.items pos }
    ensures front_room { vec_capacity front.new ≡ vec_capacity front.old }
    ensures back_room { vec_capacity back.new ≡ vec_capacity back.old }
{
    let gap = side::size(front);
    if pos < gap {
        side::shift(front, back, gap - pos);
    } else {
        side::shift(back, front, pos - gap);
    }
}

/// Adds positions without a value behind the front up to `from`, and positions with a value from there up to `to`.
fn fill(front: &mut Vec<ValueRun>, from: u64, to: u64, value: Option<u32>)
    requires order { Rises 0 front.old.items }
    requires reached { size_of front.old.items ≤ from }
    requires ordered { from ≤ to }
    requires bound { to ≤ LIMIT }
    requires room { length front.old.items + 1 < vec_capacity front.old }
    ensures values { values_of front.new.items ≡ (values_of front.old.items ++ replicate (from - size_of front.old.items) None) ++ replicate (to - from) value }
    ensures order { Rises 0 front.new.items }
    ensures size { size_of front.new.items ≡ to }
    ensures count { length front.new.items ≤ length front.old.items + 2 }
    ensures room { vec_capacity front.new ≡ vec_capacity front.old }
{
    let missing = from - side::size(front);
    side::push(front, missing, None);
    side::push(front, to - from, value);
}

/// Whether nothing with a value would stand behind the front.
fn ends_there(back: &[ValueRun], value: Option<u32>) -> bool
    ensures yes { result ≡ true → (value ≡ None) × (length back.now ≡ 0) }
    ensures no { result ≡ false → length back.now ≡ 0 → value ≡ None → ⊥ }
{
    value.is_none() && back.is_empty()
}

/// Puts a value on the positions from `from` up to `to`, where there is room for three more runs.
pub(crate) fn put(
    front: &mut Vec<ValueRun>,
    back: &mut Vec<ValueRun>,
    from: u64,
    to: u64,
    value: Option<u32>,
)
    requires sides { AreSides front.old.items back.old.items (vec_capacity front.old) (vec_capacity back.old) }
    requires front_more { length front.old.items + length back.old.items + 4 ≤ vec_capacity front.old }
    requires back_more { length front.old.items + length back.old.items + 4 ≤ vec_capacity back.old }
    requires some { from < to }
    requires bound { to ≤ LIMIT }
    ensures sides { AreSides front.new.items back.new.items (vec_capacity front.new) (vec_capacity back.new) }
    ensures values { (p : ℕ) → value_at (values_of_both front.new.items back.new.items) p ≡ values_put (value_at (values_of_both front.old.items back.old.items)) from to value p }
{
    move_to(front, back, from);
    side::cut(back, to - from);
    if ends_there(back, value) {
        side::trim(front);
    } else {
        fill(front, from, to, value);
    }
}

/// Opens `n` positions without a value at a position, where there is room for three more runs.
pub(crate) fn open(front: &mut Vec<ValueRun>, back: &mut Vec<ValueRun>, pos: u64, n: u64)
    requires sides { AreSides front.old.items back.old.items (vec_capacity front.old) (vec_capacity back.old) }
    requires front_more { length front.old.items + length back.old.items + 4 ≤ vec_capacity front.old }
    requires back_more { length front.old.items + length back.old.items + 4 ≤ vec_capacity back.old }
    requires bound { CanMove (values_of_both front.old.items back.old.items) n }
    ensures sides { AreSides front.new.items back.new.items (vec_capacity front.new) (vec_capacity back.new) }
    ensures values { (p : ℕ) → value_at (values_of_both front.new.items back.new.items) p ≡ values_opened (value_at (values_of_both front.old.items back.old.items)) pos n p }
{
    move_to(front, back, pos);
    if !back.is_empty() {
        side::push(front, n, None);
    }
}

/// Takes the positions from `from` up to `to` away.
pub(crate) fn close(front: &mut Vec<ValueRun>, back: &mut Vec<ValueRun>, from: u64, to: u64)
    requires sides { AreSides front.old.items back.old.items (vec_capacity front.old) (vec_capacity back.old) }
    requires ordered { from ≤ to }
    ensures sides { AreSides front.new.items back.new.items (vec_capacity front.new) (vec_capacity back.new) }
    ensures values { (p : ℕ) → value_at (values_of_both front.new.items back.new.items) p ≡ values_closed (value_at (values_of_both front.old.items back.old.items)) from to p }
{
    move_to(front, back, from);
    side::cut(back, to - from);
    if back.is_empty() {
        side::trim(front);
    }
}
