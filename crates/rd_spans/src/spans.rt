//! A value for each position of a text.
use crate::gap;
use crate::run::ValueRun;
use rd_base::{Memory, Pos};
use std::alloc::Global;
use std::marker::Model;

/// Gives each position a number or nothing. It is kept as runs of equal values on both sides of a gap, where text without a value is a
/// run too. An edit moves the gap to its place, and leaves the runs behind it as they are.
#[derive(Drop)]
pub struct Spans {
    front: Vec<ValueRun>,
    back: Vec<ValueRun>,
}

impl Model for Spans {
    ghost use Rattle.std.specs.Prelude.{ℕ, List, Option};
    ghost use Rattle.std.specs.Vec.{vec_capacity};
    ghost use Rattle.rd_spans.specs.Sides.{values_of_both, AreSides};

    ghost Value = { List (Option ℕ) };

    ghost view = { λ s. values_of_both s.front.items s.back.items };

    ghost invariant = { λ s. AreSides s.front.items s.back.items (vec_capacity s.front) (vec_capacity s.back) };
}

impl Spans {
    ghost use Rattle.std.specs.Prelude.{◌≡◌, ℕ, ◌≤◌, [], OnOk, OnErr, IfOk};
    ghost use Rattle.rd_spans.specs.Values.{value_at, values_put, values_opened, values_closed, CanMove, IsNextChange, IsFirstAlike, IsTrimmed};

    /// No position has a value.
    pub fn new(alloc: Global) -> Result<Spans, Memory>
        ensures { IfOk result (λ spans. spans ≡ []) }
    {
        Ok(Spans {
            front: Vec::with_capacity(alloc, 1)?,
            back: Vec::with_capacity(alloc, 1)?,
        })
    }

    /// Gives the positions from `from` up to `to`, which is not one of them, a value, or takes theirs away where `value` is None; `from` is
    /// at most `to`. Where memory is wanting nothing changes. It goes over each run between `from` and the place of the edit before, and
    /// over each that lies in the range.
    pub fn put(&mut self, from: Pos, to: Pos, value: Option<u32>) -> Result<(), Memory>
        requires { from ≤ to }
        ensures ok { OnOk result ((p : ℕ) → value_at self.new p ≡ values_put (value_at self.old) from to value p) }
        ensures err { OnErr result (self.new ≡ self.old) }
    {
        if from < to {
            gap::make_room(&mut self.front, &mut self.back)?;
            gap::put(
                &mut self.front,
                &mut self.back,
                from as u64,
                to as u64,
                value,
            );
        }
        Ok(())
    }

    /// The value of a position, and None where it has none. It costs a binary search.
    pub fn at(&self, pos: Pos) -> Option<u32>
        ensures { result ≡ value_at self.now pos }
    {
        gap::run_around(self.front.as_slice(), self.back.as_slice(), pos as u64).value
    }

    /// The least later position whose value differs from that of `pos`, and None where there is none. It costs a binary search for each
    /// run up to there that has the same value, which is one but at the place of the last edit.
    pub fn next_change(&self, pos: Pos) -> Option<Pos>
        ensures { IsNextChange self.now pos result }
    {
        gap::next_other(self.front.as_slice(), self.back.as_slice(), pos as u64)
    }

    /// The first of the positions up to `pos` that all have its value. It costs a binary search for each run back to there, which is
    /// one but at the place of the last edit.
    pub fn first_alike(&self, pos: Pos) -> Pos
        ensures { IsFirstAlike self.now pos result }
    {
        gap::first_alike(self.front.as_slice(), self.back.as_slice(), pos as u64)
    }

    /// Opens `n` positions without a value at `pos`; what stands at `pos` or later moves on by `n`. Each position with a value, and `n`
    /// more, is below 2^32. Where memory is wanting nothing changes. It goes over each run between `pos` and the place of the edit before.
    pub fn inserted(&mut self, pos: Pos, n: u32) -> Result<(), Memory>
        requires { CanMove self.old n }
        ensures ok { OnOk result ((p : ℕ) → value_at self.new p ≡ values_opened (value_at self.old) pos n p) }
        ensures err { OnErr result (self.new ≡ self.old) }
    {
        gap::make_room(&mut self.front, &mut self.back)?;
        gap::open(&mut self.front, &mut self.back, pos as u64, n as u64);
        Ok(())
    }

    /// Takes the positions from `from` up to `to`, which is not one of them, away; what stands at `to` or later moves back. `from` is at
    /// most `to`. It takes no memory. It goes over each run between `from` and the place of the edit before, and over each that lies in the
    /// range.
    pub fn deleted(&mut self, from: Pos, to: Pos)
        requires { from ≤ to }
        ensures { (p : ℕ) → value_at self.new p ≡ values_closed (value_at self.old) from to p }
    {
        gap::close(&mut self.front, &mut self.back, from as u64, to as u64);
    }

    /// Contracts see no more positions than up to the last with a value, so the values alone tell two of these apart. The call does
    /// nothing.
    pub fn spans_are_trimmed(&self)
        ensures { IsTrimmed self.now }
    {
        let _front = &self.front;
    }
}
