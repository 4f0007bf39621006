//! The layout of one window.
ghost use Rattle.std.specs.Prelude.{◌≡◌, ◌+◌, ◌*◌, ◌<◌, ◌≤◌, All, length, IfOk};
ghost use Rattle.rd_matrix.specs.Blocks.{IsWithin};
ghost use Rattle.rd_matrix.specs.Entries.{shown_entries};
ghost use Rattle.rd_reuse.specs.Keeping.{AreRight, kept_source};
ghost use Rattle.rd_reuse.specs.Views.{IsCopied};
ghost use Rattle.rd_start.specs.Chosen.{chosen_of};
ghost use Rattle.rd_start.specs.Near.{near_costs};
ghost use Rattle.rd_window.specs.Views.{rows_in_view};

use crate::remembered::Remembered;
use rd_base::{Memory, Steps};
use rd_matrix::{BlockSource, Matrix};
use rd_reuse::{Change, Kept, relay};
use rd_rows::Shape;
use rd_start::{Chosen, Wanted, a_start_is_a_row, choose};
use std::alloc::Global;
use std::sync::ledger::Ledger;

/// What a window shows: the start and the point that were chosen for it, and its rows in view.
#[derive(Drop)]
pub struct InView {
    pub chosen: Chosen,
    pub matrix: Matrix,
}

/// Lays a window out over a source: chooses its start and its point, and takes the rows in view.
///
/// `old` has rows of an older layout at this shape, since which so much changed: the older rows of each block that keeps them are those
/// that the source has for it. The rows of such a block are copies of them, each with one copy more, and cost nothing. The anchor and
/// point are positions of the source's blocks, and the height is at least 1. A row is in view. The steps that it takes, also where memory
/// is wanting, are at most three times the costs of the blocks that have a row near the window and do not keep their older ones.
pub fn lay_out<B: BlockSource + Drop, L: Ledger>(
    alloc: Global,
    source: B,
    old: &Matrix,
    change: Change,
    wanted: Wanted,
    shape: Shape,
    steps: &mut Steps<L>,
) -> Result<InView, Memory>
    requires right { AreRight (B.meaning source) old.now change shape }
    requires anchor { IsWithin wanted.anchor.pos (B.meaning source).blocks }
    requires point { IsWithin wanted.point (B.meaning source).blocks }
    requires height { 1 ≤ wanted.height }
    ensures chosen { IfOk result (λ view. view.chosen ≡ chosen_of (B.meaning source) shape wanted) }
    ensures some { IfOk result (λ view. 0 < length view.matrix) }
    ensures rows { IfOk result (λ view. shown_entries view.matrix ≡ rows_in_view (B.meaning source) shape wanted) }
    ensures copies { IfOk result (λ view. All (IsCopied old.now change (B.meaning source).blocks) view.matrix) }
    ensures steps { steps.new ≤ steps.old + 3 * near_costs (kept_source (B.meaning source) old.now change shape) shape wanted }
{
    a_start_is_a_row();
    let remembered = Remembered::new(alloc, source);
    let mut kept = Kept::new(remembered, old, change, shape);
    let chosen = choose(alloc, &mut kept, wanted, shape, steps)?;
    let mut remembered = kept.into_source();
    remembered.hand_out();
    let matrix = relay(
        alloc,
        &mut remembered,
        old,
        change,
        chosen.anchor,
        wanted.height,
        shape,
        steps,
    )?;
    Ok(InView { chosen, matrix })
}
