//! The layout of a window over its last one.
ghost use Rattle.std.specs.Prelude.{◌≡◌, ◌+◌, ◌≤◌, [], is_some, not, option_map, IfOk, IfSome};
ghost use Rattle.rd_matrix.specs.Blocks.{IsWithin};
ghost use Rattle.rd_reuse.specs.Keeping.{AreRight};
ghost use Rattle.rd_start.specs.Chosen.{chosen_of};
ghost use Rattle.rd_window.specs.Layouts.{IsLaidOut, IsSourceOf, StandsUnchanged, TellsEnds, allowance, change_since, layout_after, older_rows, rests};

use crate::layout::{Layout, TextEnds};
use crate::window::lay_out;
use rd_base::{Memory, Steps};
use rd_matrix::{BlockSource, Matrix};
use rd_reuse::Change;
use rd_rows::Shape;
use rd_start::{Chosen, Wanted};
use std::alloc::Global;
use std::sync::ledger::Ledger;

/// What laying a window out again gives: the start and the point that were chosen for it, and its new layout, or None where that of its
/// last redisplay stays.
#[derive(Drop)]
pub struct Laying {
    pub chosen: Chosen,
    pub anew: Option<Layout>,
}

/// Lays a window out again over a source. Where its last layout is still right and its start suits point, the cursor alone moves: no
/// row is made or copied, and it takes no step. Else the window is laid out anew, and the blocks that keep the rows of the last layout
/// cost nothing.
///
/// `last` is the layout of the window's last redisplay, where there was one. It stands where nothing changed since, and the older rows
/// of each block that keeps them are those that the source has for it. The anchor and point are positions of the source's blocks, and
/// the height is at least 1. The source's blocks are those of the text with these ends, and the item of each block's last position
/// begins in the block's last row. By this the layout tells whether it has the text's first row and its last one. The steps that it
/// takes, also where memory is wanting, are at most the window's allowance.
pub fn lay_out_again<B: BlockSource + Drop, L: Ledger>(
    alloc: Global,
    source: B,
    ends: TextEnds,
    last: Option<&Layout>,
    wanted: Wanted,
    shape: Shape,
    steps: &mut Steps<L>,
) -> Result<Laying, Memory>
    requires source { IsSourceOf ends (B.meaning source) }
    requires right { AreRight (B.meaning source) (older_rows (option_map (λ l. l.now) last) shape) (change_since (option_map (λ l. l.now) last)) shape }
    requires stands { StandsUnchanged (option_map (λ l. l.now) last) (B.meaning source) wanted.forced wanted.anchor }
    requires anchor { IsWithin wanted.anchor.pos (B.meaning source).blocks }
    requires point { IsWithin wanted.point (B.meaning source).blocks }
    requires height { 1 ≤ wanted.height }
    ensures chosen { IfOk result (λ laying. laying.chosen ≡ chosen_of (B.meaning source) shape wanted) }
    ensures layout { IfOk result (λ laying. IfSome (layout_after (option_map (λ l. l.now) last.entry) laying.anew) (λ new. IsLaidOut (option_map (λ l. l.now) last.entry) (B.meaning source) shape wanted new)) }
    ensures tells { IfOk result (λ laying. IfSome (layout_after (option_map (λ l. l.now) last.entry) laying.anew) (λ new. TellsEnds ends (B.meaning source) shape wanted new)) }
    ensures anew { IfOk result (λ laying. is_some laying.anew ≡ not (rests (option_map (λ l. l.now) last.entry) (B.meaning source) shape wanted)) }
    ensures steps { steps.new ≤ steps.old + allowance (option_map (λ l. l.now) last.entry) (B.meaning source) shape wanted }
{
    if let Some(layout) = last {
        if layout.rests(ends, shape, wanted) {
            return Ok(Laying {
                chosen: layout.chosen(wanted),
                anew: None,
            });
        }
    }
    let none = Matrix::new(alloc)?;
    let older = older_rows(last, &none, shape);
    let change = change_since(last);
    let view = lay_out(alloc, source, older, change, wanted, shape, steps)?;
    let layout = Layout {
        matrix: view.matrix,
        shape,
        height: wanted.height,
        margin: wanted.margin,
        conservatively: wanted.conservatively,
        change: Change::none(),
    };
    Ok(Laying {
        chosen: view.chosen,
        anew: Some(layout),
    })
}

/// The rows of a last layout that can be kept at a shape, and else those of another matrix, which has none.
fn older_rows<'a>(last: Option<&'a Layout>, none: &'a Matrix, shape: Shape) -> &'a Matrix
    requires { none.now ≡ [] }
    ensures { result.now ≡ older_rows (option_map (λ l. l.now) last.entry) shape }
{
    match last {
        Some(layout) => layout.rows_at(none, shape),
        None => none,
    }
}

/// What changed since a last layout.
fn change_since(last: Option<&Layout>) -> Change
    ensures { result ≡ change_since (option_map (λ l. l.now) last.entry) }
{
    match last {
        Some(layout) => layout.change,
        None => Change::all(),
    }
}
