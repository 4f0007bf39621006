//! Rows that are kept, over blocks in memory: tables of windows that are laid out again, by `relay` and by `lay_out`.
ghost use Rattle.std.specs.Prelude.{◌≡◌, ◌<◌, ◌≤◌};
ghost use Rattle.rd_matrix.specs.Blocks.{IsWithin, end_from, first_start};
ghost use Rattle.rd_matrix.specs.Held.{blocks_held, source_of};
ghost use Rattle.rd_reuse.specs.Keeping.{AreRight};

mod cases;
mod right;
mod told;
mod windows;

use crate::blocks::{Made, SHAPE};
use crate::claims::assert_of;
use crate::starts::stands;
use cases::{
    BASE_LEVELS, CHANGES, COMBINED_CHANGES, Case, MOVES, OLDER_LAYOUTS, STARTS, whole_change,
};
use rd_base::{Memory, Steps};
use rd_matrix::{Matrix, MemBlocks};
use rd_reuse::Change;
use rd_rows::Shape;
use rd_start::Wanted;
use rd_window::lay_out;
use right::are_right;
use std::alloc::Global;
use std::marker::Brand;
use std::process::Abort;
use std::sync::ledger::{Blank, Ledger};
use told::is_told;
use windows::{laid, older_of, text_of, window};

/// How a window is laid out again.
#[derive(Clone, Copy)]
enum Way {
    /// By `relay`, from the start that `choose` gives.
    Relay,
    /// By `lay_out`.
    Window,
}

/// Whether `relay` gives a window these rows.
fn relays<L: Ledger>(
    alloc: Global,
    source: &mut MemBlocks,
    old: &Matrix,
    change: Change,
    wanted: Wanted,
    shape: Shape,
    rows: &str,
    steps: &mut Steps<L>,
) -> Result<bool, Memory>
    requires right { AreRight (source_of source.old) old.now change shape }
    requires anchor { IsWithin wanted.anchor.pos (blocks_held source.old) }
    requires point { IsWithin wanted.point (blocks_held source.old) }
    requires height { 1 ≤ wanted.height }
{
    let matrix = laid(alloc, source, old, change, wanted, shape, steps)?;
    Ok(is_told(alloc, &matrix, rows))
}

/// Whether `lay_out` gives a window these rows.
fn lays_out<L: Ledger>(
    alloc: Global,
    source: MemBlocks,
    old: &Matrix,
    change: Change,
    wanted: Wanted,
    shape: Shape,
    rows: &str,
    steps: &mut Steps<L>,
) -> Result<bool, Memory>
    requires right { AreRight (source_of source) old.now change shape }
    requires anchor { IsWithin wanted.anchor.pos (blocks_held source) }
    requires point { IsWithin wanted.point (blocks_held source) }
    requires height { 1 ≤ wanted.height }
{
    let view = lay_out(alloc, source, old, change, wanted, shape, steps)?;
    Ok(is_told(alloc, &view.matrix, rows))
}

/// Whether a window over a text has the rows of a case, where it is laid out again so over older rows, since which so much changed.
fn holds_over<L: Ledger>(
    alloc: Global,
    mut made: Made,
    old: &Matrix,
    change: Change,
    shape: Shape,
    case: &Case,
    way: Way,
    steps: &mut Steps<L>,
) -> Result<bool, Memory>
    requires first { first_start (blocks_held made.source) ≡ 1 }
    requires end { end_from 0 (blocks_held made.source) ≡ made.end }
{
    let wanted = window(case.start, case.height);
    if !stands(made.end, wanted) {
        return Ok(false);
    }
    if !are_right(alloc, &mut made.source, old, change, shape, steps)? {
        return Ok(false);
    }
    match way {
        Way::Relay => relays(
            alloc,
            &mut made.source,
            old,
            change,
            wanted,
            shape,
            case.rows,
            steps,
        ),
        Way::Window => lays_out(
            alloc,
            made.source,
            old,
            change,
            wanted,
            shape,
            case.rows,
            steps,
        ),
    }
}

/// Whether a case holds over older rows.
fn holds_against<L: Ledger>(
    alloc: Global,
    old: &Matrix,
    case: &Case,
    way: Way,
    steps: &mut Steps<L>,
) -> Result<bool, Memory> {
    let change = whole_change(case);
    match text_of(alloc, case.text)? {
        Some(made) => holds_over(alloc, made, old, change, SHAPE, case, way, steps),
        None => Ok(false),
    }
}

/// Whether a case alone holds.
fn holds<L: Ledger>(alloc: Global, case: &Case, way: Way, blank: Blank) -> Result<bool, Memory>
    requires name { blank.name ≡ L.name }
    requires parts { blank.parts ≡ L.parts }
    requires some { 0 < L.parts }
{
    let mut steps = Steps::<L>::new(blank);
    let old = older_of(alloc, case.older, &mut steps)?;
    holds_against(alloc, &old, case, way, &mut steps)
}

/// Each case of a table holds.
fn assert_all(rt: &impl Abort, alloc: Global, way: Way, cases: &[Case]) {
    for case in cases {
        let held = holds::<Brand>(alloc, case, way, Blank::new(1));
        assert_of(rt, case.name, held == Ok(true));
    }
}

/// The tables one by one: a function that names more than one of them takes long to prove.
fn assert_changes(rt: &impl Abort, alloc: Global, way: Way) {
    assert_all(rt, alloc, way, &CHANGES);
}

/// Each case of this table holds.
fn assert_moves(rt: &impl Abort, alloc: Global, way: Way) {
    assert_all(rt, alloc, way, &MOVES);
}

/// Each case of this table holds.
fn assert_combined_changes(rt: &impl Abort, alloc: Global, way: Way) {
    assert_all(rt, alloc, way, &COMBINED_CHANGES);
}

/// Each case of this table holds.
fn assert_base_levels(rt: &impl Abort, alloc: Global, way: Way) {
    assert_all(rt, alloc, way, &BASE_LEVELS);
}

/// Each case of this table holds.
fn assert_older_layouts(rt: &impl Abort, alloc: Global, way: Way) {
    assert_all(rt, alloc, way, &OLDER_LAYOUTS);
}

/// Each case of this table holds.
fn assert_starts(rt: &impl Abort, alloc: Global, way: Way) {
    assert_all(rt, alloc, way, &STARTS);
}

#[test]
fn rows_are_kept_where_nothing_changed(rt: HostRuntime) {
    assert_changes(&rt, rt.alloc(), Way::Relay);
    assert_moves(&rt, rt.alloc(), Way::Relay);
    assert_combined_changes(&rt, rt.alloc(), Way::Relay);
    assert_base_levels(&rt, rt.alloc(), Way::Relay);
    assert_older_layouts(&rt, rt.alloc(), Way::Relay);
    assert_starts(&rt, rt.alloc(), Way::Relay);
}

#[test]
fn windows_keep_older_rows(rt: HostRuntime) {
    assert_moves(&rt, rt.alloc(), Way::Window);
    assert_base_levels(&rt, rt.alloc(), Way::Window);
    assert_starts(&rt, rt.alloc(), Way::Window);
}
