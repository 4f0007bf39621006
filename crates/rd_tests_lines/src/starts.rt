//! Starts of windows over blocks in memory.
ghost use Rattle.std.specs.Prelude.{◌≡◌, ◌<◌, ◌≤◌};
ghost use Rattle.std.specs.Bool.{OnTrue};
ghost use Rattle.rd_matrix.specs.Blocks.{IsWithin, end_from, first_start};
ghost use Rattle.rd_matrix.specs.Held.{blocks_held};

use crate::blocks::{Made, SHAPE, Text, blocks_of};
use crate::claims::assert_of;
use rd_base::{Anchor, Memory, Pos, Steps};
use rd_matrix::MemBlocks;
use rd_start::{Chosen, Wanted, choose};
use std::alloc::Global;
use std::marker::Brand;
use std::process::Abort;
use std::sync::ledger::{Blank, Ledger};

/// A window over a text, and what is to be chosen for it.
#[derive(Clone, Copy)]
struct Case {
    name: &'static str,
    text: Text,
    wanted: Wanted,
    chosen: Chosen,
}

/// A window of so many rows whose old start is a row of the block at a position, and which follows point.
macro_rules! window {
    ($height:expr, $start:expr, $row:expr, $point:expr) => {
        Wanted {
            anchor: Anchor {
                pos: $start,
                row: $row,
            },
            forced: false,
            pending: 0,
            point: $point,
            height: $height,
            margin: 0,
            conservatively: 0,
        }
    };
}

/// A window of four rows with a margin, whose start may move by one row.
macro_rules! careful {
    ($start:expr, $point:expr, $margin:expr) => {
        Wanted {
            margin: $margin,
            conservatively: 1,
            ..window!(4, $start, 0, $point)
        }
    };
}

/// A window of so many rows whose start was set by command, and is to be scrolled by so many rows.
macro_rules! forced {
    ($height:expr, $start:expr, $row:expr, $point:expr, $pending:expr) => {
        Wanted {
            forced: true,
            pending: $pending,
            ..window!($height, $start, $row, $point)
        }
    };
}

macro_rules! case {
    ($name:expr => $text:ident, $wanted:expr, $start:expr, $row:expr, $point:expr) => {
        Case {
            name: $name,
            text: Text::$text,
            wanted: $wanted,
            chosen: Chosen {
                anchor: Anchor {
                    pos: $start,
                    row: $row,
                },
                point: $point,
            },
        }
    };
}

/// Windows whose start follows point: in view; a row below the view; too far away, so that its row comes to the middle; margins
/// inside the text and at both of its ends; an old start that is no block's start, and one whose row is gone.
const FOLLOWING: [Case; 10] = [
    case!("in view" => TenLines, window!(4, 5, 0, 11), 5, 0, 11),
    case!("a row below the view" => TenLines, careful!(1, 9, 0), 3, 0, 9),
    case!("far below the view" => TenLines, careful!(3, 19, 0), 15, 0, 19),
    case!("far below, where the start moves by no row" => TenLines, window!(4, 1, 0, 19), 15, 0, 19),
    case!("a margin inside the text, below" => TenLines, careful!(1, 7, 3), 3, 0, 7),
    case!("a margin at the end of the text" => TenLines, careful!(13, 19, 3), 13, 0, 19),
    case!("a margin inside the text, above" => TenLines, careful!(5, 5, 3), 3, 0, 5),
    case!("a margin at the beginning of the text" => TenLines, careful!(3, 1, 3), 1, 0, 1),
    case!("an old start inside a line" => TwoLines, window!(3, 2, 0, 2), 1, 0, 2),
    case!("an old start whose row is gone" => TenLines, window!(4, 3, 7, 3), 3, 0, 3),
];

/// Forced starts: point moves down and up into the view, and stays where no item begins there; rows that are pending scroll down, up,
/// to the first row and to the last.
const FORCED: [Case; 7] = [
    case!("point above the view" => ThreeLines, forced!(3, 3, 0, 1, 0), 3, 0, 3),
    case!("point below the view" => TenLines, forced!(4, 1, 0, 19, 0), 1, 0, 8),
    case!("no item that begins in the view" => OneLine, forced!(2, 1, 2, 1, 0), 1, 2, 1),
    case!("rows down" => TenLines, forced!(4, 5, 0, 9, 2), 9, 0, 9),
    case!("rows up" => TenLines, forced!(4, 5, 0, 5, -1), 3, 0, 5),
    case!("rows up to the first" => TenLines, forced!(4, 5, 0, 5, -100), 1, 0, 5),
    case!("rows down to the last" => TenLines, forced!(4, 5, 0, 5, 100), 19, 0, 19),
];

/// Whether a window stands within a text from position 1 up to its end.
pub fn stands(end: Pos, wanted: Wanted) -> bool
    ensures start { OnTrue result ((1 ≤ wanted.anchor.pos) × (wanted.anchor.pos < end)) }
    ensures point { OnTrue result ((1 ≤ wanted.point) × (wanted.point < end)) }
    ensures height { OnTrue result (1 ≤ wanted.height) }
{
    let start = wanted.anchor.pos;
    1 <= start && start < end && 1 <= wanted.point && wanted.point < end && 1 <= wanted.height
}

/// What is chosen for a window.
fn choice<L: Ledger>(
    alloc: Global,
    source: &mut MemBlocks,
    wanted: Wanted,
    blank: Blank,
) -> Result<Chosen, Memory>
    requires anchor { IsWithin wanted.anchor.pos (blocks_held source.old) }
    requires point { IsWithin wanted.point (blocks_held source.old) }
    requires height { 1 ≤ wanted.height }
    requires name { blank.name ≡ L.name }
    requires parts { blank.parts ≡ L.parts }
    requires some { 0 < L.parts }
{
    let mut steps = Steps::<L>::new(blank);
    choose(alloc, source, wanted, SHAPE, &mut steps)
}

/// Whether this is chosen for a window over blocks.
fn is_chosen<L: Ledger>(
    alloc: Global,
    made: &mut Made,
    wanted: Wanted,
    chosen: Chosen,
    blank: Blank,
) -> bool
    requires first { first_start (blocks_held made.old.source) ≡ 1 }
    requires end { end_from 0 (blocks_held made.old.source) ≡ made.old.end }
    requires name { blank.name ≡ L.name }
    requires parts { blank.parts ≡ L.parts }
    requires some { 0 < L.parts }
{
    stands(made.end, wanted) && choice::<L>(alloc, &mut made.source, wanted, blank) == Ok(chosen)
}

/// Whether a case is as it is to be.
fn holds<L: Ledger>(alloc: Global, case: &Case, blank: Blank) -> bool
    requires name { blank.name ≡ L.name }
    requires parts { blank.parts ≡ L.parts }
    requires some { 0 < L.parts }
{
    match blocks_of(alloc, case.text) {
        Ok(mut made) => is_chosen::<L>(alloc, &mut made, case.wanted, case.chosen, blank),
        Err(_) => false,
    }
}

/// Each case of a table is as it is to be.
fn assert_all(rt: &impl Abort, alloc: Global, cases: &[Case]) {
    for case in cases {
        assert_of(rt, case.name, holds::<Brand>(alloc, case, Blank::new(1)));
    }
}

#[test]
fn starts_follow_point(rt: HostRuntime) {
    assert_all(&rt, rt.alloc(), &FOLLOWING);
}

#[test]
fn forced_starts_move_point(rt: HostRuntime) {
    assert_all(&rt, rt.alloc(), &FORCED);
}
