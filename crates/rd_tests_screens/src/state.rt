//! States, and what ops make of them.
ghost use Rattle.std.specs.Prelude.{◌≡◌, IsSome, true};
ghost use Rattle.rd_state.specs.Shown.{IsShownAt};
ghost use Rattle.rd_state.specs.Windows.{window_of};
ghost use Rattle.rd_tests_screens.specs.Positions.{HasPosition};

use crate::claims::assert_of;
use crate::scene::{accepts, is_accepted, is_scene, ops, runs};
use rd_base::Anchor;
use rd_state::{State, WindowState};
use std::alloc::Global;
use std::process::Abort;
use std::test::Fail;

/// Asserts that a state accepts each op of the scene with its effect, and then is the scene.
fn assert_applied(rt: &impl Abort, state: &mut State, alloc: Global) {
    for (name, line, effect) in ops() {
        assert_of(rt, name, accepts(state, alloc, line, effect));
    }
    assert!(rt; is_scene(state));
}

#[test]
fn each_op_is_applied(rt: HostRuntime) -> Result<(), Fail> {
    let mut state = State::new(rt.alloc())?;
    assert_applied(&rt, &mut state, rt.alloc());
    Ok(())
}

/// Whether the overlay that one line makes over a text of three characters has this range after another line.
fn is_moved(alloc: Global, overlay: &str, edit: &str, range: (u32, u32)) -> bool {
    match State::new(alloc) {
        Ok(mut state) => range_in(&mut state, alloc, overlay, edit) == Some(range),
        Err(_) => false,
    }
}

/// The range of that overlay after these lines, in a state.
fn range_in(state: &mut State, alloc: Global, overlay: &str, edit: &str) -> Option<(u32, u32)> {
    let text = r#"{"op":"insert","buffer":"main","pos":1,"text":"abc"}"#;
    if !runs(state, alloc, &[text, overlay, edit]) {
        return None;
    }
    first_range(state)
}

/// The range of the first overlay.
fn first_range(state: &State) -> Option<(u32, u32)> {
    let buffer = state.buffer(0)?;
    let overlay = buffer.overlays.get(0)?;
    Some((overlay.from, overlay.to))
}

/// An overlay of the second of three characters, whose ends stay before text that is put in there.
const PLAIN: &str = r#"{"op":"overlay","buffer":"main","from":2,"to":3}"#;

/// One whose front moves behind such text.
const FRONT: &str = r#"{"op":"overlay","buffer":"main","from":2,"to":3,"front":true}"#;

/// One whose rear moves behind such text.
const REAR: &str = r#"{"op":"overlay","buffer":"main","from":2,"to":3,"rear":true}"#;

/// One of no character, whose front moves behind such text.
const EMPTY: &str = r#"{"op":"overlay","buffer":"main","from":2,"to":2,"front":true}"#;

/// An edit before all of them.
const BEFORE: &str = r#"{"op":"insert","buffer":"main","pos":1,"text":"xy"}"#;

/// An edit at their front.
const AT_START: &str = r#"{"op":"insert","buffer":"main","pos":2,"text":"x"}"#;

/// An edit at their rear.
const AT_END: &str = r#"{"op":"insert_raw","buffer":"main","pos":3,"bytes":[200]}"#;

/// An edit that takes away what they are over.
const OVER: &str = r#"{"op":"delete","buffer":"main","from":1,"to":3}"#;

/// Overlays and edits, by what moves, and the ranges that the overlays have then.
const MOVES: [(&'static str, &'static str, &'static str, (u32, u32)); 7] = [
    ("both ends, by a text before", PLAIN, BEFORE, (4, 5)),
    (
        "the end alone, by a text at the start",
        PLAIN,
        AT_START,
        (2, 4),
    ),
    ("a start that is in front", FRONT, AT_START, (3, 4)),
    ("nothing, by a text at the end", PLAIN, AT_END, (2, 3)),
    ("an end that is in the rear", REAR, AT_END, (2, 4)),
    ("nothing of an empty overlay", EMPTY, AT_START, (2, 2)),
    ("both ends, by a deletion", PLAIN, OVER, (1, 1)),
];

#[test]
fn overlays_move_with_the_text(rt: HostRuntime) {
    for (name, overlay, edit, range) in &MOVES {
        assert_of(&rt, name, is_moved(rt.alloc(), overlay, edit, *range));
    }
}

/// The ops that put the point of the first window at 3 and that of its twin below at 2, in a text of five characters.
const TWINS: [&'static str; 4] = [
    r#"{"op":"insert","buffer":"main","pos":1,"text":"abcde"}"#,
    r#"{"op":"split","window":0,"side":"below","size":5}"#,
    r#"{"op":"point","window":0,"pos":3}"#,
    r#"{"op":"point","window":1,"pos":2}"#,
];

/// Whether these points stand so after a line.
fn stand(alloc: Global, line: &str, wanted: (u32, u32)) -> bool {
    match State::new(alloc) {
        Ok(mut state) => points_in(&mut state, alloc, line) == Some(wanted),
        Err(_) => false,
    }
}

/// Where the points of the twins stand after a line, in a state.
fn points_in(state: &mut State, alloc: Global, line: &str) -> Option<(u32, u32)> {
    if !runs(state, alloc, &TWINS) || !is_accepted(state, alloc, line) {
        return None;
    }
    points(state)
}

/// The points of the first two windows.
fn points(state: &State) -> Option<(u32, u32)> {
    let first = state.window(0)?;
    let second = state.window(1)?;
    Some((first.point, second.point))
}

/// Lines, and where these points stand after each.
const POINTS: [(&'static str, &'static str, (u32, u32)); 8] = [
    case!("a character that is typed at the first point" => r#"{"op":"type","text":"x"}"#, (4, 2)),
    case!("an insertion at the second point" => r#"{"op":"insert","buffer":"main","pos":2,"text":"xy"}"#, (5, 2)),
    case!("an insertion before both points" => r#"{"op":"insert_raw","buffer":"main","pos":1,"bytes":[255]}"#, (4, 3)),
    case!("a deletion between the points" => r#"{"op":"delete","buffer":"main","from":2,"to":3}"#, (2, 2)),
    case!("a deletion around both points" => r#"{"op":"delete","buffer":"main","from":1,"to":4}"#, (1, 1)),
    case!("narrowing to behind the second point" => r#"{"op":"narrow","buffer":"main","from":3,"to":4}"#, (3, 3)),
    case!("narrowing to before the first point" => r#"{"op":"narrow","buffer":"main","from":1,"to":2}"#, (2, 2)),
    case!("the same buffer, shown again" => r#"{"op":"show","window":0,"buffer":"main"}"#, (1, 2)),
];

#[test]
fn points_move_with_the_text(rt: HostRuntime) {
    for (name, line, wanted) in &POINTS {
        assert_of(&rt, name, stand(rt.alloc(), line, *wanted));
    }
}

/// Whether there is a buffer with this number, and a position is accessible in it. The contract tells of the position, where there is
/// such a buffer, but not that there is one: to settle a window asks no more.
fn has_position(state: &State, number: u32, pos: u32) -> bool
    ensures { result ≡ true → HasPosition state.now number pos }
{
    match state.buffer(number) {
        Some(buffer) => buffer.text.begin() <= pos && pos <= buffer.text.end(),
        None => false,
    }
}

/// Whether a window lives, and a position is accessible in the buffer that it shows.
fn shows(state: &State, number: u32, pos: u32) -> bool
    ensures lives { result ≡ true → IsSome (window_of number state.now.windows) }
    ensures shown { result ≡ true → IsShownAt state.now number pos }
{
    match state.window(number) {
        Some(window) => has_position(state, window.buffer, pos),
        None => false,
    }
}

/// Settles a window where it lives and the buffer that it shows has both positions, and answers whether that is so.
fn settles(state: &mut State, number: u32, anchor: Anchor, point: u32) -> bool {
    if shows(state, number, anchor.pos) && shows(state, number, point) {
        state.settle(number, anchor, point);
        return true;
    }
    false
}

/// Whether a window's view begins at a position and a row, whether by command, and how many rows wait to be scrolled.
fn views(window: Option<&WindowState>, anchor: Anchor, forced: bool, pending: i64) -> bool {
    match window {
        Some(window) => {
            (window.anchor.pos, window.anchor.row) == (anchor.pos, anchor.row)
                && window.forced == forced
                && window.pending == pending
        }
        None => false,
    }
}

/// Asserts that settling one of two windows that wait to be scrolled ends its wait, and leaves the other one.
fn assert_settled(rt: &impl Abort, state: &mut State, alloc: Global) {
    let first = r#"{"op":"scroll","window":0,"rows":3}"#;
    let second = r#"{"op":"scroll","window":1,"rows":-4}"#;
    let opening = Anchor { pos: 1, row: 0 };
    let settled = Anchor { pos: 2, row: 5 };
    assert_of(
        rt,
        "the ops that make both windows",
        runs(state, alloc, &TWINS),
    );
    assert_of(
        rt,
        "the ops that scroll them",
        runs(state, alloc, &[first, second]),
    );
    assert_of(
        rt,
        "the first window, which waits",
        views(state.window(0), opening, true, 3),
    );
    assert!(rt; settles(state, 0, settled, 6));
    assert_of(
        rt,
        "the first window, which is settled",
        views(state.window(0), settled, false, 0),
    );
    assert_of(
        rt,
        "the second window, which still waits",
        views(state.window(1), opening, true, -4),
    );
    assert!(rt; points(state) == Some((6, 2)));
}

#[test]
fn a_window_is_settled(rt: HostRuntime) -> Result<(), Fail> {
    let mut state = State::new(rt.alloc())?;
    assert_settled(&rt, &mut state, rt.alloc());
    Ok(())
}
