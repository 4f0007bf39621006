//! What states refuse, and which refusal comes first.
use crate::claims::assert_of;
use crate::scene::{answer, applied, is_accepted, is_done, is_scene, refuses, scene};
use rd_script::Op;
use rd_state::{Effect, Refused, State};
use rd_tree::Side;
use std::alloc::{AllocError, Global};
use std::process::Abort;
use std::test::Fail;

/// Lines that the scene refuses, and why, by the rows of the ops. Where a line has more than one cause, the first of the row is told.
const REFUSALS: [(&'static str, &'static str, Refused); 81] = [
    case!("frame: too few columns for the windows" => r#"{"op":"frame","width":26,"height":12}"#, Refused::TooSmall),
    case!("frame: too few rows for a mode line" => r#"{"op":"frame","width":60,"height":2}"#, Refused::TooSmall),
    case!("buffer: a name that is taken" => r#"{"op":"buffer","name":"é"}"#, Refused::NameTaken),
    case!("insert: no such buffer" => r#"{"op":"insert","buffer":"x","pos":9,"text":"é"}"#, Refused::NoBuffer),
    case!("insert: before the accessible text" => r#"{"op":"insert","buffer":"main","pos":1,"text":"a"}"#, Refused::OutOfRange),
    case!("insert: behind the accessible text" => r#"{"op":"insert","buffer":"main","pos":7,"text":""}"#, Refused::OutOfRange),
    case!("insert: a position beyond 32 bits" => r#"{"op":"insert","buffer":"main","pos":4294967298,"text":"a"}"#, Refused::OutOfRange),
    case!("insert_raw: a name with a capital" => r#"{"op":"insert_raw","buffer":"Main","pos":9,"bytes":[128]}"#, Refused::NoBuffer),
    case!("insert_raw: no byte at position 0" => r#"{"op":"insert_raw","buffer":"main","pos":0,"bytes":[]}"#, Refused::OutOfRange),
    case!("delete: no such buffer" => r#"{"op":"delete","buffer":"x","from":9,"to":1}"#, Refused::NoBuffer),
    case!("delete: from before the accessible text on" => r#"{"op":"delete","buffer":"main","from":1,"to":3}"#, Refused::OutOfRange),
    case!("delete: beyond the accessible text" => r#"{"op":"delete","buffer":"main","from":2,"to":7}"#, Refused::OutOfRange),
    case!("delete: an end before its start" => r#"{"op":"delete","buffer":"main","from":4,"to":3}"#, Refused::OutOfRange),
    case!("narrow: the front of a name" => r#"{"op":"narrow","buffer":"mai","from":0,"to":1}"#, Refused::NoBuffer),
    case!("narrow: from position 0 on" => r#"{"op":"narrow","buffer":"main","from":0,"to":1}"#, Refused::OutOfRange),
    case!("narrow: beyond the text" => r#"{"op":"narrow","buffer":"main","from":1,"to":8}"#, Refused::OutOfRange),
    case!("narrow: an end before its start" => r#"{"op":"narrow","buffer":"main","from":3,"to":2}"#, Refused::OutOfRange),
    case!("widen: a name without its accent" => r#"{"op":"widen","buffer":"e"}"#, Refused::NoBuffer),
    case!("put: no such buffer" => r#"{"op":"put","buffer":"x","from":9,"to":9,"kind":"face","value":9}"#, Refused::NoBuffer),
    case!("put: from before the accessible text on"
        => r#"{"op":"put","buffer":"main","from":1,"to":2,"kind":"face","value":9}"#, Refused::OutOfRange),
    case!("put: beyond the accessible text" => r#"{"op":"put","buffer":"main","from":5,"to":7,"kind":"invisible"}"#, Refused::OutOfRange),
    case!("put: no such face, on no character"
        => r#"{"op":"put","buffer":"main","from":2,"to":2,"kind":"face","value":1}"#, Refused::NoObject),
    case!("put: no such spec" => r#"{"op":"put","buffer":"main","from":2,"to":3,"kind":"display","value":1}"#, Refused::NoObject),
    case!("put: a prefix beyond 32 bits"
        => r#"{"op":"put","buffer":"main","from":2,"to":3,"kind":"line_prefix","value":4294967296}"#, Refused::NoObject),
    case!("put: no such prefix" => r#"{"op":"put","buffer":"main","from":2,"to":3,"kind":"wrap_prefix","value":1}"#, Refused::NoObject),
    case!("overlay: no such buffer" => r#"{"op":"overlay","buffer":"x","from":0,"to":1}"#, Refused::NoBuffer),
    case!("overlay: from position 0 on" => r#"{"op":"overlay","buffer":"main","from":0,"to":1}"#, Refused::OutOfRange),
    case!("overlay: an end before its start" => r#"{"op":"overlay","buffer":"main","from":3,"to":2}"#, Refused::OutOfRange),
    case!("overlay: beyond the text" => r#"{"op":"overlay","buffer":"main","from":7,"to":8}"#, Refused::OutOfRange),
    case!("overlay_move: no such buffer" => r#"{"op":"overlay_move","buffer":"x","overlay":1,"from":0,"to":9}"#, Refused::NoBuffer),
    case!("overlay_move: an overlay that was dropped"
        => r#"{"op":"overlay_move","buffer":"main","overlay":1,"from":0,"to":9}"#, Refused::NoOverlay),
    case!("overlay_move: an overlay that was never made"
        => r#"{"op":"overlay_move","buffer":"main","overlay":2,"from":2,"to":3}"#, Refused::NoOverlay),
    case!("overlay_move: an end before its start"
        => r#"{"op":"overlay_move","buffer":"main","overlay":0,"from":4,"to":3}"#, Refused::OutOfRange),
    case!("overlay_move: beyond the text" => r#"{"op":"overlay_move","buffer":"main","overlay":0,"from":1,"to":8}"#, Refused::OutOfRange),
    case!("overlay_drop: no such buffer" => r#"{"op":"overlay_drop","buffer":"x","overlay":0}"#, Refused::NoBuffer),
    case!("overlay_drop: an overlay of another buffer" => r#"{"op":"overlay_drop","buffer":"é","overlay":0}"#, Refused::NoOverlay),
    case!("overlay_drop: an overlay beyond 32 bits" => r#"{"op":"overlay_drop","buffer":"main","overlay":4294967296}"#, Refused::NoOverlay),
    case!("overlay_put: no such buffer" => r#"{"op":"overlay_put","buffer":"x","overlay":1,"kind":"face","value":9}"#, Refused::NoBuffer),
    case!("overlay_put: an overlay that was dropped"
        => r#"{"op":"overlay_put","buffer":"main","overlay":1,"kind":"face","value":9}"#, Refused::NoOverlay),
    case!("overlay_put: no such face" => r#"{"op":"overlay_put","buffer":"main","overlay":0,"kind":"face","value":1}"#, Refused::NoObject),
    case!("overlay_put: no such string"
        => r#"{"op":"overlay_put","buffer":"main","overlay":0,"kind":"after","value":1}"#, Refused::NoObject),
    case!("margin_put: no such buffer" => r#"{"op":"margin_put","buffer":"x","overlay":1,"string":9}"#, Refused::NoBuffer),
    case!("margin_put: an overlay that was dropped" => r#"{"op":"margin_put","buffer":"main","overlay":1,"string":9}"#, Refused::NoOverlay),
    case!("margin_put: no such string" => r#"{"op":"margin_put","buffer":"main","overlay":0,"string":1}"#, Refused::NoObject),
    case!("setting: no such buffer" => r#"{"op":"setting","buffer":"x","name":"table","value":9}"#, Refused::NoBuffer),
    case!("setting: no such table" => r#"{"op":"setting","buffer":"main","name":"table","value":1}"#, Refused::NoObject),
    case!("setting: no such line prefix" => r#"{"op":"setting","buffer":"main","name":"line_prefix","value":1}"#, Refused::NoObject),
    case!("setting: a wrap prefix of 64 bits"
        => r#"{"op":"setting","buffer":"main","name":"wrap_prefix","value":18446744073709551615}"#, Refused::NoObject),
    case!("string: no such face, in the second run"
        => r#"{"op":"string","text":"ab","runs":[[0,3,"face",0],[1,2,"face",1]]}"#, Refused::NoObject),
    case!("string: no such spec" => r#"{"op":"string","text":"ab","runs":[[0,1,"display",1]]}"#, Refused::NoObject),
    case!("string: a run beyond the text" => r#"{"op":"string","text":"ab","runs":[[1,3,"face",0]]}"#, Refused::OutOfRange),
    case!("string: a run whose end is before its start"
        => r#"{"op":"string","text":"ab","runs":[[2,1,"display",0]]}"#, Refused::OutOfRange),
    case!("spec: no such string" => r#"{"op":"spec","kind":"string","value":1}"#, Refused::NoObject),
    case!("split: a window that was removed" => r#"{"op":"split","window":2,"side":"below","size":0}"#, Refused::NoWindow),
    case!("split: too few columns for the window" => r#"{"op":"split","window":0,"side":"right","size":10}"#, Refused::TooSmall),
    case!("split: too few columns for the new window" => r#"{"op":"split","window":0,"side":"right","size":20}"#, Refused::TooSmall),
    case!("split: too few rows for a mode line" => r#"{"op":"split","window":0,"side":"below","size":1}"#, Refused::TooSmall),
    case!("split: no row for the new window" => r#"{"op":"split","window":1,"side":"below","size":11}"#, Refused::TooSmall),
    case!("split: too few columns for the margins" => r#"{"op":"split","window":1,"side":"right","size":15}"#, Refused::TooSmall),
    case!("split: a size of 64 bits" => r#"{"op":"split","window":1,"side":"below","size":18446744073709551615}"#, Refused::TooSmall),
    case!("remove: a window that was removed" => r#"{"op":"remove","window":2}"#, Refused::NoWindow),
    case!("remove: a window beyond 32 bits" => r#"{"op":"remove","window":4294967296}"#, Refused::NoWindow),
    case!("select: a window that was never made" => r#"{"op":"select","window":3}"#, Refused::NoWindow),
    case!("select: a window beyond 32 bits" => r#"{"op":"select","window":4294967297}"#, Refused::NoWindow),
    case!("show: no such window and no such buffer" => r#"{"op":"show","window":2,"buffer":"x"}"#, Refused::NoWindow),
    case!("show: no such buffer" => r#"{"op":"show","window":0,"buffer":"x"}"#, Refused::NoBuffer),
    case!("point: no such window" => r#"{"op":"point","window":2,"pos":9}"#, Refused::NoWindow),
    case!("point: before the accessible text" => r#"{"op":"point","window":0,"pos":1}"#, Refused::OutOfRange),
    case!("point: behind the text" => r#"{"op":"point","window":1,"pos":5}"#, Refused::OutOfRange),
    case!("point: a position beyond 32 bits" => r#"{"op":"point","window":0,"pos":4294967298}"#, Refused::OutOfRange),
    case!("start: no such window" => r#"{"op":"start","window":2,"pos":9,"row":0}"#, Refused::NoWindow),
    case!("start: behind the accessible text" => r#"{"op":"start","window":0,"pos":7,"row":1000000}"#, Refused::OutOfRange),
    case!("scroll: no such window" => r#"{"op":"scroll","window":2,"rows":1}"#, Refused::NoWindow),
    case!("hscroll: no such window" => r#"{"op":"hscroll","window":2,"columns":1}"#, Refused::NoWindow),
    case!("wrap: no such window" => r#"{"op":"wrap","window":2,"mode":"continue"}"#, Refused::NoWindow),
    case!("mode_line: no such window, and a bad format" => r#"{"op":"mode_line","window":2,"format":"%"}"#, Refused::NoWindow),
    case!("mode_line: a width of four digits" => r#"{"op":"mode_line","window":0,"format":"é%1234b%"}"#, Refused::BadFormat(1)),
    case!("mode_line: a width before a percent sign" => r#"{"op":"mode_line","window":1,"format":"%b%3%"}"#, Refused::BadFormat(2)),
    case!("margin: no such window" => r#"{"op":"margin","window":2,"numbers":10,"strings":20}"#, Refused::NoWindow),
    case!("margin: too few columns for strings" => r#"{"op":"margin","window":0,"numbers":0,"strings":20}"#, Refused::TooSmall),
    case!("margin: too few columns for both" => r#"{"op":"margin","window":1,"numbers":10,"strings":20}"#, Refused::TooSmall),
];

/// Asserts that the scene refuses each of these lines for its cause, and stays as it is.
fn assert_kept(rt: &impl Abort, state: &mut State, alloc: Global) {
    for (name, line, refused) in &REFUSALS {
        let kept = refuses(state, alloc, line, *refused) && is_scene(state);
        assert_of(rt, name, kept);
    }
}

#[test]
fn ops_are_refused(rt: HostRuntime) -> Result<(), Fail> {
    let mut state = scene(rt.alloc())?;
    assert_kept(&rt, &mut state, rt.alloc());
    Ok(())
}

/// Asserts that a state refuses each line of a table for its cause.
fn assert_refused(
    rt: &impl Abort,
    state: &mut State,
    alloc: Global,
    table: &[(&str, &str, Refused)],
) {
    for (name, line, refused) in table {
        assert_of(rt, name, refuses(state, alloc, line, *refused));
    }
}

/// Lines that the opening state refuses in a frame of 12 columns and 2 rows, where the one window has 1 row, and why.
const IN_THE_LEAST_FRAME: [(&'static str, &'static str, Refused); 7] = [
    case!("remove: no such window" => r#"{"op":"remove","window":1}"#, Refused::NoWindow),
    case!("remove: the last window" => r#"{"op":"remove","window":0}"#, Refused::LastWindow),
    case!("mode_line: a bad format, and no row for it" => r#"{"op":"mode_line","window":0,"format":"%"}"#, Refused::BadFormat(0)),
    case!("mode_line: no row for it" => r#"{"op":"mode_line","window":0,"format":""}"#, Refused::TooSmall),
    case!("margin: too few columns" => r#"{"op":"margin","window":0,"numbers":1,"strings":1}"#, Refused::TooSmall),
    case!("split: no row for the window" => r#"{"op":"split","window":0,"side":"below","size":0}"#, Refused::TooSmall),
    case!("split: too few columns" => r#"{"op":"split","window":0,"side":"right","size":6}"#, Refused::TooSmall),
];

/// Asserts what the opening state refuses in the least frame, and that it has room for one column of margin strings.
fn assert_unshared(rt: &impl Abort, state: &mut State, alloc: Global) {
    let frame = r#"{"op":"frame","width":12,"height":2}"#;
    assert_of(rt, "frame: the least", is_accepted(state, alloc, frame));
    assert_refused(rt, state, alloc, &IN_THE_LEAST_FRAME);
    let margin = r#"{"op":"margin","window":0,"numbers":0,"strings":1}"#;
    assert_of(
        rt,
        "margin: one column of strings",
        is_accepted(state, alloc, margin),
    );
}

#[test]
fn one_row_is_not_shared(rt: HostRuntime) -> Result<(), Fail> {
    assert_in_new(&rt, rt.alloc(), Limit::Rows)
}

/// What a state has only so much of.
#[derive(Clone, Copy)]
enum Limit {
    Rows,
    Buffers,
    Windows,
    Objects,
    Overlays,
    Characters,
}

/// Asserts what an opening state takes up to a limit, and what it refuses there.
fn assert_limit(rt: &impl Abort, state: &mut State, alloc: Global, limit: Limit) {
    match limit {
        Limit::Rows => assert_unshared(rt, state, alloc),
        Limit::Buffers => assert_64_buffers(rt, state, alloc),
        Limit::Windows => assert_64_windows(rt, state, alloc),
        Limit::Objects => assert_all_objects(rt, state, alloc),
        Limit::Overlays => assert_65_536_overlays(rt, state, alloc),
        Limit::Characters => assert_all_characters(rt, state, alloc),
    }
}

/// Asserts what a new state takes up to a limit; the state is made here alone, since to drop it takes long to prove.
fn assert_in_new(rt: &impl Abort, alloc: Global, limit: Limit) -> Result<(), Fail> {
    let mut state = State::new(alloc)?;
    assert_limit(rt, &mut state, alloc, limit);
    Ok(())
}

/// Whether a state accepts a line so many times.
fn repeats(state: &mut State, alloc: Global, line: &str, count: u32) -> bool {
    for _i in 0..count {
        if !is_accepted(state, alloc, line) {
            return false;
        }
    }
    true
}

/// A line with so many characters `a` behind its first part.
fn filled(alloc: Global, front: &str, count: usize) -> Result<String, AllocError> {
    let mut line = String::from_str(alloc, front)?;
    for _i in 0..count {
        line.push('a')?;
    }
    line.push_str(r#""}"#)?;
    Ok(line)
}

/// What a state answers to a line with so many characters `a`; None also where there was no memory for it.
fn answer_filled(
    state: &mut State,
    alloc: Global,
    front: &str,
    count: usize,
) -> Option<Result<Effect, Refused>> {
    match filled(alloc, front, count) {
        Ok(line) => answer(state, alloc, line.as_str()),
        Err(_) => None,
    }
}

/// Whether a state accepts a buffer whose name is so many characters `a`.
fn makes_buffer(state: &mut State, alloc: Global, count: usize) -> bool {
    is_done(answer_filled(state, alloc, r#"{"op":"buffer","name":""#, count))
}

/// Whether a state accepts 63 buffers, whose names have 1 to 63 characters.
fn makes_buffers(state: &mut State, alloc: Global) -> bool {
    for count in 1..64 {
        if !makes_buffer(state, alloc, count) {
            return false;
        }
    }
    true
}

/// What a state of 64 buffers refuses.
const WITH_ALL_BUFFERS: [(&'static str, &'static str, Refused); 2] = [
    case!("a name that is taken" => r#"{"op":"buffer","name":"aa"}"#, Refused::NameTaken),
    case!("one buffer more" => r#"{"op":"buffer","name":"b"}"#, Refused::TooManyBuffers),
];

/// Asserts that a state takes 63 buffers more, and refuses another.
fn assert_64_buffers(rt: &impl Abort, state: &mut State, alloc: Global) {
    assert!(rt; makes_buffers(state, alloc));
    assert_refused(rt, state, alloc, &WITH_ALL_BUFFERS);
    assert!(rt; state.name(63).is_some() && state.name(64).is_none());
}

#[test]
fn there_are_64_buffers(rt: HostRuntime) -> Result<(), Fail> {
    assert_in_new(&rt, rt.alloc(), Limit::Buffers)
}

/// Whether a state splits a window, which keeps three rows.
fn splits(state: &mut State, window: u32) -> bool {
    is_done(applied(
        state,
        Op::Split {
            window: window as u64,
            side: Side::Below,
            size: 3,
        },
    ))
}

/// Whether a state splits so many windows, each of which the one before made.
fn splits_each(state: &mut State, count: u32) -> bool {
    for window in 0..count {
        if !splits(state, window) {
            return false;
        }
    }
    true
}

/// What a state of 64 windows refuses, the last of which has ten rows.
const WITH_ALL_WINDOWS: [(&'static str, &'static str, Refused); 3] = [
    case!("no such window" => r#"{"op":"split","window":64,"side":"below","size":3}"#, Refused::NoWindow),
    case!("no row for the new window" => r#"{"op":"split","window":63,"side":"below","size":10}"#, Refused::TooSmall),
    case!("one window more" => r#"{"op":"split","window":63,"side":"below","size":3}"#, Refused::TooManyWindows),
];

/// Asserts that a state takes 63 windows more, and refuses another.
fn assert_64_windows(rt: &impl Abort, state: &mut State, alloc: Global) {
    let frame = r#"{"op":"frame","width":400,"height":200}"#;
    assert!(rt; is_accepted(state, alloc, frame) && splits_each(state, 63));
    assert_refused(rt, state, alloc, &WITH_ALL_WINDOWS);
    assert!(rt; state.window(63).is_some() && state.window(64).is_none());
}

#[test]
fn there_are_64_windows(rt: HostRuntime) -> Result<(), Fail> {
    assert_in_new(&rt, rt.alloc(), Limit::Windows)
}

/// What a state with all objects refuses.
const WITH_ALL_OBJECTS: [(&'static str, &'static str, Refused); 7] = [
    case!("string: no such face" => r#"{"op":"string","text":"a","runs":[[1,2,"face",1024]]}"#, Refused::NoObject),
    case!("string: a run beyond the text" => r#"{"op":"string","text":"a","runs":[[0,2,"face",1023]]}"#, Refused::OutOfRange),
    case!("one string more" => r#"{"op":"string","text":""}"#, Refused::TooManyObjects),
    case!("spec: no such string" => r#"{"op":"spec","kind":"string","value":4096}"#, Refused::NoObject),
    case!("one spec more" => r#"{"op":"spec","kind":"align","value":0}"#, Refused::TooManyObjects),
    case!("one face more" => r#"{"op":"face"}"#, Refused::TooManyObjects),
    case!("one table more" => r#"{"op":"table"}"#, Refused::TooManyObjects),
];

/// Whether a state refuses a string of so many characters `a`, behind a first part of its line, for a cause.
fn refuses_string(
    state: &mut State,
    alloc: Global,
    front: &str,
    count: usize,
    refused: Refused,
) -> bool {
    answer_filled(state, alloc, front, count) == Some(Err(refused))
}

/// Whether a state accepts as many objects of each sort as there may be.
fn makes_objects(state: &mut State, alloc: Global) -> bool {
    let string = r#"{"op":"string","text":"a","runs":[[0,1,"face",1023]]}"#;
    let spec = r#"{"op":"spec","kind":"string","value":4095}"#;
    repeats(state, alloc, r#"{"op":"face","bg":7}"#, 1024)
        && repeats(state, alloc, r#"{"op":"table"}"#, 64)
        && repeats(state, alloc, string, 4096)
        && repeats(state, alloc, spec, 4096)
}

/// Asserts that a string can be too long, with and without all objects, and how many objects there are. A run that ends behind the
/// string is told first.
fn assert_all_objects(rt: &impl Abort, state: &mut State, alloc: Global) {
    let plain = r#"{"op":"string","text":""#;
    let beyond = r#"{"op":"string","runs":[[0,4098,"face",1023]],"text":""#;
    assert_of(
        rt,
        "string: too long, without objects",
        refuses_string(state, alloc, plain, 4097, Refused::ObjectTooLong),
    );
    assert!(rt; makes_objects(state, alloc));
    assert_refused(rt, state, alloc, &WITH_ALL_OBJECTS);
    assert_of(
        rt,
        "string: too long, with a run beyond it",
        refuses_string(state, alloc, beyond, 4097, Refused::OutOfRange),
    );
    assert_of(
        rt,
        "string: too long, with all objects",
        refuses_string(state, alloc, plain, 4097, Refused::ObjectTooLong),
    );
    assert_of(
        rt,
        "string: one more, of the largest length",
        refuses_string(state, alloc, plain, 4096, Refused::TooManyObjects),
    );
}

#[test]
fn objects_are_limited(rt: HostRuntime) -> Result<(), Fail> {
    assert_in_new(&rt, rt.alloc(), Limit::Objects)
}

/// What a state refuses whose first buffer had all its overlays.
const WITH_ALL_OVERLAYS: [(&'static str, &'static str, Refused); 3] = [
    case!("the front of a name" => r#"{"op":"overlay","buffer":"mai","from":1,"to":1}"#, Refused::NoBuffer),
    case!("beyond the text" => r#"{"op":"overlay","buffer":"main","from":1,"to":2}"#, Refused::OutOfRange),
    case!("one overlay more" => r#"{"op":"overlay","buffer":"main","from":1,"to":1}"#, Refused::TooManyOverlays),
];

/// Asserts that a state takes 65,536 overlays, and refuses another even where one was taken away.
fn assert_65_536_overlays(rt: &impl Abort, state: &mut State, alloc: Global) {
    let overlay = r#"{"op":"overlay","buffer":"main","from":1,"to":1}"#;
    assert!(rt; repeats(state, alloc, overlay, 65_536));
    let gone = r#"{"op":"overlay_drop","buffer":"main","overlay":65535}"#;
    assert!(rt; is_accepted(state, alloc, gone));
    assert_refused(rt, state, alloc, &WITH_ALL_OVERLAYS);
}

#[test]
fn there_are_65_536_overlays(rt: HostRuntime) -> Result<(), Fail> {
    assert_in_new(&rt, rt.alloc(), Limit::Overlays)
}

/// Whether a state types so many characters `a`.
fn types(state: &mut State, alloc: Global, count: usize) -> bool {
    is_done(answer_filled(state, alloc, r#"{"op":"type","text":""#, count))
}

/// Whether a state types so many characters, part by part.
fn types_each(state: &mut State, alloc: Global, counts: &[usize]) -> bool {
    for count in counts {
        if !types(state, alloc, *count) {
            return false;
        }
    }
    true
}

/// What a state refuses whose first buffer holds the longest text.
const WITH_ALL_CHARACTERS: [(&'static str, &'static str, Refused); 7] = [
    case!("type: one character more" => r#"{"op":"type","text":"a"}"#, Refused::TextTooLarge),
    case!("insert: no such buffer" => r#"{"op":"insert","buffer":"x","pos":0,"text":"a"}"#, Refused::NoBuffer),
    case!("insert: position 0" => r#"{"op":"insert","buffer":"main","pos":0,"text":"a"}"#, Refused::OutOfRange),
    case!("insert: behind the end" => r#"{"op":"insert","buffer":"main","pos":4194306,"text":"a"}"#, Refused::OutOfRange),
    case!("insert: one character more" => r#"{"op":"insert","buffer":"main","pos":4194305,"text":"a"}"#, Refused::TextTooLarge),
    case!("insert_raw: position 0" => r#"{"op":"insert_raw","buffer":"main","pos":0,"bytes":[128]}"#, Refused::OutOfRange),
    case!("insert_raw: one character more" => r#"{"op":"insert_raw","buffer":"main","pos":1,"bytes":[128]}"#, Refused::TextTooLarge),
];

/// Asserts that a state takes a text of 4,194,304 characters and no longer one.
fn assert_all_characters(rt: &impl Abort, state: &mut State, alloc: Global) {
    let counts = [1_048_000, 1_048_000, 1_048_000, 1_048_000, 2_304, 0];
    assert!(rt; types_each(state, alloc, &counts));
    assert_refused(rt, state, alloc, &WITH_ALL_CHARACTERS);
}

#[test]
fn texts_have_4_194_304_characters(rt: HostRuntime) -> Result<(), Fail> {
    assert_in_new(&rt, rt.alloc(), Limit::Characters)
}
