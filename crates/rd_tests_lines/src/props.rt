//! Look-ups with ample memory, on buffers that are made by calls.
ghost use Rattle.std.specs.Prelude.{◌≤◌};

use crate::claims::assert_of;
use crate::scenery::{Scenery, is_accessible, put_text};
use rd_base::{Face, Invisible, ListOf, Memory, Pos};
use rd_objects::{ObjectFault, Objects};
use rd_overlays::{Kind, OverlayFault};
use rd_props::{BufferState, Hidden, View, effective, face_at, hidden, next_stop, strings_at};
use std::alloc::Global;
use std::process::Abort;
use std::test::Fail;

const RED: Face = Face {
    fg: 1,
    ..Face::PLAIN
};

const ON_GREEN: Face = Face {
    bg: 2,
    ..Face::PLAIN
};

const RED_ON_GREEN: Face = Face { fg: 1, ..ON_GREEN };

/// A buffer of three characters with properties and overlays of several kinds, and two faces.
fn three_characters(alloc: Global) -> Result<Scenery, Fail> {
    let mut scenery = Scenery::new(alloc)?;
    add_faces(&mut scenery.objects)?;
    fill(&mut scenery.state, alloc)?;
    Ok(scenery)
}

fn add_faces(objects: &mut Objects) -> Result<(), ObjectFault> {
    objects.add_face(RED)?;
    objects.add_face(ON_GREEN)?;
    Ok(())
}

fn fill(state: &mut BufferState, alloc: Global) -> Result<(), Fail> {
    put_text(state, alloc, "abc")?;
    put_properties(state)?;
    make_overlays(state)?;
    Ok(())
}

fn put_properties(state: &mut BufferState) -> Result<(), Memory> {
    put(state, Kind::Face, 1, 4, 0)?;
    put(state, Kind::Invisible, 1, 3, 7)?;
    put(state, Kind::Display, 2, 3, 9)?;
    put(state, Kind::LinePrefix, 1, 4, 20)
}

fn make_overlays(state: &mut BufferState) -> Result<(), OverlayFault> {
    overlay(state, 2, 3, 0, Kind::Face, 1)?;
    overlay(state, 2, 4, 1, Kind::LinePrefix, 21)?;
    overlay(state, 1, 4, 1, Kind::LinePrefix, 22)?;
    overlay(state, 2, 3, 0, Kind::LinePrefix, 23)?;
    overlay(state, 1, 2, 1, Kind::After, 10)?;
    overlay(state, 1, 2, 2, Kind::After, 11)?;
    overlay(state, 2, 3, 1, Kind::Before, 12)?;
    overlay(state, 2, 3, 2, Kind::Before, 13)?;
    let empty = overlay(state, 2, 2, 0, Kind::Before, 14)?;
    state.overlays.set(empty, Kind::After, Some(15))
}

/// Gives a text property a value.
fn put(state: &mut BufferState, kind: Kind, from: Pos, to: Pos, value: u32) -> Result<(), Memory>
    requires { from ≤ to }
{
    let kind = kind as usize;
    if kind < 5 {
        state.spans[kind].put(from, to, Some(value))?;
    }
    Ok(())
}

/// Makes an overlay with one value.
fn overlay(
    state: &mut BufferState,
    from: Pos,
    to: Pos,
    priority: i32,
    kind: Kind,
    value: u32,
) -> Result<u32, OverlayFault> {
    let number = state.overlays.make(from, to, priority, false, false)?;
    state.overlays.set(number, kind, Some(value))?;
    Ok(number)
}

/// Whether the face at a position is this one.
fn has_face(alloc: Global, view: &View, pos: Pos, face: Face) -> bool {
    is_accessible(view, pos) && face_at(alloc, view, pos) == Ok(face)
}

/// Whether a position is hidden so.
fn is_hidden(alloc: Global, view: &View, pos: Pos, how: Hidden) -> bool {
    is_accessible(view, pos) && hidden(alloc, view, pos) == Ok(how)
}

/// Whether the line prefix at a position is this one.
fn has_prefix(alloc: Global, view: &View, pos: Pos, value: Option<u32>) -> bool {
    is_accessible(view, pos) && effective(alloc, view, pos, Kind::LinePrefix) == Ok(value)
}

/// Whether overlays have these strings at a position, in this order.
fn has_strings(alloc: Global, view: &View, pos: Pos, strings: &[u32]) -> bool {
    if !is_accessible(view, pos) {
        return false;
    }
    match strings_at(alloc, view, pos) {
        Ok(found) => found.as_slice() == strings,
        Err(_) => false,
    }
}

/// Whether the next stop behind a position is this one.
fn stops_at(view: &View, pos: Pos, stop: Pos) -> bool {
    let state = view.state;
    state.text.begin() <= pos && pos < state.text.end() && next_stop(view, pos) == stop
}

/// The faces at positions of the buffer of three characters.
const FACES: [(&'static str, Pos, Face); 4] = [
    ("the face of the first character", 1, RED),
    ("the face of the second", 2, RED_ON_GREEN),
    ("the face of the third", 3, RED),
    ("the face of the end", 4, Face::PLAIN),
];

/// How the positions of the buffer of three characters are hidden.
const HIDDEN: [(&'static str, Pos, Hidden); 3] = [
    ("the first is hidden", 1, Hidden::Plain),
    ("the second is replaced", 2, Hidden::No),
    ("the third is shown", 3, Hidden::No),
];

/// Asserts how positions are hidden.
fn assert_hidden(rt: &impl Abort, alloc: Global, view: &View, table: &[(&str, Pos, Hidden)]) {
    for (name, pos, how) in table {
        assert_of(rt, name, is_hidden(alloc, view, *pos, *how));
    }
}

/// Asserts which faces positions have.
fn assert_faces(rt: &impl Abort, alloc: Global, view: &View) {
    for (name, pos, face) in &FACES {
        assert_of(rt, name, has_face(alloc, view, *pos, *face));
    }
}

#[test]
fn what_holds_at_positions(rt: HostRuntime) -> Result<(), Fail> {
    let example = three_characters(rt.alloc())?;
    let view = example.view();
    assert_faces(&rt, rt.alloc(), &view);
    assert_hidden(&rt, rt.alloc(), &view, &HIDDEN);
    assert!(rt; has_strings(rt.alloc(), &view, 2, &[11, 10, 14, 15, 12, 13]));
    Ok(())
}

/// Names the atom 7 in a buffer's setting, with an ellipsis and then without.
fn list_atoms(state: &mut BufferState, alloc: Global) -> Result<(), Memory> {
    let pairs = ListOf::from_slice(alloc, &[(8, false), (7, true), (7, false)])?;
    state.settings.invisible = Invisible::Listed(pairs);
    Ok(())
}

/// The buffer of three characters, with that setting.
fn listed(alloc: Global) -> Result<Scenery, Fail> {
    let mut example = three_characters(alloc)?;
    list_atoms(&mut example.state, alloc)?;
    Ok(example)
}

/// How the positions of that buffer are hidden.
const LISTED: [(&'static str, Pos, Hidden); 3] = [
    ("the first pair of its atom counts", 1, Hidden::Ellipsis),
    ("a replaced one is not hidden", 2, Hidden::No),
    ("one without an atom is not hidden", 3, Hidden::No),
];

#[test]
fn atoms_hide_by_the_setting(rt: HostRuntime) -> Result<(), Fail> {
    let example = listed(rt.alloc())?;
    assert_hidden(&rt, rt.alloc(), &example.view(), &LISTED);
    Ok(())
}

/// The buffer of three characters, of which the last is not accessible.
fn narrowed(alloc: Global) -> Result<Scenery, Fail> {
    let mut example = three_characters(alloc)?;
    example.state.text.narrow(1, 3)?;
    Ok(example)
}

/// The line prefixes at positions of that buffer.
const PREFIXES: [(&'static str, Pos, Option<u32>); 3] = [
    ("the prefix of the first character", 1, Some(22)),
    ("the prefix of the second", 2, Some(22)),
    ("no prefix at the end", 3, None),
];

/// Asserts which line prefixes positions have.
fn assert_prefixes(rt: &impl Abort, alloc: Global, view: &View) {
    for (name, pos, value) in &PREFIXES {
        assert_of(rt, name, has_prefix(alloc, view, *pos, *value));
    }
}

#[test]
fn what_holds_in_a_narrowed_text(rt: HostRuntime) -> Result<(), Fail> {
    let example = narrowed(rt.alloc())?;
    let view = example.view();
    assert_prefixes(&rt, rt.alloc(), &view);
    assert_of(&rt, "the stop behind the first", stops_at(&view, 1, 2));
    assert_of(&rt, "the stop behind the second", stops_at(&view, 2, 3));
    Ok(())
}
