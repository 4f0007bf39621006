//! A line and a prefix with ample memory, of a buffer that is made by calls.
use crate::scenery::{Scenery, is_accessible, put_text};
use rd_base::{Ch, Element, Elements, Glyph, Look, Pos};
use rd_objects::{ObjectFault, Objects, Run, RunKind, Spec};
use rd_overlays::Kind;
use rd_props::{BufferState, View};
use rd_stack::{Walker, string_line};
use std::alloc::Global;
use std::test::Fail;

/// Adds the string zz, and the string PQ, newline, R, in which that one stands for Q.
fn add_strings(objects: &mut Objects) -> Result<(), ObjectFault> {
    let display_string = objects.add_string(&[Ch::scalar('z'), Ch::scalar('z')], &[])?;
    let spec = objects.add_spec(Spec::Text(display_string))?;
    let run = Run {
        from: 1,
        to: 2,
        kind: RunKind::Display,
        value: spec,
    };
    let text = [
        Ch::scalar('P'),
        Ch::scalar('Q'),
        Ch::scalar('\n'),
        Ch::scalar('R'),
    ];
    objects.add_string(&text, &[run])?;
    Ok(())
}

/// Puts in the text xy, with the second of those strings before its second character.
fn fill(state: &mut BufferState, alloc: Global) -> Result<(), Fail> {
    put_text(state, alloc, "xy")?;
    let number = state.overlays.make(2, 3, 0, false, false)?;
    state.overlays.set(number, Kind::Before, Some(1))?;
    Ok(())
}

/// The buffer and the objects.
fn scenery(alloc: Global) -> Result<Scenery, Fail> {
    let mut scenery = Scenery::new(alloc)?;
    add_strings(&mut scenery.objects)?;
    fill(&mut scenery.state, alloc)?;
    Ok(scenery)
}

/// The look that a sign stands for: `|` is the end of a row, `.` that of the line, and others are characters of one column.
fn look(sign: char) -> Look {
    match sign {
        '|' => Look::RowEnd,
        '.' => Look::LineEnd,
        _ => Look::Glyph(Glyph::single(sign as u32, 1)),
    }
}

/// Whether these are the looks of elements.
fn are_looks(elements: &[Element], signs: &str) -> bool {
    let mut i = 0;
    for sign in signs.chars() {
        if i >= elements.len() || elements[i].look != look(sign) {
            return false;
        }
        i += 1;
    }
    i == elements.len()
}

/// Whether the rest of a line has these looks, and then none.
fn goes_on(alloc: Global, walker: &mut Walker, signs: &str) -> bool {
    for sign in signs.chars() {
        match walker.next(alloc) {
            Ok(Some(element)) if element.look == look(sign) => {}
            _ => return false,
        }
    }
    matches!(walker.next(alloc), Ok(None))
}

/// Whether the whole line from a position on has these looks.
fn walks(alloc: Global, view: &View, start: Pos, signs: &str) -> bool {
    if !is_accessible(view, start) {
        return false;
    }
    match Walker::start(alloc, *view, start, 0) {
        Ok(mut walker) => goes_on(alloc, &mut walker, signs),
        Err(_) => false,
    }
}

/// Whether a string that stands as a prefix has these looks.
fn stands(alloc: Global, view: &View, string: u32, signs: &str) -> bool {
    match string_line(alloc, view, string, 0) {
        Ok(elements) => are_looks(elements.as_slice(), signs),
        Err(_) => false,
    }
}

#[test]
fn a_line_with_a_string_in_a_string_and_a_prefix(rt: HostRuntime) -> Result<(), Fail> {
    let scenery = scenery(rt.alloc())?;
    assert!(rt; walks(rt.alloc(), &scenery.view(), 1, "xPzz|Ry."));
    assert!(rt; stands(rt.alloc(), &scenery.view(), 1, "PQ"));
    Ok(())
}
