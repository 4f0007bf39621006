//! A test of the frames of a walker, which are private: how many stand, one inside the other. The elements themselves are tested above this
//! crate. What the test looks at is made in small functions, since `?` beside living values makes a proof long.
ghost use Rattle.std.specs.Bool.{OnTrue};
ghost use Rattle.rd_text.specs.Texts.{IsAccessible};

use crate::walker::Walker;
use rd_base::{Ch, Elements, Pos};
use rd_objects::{ObjectFault, Objects, Run, RunKind, Spec};
use rd_overlays::{Kind, OverlayFault};
use rd_props::{BufferState, View};
use rd_ucd::{Brackets, Classes, Mirrors};
use std::alloc::Global;
use std::test::Fail;

#[test]
fn a_string_within_a_string_is_the_third_frame(rt: HostRuntime) -> Result<(), Fail> {
    let scenery = Scenery::new(rt.alloc())?;
    assert!(rt; stand(rt.alloc(), &scenery.view(), 1, &FRAMES));
    Ok(())
}

/// How many frames stand as each element of the line is given: of x; of P, z, z, the end of a row and R, which are the overlay's string;
/// of y; and of the line's end.
const FRAMES: [usize; 8] = [1, 2, 3, 3, 2, 2, 1, 1];

/// A buffer and what a look at it needs.
#[derive(Drop)]
struct Scenery {
    state: BufferState,
    objects: Objects,
    classes: Classes,
    mirrors: Mirrors,
    brackets: Brackets,
}

impl Scenery {
    /// The buffer and the objects, with no data.
    fn new(alloc: Global) -> Result<Scenery, Fail> {
        let (state, objects) = filled(alloc)?;
        let (classes, mirrors) = no_data(alloc)?;
        Ok(Scenery {
            state,
            objects,
            classes,
            mirrors,
            brackets: Brackets::none(alloc),
        })
    }

    /// A look at the buffer.
    fn view(&self) -> View<'_> {
        View {
            state: &self.state,
            objects: &self.objects,
            classes: &self.classes,
            mirrors: &self.mirrors,
            brackets: &self.brackets,
        }
    }
}

/// The buffer and the objects.
fn filled(alloc: Global) -> Result<(BufferState, Objects), Fail> {
    let (mut state, mut objects) = nothing(alloc)?;
    add_strings(&mut objects)?;
    fill(&mut state)?;
    Ok((state, objects))
}

/// An empty buffer, and no objects.
fn nothing(alloc: Global) -> Result<(BufferState, Objects), Fail> {
    let state = BufferState::new(alloc)?;
    Ok((state, Objects::new(alloc)?))
}

/// No classes and no mirrors.
fn no_data(alloc: Global) -> Result<(Classes, Mirrors), Fail> {
    let classes = Classes::read(alloc, b"")?;
    Ok((classes, Mirrors::read(alloc, b"")?))
}

/// Adds the string zz, and the string PQ, newline, R, in which that one stands for Q.
fn add_strings(objects: &mut Objects) -> Result<(), ObjectFault> {
    let display_string = objects.add_string(&[Ch::scalar('z'), Ch::scalar('z')], &[])?;
    let spec = objects.add_spec(Spec::Text(display_string))?;
    let run = Run {
        from: 1,
        to: 2,
        kind: RunKind::Display,
        value: spec,
    };
    let text = [
        Ch::scalar('P'),
        Ch::scalar('Q'),
        Ch::scalar('\n'),
        Ch::scalar('R'),
    ];
    objects.add_string(&text, &[run])?;
    Ok(())
}

/// Puts in the text xy, with the second of those strings before its second character.
fn fill(state: &mut BufferState) -> Result<(), Fail> {
    state.text.insert(1, &[Ch::scalar('x'), Ch::scalar('y')])?;
    Ok(put_string(state)?)
}

/// Puts the second of those strings before the second character.
fn put_string(state: &mut BufferState) -> Result<(), OverlayFault> {
    let number = state.overlays.make(2, 3, 0, false, false)?;
    state.overlays.set(number, Kind::Before, Some(1))
}

/// Whether so many frames stand as each element of the line from a position on is given, and then no element is left.
fn stand(alloc: Global, view: &View, start: Pos, wanted: &[usize]) -> bool {
    if !is_accessible(view, start) {
        return false;
    }
    match Walker::start(alloc, *view, start, 0) {
        Ok(mut walker) => stand_in(alloc, &mut walker, wanted),
        Err(_) => false,
    }
}

/// Whether so many frames stand as each element of the rest of a line is given, and then no element is left.
fn stand_in(alloc: Global, walker: &mut Walker, wanted: &[usize]) -> bool {
    for count in wanted {
        match walker.next(alloc) {
            Ok(Some(_)) if walker.frames.len() == *count => {}
            _ => return false,
        }
    }
    matches!(walker.next(alloc), Ok(None))
}

/// Whether a position is in the accessible text of a look, or at its end.
fn is_accessible(view: &View, pos: Pos) -> bool
    ensures { OnTrue result (IsAccessible view.now.state.now.text pos) }
{
    let state = view.state;
    state.text.begin() <= pos && pos <= state.text.end()
}
