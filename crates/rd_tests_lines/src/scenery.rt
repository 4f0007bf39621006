//! Buffers that are made by calls, and what a look at them needs.
ghost use Rattle.std.specs.Bool.{OnTrue};
ghost use Rattle.rd_text.specs.Texts.{IsAccessible};

use crate::texts::characters;
use rd_base::Pos;
use rd_objects::Objects;
use rd_props::{BufferState, View};
use rd_ucd::{Brackets, Classes, Mirrors};
use std::alloc::Global;
use std::test::Fail;

/// A buffer and what a look at it needs.
#[derive(Drop)]
pub struct Scenery {
    pub state: BufferState,
    pub objects: Objects,
    pub classes: Classes,
    pub mirrors: Mirrors,
    pub brackets: Brackets,
}

impl Scenery {
    /// An empty buffer, no objects and no data.
    pub fn new(alloc: Global) -> Result<Scenery, Fail> {
        Scenery::with_classes(alloc, b"")
    }

    /// An empty buffer and no objects, with the classes of a file and no other data.
    pub fn with_classes(alloc: Global, file: &[u8]) -> Result<Scenery, Fail> {
        let (state, objects) = nothing(alloc)?;
        let (classes, mirrors) = data(alloc, file)?;
        Ok(Scenery {
            state,
            objects,
            classes,
            mirrors,
            brackets: Brackets::none(alloc),
        })
    }

    /// A look at the buffer.
    pub fn view(&self) -> View<'_> {
        View {
            state: &self.state,
            objects: &self.objects,
            classes: &self.classes,
            mirrors: &self.mirrors,
            brackets: &self.brackets,
        }
    }
}

/// Whether a position is in the accessible text of a look, or at its end.
pub fn is_accessible(view: &View, pos: Pos) -> bool
    ensures { OnTrue result (IsAccessible view.now.state.now.text pos) }
{
    let state = view.state;
    state.text.begin() <= pos && pos <= state.text.end()
}

/// An empty buffer, and no objects.
fn nothing(alloc: Global) -> Result<(BufferState, Objects), Fail> {
    let state = BufferState::new(alloc)?;
    Ok((state, Objects::new(alloc)?))
}

/// The classes of a file, and no mirror.
fn data(alloc: Global, file: &[u8]) -> Result<(Classes, Mirrors), Fail> {
    let classes = Classes::read(alloc, file)?;
    Ok((classes, Mirrors::read(alloc, b"")?))
}

/// Puts a text into an empty buffer.
pub fn put_text(state: &mut BufferState, alloc: Global, text: &str) -> Result<(), Fail> {
    let list = characters(alloc, text)?;
    Ok(state.text.insert(1, list.as_slice())?)
}
