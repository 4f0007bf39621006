//! A buffer with its properties, and what a look at it needs.
ghost use Rattle.std.specs.Prelude.{◌≡◌, IfOk};
ghost use Rattle.rd_props.specs.Buffers.{meaning, new_buffer};

use rd_base::{Memory, Settings};
use rd_objects::Objects;
use rd_overlays::Overlays;
use rd_spans::Spans;
use rd_text::Buffer;
use rd_ucd::{Brackets, Classes, Mirrors};
use std::alloc::Global;

/// A buffer: its text, the text properties in the order face, display, invisible, line_prefix, wrap_prefix, its overlays, and
/// its settings.
#[derive(Drop)]
pub struct BufferState {
    pub text: Buffer,
    pub spans: [Spans; 5],
    pub overlays: Overlays,
    pub settings: Settings,
}

impl BufferState {
    /// An empty buffer without properties and overlays, whose settings are those of a new buffer.
    pub fn new(alloc: Global) -> Result<BufferState, Memory>
        ensures { IfOk result (λ state. meaning state ≡ new_buffer) }
    {
        Ok(BufferState {
            text: Buffer::new(alloc)?,
            spans: [
                Spans::new(alloc)?,
                Spans::new(alloc)?,
                Spans::new(alloc)?,
                Spans::new(alloc)?,
                Spans::new(alloc)?,
            ],
            overlays: Overlays::new(alloc)?,
            settings: Settings::new(),
        })
    }
}

/// What a look at a buffer needs: the buffer, the objects that its properties name, and the Unicode data, of which the brackets
/// are none where no file gives any. A number that names no object stands for the plain face, a display spec of no columns, the
/// empty string or no table.
#[derive(Clone, Copy)]
pub struct View<'a> {
    pub state: &'a BufferState,
    pub objects: &'a Objects,
    pub classes: &'a Classes,
    pub mirrors: &'a Mirrors,
    pub brackets: &'a Brackets,
}

impl<'a> View<'a> {
    /// The settings of the buffer.
    pub fn settings(&self) -> &'a Settings
        ensures { result.now ≡ self.now.state.now.settings }
    {
        let state = self.state;
        &state.settings
    }
}
