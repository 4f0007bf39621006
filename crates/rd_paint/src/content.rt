//! `Content`, what is painted of the buffer that a window shows, beside its rows.
ghost use Rattle.std.specs.Prelude.{◌≡◌, option_map, slice_get};
ghost use Rattle.rd_paint.specs.Shown.{painted_of};

use rd_margins::Marks;
use rd_props::BufferState;
use rd_state::State;
use std::marker::Model;

/// What is painted of the buffer that a window shows: its name, its text and settings, and the margin strings of its overlays.
#[derive(Drop)]
pub(crate) struct Content<'a> {
    pub name: &'a str,
    pub buffer: &'a BufferState,
    pub marks: &'a Marks,
}

impl<'a> Model for Content<'a> {
    ghost use Rattle.std.specs.Prelude.{[]};
    ghost use Rattle.std.specs.Coded.{codes};
    ghost use Rattle.rd_state.specs.States.{BufferValue, mark_code};

    ghost Value = { BufferValue };

    ghost coded = { Prim.hlevel (codes, mark_code) };

    ghost view = { λ c. record {
      name = c.name.now;
      content = record {
        text = c.buffer.now.text;
        properties = [];
        overlays = c.buffer.now.overlays;
        settings = c.buffer.now.settings;
        marks = c.marks.now;
      };
    } };
}

/// What is painted of the buffer with a number, from 0 in order of making; None exactly where none was made.
pub(crate) fn content_of(state: &State, i: u32) -> Option<Content<'_>>
    ensures { result ≡ option_map painted_of (slice_get state.now.buffers i) }
{
    let (name, buffer, marks) = state.named_buffer(i)?;
    Some(Content {
        name,
        buffer,
        marks,
    })
}
