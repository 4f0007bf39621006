//! `Content`, a buffer with the margin strings of its overlays, whose properties and overlays always lie in its text. The edits of its
//! text and the ops on its overlays are methods of it too, in `buffer.rt` and `overlay.rt`.
ghost use Rattle.std.specs.Prelude.{◌≡◌, ◌≢◌, ◌<◌, IfOk, IsTrue, OnOk};
ghost use Rattle.rd_objects.specs.Sound.{AreObjects};
ghost use Rattle.rd_props.specs.Buffers.{meaning};
ghost use Rattle.rd_script.specs.Forms.{IsSettingInForm, IsPropertyValue, is_text_kind};
ghost use Rattle.rd_state.specs.Answers.{Answers};
ghost use Rattle.rd_state.specs.Edits.{property_putting, setting_putting};
ghost use Rattle.rd_state.specs.States.{new_content, seen};

use crate::made::{made_value, names_made};
use crate::property::{is_accessible_range, put_values};
use crate::refused::Refused;
use crate::setting::put;
use rd_base::Memory;
use rd_margins::Marks;
use rd_objects::Objects;
use rd_overlays::Kind;
use rd_props::BufferState;
use rd_script::Setting;
use std::alloc::Global;
use std::marker::Model;

/// A buffer whose properties and overlays lie in its text, and the margin strings of its overlays.
#[derive(Drop)]
pub(crate) struct Content {
    pub(crate) state: BufferState,
    pub(crate) marks: Marks,
}

impl Model for Content {
    ghost use Rattle.rd_props.specs.Buffers.{meaning};
    ghost use Rattle.std.specs.Coded.{codes};
    ghost use Rattle.rd_state.specs.States.{ContentValue, mark_code};
    ghost use Rattle.rd_state.specs.Held.{content_of};
    ghost use Rattle.rd_state.specs.Valid.{IsWithin};

    ghost Value = { ContentValue };

    ghost coded = { Prim.hlevel (codes, mark_code) };

    ghost view = { λ c. content_of c.state c.marks };

    ghost invariant = { λ c. IsWithin (meaning c.state) };
}

impl Content {
    /// An empty buffer.
    pub(crate) fn new(alloc: Global) -> Result<Content, Memory>
        ensures { IfOk result (λ content. content ≡ new_content) }
    {
        Ok(Content {
            state: BufferState::new(alloc)?,
            marks: Marks::new(alloc)?,
        })
    }

    /// The buffer.
    pub(crate) fn state(&self) -> &BufferState
        ensures { meaning result.now ≡ seen self.now }
    {
        &self.state
    }

    /// The margin strings of its overlays.
    pub(crate) fn marks(&self) -> &Marks
        ensures { result.now ≡ self.now.marks }
    {
        &self.marks
    }

    /// Gives a text property another value on a range.
    pub(crate) fn put(
        &mut self,
        objects: &Objects,
        from: u64,
        to: u64,
        kind: Kind,
        value: Option<u64>,
    ) -> Result<(), Refused>
        requires objects { AreObjects objects.now }
        requires kind { IsTrue (is_text_kind kind) }
        requires form { IsPropertyValue kind value }
        ensures changes { Answers result (property_putting objects.now from to kind value self.old) self.old self.new }
        ensures small { OnOk result ((from < 4294967296) × (to < 4294967296)) }
    {
        if !is_accessible_range(&self.state.text, from, to) {
            return Err(Refused::OutOfRange);
        }
        let value = made_value(objects, kind, value)?;
        put_values(&mut self.state.spans, from as u32, to as u32, kind, value)?;
        Ok(())
    }

    /// Sets a setting.
    pub(crate) fn set(&mut self, objects: &Objects, setting: Setting) -> Result<(), Refused>
        requires objects { AreObjects objects.now }
        requires form { IsSettingInForm setting }
        ensures changes { Answers result (setting_putting objects.now setting self.old) self.old self.new }
        ensures free { result ≢ Err Refused.Memory }
    {
        if !names_made(objects, &setting) {
            return Err(Refused::NoObject);
        }
        put(&mut self.state.settings, setting);
        Ok(())
    }
}
