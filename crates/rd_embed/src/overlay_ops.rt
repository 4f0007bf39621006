//! The ops on properties and overlays, and those that make objects.
ghost use Rattle.std.specs.Prelude.{IsTrue};
ghost use Rattle.rd_script.specs.Forms.{is_text_kind};
ghost use Rattle.rd_embed.specs.Asked.{asked_face, asked_overlay, asked_overlay_drop, asked_overlay_move, asked_overlay_put, asked_put, asked_string, name_of, named, ranged};
ghost use Rattle.rd_embed.specs.Choices.{is_value};
ghost use Rattle.rd_embed.specs.Calls.{Asks, Does};

use crate::asking::text_of;
use crate::choices::{given, is_value, overlay_kind_of, text_kind_of};
use crate::embedded::Embedded;
use crate::ending::Ending;
use crate::faces::FaceLook;
use crate::ranges::is_priority;
use crate::status::Status;
use rd_base::ListOf;
use rd_overlays::Kind;
use rd_script::Op;
use std::alloc::Global;

impl Embedded {
    /// Gives the text of a range a value of a kind of property; without a value takes it away.
    pub fn put(
        &mut self,
        alloc: Global,
        buffer: u32,
        from: u32,
        to: u32,
        kind: u32,
        value: u32,
    ) -> Status
        ensures { Asks result (asked_put self.old.session.state.buffers buffer from to kind value) self.old self.new }
    {
        let value = given(value);
        match text_kind_of(kind) {
            Some(kind) => self.put_kind(alloc, buffer, from, to, kind, value),
            None => self.stop(Ending::BadArgument),
        }
    }

    /// Gives the text of a range a value of a kind, where the kind may have it.
    fn put_kind(
        &mut self,
        alloc: Global,
        buffer: u32,
        from: u32,
        to: u32,
        kind: Kind,
        value: Option<u64>,
    ) -> Status
        requires { IsTrue (is_text_kind kind) }
        ensures { Asks result (ranged (is_value kind value) (named (name_of buffer self.old.session.state.buffers) (λ name. Op.Put name from to kind value))) self.old self.new }
    {
        if !is_value(kind, value) {
            return self.stop(Ending::BadArgument);
        }
        match self.name(alloc, buffer) {
            Ok(buffer) => self.perform(Op::Put {
                buffer,
                from: from as u64,
                to: to as u64,
                kind,
                value,
            }),
            Err(ending) => self.stop(ending),
        }
    }

    /// Makes an overlay. Text put in at its start moves the start where `front` is set, and text put in at its end moves the end where
    /// `rear` is set.
    pub fn overlay(
        &mut self,
        alloc: Global,
        buffer: u32,
        from: u32,
        to: u32,
        priority: i32,
        front: bool,
        rear: bool,
    ) -> Status
        ensures { Asks result (asked_overlay self.old.session.state.buffers buffer from to priority front rear) self.old self.new }
    {
        if !is_priority(priority) {
            return self.stop(Ending::BadArgument);
        }
        match self.name(alloc, buffer) {
            Ok(buffer) => self.perform(Op::Overlay {
                buffer,
                from: from as u64,
                to: to as u64,
                priority,
                front,
                rear,
            }),
            Err(ending) => self.stop(ending),
        }
    }

    /// Gives an overlay another range.
    pub fn overlay_move(
        &mut self,
        alloc: Global,
        buffer: u32,
        overlay: u32,
        from: u32,
        to: u32,
    ) -> Status
        ensures { Asks result (asked_overlay_move self.old.session.state.buffers buffer overlay from to) self.old self.new }
    {
        match self.name(alloc, buffer) {
            Ok(buffer) => self.perform(Op::OverlayMove {
                buffer,
                overlay: overlay as u64,
                from: from as u64,
                to: to as u64,
            }),
            Err(ending) => self.stop(ending),
        }
    }

    /// Gives an overlay a value of a kind of property; without a value takes it away.
    pub fn overlay_put(
        &mut self,
        alloc: Global,
        buffer: u32,
        overlay: u32,
        kind: u32,
        value: u32,
    ) -> Status
        ensures { Asks result (asked_overlay_put self.old.session.state.buffers buffer overlay kind value) self.old self.new }
    {
        let value = given(value);
        match overlay_kind_of(kind) {
            Some(kind) => self.overlay_put_kind(alloc, buffer, overlay, kind, value),
            None => self.stop(Ending::BadArgument),
        }
    }

    /// Gives an overlay a value of a kind, where the kind may have it.
    fn overlay_put_kind(
        &mut self,
        alloc: Global,
        buffer: u32,
        overlay: u32,
        kind: Kind,
        value: Option<u64>,
    ) -> Status
        ensures { Asks result (ranged (is_value kind value) (named (name_of buffer self.old.session.state.buffers) (λ name. Op.OverlayPut name overlay kind value))) self.old self.new }
    {
        if !is_value(kind, value) {
            return self.stop(Ending::BadArgument);
        }
        match self.name(alloc, buffer) {
            Ok(buffer) => self.perform(Op::OverlayPut {
                buffer,
                overlay: overlay as u64,
                kind,
                value,
            }),
            Err(ending) => self.stop(ending),
        }
    }

    /// Takes an overlay away.
    pub fn overlay_drop(&mut self, alloc: Global, buffer: u32, overlay: u32) -> Status
        ensures { Asks result (asked_overlay_drop self.old.session.state.buffers buffer overlay) self.old self.new }
    {
        match self.name(alloc, buffer) {
            Ok(buffer) => self.perform(Op::OverlayDrop {
                buffer,
                overlay: overlay as u64,
            }),
            Err(ending) => self.stop(ending),
        }
    }

    /// Makes a face.
    pub fn add_face(&mut self, look: &FaceLook) -> Status
        ensures { Does result (asked_face look.now) self.old self.new }
    {
        match look.face() {
            Some(face) => self.perform(Op::AddFace { face }),
            None => self.stop(Ending::BadArgument),
        }
    }

    /// Makes a string without runs.
    pub fn add_string(&mut self, alloc: Global, text: &[u8]) -> Status
        ensures { Asks result (asked_string text.now) self.old self.new }
    {
        match text_of(alloc, text) {
            Ok(text) => self.perform(Op::AddString {
                text,
                runs: ListOf::new(alloc),
            }),
            Err(ending) => self.stop(ending),
        }
    }
}
