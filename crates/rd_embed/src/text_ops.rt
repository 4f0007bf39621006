//! The ops on buffers and their texts.
ghost use Rattle.std.specs.Prelude.{IsTrue};
ghost use Rattle.rd_script.specs.Forms.{is_text};
ghost use Rattle.rd_embed.specs.Asked.{asked_buffer, asked_delete, asked_insert, asked_narrow, asked_setting, asked_type, asked_widen, name_of, named};
ghost use Rattle.rd_embed.specs.Calls.{Asks};

use crate::asking::{new_name, text_of};
use crate::choices::setting_of;
use crate::embedded::Embedded;
use crate::ending::Ending;
use crate::status::Status;
use rd_base::{Ch, ListOf};
use rd_script::Op;
use std::alloc::Global;

impl Embedded {
    /// Makes an empty buffer of a name in UTF-8.
    pub fn buffer(&mut self, alloc: Global, name: &[u8]) -> Status
        ensures { Asks result (asked_buffer name.now) self.old self.new }
    {
        match new_name(alloc, name) {
            Ok(name) => self.perform(Op::Buffer { name }),
            Err(ending) => self.stop(ending),
        }
    }

    /// Puts a text in UTF-8 in before a position.
    pub fn insert(&mut self, alloc: Global, buffer: u32, position: u32, text: &[u8]) -> Status
        ensures { Asks result (asked_insert self.old.session.state.buffers buffer position text.now) self.old self.new }
    {
        match text_of(alloc, text) {
            Ok(text) => self.insert_characters(alloc, buffer, position, text),
            Err(ending) => self.stop(ending),
        }
    }

    /// Puts characters in before a position.
    fn insert_characters(
        &mut self,
        alloc: Global,
        buffer: u32,
        position: u32,
        text: ListOf<Ch>,
    ) -> Status
        requires { IsTrue (is_text text) }
        ensures { Asks result (named (name_of buffer self.old.session.state.buffers) (λ name. Op.Insert name position text)) self.old self.new }
    {
        match self.name(alloc, buffer) {
            Ok(buffer) => self.perform(Op::Insert {
                buffer,
                pos: position as u64,
                text,
            }),
            Err(ending) => self.stop(ending),
        }
    }

    /// Puts a text in UTF-8 in at the selected window's point, which moves behind it.
    pub fn type_text(&mut self, alloc: Global, text: &[u8]) -> Status
        ensures { Asks result (asked_type text.now) self.old self.new }
    {
        match text_of(alloc, text) {
            Ok(text) => self.perform(Op::TypeText { text }),
            Err(ending) => self.stop(ending),
        }
    }

    /// Takes a range away.
    pub fn delete(&mut self, alloc: Global, buffer: u32, from: u32, to: u32) -> Status
        ensures { Asks result (asked_delete self.old.session.state.buffers buffer from to) self.old self.new }
    {
        match self.name(alloc, buffer) {
            Ok(buffer) => self.perform(Op::Delete {
                buffer,
                from: from as u64,
                to: to as u64,
            }),
            Err(ending) => self.stop(ending),
        }
    }

    /// Makes a range the accessible part.
    pub fn narrow(&mut self, alloc: Global, buffer: u32, from: u32, to: u32) -> Status
        ensures { Asks result (asked_narrow self.old.session.state.buffers buffer from to) self.old self.new }
    {
        match self.name(alloc, buffer) {
            Ok(buffer) => self.perform(Op::Narrow {
                buffer,
                from: from as u64,
                to: to as u64,
            }),
            Err(ending) => self.stop(ending),
        }
    }

    /// Makes the whole text accessible.
    pub fn widen(&mut self, alloc: Global, buffer: u32) -> Status
        ensures { Asks result (asked_widen self.old.session.state.buffers buffer) self.old self.new }
    {
        match self.name(alloc, buffer) {
            Ok(buffer) => self.perform(Op::Widen { buffer }),
            Err(ending) => self.stop(ending),
        }
    }

    /// Sets a setting of a buffer; both the setting and its value are numbers.
    pub fn setting(&mut self, alloc: Global, buffer: u32, setting: u32, value: u32) -> Status
        ensures { Asks result (asked_setting self.old.session.state.buffers buffer setting value) self.old self.new }
    {
        let Some(setting) = setting_of(setting, value) else {
            return self.stop(Ending::BadArgument);
        };
        match self.name(alloc, buffer) {
            Ok(buffer) => self.perform(Op::Setting { buffer, setting }),
            Err(ending) => self.stop(ending),
        }
    }
}
