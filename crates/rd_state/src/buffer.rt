//! The edits of a buffer's text, as methods of `Content`: the values of its text properties and its overlays change with it.
ghost use Rattle.std.specs.Prelude.{◌≡◌, ◌≢◌, ◌≤◌, ℕ, Some, Ok, OnOk, OnErr, length};
ghost use Rattle.rd_text.specs.Texts.{IsText};
ghost use Rattle.rd_text.specs.Answers.{Inserts};
ghost use Rattle.rd_props.specs.Buffers.{values_of};
ghost use Rattle.rd_props.specs.Edits.{opened};
ghost use Rattle.rd_state.specs.Edits.{marked_modified, insertion, deletion, narrowing, widening};
ghost use Rattle.rd_state.specs.Answers.{Answers};

use crate::content::Content;
use crate::refused::Refused;
use crate::values::{close, open};
use rd_base::{Ch, Pos, Settings};
use rd_spans::Spans;
use rd_text::{Buffer, TextFault};

impl Content {
    /// Puts a text in before a position. It has no properties, and what stands behind it moves.
    pub(crate) fn insert(&mut self, pos: Pos, new: &[Ch]) -> Result<(), Refused>
        ensures { Answers result (insertion pos new.now self.old) self.old self.new }
    {
        self.state.text.buffers_are_valid();
        put_in(&mut self.state.text, &mut self.state.spans, pos, new)?;
        self.state.overlays.inserted(pos, new.len() as u32);
        mark_modified(&mut self.state.settings, !new.is_empty());
        Ok(())
    }

    /// Takes a range away.
    pub(crate) fn delete(&mut self, from: Pos, to: Pos) -> Result<(), Refused>
        ensures changes { Answers result (deletion from to self.old) self.old self.new }
        ensures free { result ≢ Err Refused.Memory }
    {
        self.state.text.buffers_are_valid();
        self.state.text.delete(from, to)?;
        close(&mut self.state.spans, from, to);
        self.state.overlays.deleted(from, to);
        mark_modified(&mut self.state.settings, from < to);
        Ok(())
    }

    /// Makes a range the accessible one.
    pub(crate) fn narrow(&mut self, from: Pos, to: Pos) -> Result<(), Refused>
        ensures changes { Answers result (narrowing from to self.old) self.old self.new }
        ensures free { result ≢ Err Refused.Memory }
    {
        self.state.text.narrow(from, to)?;
        Ok(())
    }

    /// Makes the whole text accessible.
    pub(crate) fn widen(&mut self)
        ensures { widening self.old ≡ Ok self.new }
    {
        self.state.text.widen();
    }
}

/// Puts characters in before a position of a text, and opens their positions in the values of its properties. Where there is no
/// memory for these, the characters are taken out again.
fn put_in(text: &mut Buffer, spans: &mut [Spans], pos: Pos, new: &[Ch]) -> Result<(), TextFault>
    requires right { IsText text.old }
    requires within { (kind p value : ℕ) → values_of spans.old kind p ≡ Some value → p ≤ length text.old.text }
    ensures text { Inserts result text.old pos new.now text.new }
    ensures values { OnOk result ((kind p : ℕ) → values_of spans.new kind p ≡ opened (values_of spans.old) pos (length new.now) kind p) }
    ensures no_values { OnErr result ((kind p : ℕ) → values_of spans.new kind p ≡ values_of spans.old kind p) }
{
    text.insert(pos, new)?;
    let count = new.len() as u32;
    if open(spans, pos, count).is_err() {
        text.delete(pos, pos + count)?;
        return Err(TextFault::Memory);
    }
    Ok(())
}

/// Sets `modified` where an edit changed anything.
fn mark_modified(settings: &mut Settings, changed: bool)
    ensures { settings.new ≡ marked_modified changed settings.old }
{
    settings.modified = changed || settings.modified;
}
