//! The buffers by name, in order of making.
ghost use Rattle.std.specs.Prelude.{◌≡◌, ◌<◌, ◌++◌, ◌∷◌, [], Some, OnOk, OnErr, length, slice_get};
ghost use Rattle.rd_state.specs.States.{BufferValue, buffers_of, new_buffer, number_of};
ghost use Rattle.rd_state.specs.Answers.{Finds};
ghost use Rattle.rd_state.specs.declared.refused.Refused.TheVariants.{NoBuffer};

use crate::content::Content;
use crate::refused::Refused;
use indexmap::IndexMap;
use rd_base::Memory;
use rd_script::BufferName;
use rd_text::Buffer;

/// The buffers by name, in order of making.
pub(crate) type Buffers = IndexMap<String, Content>;

/// The number of the buffer with a name, which is refused where no buffer has it.
pub(crate) fn find(buffers: &Buffers, name: &str) -> Result<usize, Refused>
    ensures { Finds result (λ i. (i ≡ number_of name.now (buffers_of buffers.now.entries)) × (i < length (buffers_of buffers.now.entries))) (number_of name.now (buffers_of buffers.now.entries) ≡ length (buffers_of buffers.now.entries)) NoBuffer }
{
    buffers.get_index_of(name).ok_or(Refused::NoBuffer)
}

/// The text of the buffer with a number.
pub(crate) fn text_at(buffers: &Buffers, i: usize) -> &Buffer
    requires { i < length (buffers_of buffers.now.entries) }
    ensures { (b : BufferValue) × (slice_get (buffers_of buffers.now.entries) i ≡ Some b) × (result.now ≡ b.content.text) }
{
    &buffers[i].state().text
}

/// Adds an empty buffer under a name that no buffer has.
pub(crate) fn add(buffers: &mut Buffers, name: BufferName) -> Result<(), Memory>
    requires { number_of name (buffers_of buffers.old.entries) ≡ length (buffers_of buffers.old.entries) }
    ensures ok { OnOk result (buffers_of buffers.new.entries ≡ buffers_of buffers.old.entries ++ new_buffer name ∷ []) }
    ensures err { OnErr result (buffers_of buffers.new.entries ≡ buffers_of buffers.old.entries) }
{
    let buffer = Content::new(*buffers.allocator())?;
    buffers.insert(name.into_string(), buffer)?;
    Ok(())
}
