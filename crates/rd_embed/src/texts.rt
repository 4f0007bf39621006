//! What is told of buffers and their texts.
ghost use Rattle.std.specs.Prelude.{◌≡◌, length, option_map, Some};
ghost use Rattle.rd_text.specs.Texts.{between};
ghost use Rattle.rd_embed.specs.Asked.{name_of};
ghost use Rattle.rd_embed.specs.Fills.{GivesWhole};
ghost use Rattle.rd_embed.specs.Spelling.{IsRange};
ghost use Rattle.rd_embed.specs.Texts.{GivesText, name_texts, range_in, range_of, text_of};

use crate::embedded::Embedded;
use crate::fill::fill_whole;
use crate::lent::text_at;
use crate::spelling::{Characters, Name};
use rd_text::Buffer;

/// How far a text was given: the bytes written, and the position behind the last character that is whole in them.
#[repr(C)]
#[derive(Clone, Copy, Debug, PartialEq, Eq)]
pub struct TextGiven {
    pub bytes: usize,
    pub next: u32,
}

impl Embedded {
    /// How many buffers there are.
    pub fn buffers(&self) -> u32
        ensures { result ≡ length self.now.session.state.buffers }
    {
        self.session.sessions_are_known();
        let mut count = 0;
        'each_buffer: while let Some(_name) = self.session.buffer_name(count) {
            count += 1;
        }
        count
    }

    /// Puts the name of the buffer with a number into a buffer of the caller, as many of its characters as fit whole, and answers how many
    /// bytes; None exactly where no buffer has the number, and then nothing is put in.
    pub fn buffer_name(&self, buffer: u32, out: &mut [u8]) -> Option<usize>
        ensures { GivesWhole result (option_map name_texts (name_of buffer self.now.session.state.buffers)) out.old out.new }
    {
        match self.session.buffer_name(buffer) {
            Some(name) => Some(fill_whole(out, &Name { name }).bytes),
            None => None,
        }
    }

    /// How many characters the buffer with a number has; None exactly where no buffer has it.
    pub fn length(&self, buffer: u32) -> Option<u32>
        ensures { result ≡ option_map (λ t. length t.text) (text_of buffer self.now.session.state.buffers) }
    {
        let text = text_at(&self.session, buffer)?;
        Some(text.length())
    }

    /// Puts the characters from `from` to one before `to` into a buffer of the caller, as many as fit whole, in UTF-8 and a raw byte as
    /// itself; None exactly where no buffer has the number, or not 1 <= from <= to <= length + 1, and then nothing is put in.
    pub fn text(&self, buffer: u32, from: u32, to: u32, out: &mut [u8]) -> Option<TextGiven>
        ensures { GivesText result (range_in buffer from to self.now.session.state.buffers) from out.old out.new }
    {
        match text_at(&self.session, buffer) {
            Some(text) => give_range(text, from, to, out),
            None => None,
        }
    }
}

/// Puts the characters of a range of a text into a buffer, where it is one.
fn give_range(text: &Buffer, from: u32, to: u32, out: &mut [u8]) -> Option<TextGiven>
    ensures { GivesText result (range_of text.now from to) from out.old out.new }
{
    if from < 1 || to < from || text.length() + 1 < to {
        return None;
    }
    let filled = fill_whole(out, &Characters { text, from, to });
    Some(TextGiven {
        bytes: filled.bytes,
        next: from + filled.texts as u32,
    })
}
