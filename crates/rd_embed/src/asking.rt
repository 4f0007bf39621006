//! What the ops' calls need of their arguments: the name of a buffer, and the characters of a text.
ghost use Rattle.std.specs.Prelude.{◌≡◌, Some, IsTrue, IfOk, length};
ghost use Rattle.std.specs.List.{list_all};
ghost use Rattle.std.specs.Str.{chars};
ghost use Rattle.rd_script.specs.Forms.{is_buffer_name, is_name_character, is_name_length};
ghost use Rattle.rd_embed.specs.Arguments.{IsName, IsNewName, IsPlain, IsSpelt, IsText};
ghost use Rattle.rd_embed.specs.Asked.{name_of};

use crate::embedded::Embedded;
use crate::ending::Ending;
use rd_base::limits::{NAME_CHARACTERS, PLAIN_CHARACTERS};
use rd_base::{Ch, ListOf, characters};
use rd_objects::is_control;
use rd_script::BufferName;
use rd_state::Refused;
use std::alloc::Global;

impl Embedded {
    /// The name of the buffer with a number.
    pub(crate) fn name(&self, alloc: Global, buffer: u32) -> Result<BufferName, Ending>
        ensures { IsName result (name_of buffer self.now.session.state.buffers) }
    {
        self.session.sessions_are_known();
        match self.session.buffer_name(buffer) {
            Some(name) => copied(alloc, name),
            None => Err(Ending::Refused(Refused::NoBuffer)),
        }
    }
}

/// A name, copied.
fn copied(alloc: Global, name: &str) -> Result<BufferName, Ending>
    requires { IsTrue (is_buffer_name name.now) }
    ensures { IsName result (Some name.now) }
{
    match BufferName::from_str(alloc, name) {
        Ok(name) => Ok(name),
        Err(_none) => Err(Ending::NoMemory),
    }
}

/// The text that bytes in UTF-8 are.
fn text_in(bytes: &[u8]) -> Result<&str, Ending>
    ensures { IsText result bytes.now }
{
    match str::from_utf8(bytes) {
        Ok(text) => Ok(text),
        Err(_fault) => Err(Ending::BadText),
    }
}

/// The characters of a text.
fn characters_of(alloc: Global, text: &str) -> Result<ListOf<Ch>, Ending>
    ensures { IsSpelt result text.now }
{
    match characters(alloc, text) {
        Ok(text) => Ok(text),
        Err(_none) => Err(Ending::NoMemory),
    }
}

/// The characters that bytes in UTF-8 spell.
pub(crate) fn text_of(alloc: Global, bytes: &[u8]) -> Result<ListOf<Ch>, Ending>
    ensures { IsSpelt result bytes.now }
{
    characters_of(alloc, text_in(bytes)?)
}

/// The characters that bytes in UTF-8 spell, where a mode line or the echo area can show them.
pub(crate) fn plain_text_of(alloc: Global, bytes: &[u8]) -> Result<ListOf<Ch>, Ending>
    ensures { IsPlain result bytes.now }
{
    let text = text_of(alloc, bytes)?;
    if text.len() <= PLAIN_CHARACTERS as usize {
        Ok(text)
    } else {
        Err(Ending::BadArgument)
    }
}

/// The name that bytes in UTF-8 are, where a buffer may have it.
pub(crate) fn new_name(alloc: Global, bytes: &[u8]) -> Result<BufferName, Ending>
    ensures { IsNewName result bytes.now }
{
    let name = text_in(bytes)?;
    if is_buffer_name(name) {
        copied(alloc, name)
    } else {
        Err(Ending::BadArgument)
    }
}

/// Whether a text may be a buffer's name: 1 to 64 characters, none below 32, none from 127 to 159.
fn is_buffer_name(name: &str) -> bool
    ensures { result ≡ is_buffer_name name.now }
{
    is_name_length(character_count(name)) && has_name_characters(name)
}

/// How many characters a text has.
fn character_count(text: &str) -> usize
    ensures { result ≡ length (chars text.now) }
{
    text.chars().count()
}

/// Whether a buffer's name may have so many characters.
fn is_name_length(count: usize) -> bool
    ensures { result ≡ is_name_length count }
{
    1 <= count && count <= NAME_CHARACTERS as usize
}

/// Whether a buffer's name may have each character of a text.
fn has_name_characters(text: &str) -> bool
    ensures { result ≡ list_all is_name_character (chars text.now) }
{
    text.chars().all(|c| is_name_character(c))
}

/// Whether a buffer's name may have a character.
fn is_name_character(c: char) -> bool
    ensures { result ≡ is_name_character c }
{
    !is_control(c as u32)
}
